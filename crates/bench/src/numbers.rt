// The numbers of an input, one after the other.
use std::alloc::{AllocError, Global};

/// The numbers that are left.
#[derive(Clone, Copy)]
pub(crate) struct Numbers<'a>(pub &'a [u32]);

/// All numbers of a text, with white space between them, up to the first word that is none.
pub(crate) fn all_numbers(alloc: Global, text: &str) -> Result<Vec<u32>, AllocError> {
    let mut all = Vec::new(alloc);
    for word in text.split_ascii_whitespace() {
        match word.parse::<u32>() {
            Ok(number) => all.push(number)?,
            Err(_) => return Ok(all),
        }
    }
    Ok(all)
}

impl Numbers<'_> {
    /// The next number.
    pub(crate) fn next(&mut self) -> Option<u32> {
        let (first, rest) = self.0.split_first()?;
        self.0 = rest;
        Some(*first)
    }

    /// A number that is written as one more, or 0 for none.
    pub(crate) fn optional(&mut self) -> Option<Option<u32>> {
        Some(self.next()?.checked_sub(1))
    }
}

/// How many follow, and then each; none where memory or a number is wanting.
pub(crate) fn list<T: Drop, F: FnMut(&mut Numbers) -> Option<T>>(
    alloc: Global,
    numbers: &mut Numbers,
    mut read: F,
) -> Option<Vec<T>>
    requires { F.IsAlwaysCallable read }
{
    let mut all = Vec::new(alloc);
    for _ in 0..numbers.next()? {
        all.push(read(numbers)?).ok()?;
    }
    Some(all)
}
