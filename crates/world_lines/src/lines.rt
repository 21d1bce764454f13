// The lines of an input that say something, one after the other.
use std::alloc::Global;
use std::io;
use std::io::BufRead;

/// A line, and its first word and what follows that word's blank. Bytes that are no text have no words.
#[derive(Clone, Copy)]
pub(crate) struct Line<'a> {
    /// Lines count from 1.
    pub number: usize,
    pub text: &'a str,
    pub verb: &'a str,
    pub rest: &'a str,
}

/// An input, and the line of it that was read last.
#[derive(Drop)]
pub(crate) struct Lines<R> {
    input: R,
    text: Vec<u8>,
    number: usize,
}

// Empty lines, and lines that begin with `#`, say nothing.
fn is_said(text: &[u8]) -> bool {
    text.first().is_some_and(|first| *first != b'#')
}

impl<R: BufRead + Drop> Lines<R> {
    pub(crate) fn new(alloc: Global, input: R) -> Lines<R> {
        Lines {
            input,
            text: Vec::new(alloc),
            number: 0,
        }
    }

    /// Goes on to the next line that says something, and answers whether there is one.
    pub(crate) fn advance(&mut self) -> io::Result<bool> {
        for _ in 0..u64::MAX {
            self.text.clear();
            if self.input.read_until(b'\n', &mut self.text)? == 0 {
                return Ok(false);
            }
            self.number = self.number.saturating_add(1);
            if self.text.last().copied() == Some(b'\n') {
                let _ = self.text.pop();
            }
            if is_said(self.text.as_slice()) {
                return Ok(true);
            }
        }
        Ok(false)
    }

    /// The line that was read last.
    pub(crate) fn line(&self) -> Line {
        let text = std::str::from_utf8(self.text.as_slice()).unwrap_or("");
        let (verb, rest) = text.split_once(' ').unwrap_or((text, ""));
        Line {
            number: self.number,
            text,
            verb,
            rest,
        }
    }
}
