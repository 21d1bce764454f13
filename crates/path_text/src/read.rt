// From the words of a path to its kind and the numbers of its names, in one pass over the words.
ghost use Rattle.std.specs.Prelude.{◌≡◌, ◌+◌, ◌^◌, ◌<◌, MatchResult};
ghost use Rattle.hir_def.specs.Faults.{Answers, IfRefused, OnMemory};
ghost use Rattle.path_text.specs.Gathered.{nothing, with_name, with_segment, gathered_of};
ghost use Rattle.path_text.specs.Laws.{IsRead, Denies, IsReadable};
ghost use Rattle.path_text.specs.Left.{piece_of};
ghost use Rattle.path_text.specs.Paths.{allowed, counts_of, kind_by, read_of};

use crate::first_numbers::FirstNumbers;
use crate::language::Before;
use crate::mod_path::{MOST_NAMES, MOST_SUPERS, ModPath, PathKind};
use crate::name_list::NameList;
use crate::segment::{Segment, Segments, WordKind, word_kind};
use hir_def::fault::{Failure, TextFault};
use std::alloc::Global;

/// What the words so far tell of a path.
#[derive(Drop)]
pub(crate) struct Gathered {
    /// The first word.
    start: Option<WordKind>,
    /// How many words are `super`.
    level: usize,
    /// How many words are names.
    names: usize,
    /// The place of the first name that the list does not have.
    unlisted: Option<usize>,
    /// The numbers of the names that the list has.
    numbers: FirstNumbers,
}

impl Gathered {
    fn new() -> Gathered
        ensures { result ≡ nothing }
    {
        Gathered {
            start: None,
            level: 0,
            names: 0,
            unlisted: None,
            numbers: FirstNumbers::new(),
        }
    }

    fn add(&mut self, list: &NameList, segment: &Segment)
        requires names { self.old.names + 1 < 2 ^ 64 }
        requires level { self.old.level + 1 < 2 ^ 64 }
        ensures { self.new ≡ with_segment list.now self.old (piece_of segment.now) }
    {
        let word = word_kind(segment.text);
        self.start = self.start.or(Some(word));
        match word {
            WordKind::Super => self.level += 1,
            WordKind::Name => self.add_name(list, segment),
            _ => {}
        }
    }

    fn add_name(&mut self, list: &NameList, name: &Segment)
        requires { self.old.names + 1 < 2 ^ 64 }
        ensures { self.new ≡ with_name list.now self.old (piece_of name.now) }
    {
        self.names += 1;
        match list.number(name.text) {
            Some(number) => self.numbers.push(number),
            None => self.unlisted = self.unlisted.or(Some(name.place)),
        }
    }

    fn kind(&self) -> PathKind
        requires { self.now.level < 2 ^ 32 }
        ensures { result ≡ kind_by self.now.start self.now.level }
    {
        match self.start {
            Some(WordKind::Empty) => PathKind::Abs,
            Some(WordKind::Crate) => PathKind::Crate,
            Some(WordKind::Own | WordKind::Super) => PathKind::Super(self.level as u32),
            _ => PathKind::Plain,
        }
    }

    // The path's kind and the numbers of its names. The counts come first, and then the names.
    fn read(self) -> Result<(PathKind, FirstNumbers), TextFault>
        ensures { result ≡ allowed (counts_of self.names self.level self.unlisted) (kind_by self.start self.level, self.numbers) }
    {
        if self.names > MOST_NAMES {
            return Err(TextFault::TooManyNames);
        }
        if self.level > MOST_SUPERS as usize {
            return Err(TextFault::TooManySupers);
        }
        match self.unlisted {
            Some(place) => Err(TextFault::UnknownName(place)),
            None => Ok((self.kind(), self.numbers)),
        }
    }
}

// What the words of a path tell, or the place at which the text stops being a path.
fn gather(list: &NameList, text: &[u8]) -> Result<Gathered, TextFault>
    ensures { result ≡ gathered_of list.now text.now }
{
    let mut before = Before::Nothing;
    let mut gathered = Gathered::new();
    for segment in Segments::new(text) {
        if let Some(place) = before.halt(&segment) {
            return Err(TextFault::BadText(place));
        }
        before = Before::after(word_kind(segment.text));
        gathered.add(list, &segment);
    }
    Ok(gathered)
}

fn read(list: &NameList, text: &[u8]) -> Result<(PathKind, FirstNumbers), TextFault>
    ensures { result ≡ read_of list.now text.now }
{
    gather(list, text)?.read()
}

/// The path that a text stands for, its names by their numbers in the list. Memory can be wanting only for the text of
/// such a path.
pub fn read_path(alloc: Global, list: &NameList, text: &[u8]) -> Result<ModPath, Failure<TextFault>>
    ensures value { Answers (λ p. (p.kind, p.names.items)) (read_of list.now text.now) result }
    ensures exact { MatchResult result
        (λ p. IsRead list.now text.now p.kind p.names.items) (IfRefused (Denies list.now text.now)) }
    ensures memory { OnMemory result (IsReadable list.now text.now) }
{
    let (kind, numbers) = read(list, text)?;
    Ok(ModPath {
        kind,
        names: numbers.as_slice().to_vec(alloc)?,
    })
}
