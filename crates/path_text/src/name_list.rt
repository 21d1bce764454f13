// Name lists: a name's number is its first line, counted from 0.
ghost use Rattle.std.specs.Prelude.{◌≡◌, ◌<◌, ◌++◌, ◌∷◌, [], IfOk, IfErr, OnOk, OnErr, MatchOption, length, option_map};
ghost use Rattle.std.specs.List.{slice_get};
ghost use Rattle.hir_def.specs.Faults.{Answers, IfRefused, OnMemory};
ghost use Rattle.path_text.specs.Lists.{lines_of, OneLine, Split, good_line, bad_line, made_of, Fits, Misfit, Never, FirstAt, first, as_name, IsLineAt, Grows, builtin_line, builtin_lines};
ghost use Rattle.path_text.specs.Numbers.{Numbers};

use hir_def::Name;
use hir_def::builtin_type::BuiltinType;
use hir_def::fault::{Failure, TextFault};
use std::alloc::{AllocError, Global};
use std::collections::BTreeMap;
use std::marker::Model;

const BUILTIN_NAMES: usize = 19;

/// The names of an index: one line for each, the built-in names first. Contracts see the list of its lines.
#[derive(Drop)]
pub struct NameList<'a> {
    lines: Vec<&'a [u8]>,
    // Each line's number; of equal lines, that of the first.
    numbers: BTreeMap<&'a [u8], Name>,
}

impl<'a> Model for NameList<'a> {
    ghost use Rattle.std.specs.Prelude.{ℕ, List, map};
    ghost use Rattle.path_text.specs.Numbers.{contents, IsNumbered};

    ghost Value = { List (List ℕ) };

    ghost view = { λ l. contents l.lines.items };

    ghost invariant = { λ l. IsNumbered (contents l.lines.items) l.numbers };
}

// The first line and what follows its line feed, if a line feed ends it.
fn split_line(text: &[u8]) -> Option<(&[u8], &[u8])>
    ensures { MatchOption result (OneLine text.now) (λ p. Split text.now p.0.now p.1.now) }
{
    for (i, byte) in text.iter().enumerate() {
        if *byte == b'\n' {
            return Some((&text[..i], &text[i + 1..]));
        }
    }
    None
}

fn built_in_line(number: usize) -> &'static [u8]
    requires { number < 19 }
    ensures { result.now ≡ builtin_line number }
{
    match BuiltinType::text(Name(number as u32)) {
        Some(name) => name.as_bytes(),
        None => b"",
    }
}

// A finished line is good unless it is one too many, or stands for a built-in name and is not that name.
fn is_good_line(line: &[u8], number: usize, names: u32) -> bool
    ensures { result ≡ good_line names number line.now }
{
    number < names as usize && (number >= BUILTIN_NAMES || line == built_in_line(number))
}

// The first line at fault; a line that is unfinished or missing is the one after the last finished line.
fn first_bad_line(bytes: &[u8], names: u32) -> Option<usize>
    ensures { result ≡ bad_line bytes.now names }
{
    let mut rest = bytes;
    let mut number = 0;
    while let Some((line, after)) = split_line(rest) {
        if !is_good_line(line, number, names) {
            return Some(number);
        }
        rest = after;
        number += 1;
    }
    if !rest.is_empty() || number < names as usize || number < BUILTIN_NAMES {
        Some(number)
    } else {
        None
    }
}

// Gives a line its number, unless an equal line has one.
fn number_line<'a>(
    numbers: &mut BTreeMap<&'a [u8], Name>,
    line: &'a [u8],
    number: Name,
) -> Result<(), AllocError>
    ensures ok { OnOk result (Numbers numbers.old line.now number numbers.new) }
    ensures err { OnErr result (numbers.new.entries ≡ numbers.old.entries) }
{
    if !numbers.contains_key(line) {
        numbers.insert(line, number)?;
    }
    Ok(())
}

impl<'a> NameList<'a> {
    /// Takes in the list of an index with that many names, or says which line is the first at fault. A list that fits
    /// has one line for each name, a line feed ends each line, and the first nineteen are the built-in names in their
    /// order. Memory can be wanting only for a list that fits.
    pub fn new(
        alloc: Global,
        bytes: &'a [u8],
        names: u32,
    ) -> Result<NameList<'a>, Failure<TextFault>>
        ensures value { Answers (λ l. l) (made_of bytes.now names) result }
        ensures accepted { IfOk result (λ l. Fits bytes.now names) }
        ensures refused { IfErr result (IfRefused (Misfit bytes.now names)) }
        ensures memory { OnMemory result (Fits bytes.now names) }
    {
        match first_bad_line(bytes, names) {
            Some(line) => Err(Failure::Refused(TextFault::BadLine(line))),
            None => Ok(NameList::filled(alloc, bytes)?),
        }
    }

    // The list of the finished lines.
    fn filled(alloc: Global, bytes: &'a [u8]) -> Result<NameList<'a>, AllocError>
        ensures { IfOk result (λ l. l ≡ lines_of bytes.now) }
    {
        let mut list = NameList::empty(alloc);
        let mut rest = bytes;
        while let Some((line, after)) = split_line(rest) {
            list.push(line)?;
            rest = after;
        }
        Ok(list)
    }

    fn empty(alloc: Global) -> NameList<'a>
        ensures { result ≡ [] }
    {
        NameList {
            lines: Vec::new(alloc),
            numbers: BTreeMap::new(alloc),
        }
    }

    // One more line, also where an earlier one is equal. It fails too where no number is left.
    fn push(&mut self, line: &'a [u8]) -> Result<(), AllocError>
        ensures ok { OnOk result (self.new ≡ self.old ++ line.now ∷ []) }
        ensures err { OnErr result (self.new ≡ self.old) }
    {
        let number = self.lines.len();
        if number > u32::MAX as usize {
            return Err(AllocError);
        }
        self.lines.reserve(1)?;
        number_line(&mut self.numbers, line, Name(number as u32))?;
        self.lines.push_reserved(line);
        Ok(())
    }

    /// The built-in names alone.
    pub fn built_in(alloc: Global) -> Result<NameList<'a>, AllocError>
        ensures { IfOk result (λ l. l ≡ builtin_lines 19) }
    {
        NameList::first_built_in(alloc, BUILTIN_NAMES)
    }

    // So many of them. Their number is a parameter, since the checker writes out each line that a numeral counts.
    fn first_built_in(alloc: Global, names: usize) -> Result<NameList<'a>, AllocError>
        requires { names < 20 }
        ensures { IfOk result (λ l. l ≡ builtin_lines names) }
    {
        let mut list = NameList::empty(alloc);
        for number in 0..names {
            list.push(built_in_line(number))?;
        }
        Ok(list)
    }

    /// A name that no line is equal to gets the next line; any other name has its line already. It fails where memory
    /// is wanting, or no number is left, and then the list stays as it is.
    pub fn add(&mut self, name: &'a [u8]) -> Result<(), AllocError>
        ensures ok { OnOk result (Grows self.old name.now self.new) }
        ensures err { OnErr result (self.new ≡ self.old) }
    {
        if self.number(name).is_some() {
            return Ok(());
        }
        self.push(name)
    }

    /// The name's number, if the list has the name: its first line.
    #[tactic(auto, using(crate::proofs::First::numbered))]
    pub fn number(&self, name: &[u8]) -> Option<Name>
        ensures value { result ≡ as_name (first self.now name.now 0) }
        ensures earliest { let at = IsLineAt self.now name.now in
            MatchOption result (Never at) (λ n. FirstAt at n.0) }
    {
        self.numbers.get(name).copied()
    }

    /// How many names the list has.
    pub fn count(&self) -> usize
        ensures { result ≡ length self.now }
    {
        self.lines.len()
    }

    /// The name of that number, if the list has one.
    pub fn text(&self, name: Name) -> Option<&'a [u8]>
        ensures { option_map (λ s. s.now) result ≡ slice_get self.now name.0 }
    {
        self.lines.get(name.0 as usize).copied()
    }
}
