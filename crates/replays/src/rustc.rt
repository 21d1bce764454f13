// What rustc says of paths, and the port's answers held against it.
ghost use Rattle.std.specs.Prelude.{◌≡◌, ◌==◌, Some, IfOk, codes};
ghost use Rattle.std.specs.List.{slice_split};
ghost use Rattle.std.specs.Option.{option_map};
ghost use Rattle.replays.specs.Rustc.{told_of, def_of, HasDefs, SaysIf, IsSaid, AreDefs, agrees_at, agrees_of, beside};

use crate::verdict::Verdict;
use crate::words::parts;
use source_text::number::number;
use std::alloc::{AllocError, Global};

/// The defs that a path stands for: a word for each namespace, `-` for none.
#[derive(Clone, Copy, Debug)]
pub struct Defs<'a> {
    pub types: &'a str,
    pub values: &'a str,
    pub macros: &'a str,
}

/// What rustc says of the path that is asked in a line of the answers.
#[derive(Clone, Copy, Debug)]
pub struct Said<'a> {
    /// The difference by which the port is to answer otherwise, if it is.
    pub name: Option<&'a str>,
    /// Lines count from 1.
    pub line: u32,
    /// What the path is said to stand for among the types: a def, or `-` for nothing; `None` where rustc does not tell.
    pub types: Option<&'a str>,
    /// The same of the values.
    pub values: Option<&'a str>,
    /// The same of the macros.
    pub macros: Option<&'a str>,
}

// `*` is not told.
fn told(word: &str) -> Option<&str>
    ensures { option_map (λ w. w.now) result ≡ told_of word.now }
{
    if word == "*" { None } else { Some(word) }
}

fn def_of(entry: &str) -> &str
    ensures { result.now ≡ def_of entry.now }
{
    match entry.split_once(',') {
        Some((def, _)) => def,
        None => entry,
    }
}

impl<'a> Defs<'a> {
    // Of a path that stands for nothing.
    fn nothing() -> Defs<'a>
        ensures { HasDefs (codes "-") (codes "-") (codes "-") (Some result) }
    {
        Defs {
            types: "-",
            values: "-",
            macros: "-",
        }
    }

    fn of_entries(types: &'a str, values: &'a str, macros: &'a str) -> Defs<'a>
        ensures { HasDefs (def_of types.now) (def_of values.now) (def_of macros.now) (Some result) }
    {
        Defs {
            types: def_of(types),
            values: def_of(values),
            macros: def_of(macros),
        }
    }

    /// The defs of an answer to a question; one with an index stands for nothing. `None` is for any other answer. Fails where memory is
    /// wanting.
    pub fn answered(alloc: Global, answer: &'a str) -> Result<Option<Defs<'a>>, AllocError>
        ensures { IfOk result (AreDefs (slice_split (λ b. b == 32) answer.now)) }
    {
        let words = parts(alloc, answer, ' ')?;
        let [verb, types, values, macros, _, index, _] = words.as_slice() else {
            return Ok(None);
        };
        if *verb != "ask" {
            return Ok(None);
        }
        Ok(Some(if *index == "-" {
            Defs::of_entries(types, values, macros)
        } else {
            Defs::nothing()
        }))
    }
}

fn agrees_at(said: Option<&str>, def: &str) -> bool
    ensures { result ≡ agrees_at said.entry def.now }
{
    match said {
        Some(said) => said == def,
        None => true,
    }
}

fn read_words<'a>(
    alloc: Global,
    name: Option<&'a str>,
    words: &'a str,
) -> Result<Option<Said<'a>>, AllocError>
    ensures { IfOk result (SaysIf (option_map (λ n. n.now) name.entry) words.now) }
{
    let words = parts(alloc, words, ' ')?;
    let [line, types, values, macros] = words.as_slice() else {
        return Ok(None);
    };
    let Some(line) = number(line) else {
        return Ok(None);
    };
    Ok(Some(Said {
        name,
        line,
        types: told(types),
        values: told(values),
        macros: told(macros),
    }))
}

impl<'a> Said<'a> {
    /// What a line says: `LINE TYPES VALUES MACROS`, with `NAME|` before it where the port is to answer otherwise. `None` is for a line that
    /// is not written so. Fails where memory is wanting.
    pub fn read(alloc: Global, line: &'a str) -> Result<Option<Said<'a>>, AllocError>
        ensures { IfOk result (IsSaid (slice_split (λ b. b == 124) line.now)) }
    {
        let parts = parts(alloc, line, '|')?;
        match parts.as_slice() {
            [words] => read_words(alloc, None, words),
            [name, words] => read_words(alloc, Some(name), words),
            _ => Ok(None),
        }
    }

    // Whether rustc says the same in each namespace of which it tells.
    fn agrees(&self, defs: &Defs) -> bool
        ensures { result ≡ agrees_of self.now defs.now }
    {
        agrees_at(self.types, defs.types)
            && agrees_at(self.values, defs.values)
            && agrees_at(self.macros, defs.macros)
    }

    /// What an answer with these defs is beside it; `None` is for an answer that has none.
    pub fn hold(&self, defs: Option<&Defs>) -> Verdict<'a>
        ensures { result ≡ beside self.now (option_map (λ d. d.now) defs.entry) }
    {
        match (self.name, defs) {
            (None, Some(defs)) if self.agrees(defs) => Verdict::Alike,
            (Some(name), Some(defs)) if !self.agrees(defs) => Verdict::Named(name),
            _ => Verdict::NotAsWritten,
        }
    }
}
