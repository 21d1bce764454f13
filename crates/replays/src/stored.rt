// The stored answers of the Rust, and the port's held against them.
ghost use Rattle.std.specs.Prelude.{◌≡◌, ◌==◌, length, map, max, IfOk};
ghost use Rattle.std.specs.List.{slice_split, range_with_len};
ghost use Rattle.replays.specs.Answers.{IsStored, verdict_of, verdict_at};

use crate::verdict::Verdict;
use crate::words::parts;
use std::alloc::{AllocError, Global};

/// Two answers, and the name of the difference that parts them.
#[derive(Clone, Copy, Debug)]
pub struct Parting<'a> {
    pub name: &'a str,
    /// What the written rules answer.
    pub rules: &'a str,
    /// What the Rust answers.
    pub rust: &'a str,
}

/// What is stored for an answer.
#[derive(Clone, Copy, Debug)]
pub enum Stored<'a> {
    /// The rules and the Rust answer so.
    Alike(&'a str),
    /// They answer otherwise than each other.
    Apart(Parting<'a>),
    /// The line is written in neither way.
    Neither,
}

impl<'a> Stored<'a> {
    /// What a line stores: `ANSWER`, or `NAME|ANSWER OF THE RULES|ANSWER OF THE RUST`. Fails where memory is wanting.
    pub fn read(alloc: Global, line: &'a str) -> Result<Stored<'a>, AllocError>
        ensures { IfOk result (IsStored (slice_split (λ b. b == 124) line.now)) }
    {
        let parts = parts(alloc, line, '|')?;
        match parts.as_slice() {
            [answer] => Ok(Stored::Alike(answer)),
            [name, rules, rust] => Ok(Stored::Apart(Parting { name, rules, rust })),
            _ => Ok(Stored::Neither),
        }
    }

    /// What an answer is beside this line: the port is to answer as the rules, and two answers that a difference parts are two.
    pub fn hold(self, answer: &str) -> Verdict<'a>
        ensures { result ≡ verdict_of self.entry answer.now }
    {
        match self {
            Stored::Alike(wanted) if wanted == answer => Verdict::Alike,
            Stored::Apart(apart) if apart.rules == answer && apart.rules != apart.rust => {
                Verdict::Named(apart.name)
            }
            _ => Verdict::NotAsWritten,
        }
    }
}

fn hold_at<'a>(stored: &[Stored<'a>], answers: &[&str], at: usize) -> Verdict<'a>
    ensures { result ≡ verdict_at stored.now answers.now at }
{
    match (stored.get(at), answers.get(at)) {
        (Some(stored), Some(answer)) => stored.hold(answer),
        _ => Verdict::NotAsWritten,
    }
}

/// What each answer is beside the line in its place. A line or an answer that has none beside it is not as written. Fails where
/// memory is wanting.
pub fn hold_all<'a>(
    alloc: Global,
    stored: &[Stored<'a>],
    answers: &[&str],
) -> Result<Vec<Verdict<'a>>, AllocError>
    ensures { let places = range_with_len 0 (max (length stored.now) (length answers.now)) in
        IfOk result (λ v. v.items ≡ map (verdict_at stored.now answers.now) places) }
{
    let places = stored.len().max(answers.len());
    (0..places)
        .map(|at| hold_at(stored, answers, at))
        .collect(alloc)
}
