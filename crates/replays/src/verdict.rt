// What an answer is beside the line that is stored for it.
ghost use Rattle.std.specs.Prelude.{◌≡◌, Some};
ghost use Rattle.replays.specs.Verdicts.{verdict_text, name_of};

use std::fmt;

/// What an answer is beside the line that is stored for it.
#[derive(Clone, Copy, Debug)]
pub enum Verdict<'a> {
    /// It is the stored one.
    Alike,
    /// It differs as is stored, by the difference of that name.
    Named(&'a str),
    /// It is neither of these, or has no line beside it.
    NotAsWritten,
}

impl<'a> Verdict<'a> {
    /// The name of the difference, if it is one.
    pub fn name(&self) -> Option<&'a str>
        ensures { result ≡ name_of self.now }
    {
        match self {
            Verdict::Named(name) => Some(name),
            _ => None,
        }
    }
}

impl fmt::Display for Verdict<'_> {
    ghost output = { λ verdict. Some (verdict_text verdict) };

    fn fmt<W: fmt::Write>(&self, f: &mut fmt::Formatter<W>) -> fmt::Result {
        f.write_str(match self {
            Verdict::Alike => "alike",
            Verdict::Named(name) => name,
            Verdict::NotAsWritten => "not as written",
        })
    }
}
