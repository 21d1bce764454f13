// What is wrong with a statement or a path of a file, where, and what was expected there.
ghost use Rattle.std.specs.Prelude.{◌≡◌};

use source_text::words::Word;
use thiserror::Error;

#[derive(Clone, Copy, PartialEq, Eq, Debug, Error)]
#[error("line {line}, byte {column}: {problem}; expected {expected}")]
pub struct Complaint {
    /// Lines count from 1.
    pub line: usize,
    /// Columns count bytes from 0.
    pub column: usize,
    pub problem: &'static str,
    pub expected: &'static str,
}

impl Complaint {
    /// What is wrong with a word.
    pub fn at(word: Word, problem: &'static str, expected: &'static str) -> Complaint
        ensures line { result.line ≡ word.entry.line }
        ensures column { result.column ≡ word.entry.column }
    {
        Complaint {
            line: word.line,
            column: word.column,
            problem,
            expected,
        }
    }
}
