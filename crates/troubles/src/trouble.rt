// Why a file is not taken, and how that is told.
ghost use Rattle.std.specs.Prelude.{◌≡◌, Some};
ghost use Rattle.hir_def.specs.declared.fault.Failure.TheVariants.{Memory, Refused};
ghost use Rattle.troubles.specs.Told.{line_of, complaint_text, located_text};
ghost use Rattle.troubles.specs.declared.trouble.Trouble.TheVariants.{Text, Tables};

use crate::complaint::Complaint;
use hir_def::fault::{Failure, Fault, FaultCode};
use source_text::excerpt::Excerpt;
use std::fmt;
use thiserror::Error;

/// Why a file is not taken.
#[derive(Clone, Copy, PartialEq, Eq, Debug, Error)]
pub enum Trouble {
    /// A statement or a path is bad.
    #[error(transparent)]
    Text(Complaint),
    /// Its tables make no index.
    #[error(transparent)]
    Tables(Fault),
}

/// Why a file of that name and text is not taken, as a person reads it: a bad statement with its line and a caret under the
/// byte.
#[derive(Clone, Copy)]
pub struct Located<'a> {
    pub path: &'a str,
    pub text: &'a [u8],
    pub trouble: Trouble,
}

/// A refusal as a person reads it: its layer, number and place, and what it means.
#[derive(Clone, Copy)]
pub struct FaultTold(pub Fault);

#[derive(Clone, Copy)]
struct ComplaintTold<'a> {
    text: &'a [u8],
    complaint: Complaint,
}

impl From<Complaint> for Failure<Trouble> {
    ghost from_gives = { λ e r. r ≡ Refused (Text e) };

    fn from(e: Complaint) -> Failure<Trouble> {
        Failure::Refused(Trouble::Text(e))
    }
}

// The line of that number, from 1, without its line feed; empty where there is none.
fn line_of(text: &[u8], line: usize) -> &[u8]
    ensures { result.now ≡ line_of text.now line }
{
    let line = text
        .split(|b| *b == b'\n')
        .nth(line.saturating_sub(1))
        .unwrap_or(b"");
    line.strip_suffix(b"\r").unwrap_or(line)
}

impl fmt::Display for FaultTold {
    fn fmt<W: fmt::Write>(&self, f: &mut fmt::Formatter<W>) -> fmt::Result {
        let FaultCode {
            layer,
            number,
            place,
        } = self.0.code();
        let fault = self.0;
        write!(f, "layer {layer}, number {number}, place {place}: {fault}")
    }
}

impl<'a> fmt::Display for ComplaintTold<'a> {
    ghost output = { λ c. Some (complaint_text c.text.now c.complaint) };

    fn fmt<W: fmt::Write>(&self, f: &mut fmt::Formatter<W>) -> fmt::Result {
        let line = self.complaint.line;
        let column = self.complaint.column.saturating_add(1);
        let problem = self.complaint.problem;
        let expected = self.complaint.expected;
        let excerpt = Excerpt {
            line: line_of(self.text, line),
            column: self.complaint.column,
        };
        write!(
            f,
            ":{line}:{column}: {problem}\n{excerpt}\nexpected {expected}\n"
        )
    }
}

impl<'a> fmt::Display for Located<'a> {
    ghost output = { λ l. located_text l.path.now l.text.now l.trouble };

    fn fmt<W: fmt::Write>(&self, f: &mut fmt::Formatter<W>) -> fmt::Result {
        let path = self.path;
        match self.trouble {
            Trouble::Text(complaint) => {
                let told = ComplaintTold {
                    text: self.text,
                    complaint,
                };
                write!(f, "{path}{told}")
            }
            Trouble::Tables(fault) => {
                let table = match fault {
                    Fault::Tree(_) => "the module tree is",
                    _ => "the tables of the index are",
                };
                let told = FaultTold(fault);
                write!(f, "{path}: {table} refused by {told}\n")
            }
        }
    }
}
