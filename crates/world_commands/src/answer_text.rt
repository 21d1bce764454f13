// The line of an answer.
ghost use Rattle.std.specs.Prelude.{◌≡◌, Some};
ghost use Rattle.world_commands.specs.AnswerTexts.{status_text, index_text, flags_text, ask_text, answer_text};

use crate::answer::Answer;
use crate::entry_text::EntriesText;
use path_resolution::answer::{ReachedFixedPoint, ResolvePathResult, ResolvePathResultPrefixInfo};
use paths::show::PathWords;
use std::fmt;

/// What a path was resolved to: its entries, its status, its index and its flags.
#[derive(Clone, Copy, Debug)]
struct AskText(ResolvePathResult);

#[derive(Clone, Copy, Debug)]
struct IndexText(Option<usize>);

fn status_text(status: ReachedFixedPoint) -> &'static str
    ensures { result.now ≡ status_text status }
{
    match status {
        ReachedFixedPoint::Yes => "yes",
        ReachedFixedPoint::No => "no",
    }
}

fn flags_text(flags: ResolvePathResultPrefixInfo) -> &'static str
    ensures { result.now ≡ flags_text flags.differing_crate flags.enum_variant }
{
    match (flags.differing_crate, flags.enum_variant) {
        (true, true) => "de",
        (true, false) => "d",
        (false, true) => "e",
        (false, false) => "-",
    }
}

impl fmt::Display for IndexText {
    ghost output = { λ i. Some (index_text i.0) };

    fn fmt<W: fmt::Write>(&self, f: &mut fmt::Formatter<W>) -> fmt::Result {
        match self.0 {
            Some(index) => write!(f, "{index}"),
            None => f.write_str("-"),
        }
    }
}

impl fmt::Display for AskText {
    ghost output = { λ a. Some (ask_text a.0) };

    fn fmt<W: fmt::Write>(&self, f: &mut fmt::Formatter<W>) -> fmt::Result {
        let entries = EntriesText(self.0.resolved_def);
        let status = status_text(self.0.reached_fixedpoint);
        let index = IndexText(self.0.segment_index);
        let flags = flags_text(self.0.prefix_info);
        write!(f, "{entries} {status} {index} {flags}")
    }
}

/// The line of an answer, without its line feed. Whether a module may see is told twice, as the two tests of the ported crate
/// answer it.
impl fmt::Display for Answer {
    ghost output = { λ a. Some (answer_text a) };

    fn fmt<W: fmt::Write>(&self, f: &mut fmt::Formatter<W>) -> fmt::Result {
        match self {
            Answer::Delivered(true) => f.write_str("deliver changed"),
            Answer::Delivered(false) => f.write_str("deliver same"),
            Answer::Asked(answer) => {
                let words = AskText(*answer);
                write!(f, "ask {words}")
            }
            Answer::Place(entries) => {
                let words = EntriesText(*entries);
                write!(f, "place {words}")
            }
            Answer::Sight(true) => f.write_str("sight 1 1"),
            Answer::Sight(false) => f.write_str("sight 0 0"),
            Answer::Read(path) => {
                let words = PathWords::of(path);
                write!(f, "read {words}")
            }
            Answer::Left(rows) => write!(f, "left {rows}"),
            Answer::Refused(fault) => {
                let code = fault.code();
                write!(f, "refused {code}")
            }
        }
    }
}
