// The paths of a file, read by its name list.
ghost use Rattle.std.specs.Prelude.{◌≡◌, vec_items, option_map};
ghost use Rattle.std.specs.List.{slice_get};
ghost use Rattle.hir_def.specs.Faults.{OnMemory};
ghost use Rattle.firmware.specs.Paths.{ReadsAll, Tells, TellsAt, WantsAt};

use crate::file::Firmware;
use hir_def::fault::{Failure, TextFault};
use path_text::mod_path::ModPath;
use path_text::name_list::NameList;
use path_text::read::read_path;
use source_text::words::Word;
use std::alloc::Global;
use troubles::complaint::Complaint;
use troubles::trouble::Trouble;

// What is wrong with a path, at the byte that the refusal tells. Counts tell no byte, and then it is the first; a line of the
// name list is no matter of one path.
fn complaint_of(word: Word, fault: TextFault) -> Complaint
    ensures { TellsAt word.entry fault result }
{
    let (place, problem, expected) = match fault {
        TextFault::BadText(place) => (
            place,
            "the path cannot go on so",
            "names joined by `::`, after `crate`, `self`, `super` or `::`",
        ),
        TextFault::UnknownName(place) => (
            place,
            "no statement declares this name",
            "the name of a crate, module, block or item, or a built-in name",
        ),
        TextFault::TooManyNames => (0, "the path has more than 64 names", "at most 64 names"),
        TextFault::TooManySupers => (
            0,
            "the path has more than 255 `super`",
            "at most 255 `super`",
        ),
        TextFault::BadLine(_) => (
            0,
            "the names of this file do not make a name list",
            "one line for each name, the built-in names first",
        ),
    };
    Complaint {
        line: word.line,
        column: word.column.saturating_add(place),
        problem,
        expected,
    }
}

fn failure_of(word: Word, failure: Failure<TextFault>) -> Failure<Trouble>
    ensures { Tells word.entry failure result }
{
    match failure {
        Failure::Refused(fault) => Failure::Refused(Trouble::Text(complaint_of(word, fault))),
        Failure::Memory(e) => Failure::Memory(e),
    }
}

/// Reads all paths, or says what is wrong with the first bad one.
pub(crate) fn read_paths(
    alloc: Global,
    list: &NameList,
    words: &[Word],
) -> Result<Vec<ModPath>, Failure<Trouble>>
    ensures reads { ReadsAll list.now words.now result }
    ensures memory { OnMemory result (WantsAt list.now words.now) }
{
    let mut paths = Vec::new(alloc);
    for word in words.iter() {
        match read_path(alloc, list, word.text) {
            Ok(path) => paths.push(path)?,
            Err(failure) => return Err(failure_of(*word, failure)),
        }
    }
    Ok(paths)
}

impl<'a> Firmware<'a> {
    /// The line of the statement of a path, by the path's number among those of the file.
    pub fn path_line(&self, number: usize) -> Option<usize>
        ensures { result ≡ option_map (λ w. w.line) (slice_get (vec_items self.now.paths) number) }
    {
        let word = self.paths.get(number)?;
        Some(word.line)
    }
}
