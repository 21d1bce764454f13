// Writes what a path stands for where it is asked.
ghost use Rattle.std.specs.Prelude.{◌≡◌, ◌++◌, OnOk, codes};
ghost use Rattle.std.specs.Io.KnownBytes.{Appends};
ghost use Rattle.reports.specs.Written.{answer_text, answer_line_text, line_shown, report_shown};

use crate::style::Form;
use firmware::survey::Survey;
use hir_def::Namespace;
use hir_def::fault::{Fault, PathFault};
use item_scope::index::Index;
use path_resolution::answer::ResolvePathResult;
use path_resolution::path_resolution::resolve_path_fp_with_macro;
use path_resolution::question::Question;
use path_text::mod_path::ModPath;
use report_json::answer_json::{answer_value, refused_path_value};
use report_json::json::write_value;
use std::alloc::Global;
use std::io;
use troubles::trouble::FaultTold;
use wording::answers::{AnswerLine, AnswerReport, AnswerTold, EntriesWords};
use wording::holders::entry_holder;

// The answer to a path of a file, as its line.
fn line_of<'a, 't>(
    survey: &'a Survey<'_, 't>,
    path: &'a ModPath,
    question: Question,
    answer: ResolvePathResult,
) -> AnswerLine<'a, 't>
    ensures report { report_shown result ≡ answer_text survey.now path.now.names.items question answer }
    ensures line { line_shown result ++ codes "\n" ≡ answer_line_text survey.now path.now.names.items question answer }
{
    let definitions = &survey.firmware.definitions;
    let found = &answer.resolved_def;
    AnswerLine {
        names: survey.firmware.names.as_slice(),
        question,
        told: AnswerTold {
            list: survey.list,
            path: path.names.as_slice(),
            answer,
        },
        entries: EntriesWords {
            types: entry_holder(definitions, found, Namespace::Types),
            values: entry_holder(definitions, found, Namespace::Values),
            macros: entry_holder(definitions, found, Namespace::Macros),
        },
    }
}

/// Writes an answer for people: who asks, the entry of each namespace, and what else is answered.
pub fn write_told<W: io::Write>(
    w: &mut W,
    survey: &Survey,
    path: &ModPath,
    question: Question,
    answer: ResolvePathResult,
) -> io::Result<()>
    ensures { OnOk result (Appends (W.contents w.old) (W.contents w.new)
        (answer_text survey.now path.now.names.items question answer)) }
{
    let report = AnswerReport(line_of(survey, path, question, answer));
    write!(w, "{report}")
}

/// Writes the same as a line of words.
pub fn write_line<W: io::Write>(
    w: &mut W,
    survey: &Survey,
    path: &ModPath,
    question: Question,
    answer: ResolvePathResult,
) -> io::Result<()>
    ensures { OnOk result (Appends (W.contents w.old) (W.contents w.new)
        (answer_line_text survey.now path.now.names.items question answer)) }
{
    let line = line_of(survey, path, question, answer);
    writeln!(w, "{line}")
}

/// Writes why a path is not asked.
pub fn write_refused<W: io::Write>(
    alloc: Global,
    w: &mut W,
    fault: PathFault,
    form: Form,
) -> io::Result<()> {
    let fault = Fault::Path(fault);
    match form {
        Form::Text => {
            let told = FaultTold(fault);
            writeln!(w, "    refused by {told}")
        }
        Form::Lines => {
            let code = fault.code();
            writeln!(w, "refused-path {code}")
        }
        Form::Json => {
            let value = refused_path_value(alloc, fault)?;
            write_value(alloc, w, &value)
        }
    }
}

/// Asks the path of the index, and writes the answer or why there is none.
pub(crate) fn write_answer<I: Index, W: io::Write>(
    alloc: Global,
    w: &mut W,
    survey: &Survey,
    index: &I,
    path: &ModPath,
    question: Question,
    form: Form,
) -> io::Result<()> {
    match resolve_path_fp_with_macro(index, question, path) {
        Err(fault) => write_refused(alloc, w, fault, form),
        Ok(answer) => match form {
            Form::Text => write_told(w, survey, path, question, answer),
            Form::Lines => write_line(w, survey, path, question, answer),
            Form::Json => {
                let value = answer_value(alloc, survey, path, question, answer)?;
                write_value(alloc, w, &value)
            }
        },
    }
}
