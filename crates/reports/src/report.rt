// Writes the report on the base of a file that was taken, statement by statement.
ghost use Rattle.std.specs.Prelude.{◌≡◌, IfOk, OnOk};
ghost use Rattle.std.specs.Io.KnownBytes.{Appends};
ghost use Rattle.path_text.specs.Written.{written_of};
ghost use Rattle.reports.specs.Base.{TakesBase};
ghost use Rattle.reports.specs.Written.{heading, path_text_or};

use crate::answer_report::write_answer;
use crate::base::Base;
use crate::item_report::write_items;
use crate::place_report::{write_places, write_refused_deliveries};
use crate::style::{Form, Style};
use firmware::survey::Survey;
use item_scope::index::Recipient;
use nameres::Tree;
use path_text::mod_path::ModPath;
use path_text::name_list::NameList;
use path_text::write::write_path;
use paths::show::PathLine;
use paths::told::PathTold;
use report_json::json::{account_value, file_value, path_value, write_value};
use std::alloc::{AllocError, Global};
use std::io;
use wording::items::{AccountLine, AccountTold};

/// The text that a path is written as; where the list lacks a name of it, a sentence that says so.
pub fn text_of(alloc: Global, list: &NameList, path: &ModPath) -> Result<Vec<u8>, AllocError>
    ensures { IfOk result
        (λ v. v.items ≡ path_text_or (written_of list.now path.now.kind path.now.names.items)) }
{
    match write_path(alloc, list, path)? {
        Some(text) => Ok(text),
        None => Vec::from_slice(alloc, b"with a name that the list does not have"),
    }
}

fn write_path_report<W: io::Write>(
    alloc: Global,
    w: &mut W,
    survey: &Survey,
    path: &ModPath,
    form: Form,
) -> io::Result<()> {
    let list = survey.list;
    match form {
        Form::Text => {
            let text = text_of(alloc, list, path)?;
            let told = PathTold {
                text: text.as_slice(),
                list,
                path,
            };
            write!(w, "{told}")
        }
        Form::Lines => {
            let line = PathLine::of(path);
            writeln!(w, "{line}")
        }
        Form::Json => {
            let text = text_of(alloc, list, path)?;
            let value = path_value(alloc, text.as_slice(), list, path)?;
            write_value(alloc, w, &value)
        }
    }
}

fn write_account<W: io::Write>(
    alloc: Global,
    w: &mut W,
    told: AccountTold,
    form: Form,
) -> io::Result<()> {
    match form {
        Form::Text => write!(w, "{told}"),
        Form::Lines => {
            let line = AccountLine(told);
            writeln!(w, "{line}")
        }
        Form::Json => {
            let value = account_value(alloc, told)?;
            write_value(alloc, w, &value)
        }
    }
}

/// Makes the deliveries of a file's base to an index that has its tables and empty places, and writes the report.
pub fn write_report<I: Recipient, W: io::Write, E: io::Write>(
    alloc: Global,
    w: &mut W,
    progress: &mut E,
    path: &str,
    survey: &Survey,
    index: &mut I,
    style: Style,
) -> io::Result<()>
    ensures { OnOk result (TakesBase I.view I.left I.delivers survey.now.firmware.now index.old index.new) }
{
    let account = write_items(alloc, w, progress, path, survey, style)?;
    let base = Base::of(alloc, survey, account, index)?;
    write_places(alloc, w, survey, &*index, style.form)?;
    write_refused_deliveries(alloc, w, base.outcomes.as_slice(), style.form)?;
    for (path, question) in survey.paths.iter().zip(base.questions) {
        write_path_report(alloc, w, survey, path, style.form)?;
        if let Some(question) = question {
            write_answer(alloc, w, survey, &*index, path, *question, style.form)?;
        }
    }
    write_account(alloc, w, base.told, style.form)
}

/// Writes which file the report after it is on: always as JSON, and else where there are several files.
pub fn write_heading<W: io::Write>(
    alloc: Global,
    w: &mut W,
    path: &str,
    survey: &Survey,
    form: Form,
) -> io::Result<()>
    ensures { OnOk result (Appends (W.contents w.old) (W.contents w.new) (heading form path.now survey.now)) }
{
    match form {
        Form::Text => writeln!(w, "file {path}\n"),
        Form::Lines => writeln!(w, "file {path}"),
        Form::Json => {
            let items = survey.firmware.items.len();
            let modules = survey.tables.modules();
            let value = file_value(alloc, path, modules, items, survey.paths.len())?;
            write_value(alloc, w, &value)
        }
    }
}
