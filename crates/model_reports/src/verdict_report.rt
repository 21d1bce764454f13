// Writes which items a model keeps, and why, and which it cuts.
ghost use Rattle.std.specs.Prelude.{◌≡◌};
ghost use Rattle.model_reports.specs.Results.{item_told};

use cuts::reached::{Reached, Reason};
use cuts::verdict::Verdict;
use firmware::survey::Survey;
use hir_def::ModuleDefId;
use model_wording::item_told::{CutLine, CutTold, KeptLine, KeptTold};
use model_wording::model_json::{cut_value, kept_value};
use model_wording::reason_told::ReasonTold;
use report_json::json::write_value;
use reports::report::text_of;
use reports::style::Form;
use std::alloc::Global;
use std::io;
use wording::holders::Told;

// The item by its statement.
fn item_told<'a>(survey: &Survey<'_, 'a>, def: ModuleDefId) -> Told<'a>
    ensures { result ≡ item_told survey.now.firmware.now def }
{
    Told {
        def,
        definition: survey.firmware.definitions.get(def),
    }
}

// The path of a reason is one of the file's, so the error never comes.
fn write_kept<W: io::Write>(
    alloc: Global,
    w: &mut W,
    survey: &Survey,
    model: &str,
    item: ModuleDefId,
    reason: &Reason,
    form: Form,
) -> io::Result<()> {
    let Some(path) = survey.paths.get(reason.path) else {
        return Err(io::Error::from(io::ErrorKind::InvalidData));
    };
    let text = text_of(alloc, survey.list, path)?;
    let told = KeptTold {
        item: item_told(survey, item),
        reason: ReasonTold::of(survey.firmware, text.as_slice(), reason),
    };
    match form {
        Form::Text => write!(w, "{told}"),
        Form::Lines => {
            let line = KeptLine(told);
            writeln!(w, "{line}")
        }
        Form::Json => {
            let value = kept_value(alloc, model, told.item, told.reason)?;
            write_value(alloc, w, &value)
        }
    }
}

fn write_cut<W: io::Write>(
    alloc: Global,
    w: &mut W,
    survey: &Survey,
    model: &str,
    item: ModuleDefId,
    form: Form,
) -> io::Result<()> {
    let item = item_told(survey, item);
    match form {
        Form::Text => {
            let told = CutTold(item);
            write!(w, "{told}")
        }
        Form::Lines => {
            let line = CutLine(item);
            writeln!(w, "{line}")
        }
        Form::Json => {
            let value = cut_value(alloc, model, item)?;
            write_value(alloc, w, &value)
        }
    }
}

/// The items that are kept, and then those that are cut, each in the order of their statements.
pub(crate) fn write_verdicts<W: io::Write>(
    alloc: Global,
    w: &mut W,
    survey: &Survey,
    model: &str,
    items: &[ModuleDefId],
    reached: &Reached,
    form: Form,
) -> io::Result<()> {
    for item in items {
        if let Verdict::Kept(reason) = Verdict::on(reached, *item) {
            write_kept(alloc, w, survey, model, *item, &reason, form)?;
        }
    }
    for item in items {
        if let Verdict::Cut = Verdict::on(reached, *item) {
            write_cut(alloc, w, survey, model, *item, form)?;
        }
    }
    Ok(())
}
