// Writes the report on one model: its deliveries in two orders, the answers to its paths, the verdicts on its items, its account.
ghost use Rattle.std.specs.Prelude.{IfOk};
ghost use Rattle.model_reports.specs.Results.{StandsOn};
ghost use Rattle.model_reports.specs.Said.{SaysOf};

use crate::results::Results;
use crate::verdict_report::write_verdicts;
use bstr::BStr;
use cuts::asked::{Answered, Ask};
use firmware::models::Model;
use firmware::survey::Survey;
use hir_def::fault::Fault;
use item_scope::index::Index;
use model_wording::comparison::Comparison;
use model_wording::model_json::{
    PathSaid, model_account_value, model_path_value, model_value, orders_value,
};
use model_wording::model_told::{
    ComparisonTold, ModelAccount, ModelAccountLine, ModelLine, ModelTold, OrdersLine,
};
use paths::show::PathLine;
use report_json::answer_json::{answer_value, refused_path_value};
use report_json::json::write_value;
use reports::answer_report::{write_line, write_refused, write_told};
use reports::place_report::write_refused_deliveries;
use reports::report::text_of;
use reports::style::{Form, Style};
use std::alloc::{AllocError, Global};
use std::io;

fn write_model_told<W: io::Write>(
    alloc: Global,
    w: &mut W,
    told: ModelTold,
    form: Form,
) -> io::Result<()> {
    match form {
        Form::Text => write!(w, "{told}"),
        Form::Lines => {
            let line = ModelLine(told);
            writeln!(w, "{line}")
        }
        Form::Json => {
            let value = model_value(alloc, told)?;
            write_value(alloc, w, &value)
        }
    }
}

fn write_comparison<W: io::Write>(
    alloc: Global,
    w: &mut W,
    model: &str,
    comparison: Comparison,
    form: Form,
) -> io::Result<()> {
    match form {
        Form::Text => {
            let told = ComparisonTold(comparison);
            write!(w, "{told}")
        }
        Form::Lines => {
            let line = OrdersLine { model, comparison };
            writeln!(w, "{line}")
        }
        Form::Json => {
            let value = orders_value(alloc, model, comparison)?;
            write_value(alloc, w, &value)
        }
    }
}

fn write_path_text<W: io::Write>(
    alloc: Global,
    w: &mut W,
    survey: &Survey,
    answered: &Answered,
) -> io::Result<()> {
    let Ask { question, path, .. } = answered.ask;
    let text = text_of(alloc, survey.list, path)?;
    let text = BStr::new(text.as_slice());
    writeln!(w, "path {text}")?;
    match answered.result {
        Ok(answer) => write_told(w, survey, path, question, answer),
        Err(fault) => write_refused(alloc, w, fault, Form::Text),
    }
}

fn write_path_line<W: io::Write>(
    alloc: Global,
    w: &mut W,
    survey: &Survey,
    answered: &Answered,
) -> io::Result<()> {
    let Ask { question, path, .. } = answered.ask;
    let line = PathLine::of(path);
    writeln!(w, "{line}")?;
    match answered.result {
        Ok(answer) => write_line(w, survey, path, question, answer),
        Err(fault) => write_refused(alloc, w, fault, Form::Lines),
    }
}

// What is told of a path that the model asks.
fn said_of(alloc: Global, survey: &Survey, answered: &Answered) -> Result<PathSaid, AllocError>
    ensures { IfOk result (λ s. SaysOf survey.now answered.now s) }
{
    let Ask { question, path, .. } = answered.ask;
    match answered.result {
        Ok(answer) => {
            let value = answer_value(alloc, survey, path, question, answer)?;
            Ok(PathSaid::Answer(value))
        }
        Err(fault) => {
            let value = refused_path_value(alloc, Fault::Path(fault))?;
            Ok(PathSaid::Refusal(value))
        }
    }
}

fn write_path_json<W: io::Write>(
    alloc: Global,
    w: &mut W,
    survey: &Survey,
    model: &str,
    answered: &Answered,
) -> io::Result<()> {
    let Ask { number, path, .. } = answered.ask;
    let text = text_of(alloc, survey.list, path)?;
    let text = String::from_utf8_lossy(alloc, text.as_slice())?;
    let said = said_of(alloc, survey, answered)?;
    let line = survey.firmware.path_line(number);
    let value = model_path_value(alloc, model, text.as_str(), line, &said)?;
    write_value(alloc, w, &value)
}

fn write_paths<W: io::Write>(
    alloc: Global,
    w: &mut W,
    survey: &Survey,
    model: &str,
    answers: &[Answered],
    form: Form,
) -> io::Result<()> {
    for answered in answers {
        match form {
            Form::Text => write_path_text(alloc, w, survey, answered)?,
            Form::Lines => write_path_line(alloc, w, survey, answered)?,
            Form::Json => write_path_json(alloc, w, survey, model, answered)?,
        }
    }
    Ok(())
}

fn write_account<W: io::Write>(
    alloc: Global,
    w: &mut W,
    account: ModelAccount,
    form: Form,
) -> io::Result<()> {
    match form {
        Form::Text => write!(w, "{account}"),
        Form::Lines => {
            let line = ModelAccountLine(account);
            writeln!(w, "{line}")
        }
        Form::Json => {
            let value = model_account_value(alloc, account)?;
            write_value(alloc, w, &value)
        }
    }
}

/// Makes the model's deliveries to two variants over the index, asks its paths, and writes what comes of it.
pub(crate) fn write_model<'a, I: Index, W: io::Write, E: io::Write>(
    alloc: Global,
    w: &mut W,
    progress: &mut E,
    path: &str,
    survey: &Survey<'_, 'a>,
    model: &Model<'a>,
    below: &I,
    style: Style,
) -> io::Result<()>
    // The index is the one that this model stands on: what the models below it in its pile made.
    requires { StandsOn survey.now.firmware.now model.now.pile (I.view below.now) }
{
    let form = style.form;
    let name = model.name;
    let results = Results::of(alloc, progress, path, survey, model, below, style)?;
    write_model_told(alloc, w, results.told, form)?;
    write_comparison(alloc, w, name, results.comparison, form)?;
    write_paths(alloc, w, survey, name, results.answers.as_slice(), form)?;
    write_refused_deliveries(alloc, w, results.made.outcomes.as_slice(), form)?;
    let items = results.items.as_slice();
    write_verdicts(alloc, w, survey, name, items, &results.reached, form)?;
    write_account(alloc, w, results.account, form)
}
