// Writes who may see each item, and counts that.
ghost use Rattle.std.specs.Prelude.{◌≡◌, IfErr, IfOk, Err, OnOk};
ghost use Rattle.entries.specs.Viewers.{viewers_of};
ghost use Rattle.hir_def.specs.Faults.{IfRefused};
ghost use Rattle.reports.specs.Items.{account_of, shape_in, with_declared};
ghost use Rattle.reports.specs.Sights.{AreSeen, SeesBy};
ghost use Rattle.reports.specs.Styles.{most_named};

use crate::sights::Sights;
use crate::style::{FEW, Form, PROGRESS_STEP, Style};
use entries::account::Account;
use firmware::file::Declared;
use firmware::survey::Survey;
use hir_def::fault::{Failure, Fault, TreeFault};
use nameres::Tree;
use report_json::json::{item_value, refused_value, write_value};
use std::alloc::Global;
use std::io;
use troubles::trouble::FaultTold;
use wording::items::{ItemTold, RefusedLine, SeenLine, SeenTold};
use wording::seen::Seen;

fn write_seen<'a, W: io::Write>(
    alloc: Global,
    w: &mut W,
    names: &'a [&'a str],
    modules: u32,
    item: Declared<'a>,
    seen: &'a Seen,
    style: Style,
) -> io::Result<()> {
    match style.form {
        Form::Text => {
            let item = ItemTold { names, item };
            let seen = SeenTold {
                names,
                modules,
                seen,
            };
            write!(w, "{item}\n{seen}")
        }
        Form::Lines => {
            let line = SeenLine { names, item, seen };
            writeln!(w, "{line}")
        }
        Form::Json => {
            let value = item_value(alloc, names, item, seen, style.all)?;
            write_value(alloc, w, &value)
        }
    }
}

fn write_refused<W: io::Write>(
    alloc: Global,
    w: &mut W,
    survey: &Survey,
    item: Declared,
    fault: Fault,
    form: Form,
) -> io::Result<()> {
    let names = survey.firmware.names.as_slice();
    match form {
        Form::Text => {
            let item = ItemTold { names, item };
            let fault = FaultTold(fault);
            writeln!(w, "{item}\n    refused by {fault}")
        }
        Form::Lines => {
            let line = RefusedLine {
                item,
                code: fault.code(),
            };
            writeln!(w, "{line}")
        }
        Form::Json => {
            let value = refused_value(alloc, names, item, fault)?;
            write_value(alloc, w, &value)
        }
    }
}

// Who may see an item, or why that is not told; the account counts it.
fn write_item<W: io::Write>(
    alloc: Global,
    w: &mut W,
    survey: &Survey,
    item: Declared,
    answer: Result<&Seen, Failure<TreeFault>>,
    account: &mut Account,
    style: Style,
) -> io::Result<()>
    requires seen { IfOk answer (λ s. SeesBy (shape_in survey.now) (most_named style) item.vis s.now) }
    requires refused { IfErr answer (IfRefused (λ f. viewers_of (shape_in survey.now) item.vis ≡ Err f)) }
    ensures { OnOk result (account.new ≡ with_declared (shape_in survey.now) account.old item.entry) }
{
    match answer {
        Ok(seen) => {
            let names = survey.firmware.names.as_slice();
            let modules = survey.tables.modules();
            account.add_item(seen.count as u64, u64::from(modules));
            write_seen(alloc, w, names, modules, item, seen, style)
        }
        Err(Failure::Refused(fault)) => {
            account.add_refused();
            write_refused(alloc, w, survey, item, Fault::Tree(fault), style.form)
        }
        Err(Failure::Memory(e)) => Err(io::Error::from(e)),
    }
}

// Asks who may see an item, and writes it.
fn write_asked<W: io::Write>(
    alloc: Global,
    w: &mut W,
    survey: &Survey,
    item: Declared,
    account: &mut Account,
    style: Style,
) -> io::Result<()>
    ensures { OnOk result (account.new ≡ with_declared (shape_in survey.now) account.old item.entry) }
{
    let seen = Seen::of(alloc, &survey.tables, item.vis, style.most());
    let answer = seen.as_ref().map_err(|e| *e);
    write_item(alloc, w, survey, item, answer, account, style)
}

// Looks up who may see an item, and writes it.
fn write_looked_up<W: io::Write>(
    alloc: Global,
    w: &mut W,
    survey: &Survey,
    item: Declared,
    sights: &mut Sights,
    account: &mut Account,
    style: Style,
) -> io::Result<()>
    requires most { sights.old.most ≡ most_named style }
    requires seen { AreSeen (shape_in survey.now) sights.old }
    ensures most { sights.new.most ≡ sights.old.most }
    ensures seen { AreSeen (shape_in survey.now) sights.new }
    ensures account { OnOk result (account.new ≡ with_declared (shape_in survey.now) account.old item.entry) }
{
    match sights.look(alloc, &survey.tables, item.vis) {
        Ok(()) => {
            let seen = sights.get(item.vis).unwrap();
            write_item(alloc, w, survey, item, Ok(seen), account, style)
        }
        Err(e) => write_item(alloc, w, survey, item, Err(e), account, style),
    }
}

/// Writes who may see each item, and answers the counts of it. A list that may be long is not kept.
pub(crate) fn write_items<W: io::Write, E: io::Write>(
    alloc: Global,
    w: &mut W,
    progress: &mut E,
    path: &str,
    survey: &Survey,
    style: Style,
) -> io::Result<Account>
    ensures { IfOk result (λ a. a ≡ account_of survey.now) }
{
    let most = style.most();
    let mut sights = Sights::new(alloc, most);
    let mut account = Account::new();
    for (done, item) in survey.firmware.items.iter().enumerate() {
        if style.progress && done % PROGRESS_STEP == 0 {
            let all = survey.firmware.items.len();
            writeln!(progress, "{path}: {done} of {all} items")?;
        }
        if most > FEW {
            write_asked(alloc, w, survey, *item, &mut account, style)?;
        } else {
            write_looked_up(alloc, w, survey, *item, &mut sights, &mut account, style)?;
        }
    }
    Ok(account)
}
