// Writes what holds each place, and which deliveries were refused.
ghost use Rattle.std.specs.Prelude.{IfOk, vec_items};
ghost use Rattle.reports.specs.Receiving.{Receiving};

use crate::style::Form;
use firmware::deliveries::Outcome;
use firmware::file::DeliveryStatement;
use firmware::pile::Part;
use firmware::survey::Survey;
use hir_def::Namespace;
use hir_def::fault::{Fault, IndexFault};
use item_scope::index::Index;
use report_json::json::write_value;
use report_json::place_json::{place_value, refused_delivery_value};
use std::alloc::{AllocError, Global};
use std::io;
use troubles::trouble::FaultTold;
use wording::holders::{Holder, place_holder};
use wording::places::{DeliveryLine, DeliveryTold, HolderTold, PlaceLine};

const NAMESPACES: [Namespace; 3] = [Namespace::Types, Namespace::Values, Namespace::Macros];

// A statement for each name of a module to which something is delivered, in the order of modules and names.
fn receiving<'a>(
    alloc: Global,
    statements: &[DeliveryStatement<'a>],
) -> Result<Vec<DeliveryStatement<'a>>, AllocError>
    ensures { IfOk result (λ v. Receiving statements.now (vec_items v)) }
{
    let mut sorted = Vec::from_slice(alloc, statements)?;
    sorted.sort_by_key(|s| (s.delivery.receiver.0, s.delivery.name.0))?;
    sorted.dedup_by_key(|s| (s.delivery.receiver.0, s.delivery.name.0));
    Ok(sorted)
}

fn write_holder<W: io::Write>(
    alloc: Global,
    w: &mut W,
    names: &[&str],
    statement: &DeliveryStatement,
    namespace: Namespace,
    holder: Holder,
    form: Form,
) -> io::Result<()> {
    match form {
        Form::Text => {
            let told = HolderTold {
                names,
                namespace,
                holder,
            };
            write!(w, "{told}")
        }
        Form::Lines => {
            let line = PlaceLine {
                name: statement.name,
                module: statement.module,
                namespace,
                holder,
            };
            write!(w, "{line}")
        }
        Form::Json => {
            let value = place_value(alloc, names, statement, namespace, holder)?;
            write_value(alloc, w, &value)
        }
    }
}

/// Writes what holds each place of the base, in the order of modules, names and namespaces.
pub(crate) fn write_places<I: Index, W: io::Write>(
    alloc: Global,
    w: &mut W,
    survey: &Survey,
    index: &I,
    form: Form,
) -> io::Result<()> {
    let names = survey.firmware.names.as_slice();
    let definitions = &survey.firmware.definitions;
    let statements = receiving(alloc, survey.firmware.deliveries_of(Part::Base))?;
    for statement in statements.iter() {
        let at = statement.delivery.receiver;
        let name = statement.delivery.name;
        if form == Form::Text && !index.get(at, name).is_none() {
            let name = statement.name;
            let module = statement.module;
            writeln!(w, "place {name} in {module}")?;
        }
        for namespace in NAMESPACES {
            if let Some(holder) = place_holder(index, definitions, at, name, namespace) {
                write_holder(alloc, w, names, statement, namespace, holder, form)?;
            }
        }
    }
    Ok(())
}

fn write_refused_delivery<W: io::Write>(
    alloc: Global,
    w: &mut W,
    statement: DeliveryStatement,
    fault: IndexFault,
    form: Form,
) -> io::Result<()> {
    let fault = Fault::Index(fault);
    match form {
        Form::Text => {
            let delivery = DeliveryTold(statement);
            let fault = FaultTold(fault);
            writeln!(w, "{delivery}\n    refused by {fault}")
        }
        Form::Lines => {
            let line = DeliveryLine {
                statement,
                code: fault.code(),
            };
            writeln!(w, "{line}")
        }
        Form::Json => {
            let value = refused_delivery_value(alloc, statement, fault)?;
            write_value(alloc, w, &value)
        }
    }
}

/// Writes each delivery that was refused, in the order of the file.
pub fn write_refused_deliveries<W: io::Write>(
    alloc: Global,
    w: &mut W,
    outcomes: &[Outcome],
    form: Form,
) -> io::Result<()> {
    for outcome in outcomes.iter() {
        if let Err(fault) = outcome.result {
            write_refused_delivery(alloc, w, outcome.statement, fault, form)?;
        }
    }
    Ok(())
}
