// A place and a refused delivery as JSON.
ghost use Rattle.std.specs.Prelude.{◌≡◌, ℕ, List, IfOk};
ghost use Rattle.hir_def.specs.Faults.{code_of};
ghost use Rattle.serde_json.specs.View.{view};
ghost use Rattle.wording.specs.Shown.{held};
ghost use Rattle.report_json.specs.PlaceJson.{line_data, place_data, place_held, refused_delivery_data};

use firmware::file::DeliveryStatement;
use hir_def::Namespace;
use hir_def::fault::{Fault, FaultCode};
use serde_json::{Value, json};
use std::alloc::{AllocError, Global};
use wording::holders::Holder;
use wording::names::VisibilityText;
use wording::places::{ToldText, by_word, kind_word, namespace_word};

/// A number, or null.
pub fn line_value(line: Option<usize>) -> Value
    ensures { view result ≡ line_data line }
{
    match line {
        Some(line) => Value::from(line as u64),
        None => Value::Null,
    }
}

fn place_object(
    alloc: Global,
    name: &str,
    module: &str,
    namespace: &str,
    def: &str,
    def_kind: &str,
    vis: &str,
    by: &str,
    line: &Value,
) -> Result<Value, AllocError>
    ensures { IfOk result (λ v. view v ≡ place_data name.now «module».now namespace.now def.now def_kind.now vis.now by.now (view line.now)) }
{
    json!(in alloc; {
        "kind": "place",
        "name": name,
        "module": module,
        "namespace": namespace,
        "def_kind": def_kind,
        "def": def,
        "visibility": vis,
        "by": by,
        "line": line
    })
}

/// A place and what holds it.
pub fn place_value(
    alloc: Global,
    names: &[&str],
    statement: &DeliveryStatement,
    namespace: Namespace,
    holder: Holder,
) -> Result<Value, AllocError>
    ensures { IfOk result (λ v. view v ≡ place_held (held names.now) statement.now.name.now statement.now.«module».now namespace holder.entry) }
{
    let def = ToldText(holder.told);
    let def = format!(in alloc; "{def}")?;
    let vis = VisibilityText {
        names,
        vis: holder.vis,
    };
    let vis = format!(in alloc; "{vis}")?;
    let line = line_value(holder.line);
    place_object(
        alloc,
        statement.name,
        statement.module,
        namespace_word(namespace),
        def.as_str(),
        kind_word(holder.told.def),
        vis.as_str(),
        by_word(holder.by_name),
        &line,
    )
}

fn refused_delivery_object(
    alloc: Global,
    statement: DeliveryStatement,
    code: FaultCode,
    why: &str,
) -> Result<Value, AllocError>
    ensures { IfOk result (λ v. view v ≡ refused_delivery_data statement.entry code why.now) }
{
    let layer = code.layer;
    let layer = format!(in alloc; "{layer}")?;
    let line = statement.line as u64;
    let place = code.place as u64;
    json!(in alloc; {
        "kind": "refused-delivery",
        "name": statement.name,
        "module": statement.module,
        "line": line,
        "layer": layer.as_str(),
        "number": code.number,
        "place": place,
        "why": why
    })
}

/// A delivery that was refused, and why. No clause tells the sentence of a refusal.
pub fn refused_delivery_value(
    alloc: Global,
    statement: DeliveryStatement,
    fault: Fault,
) -> Result<Value, AllocError>
    ensures { IfOk result (λ v. (why : List ℕ)
        × (view v ≡ refused_delivery_data statement.entry (code_of fault) why)) }
{
    let why = format!(in alloc; "{fault}")?;
    refused_delivery_object(alloc, statement, fault.code(), why.as_str())
}
