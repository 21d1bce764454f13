// A model as JSON: what it stands over, what two orders of its deliveries come to, its paths, what it keeps and cuts, its account.
ghost use Rattle.std.specs.Prelude.{◌≡◌, IfOk};
ghost use Rattle.serde_json.specs.View.{view};
ghost use Rattle.model_wording.specs.ModelJson.{text_data, model_data, place_data, order_data, orders_object, orders_data, path_data, item_data, through_data, asked_object, asked_data, by_data, by_line, kept_object, kept_data, cut_data, tally_data, paths_data, deliveries_data, account_data};

use crate::comparison::Comparison;
use crate::item_told::line_of;
use crate::model_told::{ModelAccount, ModelTold, order_word};
use crate::reason_told::{ReasonTold, variant_name};
use cuts::verdict::Tally;
use firmware::definition::Definition;
use firmware::file::DeliveryStatement;
use orders::order::Order;
use report_json::place_json::line_value;
use serde_json::{Value, json};
use std::alloc::{AllocError, Global};
use wording::counts::DeliveryCounts;
use wording::holders::{Holder, Told};
use wording::places::{ToldText, by_word, kind_word, namespace_word};

// A text, or null.
fn text_value(alloc: Global, text: Option<&str>) -> Result<Value, AllocError>
    ensures { IfOk result (λ v. view v ≡ text_data text.entry) }
{
    match text {
        Some(text) => Ok(Value::String(String::from_str(alloc, text)?)),
        None => Ok(Value::Null),
    }
}

/// A model, and what it stands over.
pub fn model_value(alloc: Global, told: ModelTold) -> Result<Value, AllocError>
    ensures { IfOk result (λ v. view v ≡ model_data told.entry.name.now told.entry.over told.entry.depth) }
{
    let over = text_value(alloc, told.over)?;
    let depth = told.depth as u64;
    json!(in alloc; {"kind": "model", "model": told.name, "over": over, "depth": depth})
}

// The place of a delivery, or null.
fn statement_value(alloc: Global, statement: Option<DeliveryStatement>) -> Result<Value, AllocError>
    ensures { IfOk result (λ v. view v ≡ place_data statement.entry) }
{
    let Some(statement) = statement else {
        return Ok(Value::Null);
    };
    let line = statement.line as u64;
    json!(in alloc; {"name": statement.name, "module": statement.module, "line": line})
}

fn order_value(alloc: Global, order: Option<Order>) -> Result<Value, AllocError>
    ensures { IfOk result (λ v. view v ≡ order_data order) }
{
    text_value(alloc, order.map(order_word))
}

fn orders_object(
    alloc: Global,
    model: &str,
    order: Option<Order>,
    agree: bool,
    differed: Option<DeliveryStatement>,
    parted: Option<DeliveryStatement>,
) -> Result<Value, AllocError>
    ensures { IfOk result (λ v. view v ≡ orders_object model.now order agree differed.entry parted.entry) }
{
    let order = order_value(alloc, order)?;
    let differed = statement_value(alloc, differed)?;
    let parted = statement_value(alloc, parted)?;
    json!(in alloc; {
        "kind": "orders",
        "model": model,
        "order": order,
        "agree": agree,
        "differed": differed,
        "parted": parted
    })
}

/// What two orders of a model's deliveries come to.
pub fn orders_value(alloc: Global, model: &str, comparison: Comparison) -> Result<Value, AllocError>
    ensures { IfOk result (λ v. view v ≡ orders_data model.now comparison.entry) }
{
    match comparison {
        Comparison::Alone => orders_object(alloc, model, None, true, None, None),
        Comparison::Agree(order, differed) => {
            orders_object(alloc, model, Some(order), true, differed, None)
        }
        Comparison::Parted(order, parted) => {
            orders_object(alloc, model, Some(order), false, None, parted)
        }
    }
}

// A path and the line of its statement.
fn path_at_value(alloc: Global, path: &[u8], line: Option<usize>) -> Result<Value, AllocError>
    ensures { IfOk result (λ v. view v ≡ path_data path.now line) }
{
    let path = String::from_utf8_lossy(alloc, path)?;
    let line = line_value(line);
    json!(in alloc; {"path": path.as_str(), "line": line})
}

/// What is told of a path that a model asks, as a value.
#[derive(Drop)]
pub enum PathSaid {
    Answer(Value),
    /// Why the path is not asked.
    Refusal(Value),
}

fn asked_object(
    alloc: Global,
    model: &str,
    path: &str,
    line: Option<usize>,
    answer: &Value,
    not_asked: &Value,
) -> Result<Value, AllocError>
    ensures { IfOk result (λ v. view v ≡ asked_object model.now path.now line (view answer.now) (view not_asked.now)) }
{
    let line = line_value(line);
    json!(in alloc; {
        "kind": "model-path",
        "model": model,
        "path": path,
        "line": line,
        "answer": answer,
        "refused": not_asked
    })
}

/// A path that a model asks, with its answer or its refusal, and null for the other.
pub fn model_path_value(
    alloc: Global,
    model: &str,
    path: &str,
    line: Option<usize>,
    said: &PathSaid,
) -> Result<Value, AllocError>
    ensures { IfOk result (λ v. view v ≡ asked_data model.now path.now line said.now) }
{
    match said {
        PathSaid::Answer(answer) => asked_object(alloc, model, path, line, answer, &Value::Null),
        PathSaid::Refusal(why) => asked_object(alloc, model, path, line, &Value::Null, why),
    }
}

// An item and the line of its statement.
fn declared_value(alloc: Global, item: Told) -> Result<Value, AllocError>
    ensures { IfOk result (λ v. view v ≡ item_data item.entry) }
{
    let def = ToldText(item);
    let def = format!(in alloc; "{def}")?;
    let line = line_value(line_of(item));
    json!(in alloc; {"def": def.as_str(), "def_kind": kind_word(item.def), "line": line})
}

// The namespace of an entry, the variant that it stands for, and the place that it came to.
fn through_value(
    alloc: Global,
    namespace: &str,
    variant: Option<&str>,
    place: Option<Definition>,
) -> Result<Value, AllocError>
    ensures { IfOk result (λ v. view v ≡ through_data namespace.now variant.entry place.entry) }
{
    let variant = text_value(alloc, variant)?;
    let name = text_value(alloc, place.map(|place| place.name))?;
    let module = text_value(alloc, place.map(|place| place.within))?;
    json!(in alloc; {"namespace": namespace, "variant": variant, "name": name, "module": module})
}

// Whether a name or a glob brought an entry, if there is one.
fn by_value(alloc: Global, holder: Option<Holder>) -> Result<Value, AllocError>
    ensures { IfOk result (λ v. view v ≡ by_data holder.entry) }
{
    text_value(alloc, holder.map(|holder| by_word(holder.by_name)))
}

// The line of the statement that brought an entry.
fn by_line_value(holder: Option<Holder>) -> Value
    ensures { view result ≡ by_line holder.entry }
{
    line_value(holder.and_then(|holder| holder.line))
}

fn kept_object(
    alloc: Global,
    model: &str,
    item: &Value,
    path: &Value,
    through: &Value,
    by: &Value,
    by_line: &Value,
) -> Result<Value, AllocError>
    ensures { IfOk result (λ v. view v ≡ kept_object model.now (view item.now) (view path.now) (view through.now) (view by.now) (view by_line.now)) }
{
    json!(in alloc; {
        "kind": "kept",
        "model": model,
        "item": item,
        "path": path,
        "through": through,
        "by": by,
        "by_line": by_line
    })
}

/// An item that is kept, and why.
pub fn kept_value(
    alloc: Global,
    model: &str,
    item: Told,
    reason: ReasonTold,
) -> Result<Value, AllocError>
    ensures { IfOk result (λ v. view v ≡ kept_data model.now item.entry reason.entry) }
{
    let item = declared_value(alloc, item)?;
    let path = path_at_value(alloc, reason.path, reason.line)?;
    let through = through_value(
        alloc,
        namespace_word(reason.namespace),
        variant_name(reason.holder),
        reason.place,
    )?;
    let by = by_value(alloc, reason.holder)?;
    let by_line = by_line_value(reason.holder);
    kept_object(alloc, model, &item, &path, &through, &by, &by_line)
}

/// An item that is cut.
pub fn cut_value(alloc: Global, model: &str, item: Told) -> Result<Value, AllocError>
    ensures { IfOk result (λ v. view v ≡ cut_data model.now item.entry) }
{
    let def = ToldText(item);
    let def = format!(in alloc; "{def}")?;
    let line = line_value(line_of(item));
    json!(in alloc; {
        "kind": "cut",
        "model": model,
        "def": def.as_str(),
        "def_kind": kind_word(item.def),
        "line": line
    })
}

fn paths_value(alloc: Global, asked: usize, not_asked: usize) -> Result<Value, AllocError>
    ensures { IfOk result (λ v. view v ≡ paths_data asked not_asked) }
{
    let asked = asked as u64;
    let not_asked = not_asked as u64;
    json!(in alloc; {"asked": asked, "refused": not_asked})
}

fn tally_value(alloc: Global, items: Tally) -> Result<Value, AllocError>
    ensures { IfOk result (λ v. view v ≡ tally_data items) }
{
    let kept = items.kept as u64;
    let cut = items.cut as u64;
    json!(in alloc; {"kept": kept, "cut": cut})
}

fn deliveries_value(alloc: Global, deliveries: DeliveryCounts) -> Result<Value, AllocError>
    ensures { IfOk result (λ v. view v ≡ deliveries_data deliveries) }
{
    let changed = deliveries.changed as u64;
    let unchanged = deliveries.unchanged as u64;
    let not_taken = deliveries.refused as u64;
    json!(in alloc; {"changed": changed, "unchanged": unchanged, "refused": not_taken})
}

/// The account of a model.
pub fn model_account_value(alloc: Global, account: ModelAccount) -> Result<Value, AllocError>
    ensures { IfOk result (λ v. view v ≡ account_data account.entry) }
{
    let paths = paths_value(alloc, account.asked, account.refused)?;
    let items = tally_value(alloc, account.items)?;
    let deliveries = deliveries_value(alloc, account.deliveries)?;
    let places = account.places as u64;
    json!(in alloc; {
        "kind": "model-account",
        "model": account.model,
        "paths": paths,
        "items": items,
        "deliveries": deliveries,
        "places": places
    })
}
