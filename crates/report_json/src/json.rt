// The report as JSON, an object for each file, item, path and account.
ghost use Rattle.std.specs.Prelude.{◌≡◌, ℕ, List, IfOk, OnOk, false, map, vec_items};
ghost use Rattle.std.specs.Io.KnownBytes.{Appends};
ghost use Rattle.hir_def.specs.Faults.{code_of};
ghost use Rattle.serde_json.specs.Data.{string, array};
ghost use Rattle.serde_json.specs.View.{view, items_of};
ghost use Rattle.serde_json.specs.Written.{has_float};
ghost use Rattle.wording.specs.Shown.{held, module_text, visibility_text};
ghost use Rattle.report_json.specs.Json.{value_line, file_data, account_data, of_data, item_data, item_seen, module_data, seers_data, refused_data, name_data, names_data, numbers_data, path_object, path_data};

use firmware::file::Declared;
use hir_def::fault::{Fault, FaultCode};
use hir_def::{ModuleId, Name};
use path_text::mod_path::ModPath;
use path_text::name_list::NameList;
use paths::show::{kind_word, level_of};
use serde_json::{Value, json};
use std::alloc::{AllocError, Global};
use std::io;
use wording::items::AccountTold;
use wording::names::{ModuleText, VisibilityText};
use wording::range::Range;
use wording::seen::Seen;

fn module_name(alloc: Global, names: &[&str], of: ModuleId) -> Result<Value, AllocError>
    ensures { IfOk result (λ v. view v ≡ string (module_text (held names.now) of)) }
{
    let name = ModuleText { names, module: of };
    Ok(Value::String(format!(in alloc; "{name}")?))
}

fn module_names(alloc: Global, names: &[&str], modules: &[ModuleId]) -> Result<Value, AllocError>
    ensures { IfOk result (λ v. view v ≡ array (items_of (map (module_data (held names.now)) modules.now))) }
{
    let mut values = Vec::new(alloc);
    for module in modules {
        values.push(module_name(alloc, names, *module)?)?;
    }
    Ok(Value::Array(values))
}

// The names of the modules, where they are to be told.
fn seers_of(alloc: Global, names: &[&str], seen: &Seen, all: bool) -> Result<Value, AllocError>
    ensures { IfOk result (λ v. view v ≡ seers_data (held names.now) seen.now.seers all) }
{
    if !all {
        return Ok(Value::Null);
    }
    match &seen.seers {
        Some(seers) => module_names(alloc, names, seers.as_slice()),
        None => Ok(Value::Null),
    }
}

fn range_name(
    alloc: Global,
    names: &[&str],
    range: Range,
    of: ModuleId,
) -> Result<Value, AllocError>
    ensures { IfOk result (λ v. view v ≡ of_data (held names.now) range of) }
{
    match range {
        Range::All => Ok(Value::Null),
        _ => module_name(alloc, names, of),
    }
}

/// A file, and how much it has.
pub fn file_value(
    alloc: Global,
    path: &str,
    modules: u32,
    items: usize,
    paths: usize,
) -> Result<Value, AllocError>
    ensures { IfOk result (λ v. view v ≡ file_data path.now modules items paths) }
{
    let items = items as u64;
    let paths = paths as u64;
    json!(in alloc; {"kind": "file", "file": path, "modules": modules, "items": items, "paths": paths})
}

fn item_object(
    alloc: Global,
    item: Declared,
    vis: &str,
    range: &str,
    of: &Value,
    count: usize,
    seers: &Value,
) -> Result<Value, AllocError>
    ensures { IfOk result (λ v. view v ≡ item_data item.entry vis.now range.now (view of.now) count (view seers.now)) }
{
    let count = count as u64;
    json!(in alloc; {
        "kind": "item",
        "item": item.name,
        "module": item.module,
        "visibility": vis,
        "range": range,
        "of": of,
        "count": count,
        "seers": seers
    })
}

/// An item and who sees it.
pub fn item_value(
    alloc: Global,
    names: &[&str],
    item: Declared,
    seen: &Seen,
    all: bool,
) -> Result<Value, AllocError>
    ensures { IfOk result (λ v. view v ≡ item_seen (held names.now) item.entry seen.now all) }
{
    let vis = VisibilityText {
        names,
        vis: item.vis,
    };
    let vis = format!(in alloc; "{vis}")?;
    let range = seen.range.text(alloc)?;
    let name = range_name(alloc, names, seen.range, seen.of)?;
    let seers = seers_of(alloc, names, seen, all)?;
    item_object(
        alloc,
        item,
        vis.as_str(),
        range.as_str(),
        &name,
        seen.count,
        &seers,
    )
}

fn refused_object(
    alloc: Global,
    item: Declared,
    vis: &str,
    code: FaultCode,
    why: &str,
) -> Result<Value, AllocError>
    ensures { IfOk result (λ v. view v ≡ refused_data item.entry vis.now code why.now) }
{
    let layer = code.layer;
    let layer = format!(in alloc; "{layer}")?;
    let place = code.place as u64;
    json!(in alloc; {
        "kind": "refused",
        "item": item.name,
        "module": item.module,
        "visibility": vis,
        "layer": layer.as_str(),
        "number": code.number,
        "place": place,
        "why": why
    })
}

/// An item whose visibility names what does not exist. No clause tells the sentence of a refusal.
pub fn refused_value(
    alloc: Global,
    names: &[&str],
    item: Declared,
    fault: Fault,
) -> Result<Value, AllocError>
    ensures { IfOk result (λ v. (why : List ℕ)
        × (view v ≡ refused_data item.entry (visibility_text (held names.now) item.entry.vis) (code_of fault) why)) }
{
    let vis = VisibilityText {
        names,
        vis: item.vis,
    };
    let vis = format!(in alloc; "{vis}")?;
    let why = format!(in alloc; "{fault}")?;
    refused_object(alloc, item, vis.as_str(), fault.code(), why.as_str())
}

fn numbers_of(alloc: Global, names: &[Name]) -> Result<Value, AllocError>
    ensures { IfOk result (λ v. view v ≡ numbers_data names.now) }
{
    let mut values = Vec::new(alloc);
    for name in names {
        values.push(Value::from(name.0))?;
    }
    Ok(Value::Array(values))
}

/// A name by the list, or null.
pub(crate) fn name_value(alloc: Global, list: &NameList, name: Name) -> Result<Value, AllocError>
    ensures { IfOk result (λ v. view v ≡ name_data list.now name) }
{
    match list.text(name) {
        Some(line) => Ok(Value::String(String::from_utf8_lossy(alloc, line)?)),
        None => Ok(Value::Null),
    }
}

fn names_of(alloc: Global, list: &NameList, names: &[Name]) -> Result<Value, AllocError>
    ensures { IfOk result (λ v. view v ≡ names_data list.now names.now) }
{
    let mut values = Vec::new(alloc);
    for name in names {
        values.push(name_value(alloc, list, *name)?)?;
    }
    Ok(Value::Array(values))
}

fn path_json(
    alloc: Global,
    text: &str,
    start: &str,
    level: u32,
    names: &Value,
    numbers: &Value,
) -> Result<Value, AllocError>
    ensures { IfOk result (λ v. view v ≡ path_object text.now start.now level (view names.now) (view numbers.now)) }
{
    json!(in alloc; {
        "kind": "path",
        "path": text,
        "start": start,
        "level": level,
        "names": names,
        "numbers": numbers
    })
}

/// A path and what it was read as.
pub fn path_value(
    alloc: Global,
    text: &[u8],
    list: &NameList,
    path: &ModPath,
) -> Result<Value, AllocError>
    ensures { IfOk result (λ v. view v ≡ path_data list.now text.now path.now.kind (vec_items path.now.names)) }
{
    let text = String::from_utf8_lossy(alloc, text)?;
    let names = names_of(alloc, list, path.names.as_slice())?;
    let numbers = numbers_of(alloc, path.names.as_slice())?;
    let start = kind_word(path.kind);
    let level = level_of(path.kind);
    path_json(alloc, text.as_str(), start, level, &names, &numbers)
}

/// The account of a file.
pub fn account_value(alloc: Global, told: AccountTold) -> Result<Value, AllocError>
    ensures { IfOk result (λ v. view v ≡ account_data told.account told.modules told.paths told.deliveries) }
{
    let paths = told.paths as u64;
    let changed = told.deliveries.changed as u64;
    let unchanged = told.deliveries.unchanged as u64;
    let not_taken = told.deliveries.refused as u64;
    json!(in alloc; {
        "kind": "account",
        "items": told.account.items,
        "modules": told.modules,
        "seen": told.account.seen,
        "hidden": told.account.hidden,
        "refused": told.account.refused,
        "paths": paths,
        "changed": changed,
        "unchanged": unchanged,
        "refused_deliveries": not_taken
    })
}

/// A value as a line.
#[tactic(auto, unfolding(crate::specs::Json::value_line))]
pub fn write_value<W: io::Write>(alloc: Global, w: &mut W, value: &Value) -> io::Result<()>
    ensures { OnOk result (has_float (view value.now) ≡ false
        → Appends (W.contents w.old) (W.contents w.new) (value_line (view value.now))) }
{
    let text = value.to_string(alloc)?;
    writeln!(w, "{text}")
}
