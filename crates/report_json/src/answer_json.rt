// The answer to a path as JSON.
ghost use Rattle.std.specs.Prelude.{◌≡◌, ℕ, List, IfOk, vec_items};
ghost use Rattle.hir_def.specs.Faults.{code_of};
ghost use Rattle.serde_json.specs.View.{view};
ghost use Rattle.wording.specs.Shown.{held};
ghost use Rattle.report_json.specs.AnswerJson.{entry_data, entry_told, entries_data, entries_told, question_data, question_told, flags_data, answer_data, answer_told, found_data, stop_data, refused_path_data};

use crate::json::name_value;
use crate::place_json::line_value;
use entries::per_ns::PerNs;
use firmware::definitions::Definitions;
use firmware::survey::Survey;
use hir_def::fault::{Fault, FaultCode};
use hir_def::{Name, Namespace};
use path_resolution::answer::ResolvePathResult;
use path_resolution::question::Question;
use path_text::mod_path::ModPath;
use path_text::name_list::NameList;
use serde_json::{Value, json};
use std::alloc::{AllocError, Global};
use wording::answers::{macro_word, mode_word, shadow_word, status_word};
use wording::holders::{Holder, entry_holder};
use wording::names::{ModuleText, VisibilityText};
use wording::places::{ToldText, by_word, kind_word};

fn entry_object(
    alloc: Global,
    def: &str,
    def_kind: &str,
    vis: &str,
    by: &str,
    line: &Value,
) -> Result<Value, AllocError>
    ensures { IfOk result (λ v. view v ≡ entry_data def.now def_kind.now vis.now by.now (view line.now)) }
{
    json!(in alloc; {
        "def": def,
        "def_kind": def_kind,
        "visibility": vis,
        "by": by,
        "line": line
    })
}

// An entry, or null.
fn entry_value(alloc: Global, names: &[&str], holder: Option<Holder>) -> Result<Value, AllocError>
    ensures { IfOk result (λ v. view v ≡ entry_told (held names.now) holder.entry) }
{
    let Some(holder) = holder else {
        return Ok(Value::Null);
    };
    let def = ToldText(holder.told);
    let def = format!(in alloc; "{def}")?;
    let vis = VisibilityText {
        names,
        vis: holder.vis,
    };
    let vis = format!(in alloc; "{vis}")?;
    let line = line_value(holder.line);
    entry_object(
        alloc,
        def.as_str(),
        kind_word(holder.told.def),
        vis.as_str(),
        by_word(holder.by_name),
        &line,
    )
}

fn question_object(
    alloc: Global,
    from: &str,
    mode: &str,
    shadow: &str,
    expected: &str,
) -> Result<Value, AllocError>
    ensures { IfOk result (λ v. view v ≡ question_data from.now mode.now shadow.now expected.now) }
{
    json!(in alloc; {"from": from, "mode": mode, "shadow": shadow, "macro": expected})
}

fn flags_object(
    alloc: Global,
    differing_crate: bool,
    enum_variant: bool,
) -> Result<Value, AllocError>
    ensures { IfOk result (λ v. view v ≡ flags_data differing_crate enum_variant) }
{
    json!(in alloc; {"differing_crate": differing_crate, "enum_variant": enum_variant})
}

fn answer_object(
    alloc: Global,
    question: &Value,
    entries: &Value,
    status: &str,
    index: &Value,
    name: &Value,
    flags: &Value,
) -> Result<Value, AllocError>
    ensures { IfOk result (λ v. view v ≡ answer_data (view question.now) (view entries.now) status.now (view index.now) (view name.now) (view flags.now)) }
{
    json!(in alloc; {
        "kind": "answer",
        "question": question,
        "entries": entries,
        "status": status,
        "index": index,
        "name": name,
        "flags": flags
    })
}

fn entries_object(
    alloc: Global,
    types: &Value,
    values: &Value,
    macros: &Value,
) -> Result<Value, AllocError>
    ensures { IfOk result (λ v. view v ≡ entries_data (view types.now) (view values.now) (view macros.now)) }
{
    json!(in alloc; {"types": types, "values": values, "macros": macros})
}

// A name of the path by the list, or null.
fn found_value(alloc: Global, list: &NameList, name: Option<Name>) -> Result<Value, AllocError>
    ensures { IfOk result (λ v. view v ≡ found_data list.now name) }
{
    match name {
        Some(name) => name_value(alloc, list, name),
        None => Ok(Value::Null),
    }
}

// The first name that was not resolved, or null.
fn stop_value(
    alloc: Global,
    list: &NameList,
    path: &[Name],
    index: Option<usize>,
) -> Result<Value, AllocError>
    ensures { IfOk result (λ v. view v ≡ stop_data list.now path.now index) }
{
    match index {
        Some(index) => found_value(alloc, list, path.get(index).copied()),
        None => Ok(Value::Null),
    }
}

fn entries_value(
    alloc: Global,
    names: &[&str],
    definitions: &Definitions,
    found: &PerNs,
) -> Result<Value, AllocError>
    ensures { IfOk result (λ v. view v ≡ entries_told (held names.now) definitions.now found.now) }
{
    let types = entry_holder(definitions, found, Namespace::Types);
    let types = entry_value(alloc, names, types)?;
    let values = entry_holder(definitions, found, Namespace::Values);
    let values = entry_value(alloc, names, values)?;
    let macros = entry_holder(definitions, found, Namespace::Macros);
    let macros = entry_value(alloc, names, macros)?;
    entries_object(alloc, &types, &values, &macros)
}

fn question_value(alloc: Global, names: &[&str], question: Question) -> Result<Value, AllocError>
    ensures { IfOk result (λ v. view v ≡ question_told (held names.now) question) }
{
    let from = ModuleText {
        names,
        module: question.original_module,
    };
    let from = format!(in alloc; "{from}")?;
    question_object(
        alloc,
        from.as_str(),
        mode_word(question.mode),
        shadow_word(question.shadow),
        macro_word(question.expected_macro_subns),
    )
}

/// What a path stands for where it is asked.
pub fn answer_value(
    alloc: Global,
    survey: &Survey,
    path: &ModPath,
    question: Question,
    answer: ResolvePathResult,
) -> Result<Value, AllocError>
    ensures { let f = survey.now.firmware.now in
        IfOk result (λ v. view v ≡ answer_told (held (vec_items f.names)) f.definitions survey.now.list.now
        (vec_items path.now.names) question answer) }
{
    let names = survey.firmware.names.as_slice();
    let definitions = &survey.firmware.definitions;
    let entries = entries_value(alloc, names, definitions, &answer.resolved_def)?;
    let question = question_value(alloc, names, question)?;
    let index = line_value(answer.segment_index);
    let name = stop_value(
        alloc,
        survey.list,
        path.names.as_slice(),
        answer.segment_index,
    )?;
    let flags = answer.prefix_info;
    let flags = flags_object(alloc, flags.differing_crate, flags.enum_variant)?;
    let status = status_word(answer.reached_fixedpoint);
    answer_object(alloc, &question, &entries, status, &index, &name, &flags)
}

fn refused_path_object(alloc: Global, code: FaultCode, why: &str) -> Result<Value, AllocError>
    ensures { IfOk result (λ v. view v ≡ refused_path_data code why.now) }
{
    let layer = code.layer;
    let layer = format!(in alloc; "{layer}")?;
    let place = code.place as u64;
    json!(in alloc; {
        "kind": "refused-path",
        "layer": layer.as_str(),
        "number": code.number,
        "place": place,
        "why": why
    })
}

/// A path that is not asked, and why. No clause tells the sentence of a refusal.
pub fn refused_path_value(alloc: Global, fault: Fault) -> Result<Value, AllocError>
    ensures { IfOk result (λ v. (why : List ℕ) × (view v ≡ refused_path_data (code_of fault) why)) }
{
    let why = format!(in alloc; "{fault}")?;
    refused_path_object(alloc, fault.code(), why.as_str())
}
