// A path written as text, its names by a name list.
ghost use Rattle.std.specs.Prelude.{◌≡◌, Bool, ◌++◌, IfOk, IfSome, OnOk, option_map};
ghost use Rattle.path_text.specs.Grammar.{supers, joined_to};
ghost use Rattle.path_text.specs.Written.{gap, start_text, leads, names_text, after, all_of, written_of, Spells};

use crate::mod_path::{ModPath, PathKind};
use crate::name_list::NameList;
use hir_def::Name;
use std::alloc::{AllocError, Global};

fn write_word(out: &mut Vec<u8>, led: bool, word: &[u8]) -> Result<(), AllocError>
    ensures { OnOk result (out.new.items ≡ out.old.items ++ gap led ++ word.now) }
{
    if led {
        out.extend_from_slice(b"::")?;
    }
    out.extend_from_slice(word)
}

// The word that begins a path of that kind, and how many `super` follow it.
fn start_of(kind: PathKind) -> (&'static [u8], u32)
    ensures { result.0.now ++ joined_to (supers result.1) ≡ start_text kind }
{
    match kind {
        PathKind::Plain | PathKind::Abs => (b"", 0),
        PathKind::Crate => (b"crate", 0),
        PathKind::DollarCrate(_) => (b"$crate", 0),
        PathKind::Super(0) => (b"self", 0),
        PathKind::Super(level) => (b"super", level - 1),
    }
}

fn write_start(out: &mut Vec<u8>, kind: PathKind) -> Result<(), AllocError>
    ensures { OnOk result (out.new.items ≡ out.old.items ++ start_text kind) }
{
    let (word, supers) = start_of(kind);
    out.extend_from_slice(word)?;
    for _ in 0..supers {
        out.extend_from_slice(b"::super")?;
    }
    Ok(())
}

fn leads_names(kind: PathKind) -> bool
    ensures { result ≡ leads kind }
{
    match kind {
        PathKind::Plain => false,
        _ => true,
    }
}

// Whether every name has a line.
#[tactic(auto, using(crate::proofs::Writing::one_line))]
fn write_names(
    out: &mut Vec<u8>,
    list: &NameList,
    led: bool,
    names: &[Name],
) -> Result<bool, AllocError>
    ensures { IfOk result (λ all. after out.old.items (names_text list.now led names.now) ≡ all_of all out.new.items) }
{
    let mut joins = led;
    let mut rest = names;
    while let Some((name, more)) = rest.split_first() {
        match list.text(*name) {
            Some(line) => write_word(out, joins, line)?,
            None => return Ok(false),
        }
        joins = true;
        rest = more;
    }
    Ok(true)
}

/// The text of a path, if the list has all its names. Where some text stands for a path of that kind with these names,
/// this one does.
pub fn write_path(
    alloc: Global,
    list: &NameList,
    path: &ModPath,
) -> Result<Option<Vec<u8>>, AllocError>
    ensures value { IfOk result
        (λ o. option_map (λ v. v.items) o ≡ written_of list.now path.now.kind path.now.names.items) }
    ensures spells { IfOk result (λ o. IfSome o (λ v. Spells list.now path.now.kind path.now.names.items v.items)) }
{
    let mut out = Vec::new(alloc);
    write_start(&mut out, path.kind)?;
    if write_names(
        &mut out,
        list,
        leads_names(path.kind),
        path.names.as_slice(),
    )? {
        Ok(Some(out))
    } else {
        Ok(None)
    }
}
