// Questions as a line says them.
ghost use Rattle.std.specs.Prelude.{◌≡◌, IfOk};
ghost use Rattle.world_commands.specs.Words.{ReadAs};
ghost use Rattle.world_commands.specs.Commands.{IsMode, IsShadow, IsExpected, IsKind, IsQuestion, IsNames, IsPath};
ghost use Rattle.std.specs.Option.{option_map};

use crate::fields::parts;
use hir_def::{CrateId, ModuleId, Name};
use path_resolution::question::{BuiltinShadowMode, MacroSubNs, Question, ResolveMode};
use path_text::mod_path::{ModPath, PathKind};
use source_text::number::number;
use std::alloc::{AllocError, Global};

fn mode(word: &str) -> Option<ResolveMode>
    ensures { ReadAs IsMode word.now result }
{
    match word {
        "import" => Some(ResolveMode::Import),
        "other" => Some(ResolveMode::Other),
        _ => None,
    }
}

fn shadow(word: &str) -> Option<BuiltinShadowMode>
    ensures { ReadAs IsShadow word.now result }
{
    match word {
        "module" => Some(BuiltinShadowMode::Module),
        "other" => Some(BuiltinShadowMode::Other),
        _ => None,
    }
}

fn expected(word: &str) -> Option<Option<MacroSubNs>>
    ensures { ReadAs IsExpected word.now result }
{
    match word {
        "-" => Some(None),
        "bang" => Some(Some(MacroSubNs::Bang)),
        "attr" => Some(Some(MacroSubNs::Attr)),
        _ => None,
    }
}

// `plain`, `abs`, `crate`, `super:LEVEL` or `dollar:CRATE`.
fn kind(word: &str) -> Option<PathKind>
    ensures { ReadAs IsKind word.now result }
{
    match word {
        "plain" => return Some(PathKind::Plain),
        "abs" => return Some(PathKind::Abs),
        "crate" => return Some(PathKind::Crate),
        _ => {}
    }
    if let Some(level) = word.strip_prefix("super:") {
        return Some(PathKind::Super(number(level)?));
    }
    let krate = word.strip_prefix("dollar:")?;
    Some(PathKind::DollarCrate(CrateId(number(krate)?)))
}

/// The words of a question beside those of its path.
pub(crate) fn question(asks: &str, at: &str, shadows: &str, expects: &str) -> Option<Question>
    ensures { ReadAs IsQuestion ((asks.now, at.now), (shadows.now, expects.now)) result }
{
    Some(Question {
        mode: mode(asks)?,
        original_module: ModuleId(number(at)?),
        shadow: shadow(shadows)?,
        expected_macro_subns: expected(expects)?,
    })
}

// Numbers with dots between them, or `-` for none.
#[tactic(auto, unfolding(crate::specs::Commands::IsNames))]
fn names(alloc: Global, word: &str) -> Result<Option<Vec<Name>>, AllocError>
    ensures { IfOk result (λ o. ReadAs IsNames word.now (option_map (λ v. v.items) o)) }
{
    let mut names = Vec::new(alloc);
    if word == "-" {
        return Ok(Some(names));
    }
    let words = parts(alloc, word, '.')?;
    for name in words.as_slice().iter() {
        match number(name) {
            Some(number) => names.push(Name(number))?,
            None => return Ok(None),
        }
    }
    Ok(Some(names))
}

/// The words of a path.
#[tactic(auto, unfolding(crate::specs::Commands::IsPath))]
pub(crate) fn path(alloc: Global, begins: &str, dotted: &str) -> Result<Option<ModPath>, AllocError>
    ensures { IfOk result (ReadAs IsPath (begins.now, dotted.now)) }
{
    let Some(kind) = kind(begins) else {
        return Ok(None);
    };
    Ok(names(alloc, dotted)?.map(|names| ModPath { kind, names }))
}
