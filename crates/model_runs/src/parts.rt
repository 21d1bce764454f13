// What a pile of models has: the items of its parts, and the paths that are asked of it.
ghost use Rattle.std.specs.Prelude.{◌≡◌, ◌++◌, IfOk, OnOk, vec_items, map};
ghost use Rattle.std.specs.List.{flat_map};
ghost use Rattle.std.specs.Option.{option_map};
ghost use Rattle.firmware.specs.Parts.{items_in};
ghost use Rattle.model_runs.specs.Parts.{asking, asked_at, asked_in};

use cuts::asked::Ask;
use firmware::file::Firmware;
use firmware::pile::Part;
use firmware::survey::Survey;
use hir_def::ModuleDefId;
use std::alloc::{AllocError, Global};
use std::ops::Range;

/// The items of a kind that the parts declare, part by part.
pub fn items_of(
    alloc: Global,
    firmware: &Firmware,
    parts: &[Part],
) -> Result<Vec<ModuleDefId>, AllocError>
    ensures { IfOk result (λ v. vec_items v ≡ flat_map (items_in firmware.now) parts.now) }
{
    let mut items = Vec::new(alloc);
    for part in parts {
        items.extend_from_slice(firmware.definitions_of(*part))?;
    }
    Ok(items)
}

// The path with that number, if there is one and someone asks it.
fn ask_at<'s>(survey: &'s Survey<'_, '_>, number: usize) -> Option<Ask<'s>>
    ensures { option_map asking result ≡ asked_at survey.now number }
{
    let question = survey.firmware.questions.get(number).copied().flatten()?;
    let path = survey.paths.get(number)?;
    Some(Ask {
        number,
        question,
        path,
    })
}

// The paths of one more part that are asked.
#[tactic(auto, using(crate::proofs::Asking::ended))]
fn add_asks<'s>(
    survey: &'s Survey<'_, '_>,
    part: Part,
    asks: &mut Vec<Ask<'s>>,
) -> Result<(), AllocError>
    ensures { OnOk result (map asking (vec_items asks.new) ≡ map asking (vec_items asks.old) ++ asked_in survey.now part) }
{
    let Range { start, end } = survey.firmware.paths_of(part);
    for number in start..end {
        match ask_at(survey, number) {
            Some(ask) => asks.push(ask)?,
            None => (),
        }
    }
    Ok(())
}

/// The paths of the parts that are asked, part by part.
pub fn asks_of<'s>(
    alloc: Global,
    survey: &'s Survey<'_, '_>,
    parts: &[Part],
) -> Result<Vec<Ask<'s>>, AllocError>
    ensures { IfOk result (λ v. map asking (vec_items v) ≡ flat_map (asked_in survey.now) parts.now) }
{
    let mut asks = Vec::new(alloc);
    for part in parts {
        add_asks(survey, *part, &mut asks)?;
    }
    Ok(asks)
}
