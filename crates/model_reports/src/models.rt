// The piles of a file's models, each made anew over the index of the base.
use crate::model_report::write_model;
use firmware::models::Model;
use firmware::pile::Pile;
use firmware::survey::Survey;
use item_scope::index::Index;
use model_runs::model_run::with_model;
use reports::style::Style;
use std::alloc::Global;
use std::io;

// A pile is at most three deep, so each depth has an arm.
fn write_pile<'a, I: Index, W: io::Write, E: io::Write>(
    alloc: Global,
    w: &mut W,
    progress: &mut E,
    path: &str,
    survey: &Survey<'_, 'a>,
    model: &Model<'a>,
    base: &I,
    style: Style,
) -> io::Result<()> {
    match model.pile {
        Pile::One(_) => write_model(alloc, w, progress, path, survey, model, base, style),
        Pile::Two(first, _) => {
            let first = with_model(alloc, survey.firmware, first, base)?;
            write_model(alloc, w, progress, path, survey, model, &first, style)
        }
        Pile::Three(first, second, _) => {
            let first = with_model(alloc, survey.firmware, first, base)?;
            let second = with_model(alloc, survey.firmware, second, &first)?;
            write_model(alloc, w, progress, path, survey, model, &second, style)
        }
    }
}

/// Writes the report on each model, in the order of the file, over the index that has the deliveries of the base. How far it has
/// come goes to `progress`, if the style asks for it.
pub fn write_models<I: Index, W: io::Write, E: io::Write>(
    alloc: Global,
    w: &mut W,
    progress: &mut E,
    path: &str,
    survey: &Survey,
    base: &I,
    style: Style,
) -> io::Result<()> {
    let all = survey.firmware.models.len();
    for (i, model) in survey.firmware.models.iter().enumerate() {
        if style.progress {
            let name = model.name;
            let number = i.saturating_add(1);
            writeln!(progress, "{path}: model {name}, {number} of {all}")?;
        }
        write_pile(alloc, w, progress, path, survey, model, base, style)?;
    }
    Ok(())
}
