// Card models: their statements, and which of a file's deliveries, paths and items are each part's own.
ghost use Rattle.std.specs.Prelude.{◌≡◌, slice_range, vec_items};
ghost use Rattle.firmware.specs.Models.{reached, mark_at, began, ended, paths_between};

use crate::file::{DeliveryStatement, Firmware};
use crate::pile::{Part, Pile};
use hir_def::ModuleDefId;
use std::ops::Range;

/// How many deliveries, paths and items of a kind a file has told up to a statement.
#[derive(Clone, Copy)]
pub struct Mark {
    deliveries: usize,
    paths: usize,
    items: usize,
}

/// A card model: places of its own over the firmware tree or over another model.
#[derive(Clone, Copy)]
pub struct Model<'a> {
    pub name: &'a str,
    /// Lines count from 1.
    pub line: usize,
    /// The last of it is the model itself.
    pub pile: Pile,
    /// Where its part of the file begins.
    pub began: Mark,
}

// What stands between two places of a list.
fn between<T>(items: &[T], began: usize, ended: usize) -> &[T]
    ensures { result.now ≡ slice_range items.now began ended }
{
    items.get(began..ended.min(items.len())).unwrap_or(&[])
}

impl<'a> Firmware<'a> {
    /// As far as the file has come.
    pub fn reached(&self) -> Mark
        ensures { result ≡ reached self.now }
    {
        Mark {
            deliveries: self.deliveries.len(),
            paths: self.paths.len(),
            items: self.definitions.of_a_kind.len(),
        }
    }

    // Where the part of the model with that index begins; after the last one, where the file ends.
    fn mark_at(&self, model: usize) -> Mark
        ensures { result ≡ mark_at self.now model }
    {
        match self.models.get(model) {
            Some(model) => model.began,
            None => self.reached(),
        }
    }

    fn began(&self, part: Part) -> Mark
        ensures { result ≡ began self.now part }
    {
        match part {
            Part::Base => Mark {
                deliveries: 0,
                paths: 0,
                items: 0,
            },
            Part::Model(model) => self.mark_at(model),
        }
    }

    fn ended(&self, part: Part) -> Mark
        ensures { result ≡ ended self.now part }
    {
        match part {
            Part::Base => self.mark_at(0),
            Part::Model(model) => self.mark_at(model.saturating_add(1)),
        }
    }

    /// The deliveries that the part's own statements make, in their order; none where there is no such model.
    pub fn deliveries_of(&self, part: Part) -> &[DeliveryStatement<'a>]
        ensures { result.now ≡ slice_range (vec_items self.now.deliveries) (began self.now part).deliveries (ended self.now part).deliveries }
    {
        let began = self.began(part).deliveries;
        between(
            self.deliveries.as_slice(),
            began,
            self.ended(part).deliveries,
        )
    }

    /// The positions of the part's own paths in `Survey::paths` and in `questions`.
    pub fn paths_of(&self, part: Part) -> Range<usize>
        ensures { result ≡ paths_between (began self.now part) (ended self.now part) }
    {
        Range {
            start: self.began(part).paths,
            end: self.ended(part).paths,
        }
    }

    /// The items of a kind that the part declares, legacy macros among them, in the order of their statements.
    pub fn definitions_of(&self, part: Part) -> &[ModuleDefId]
        ensures { result.now ≡ slice_range (vec_items self.now.definitions.of_a_kind) (began self.now part).items (ended self.now part).items }
    {
        let began = self.began(part).items;
        between(
            self.definitions.of_a_kind.as_slice(),
            began,
            self.ended(part).items,
        )
    }
}
