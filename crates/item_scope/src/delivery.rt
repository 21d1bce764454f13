// Deliveries: what a name of a module is to stand for, and how it comes to the name's places.
ghost use Rattle.std.specs.Prelude.{◌≡◌, Some, Option};
ghost use Rattle.std.specs.Option.{option_map};
ghost use Rattle.item_scope.specs.Deliveries.{under_import, brought, filled};
ghost use Rattle.item_scope.specs.Globs.{by_glob, wide_glob};

use crate::steps::ImportKind;
use entries::per_ns::{Item, PerNs};
use hir_def::import::{ImportOrExternCrate, import_or_glob};
use hir_def::{ModuleId, Name};

/// What a name of the receiving module is to stand for, an entry for each namespace that is filled, and the import that brings
/// it, if one does.
#[derive(Clone, Copy, PartialEq, Eq, Debug)]
pub struct Delivery {
    pub receiver: ModuleId,
    pub name: Name,
    pub entries: PerNs,
    pub import: Option<ImportOrExternCrate>,
}

// The entry, if there is one, under the import, whatever import it had.
fn under_import<Def: Copy, Import: Copy>(
    entry: Option<Item<Def, Import>>,
    import: Option<Import>,
) -> Option<Item<Def, Import>>
    ensures { result ≡ option_map (under_import import) entry }
{
    entry.map(|item| Item { import, ..item })
}

impl Delivery {
    /// Whether a glob import makes it.
    pub fn is_by_glob(&self) -> bool
        ensures { result ≡ by_glob wide_glob self.now.import }
    {
        self.import.is_some_and(|import| import.is_glob())
    }

    /// How many namespaces it fills, from 0 to 3.
    pub fn filled(&self) -> usize
        ensures { result ≡ filled self.now }
    {
        let PerNs {
            types,
            values,
            macros,
        } = self.entries;
        types.is_some() as usize + values.is_some() as usize + macros.is_some() as usize
    }

    /// The entries as they come to their places: under the delivery's import, whatever import they had. Values keep no import
    /// by an extern crate.
    pub fn brought(&self) -> PerNs
        ensures { result ≡ brought self.now }
    {
        PerNs {
            types: under_import(self.entries.types, self.import),
            values: under_import(self.entries.values, import_or_glob(self.import)),
            macros: under_import(self.entries.macros, self.import),
        }
    }
}
