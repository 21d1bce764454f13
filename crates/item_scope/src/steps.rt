// The four steps by which an entry comes to a place: on an empty place it is stored; a glob never changes a held place; a
// named entry replaces what a glob holds; on a place held by name it replaces only what the same import brought before,
// if that stood for another def.
ghost use Rattle.std.specs.Prelude.{◌≡◌, Bool};
ghost use Rattle.item_scope.specs.Globs.{wide_glob, narrow_glob, by_glob};
ghost use Rattle.item_scope.specs.Holding.{KeepsNames};
ghost use Rattle.item_scope.specs.Places.{tests, takes, held, stepped, replayed};
ghost use Rattle.item_scope.specs.Shadowing.{Shadows};

use crate::place::Place;
use entries::per_ns::Item;
use hir_def::import::{ImportOrExternCrate, ImportOrGlob};
use hir_def::lawful_eq::LawfulEq;

/// The imports of a namespace, of which some are globs.
pub trait ImportKind: LawfulEq {
    ghost globs: { Self → Bool };

    /// Whether it is a glob.
    fn is_glob(self) -> bool
        ensures { result ≡ globs self };
}

impl ImportKind for ImportOrExternCrate {
    ghost globs = { wide_glob };

    fn is_glob(self) -> bool {
        matches!(self, ImportOrExternCrate::Glob(_))
    }
}

impl ImportKind for ImportOrGlob {
    ghost globs = { narrow_glob };

    fn is_glob(self) -> bool {
        matches!(self, ImportOrGlob::Glob(_))
    }
}

/// A place after an entry came, and whether that entry was stored there.
#[derive(Clone, Copy, PartialEq, Eq, Debug)]
pub struct Stepped<T> {
    pub place: Place<T>,
    pub changed: bool,
}

/// Whether a glob brought the entry.
pub fn is_by_glob<Def: Copy, Import: ImportKind>(entry: Item<Def, Import>) -> bool
    ensures { result ≡ by_glob Import.globs entry.import }
{
    entry.import.is_some_and(|import| import.is_glob())
}

// Whether the entry is stored there.
fn takes<Def: LawfulEq, Import: ImportKind>(
    place: Place<Item<Def, Import>>,
    new: Item<Def, Import>,
) -> bool
    ensures { result ≡ takes (tests Def.PartialEq.eq Import.globs Import.PartialEq.eq) place new }
{
    match place {
        Place::Empty => true,
        Place::ByGlob(_) => !is_by_glob(new),
        Place::ByName(old) => !is_by_glob(new) && old.is_reresolved_by(new.def, new.import),
    }
}

/// A place that the entry holds.
pub fn held_by<Def: LawfulEq, Import: ImportKind>(
    entry: Item<Def, Import>,
) -> Place<Item<Def, Import>>
    ensures { result ≡ held (tests Def.PartialEq.eq Import.globs Import.PartialEq.eq) entry }
{
    if is_by_glob(entry) {
        Place::ByGlob(entry)
    } else {
        Place::ByName(entry)
    }
}

/// The place when the entry has come, and whether that entry was stored there.
pub fn step<Def: LawfulEq, Import: ImportKind>(
    place: Place<Item<Def, Import>>,
    new: Item<Def, Import>,
) -> Stepped<Item<Def, Import>>
    ensures { result ≡ stepped (tests Def.PartialEq.eq Import.globs Import.PartialEq.eq) place new }
{
    let changed = takes(place, new);
    Stepped {
        place: if changed { held_by(new) } else { place },
        changed,
    }
}

/// The place when the entries have come one by one. What came by name holds it against every glob, and gives way only to what
/// its own import brings later, for another def.
pub fn replay<Def: LawfulEq, Import: ImportKind>(
    place: Place<Item<Def, Import>>,
    came: &[Item<Def, Import>],
) -> Place<Item<Def, Import>>
    ensures value { result ≡ replayed (tests Def.PartialEq.eq Import.globs Import.PartialEq.eq) place came.now }
    ensures shadows { Shadows (λ e. by_glob Import.globs e.import) place came.now result }
    ensures keeps { KeepsNames (λ e. by_glob Import.globs e.import) place came.now result }
{
    came.iter()
        .fold(place, |place, new| step(place, *new).place)
}
