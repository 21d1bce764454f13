// What the rows of an index's tables are found by. A map's prelude module is found by the map.
//
// Equal keys are one and the same, which is the law of `LawfulEq`: a key finds its own row and no other.
ghost use Rattle.std.proofs.Common.{rules};

use hir_def::lawful_eq::LawfulEq;
use hir_def::{CrateId, EnumId, ModuleId, Name};
use item_scope::index_data::DefMapId;

/// A name in the extern prelude of a crate.
#[derive(Clone, Copy, PartialEq, Eq, Hash, Debug)]
pub struct CrateName {
    pub krate: CrateId,
    pub name: Name,
}

/// A name in the macro-use prelude of a map.
#[derive(Clone, Copy, PartialEq, Eq, Hash, Debug)]
pub struct MapName {
    pub map: DefMapId,
    pub name: Name,
}

/// A name among the legacy macros of a module.
#[derive(Clone, Copy, PartialEq, Eq, Hash, Debug)]
pub struct ModuleName {
    pub at: ModuleId,
    pub name: Name,
}

/// A name among the variants of an enum.
#[derive(Clone, Copy, PartialEq, Eq, Hash, Debug)]
pub struct EnumName {
    pub of: EnumId,
    pub name: Name,
}

impl LawfulEq for CrateName {
    ghost eq_is_identity = { Prim.search rules };
}

impl LawfulEq for MapName {
    ghost eq_is_identity = { Prim.search rules };
}

impl LawfulEq for ModuleName {
    ghost eq_is_identity = { Prim.search rules };
}

impl LawfulEq for EnumName {
    ghost eq_is_identity = { Prim.search rules };
}
