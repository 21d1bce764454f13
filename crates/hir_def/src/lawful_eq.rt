// Equality that tells apart all that differs: equal values are one and the same.
ghost use Rattle.std.specs.Prelude.{◌≡◌, ◌↔◌, Decides, true};
ghost use Rattle.std.proofs.Common.{rules};

use crate::import::{ImportOrExternCrate, ImportOrGlob};
use crate::{BlockId, CrateId, MacroId, ModuleDefId, ModuleId, Name};

/// A type whose `==` answers true exactly at one and the same value.
pub trait LawfulEq: Copy + Eq {
    ghost eq_is_identity: { (a b : Self) → (Self.PartialEq.eq a b ≡ true) ↔ (a ≡ b) };
}

/// Whether the two are one and the same.
pub fn same<T: LawfulEq>(a: T, b: T) -> bool
    ensures value { result ≡ T.PartialEq.eq a b }
    ensures means { Decides result (a ≡ b) }
{
    a == b
}

impl LawfulEq for Name {
    ghost eq_is_identity = { Prim.search rules };
}

impl LawfulEq for ModuleId {
    ghost eq_is_identity = { Prim.search rules };
}

impl LawfulEq for CrateId {
    ghost eq_is_identity = { Prim.search rules };
}

impl LawfulEq for BlockId {
    ghost eq_is_identity = { Prim.search rules };
}

impl LawfulEq for ModuleDefId {
    ghost eq_is_identity = { Prim.search rules };
}

impl LawfulEq for MacroId {
    ghost eq_is_identity = { Prim.search rules };
}

impl LawfulEq for ImportOrExternCrate {
    ghost eq_is_identity = { Prim.search rules };
}

impl LawfulEq for ImportOrGlob {
    ghost eq_is_identity = { Prim.search rules };
}
