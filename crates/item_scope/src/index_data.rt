// What an index tells beside its tree and its places.
ghost use Rattle.std.proofs.Common.{rules};

use hir_def::lawful_eq::LawfulEq;
use hir_def::{BlockId, CrateId, EnumVariantId, ExternCrateId, MacroId, ModuleId};

/// The map that a module is in: its block's, or its crate's where it is in no block.
#[derive(Clone, Copy, PartialEq, Eq, Hash, Debug)]
pub enum DefMapId {
    Block(BlockId),
    Crate(CrateId),
}

// A law: equal maps are one and the same.
impl LawfulEq for DefMapId {
    ghost eq_is_identity = { Prim.search rules };
}

/// What a name means in the extern prelude of a crate: a module, in Rust another crate's root, and the `extern crate` item
/// that brought it, if one did.
#[derive(Clone, Copy, PartialEq, Eq, Debug)]
pub struct ExternPrelude {
    pub module: ModuleId,
    pub extern_crate: Option<ExternCrateId>,
}

/// What a name means in the macro-use prelude of a map: a macro, and the `extern crate` item whose `#[macro_use]` brought
/// it, if one did.
#[derive(Clone, Copy, PartialEq, Eq, Debug)]
pub struct MacroUse {
    pub def: MacroId,
    pub extern_crate: Option<ExternCrateId>,
}

/// A variant of an enum. One with a value constructor is a value too.
#[derive(Clone, Copy, PartialEq, Eq, Debug)]
pub struct EnumVariant {
    pub variant: EnumVariantId,
    pub has_constructor: bool,
}

/// How a macro may be called: `m!()`, `#[m]`, `#[derive(m)]`.
#[derive(Clone, Copy, PartialEq, Eq, Debug)]
pub struct CallStyles {
    pub fn_like: bool,
    pub attr: bool,
    pub derive: bool,
}
