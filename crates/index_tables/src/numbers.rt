// Which rows name only what exists.
ghost use Rattle.std.specs.Prelude.{◌≡◌, Bool};
ghost use Rattle.item_scope.specs.IndexData.{map_in};
ghost use Rattle.index_tables.specs.Numbers.{counted, extern_prelude_in, macro_use_in, prelude_in, legacy_in, variant_in};
ghost use Rattle.index_tables.specs.declared.numbers.Counts.{Counts as Counted};

use crate::keys::{CrateName, EnumName, MapName, ModuleName};
use hir_def::{MacroId, ModuleId};
use item_scope::index_data::{DefMapId, EnumVariant, ExternPrelude, MacroUse};
use std::hash::Hash;

/// How many of each kind there are.
#[derive(Clone, Copy, Debug)]
pub(crate) struct Counts {
    pub(crate) modules: u32,
    pub(crate) blocks: u32,
    pub(crate) crates: u32,
    pub(crate) names: u32,
    pub(crate) enums: u32,
    pub(crate) macros: u32,
}

/// A key whose rows can be tested.
pub(crate) trait NumbersExist<V>: Copy + Hash {
    ghost exist: { Counted → Self → V → Bool };

    /// Whether every number in a row of the key exists.
    fn numbers_exist(&self, value: V, counts: &Counts) -> bool
        ensures { result ≡ exist counts.now self.now value };
}

fn is_map(map: DefMapId, counts: &Counts) -> bool
    ensures { result ≡ map_in (counted counts.now) map }
{
    match map {
        DefMapId::Block(b) => b.0 < counts.blocks,
        DefMapId::Crate(c) => c.0 < counts.crates,
    }
}

impl NumbersExist<ExternPrelude> for CrateName {
    ghost exist = { extern_prelude_in };

    fn numbers_exist(&self, value: ExternPrelude, counts: &Counts) -> bool {
        self.krate.0 < counts.crates
            && self.name.0 < counts.names
            && value.module.0 < counts.modules
    }
}

impl NumbersExist<MacroUse> for MapName {
    ghost exist = { macro_use_in };

    fn numbers_exist(&self, value: MacroUse, counts: &Counts) -> bool {
        is_map(self.map, counts) && self.name.0 < counts.names && value.def.0 < counts.macros
    }
}

impl NumbersExist<ModuleId> for DefMapId {
    ghost exist = { prelude_in };

    fn numbers_exist(&self, value: ModuleId, counts: &Counts) -> bool {
        is_map(*self, counts) && value.0 < counts.modules
    }
}

impl NumbersExist<MacroId> for ModuleName {
    ghost exist = { legacy_in };

    fn numbers_exist(&self, value: MacroId, counts: &Counts) -> bool {
        self.at.0 < counts.modules && self.name.0 < counts.names && value.0 < counts.macros
    }
}

impl NumbersExist<EnumVariant> for EnumName {
    ghost exist = { variant_in };

    fn numbers_exist(&self, _value: EnumVariant, counts: &Counts) -> bool {
        self.of.0 < counts.enums && self.name.0 < counts.names
    }
}
