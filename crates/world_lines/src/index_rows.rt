// The rows of a world that tell of its index beside the tree.
ghost use Rattle.std.specs.Prelude.{◌≡◌, ◌∷◌, ◌++◌, [], true, false, IfOk, MatchOption};
ghost use Rattle.world_commands.specs.Words.{ReadAs, parts_of};
ghost use Rattle.world_lines.specs.Rows.{IsExternRow, IsMacroUseRow, IsPreludeRow, IsLegacyRow, IsVariantRow};

use crate::words::{four, three, two};
use hir_def::{CrateId, EnumId, EnumVariantId, ExternCrateId, MacroId, ModuleId, Name};
use index_tables::keys::{CrateName, EnumName, MapName, ModuleName};
use item_scope::index_data::{CallStyles, DefMapId, EnumVariant, ExternPrelude, MacroUse};
use keyed::row::Row;
use source_text::number::number;
use std::alloc::{AllocError, Global};
use world_commands::fields::{map, optional, styles};

#[derive(Drop)]
pub(crate) struct IndexRows {
    pub enums: u32,
    pub styles: Vec<CallStyles>,
    pub extern_prelude: Vec<Row<CrateName, ExternPrelude>>,
    pub macro_use: Vec<Row<MapName, MacroUse>>,
    pub preludes: Vec<Row<DefMapId, ModuleId>>,
    pub legacy: Vec<Row<ModuleName, MacroId>>,
    pub variants: Vec<Row<EnumName, EnumVariant>>,
}

fn extern_row(rest: &str) -> Option<Row<CrateName, ExternPrelude>>
    ensures { ReadAs IsExternRow (parts_of 32 rest.now) result }
{
    let (krate, name, module, by) = four(rest)?;
    Some(Row {
        key: CrateName {
            krate: CrateId(number(krate)?),
            name: Name(number(name)?),
        },
        value: ExternPrelude {
            module: ModuleId(number(module)?),
            extern_crate: optional(by)?.map(ExternCrateId),
        },
    })
}

fn macro_use_row(rest: &str) -> Option<Row<MapName, MacroUse>>
    ensures { ReadAs IsMacroUseRow (parts_of 32 rest.now) result }
{
    let (of, name, def, by) = four(rest)?;
    Some(Row {
        key: MapName {
            map: map(of)?,
            name: Name(number(name)?),
        },
        value: MacroUse {
            def: MacroId(number(def)?),
            extern_crate: optional(by)?.map(ExternCrateId),
        },
    })
}

fn prelude_row(rest: &str) -> Option<Row<DefMapId, ModuleId>>
    ensures { ReadAs IsPreludeRow (parts_of 32 rest.now) result }
{
    let (of, module) = two(rest)?;
    Some(Row {
        key: map(of)?,
        value: ModuleId(number(module)?),
    })
}

fn legacy_row(rest: &str) -> Option<Row<ModuleName, MacroId>>
    ensures { ReadAs IsLegacyRow (parts_of 32 rest.now) result }
{
    let (at, name, def) = three(rest)?;
    Some(Row {
        key: ModuleName {
            at: ModuleId(number(at)?),
            name: Name(number(name)?),
        },
        value: MacroId(number(def)?),
    })
}

fn variant_row(rest: &str) -> Option<Row<EnumName, EnumVariant>>
    ensures { ReadAs IsVariantRow (parts_of 32 rest.now) result }
{
    let (of, name, variant, constructor) = four(rest)?;
    Some(Row {
        key: EnumName {
            of: EnumId(number(of)?),
            name: Name(number(name)?),
        },
        value: EnumVariant {
            variant: EnumVariantId(number(variant)?),
            has_constructor: match constructor {
                "0" => false,
                "1" => true,
                _ => return None,
            },
        },
    })
}

/// Pushes what a line was read as, or answers that it was not.
pub(crate) fn pushed<T: Drop>(rows: &mut Vec<T>, row: Option<T>) -> Result<bool, AllocError>
    ensures { IfOk result (λ told. MatchOption row ((told ≡ false) × (rows.new.items ≡ rows.old.items)) (λ r. (told ≡ true) × (rows.new.items ≡ rows.old.items ++ r ∷ []))) }
{
    match row {
        Some(row) => {
            rows.push(row)?;
            Ok(true)
        }
        None => Ok(false),
    }
}

/// Takes what a line was read as for a value, or answers that it was not.
pub(crate) fn set<T: Copy>(value: &mut T, told: Option<T>) -> bool
    ensures { MatchOption told ((result ≡ false) × (value.new ≡ value.old)) (λ t. (result ≡ true) × (value.new ≡ t)) }
{
    match told {
        Some(told) => {
            *value = told;
            true
        }
        None => false,
    }
}

impl IndexRows {
    pub(crate) fn new(alloc: Global) -> IndexRows {
        IndexRows {
            enums: 0,
            styles: Vec::new(alloc),
            extern_prelude: Vec::new(alloc),
            macro_use: Vec::new(alloc),
            preludes: Vec::new(alloc),
            legacy: Vec::new(alloc),
            variants: Vec::new(alloc),
        }
    }

    /// Takes in one line of these tables, or answers that it is none.
    pub(crate) fn read(&mut self, verb: &str, rest: &str) -> Result<bool, AllocError> {
        match verb {
            "enums" => Ok(set(&mut self.enums, number(rest))),
            "macro" => pushed(&mut self.styles, styles(rest)),
            "extern" => pushed(&mut self.extern_prelude, extern_row(rest)),
            "macrouse" => pushed(&mut self.macro_use, macro_use_row(rest)),
            "prelude" => pushed(&mut self.preludes, prelude_row(rest)),
            "legacy" => pushed(&mut self.legacy, legacy_row(rest)),
            "variant" => pushed(&mut self.variants, variant_row(rest)),
            _ => Ok(false),
        }
    }
}
