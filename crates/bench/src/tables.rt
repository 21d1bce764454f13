// The tables of a world, and the index that they are loaded into.
use crate::numbers::{Numbers, list};
use hir_def::edition::Edition;
use hir_def::{BlockId, CrateId, EnumId, EnumVariantId, ExternCrateId, MacroId, ModuleId, Name};
use index_tables::keys::{CrateName, EnumName, MapName, ModuleName};
use index_tables::loaded_tables::IndexTables;
use item_scope::index_data::{CallStyles, DefMapId, EnumVariant, ExternPrelude, MacroUse};
use keyed::row::Row;
use nameres::tree_rows;
use nameres::tree_rows::{BlockRow, CrateRow, ModuleRow};
use std::alloc::Global;

#[derive(Drop)]
struct TreeRows {
    crates: Vec<CrateRow>,
    modules: Vec<ModuleRow>,
    blocks: Vec<BlockRow>,
}

#[derive(Drop)]
struct Preludes {
    extern_prelude: Vec<Row<CrateName, ExternPrelude>>,
    macro_use: Vec<Row<MapName, MacroUse>>,
    preludes: Vec<Row<DefMapId, ModuleId>>,
}

#[derive(Drop)]
struct Scoped {
    legacy: Vec<Row<ModuleName, MacroId>>,
    variants: Vec<Row<EnumName, EnumVariant>>,
}

#[derive(Drop)]
pub(crate) struct Tables {
    tree: TreeRows,
    names: u32,
    enums: u32,
    styles: Vec<CallStyles>,
    preludes: Preludes,
    scoped: Scoped,
    /// How many rows the index is lent for its places.
    pub rows: usize,
}

fn edition(numbers: &mut Numbers) -> Option<Edition> {
    match numbers.next()? {
        2015 => Some(Edition::Edition2015),
        2018 => Some(Edition::Edition2018),
        2021 => Some(Edition::Edition2021),
        2024 => Some(Edition::Edition2024),
        _ => None,
    }
}

fn krate(numbers: &mut Numbers) -> Option<CrateRow> {
    Some(CrateRow {
        edition: edition(numbers)?,
        root: ModuleId(numbers.next()?),
    })
}

fn module(numbers: &mut Numbers) -> Option<ModuleRow> {
    Some(ModuleRow {
        krate: CrateId(numbers.next()?),
        block: numbers.optional()?.map(BlockId),
        parent: numbers.optional()?.map(ModuleId),
    })
}

fn block(numbers: &mut Numbers) -> Option<BlockRow> {
    Some(BlockRow {
        root: ModuleId(numbers.next()?),
        outside: ModuleId(numbers.next()?),
    })
}

// 1 for `m!()`, 2 for `#[m]`, 4 for `#[derive(m)]`, added up.
fn styles(numbers: &mut Numbers) -> Option<CallStyles> {
    let sum = numbers.next()?;
    Some(CallStyles {
        fn_like: sum & 1 != 0,
        attr: sum & 2 != 0,
        derive: sum & 4 != 0,
    })
}

// 0 and a crate's number, or 1 and a block's.
fn map(numbers: &mut Numbers) -> Option<DefMapId> {
    let is_block = numbers.next()? != 0;
    let number = numbers.next()?;
    Some(if is_block {
        DefMapId::Block(BlockId(number))
    } else {
        DefMapId::Crate(CrateId(number))
    })
}

fn extern_row(numbers: &mut Numbers) -> Option<Row<CrateName, ExternPrelude>> {
    Some(Row {
        key: CrateName {
            krate: CrateId(numbers.next()?),
            name: Name(numbers.next()?),
        },
        value: ExternPrelude {
            module: ModuleId(numbers.next()?),
            extern_crate: numbers.optional()?.map(ExternCrateId),
        },
    })
}

fn macro_use_row(numbers: &mut Numbers) -> Option<Row<MapName, MacroUse>> {
    Some(Row {
        key: MapName {
            map: map(numbers)?,
            name: Name(numbers.next()?),
        },
        value: MacroUse {
            def: MacroId(numbers.next()?),
            extern_crate: numbers.optional()?.map(ExternCrateId),
        },
    })
}

fn prelude_row(numbers: &mut Numbers) -> Option<Row<DefMapId, ModuleId>> {
    Some(Row {
        key: map(numbers)?,
        value: ModuleId(numbers.next()?),
    })
}

fn legacy_row(numbers: &mut Numbers) -> Option<Row<ModuleName, MacroId>> {
    Some(Row {
        key: ModuleName {
            at: ModuleId(numbers.next()?),
            name: Name(numbers.next()?),
        },
        value: MacroId(numbers.next()?),
    })
}

fn variant_row(numbers: &mut Numbers) -> Option<Row<EnumName, EnumVariant>> {
    Some(Row {
        key: EnumName {
            of: EnumId(numbers.next()?),
            name: Name(numbers.next()?),
        },
        value: EnumVariant {
            variant: EnumVariantId(numbers.next()?),
            has_constructor: numbers.next()? != 0,
        },
    })
}

fn read_tree(alloc: Global, numbers: &mut Numbers) -> Option<TreeRows> {
    let crates = list(alloc, numbers, krate)?;
    let modules = list(alloc, numbers, module)?;
    Some(TreeRows {
        crates,
        modules,
        blocks: list(alloc, numbers, block)?,
    })
}

fn read_preludes(alloc: Global, numbers: &mut Numbers) -> Option<Preludes> {
    let extern_prelude = list(alloc, numbers, extern_row)?;
    let macro_use = list(alloc, numbers, macro_use_row)?;
    Some(Preludes {
        extern_prelude,
        macro_use,
        preludes: list(alloc, numbers, prelude_row)?,
    })
}

fn read_scoped(alloc: Global, numbers: &mut Numbers) -> Option<Scoped> {
    let legacy = list(alloc, numbers, legacy_row)?;
    Some(Scoped {
        legacy,
        variants: list(alloc, numbers, variant_row)?,
    })
}

impl Tables {
    pub(crate) fn read(alloc: Global, numbers: &mut Numbers) -> Option<Tables> {
        let tree = read_tree(alloc, numbers)?;
        let names = numbers.next()?;
        let enums = numbers.next()?;
        let styles = list(alloc, numbers, styles)?;
        let preludes = read_preludes(alloc, numbers)?;
        let scoped = read_scoped(alloc, numbers)?;
        Some(Tables {
            tree,
            names,
            enums,
            styles,
            preludes,
            scoped,
            rows: numbers.next()? as usize,
        })
    }

    pub(crate) fn lend(&self) -> IndexTables {
        let TreeRows {
            crates,
            modules,
            blocks,
        } = &self.tree;
        IndexTables {
            tree: tree_rows::Tables {
                modules: modules.as_slice(),
                blocks: blocks.as_slice(),
                crates: crates.as_slice(),
            },
            names: self.names,
            enums: self.enums,
            macros: u32::try_from(self.styles.len()).unwrap_or(u32::MAX),
            extern_prelude: self.preludes.extern_prelude.as_slice(),
            macro_use: self.preludes.macro_use.as_slice(),
            preludes: self.preludes.preludes.as_slice(),
            legacy: self.scoped.legacy.as_slice(),
            variants: self.scoped.variants.as_slice(),
            styles: self.styles.as_slice(),
        }
    }
}
