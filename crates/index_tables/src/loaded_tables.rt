// The tables of an index beside its places: they come in together, or are refused at the first row that is not good.
ghost use Rattle.std.specs.Prelude.{◌≡◌, ◌<◌, ◌^◌, Ok, Err, [], nat_le, length, if◌then◌else◌, IfOk, OnOk, OnErr};
ghost use Rattle.hir_def.specs.declared.fault.IndexFault.TheVariants.{BadRow};
ghost use Rattle.hir_def.specs.Faults.{OnMemory};
ghost use Rattle.nameres.specs.Rows.{rows_of};
ghost use Rattle.nameres.specs.Tabled.{rows_in as tree_rows_in};
ghost use Rattle.index_tables.specs.RowTests.{AnswersCount};
ghost use Rattle.index_tables.specs.IndexRows.{lent_rows, counts_of};
ghost use Rattle.index_tables.specs.Loading.{AnswersTree, AnswersLoad, BeginsGood, PassesTests, AcceptsGood};

use crate::keys::{CrateName, EnumName, MapName, ModuleName};
use crate::load_table::load_table;
use crate::numbers::Counts;
use hir_def::edition::Edition;
use hir_def::fault::{Failure, Fault, IndexFault, TreeFault};
use hir_def::{BlockId, CrateId, EnumId, MacroId, ModuleId, Name};
use item_scope::index_data::{CallStyles, DefMapId, EnumVariant, ExternPrelude, MacroUse};
use keyed::row::Row;
use keyed::table::Table;
use nameres::Tree;
use nameres::tree_rows::Tables;
use nameres::tree_table::TreeTable;
use std::alloc::{AllocError, Global};
use std::hash::{BuildHasher, Hash};

/// No index has more names.
pub const MOST_NAMES: u32 = 65_536;

/// The tables of an index beside its places, as the caller lends them.
#[derive(Clone, Copy, Debug)]
pub struct IndexTables<'a> {
    pub tree: Tables<'a>,
    pub names: u32,
    pub enums: u32,
    pub macros: u32,
    pub extern_prelude: &'a [Row<CrateName, ExternPrelude>],
    pub macro_use: &'a [Row<MapName, MacroUse>],
    pub preludes: &'a [Row<DefMapId, ModuleId>],
    pub legacy: &'a [Row<ModuleName, MacroId>],
    pub variants: &'a [Row<EnumName, EnumVariant>],
    /// Row `i` tells of macro `i`.
    pub styles: &'a [CallStyles],
}

/// What an index tells beside its places, from tables that the caller keeps. Every number that it tells exists, and no key has
/// two rows.
#[derive(Drop)]
pub struct LoadedTables<'a, S: BuildHasher> {
    tree: TreeTable<'a>,
    names: u32,
    enums: u32,
    macros: u32,
    extern_prelude: Table<&'a [Row<CrateName, ExternPrelude>], S>,
    macro_use: Table<&'a [Row<MapName, MacroUse>], S>,
    preludes: Table<&'a [Row<DefMapId, ModuleId>], S>,
    legacy: Table<&'a [Row<ModuleName, MacroId>], S>,
    variants: Table<&'a [Row<EnumName, EnumVariant>], S>,
    styles: &'a [CallStyles],
    hash_builder: S,
    pub ghost good: { PassesTests (record {
      tree = tree_rows_in tree;
      names = names;
      enums = enums;
      macros = macros;
      extern_prelude = extern_prelude.entries;
      macro_use = macro_use.entries;
      preludes = preludes.entries;
      legacy = legacy.entries;
      variants = variants.entries;
      styles = styles.now;
    }) },
}

fn load_tree<'a>(tables: Tables<'a>) -> Result<TreeTable<'a>, TreeFault>
    ensures answers { AnswersTree (rows_of tables.entry) result }
    ensures holds { IfOk result (λ t. tree_rows_in t ≡ rows_of tables.entry) }
{
    let mut tree = TreeTable::new();
    tree.load(tables)?;
    Ok(tree)
}

fn counts_in(tree: &TreeTable, tables: &IndexTables) -> Counts
    requires { tree_rows_in tree.now ≡ rows_of tables.now.tree }
    ensures { result ≡ counts_of (lent_rows tables.now) }
{
    Counts {
        modules: tree.modules(),
        blocks: tree.blocks(),
        crates: tree.crates(),
        names: tables.names,
        enums: tables.enums,
        macros: tables.macros,
    }
}

fn check_names(names: u32) -> Result<(), IndexFault>
    ensures { result ≡ (if nat_le names 65536 then Ok tt else Err (BadRow 0)) }
{
    if names > MOST_NAMES {
        return Err(IndexFault::BadRow(0));
    }
    Ok(())
}

// The first row that is missing or beyond, if there are not as many rows as macros.
#[tactic(auto, using(crate::proofs::Turns::turns))]
fn check_styles(styles: &[CallStyles], macros: u32, from: usize) -> Result<(), IndexFault>
    requires { from < 2 ^ 40 }
    ensures { AnswersCount (length styles.now) macros from result }
{
    let wanted = macros as usize;
    if styles.len() == wanted {
        Ok(())
    } else {
        Err(IndexFault::BadRow(from + styles.len().min(wanted)))
    }
}

fn empty_table<'a, K: Copy + Hash, V: Copy, S: BuildHasher + Drop>(
    alloc: Global,
    hash_builder: S,
) -> Result<Table<&'a [Row<K, V>], S>, AllocError>
    ensures { IfOk result (λ t. t.entries ≡ []) }
{
    let rows: &'a [Row<K, V>] = &[];
    Table::new(alloc, hash_builder, rows)
}

impl<'a, S: BuildHasher + Copy> LoadedTables<'a, S> {
    ghost use Rattle.index_tables.specs.LoadedTables.{no_index_rows, rows_in};

    /// The tables of an index without crates and names. `hash_builder` makes the hashers of keys, and no answer depends on
    /// it. Fails where memory is wanting.
    pub fn new(alloc: Global, hash_builder: S) -> Result<Self, AllocError>
        ensures { IfOk result (λ t. rows_in t ≡ no_index_rows) }
    {
        Ok(LoadedTables {
            tree: TreeTable::new(),
            names: 0,
            enums: 0,
            macros: 0,
            extern_prelude: empty_table(alloc, hash_builder)?,
            macro_use: empty_table(alloc, hash_builder)?,
            preludes: empty_table(alloc, hash_builder)?,
            legacy: empty_table(alloc, hash_builder)?,
            variants: empty_table(alloc, hash_builder)?,
            styles: &[],
            hash_builder,
        })
    }

    // What is loaded of the tables.
    #[tactic(auto, using(crate::proofs::Turns::turns))]
    fn over(alloc: Global, hash_builder: S, tables: IndexTables<'a>) -> Result<Self, Failure<Fault>>
        ensures answers { AnswersLoad (lent_rows tables.entry) result }
        ensures holds { IfOk result (λ t. rows_in t ≡ lent_rows tables.entry) }
        ensures memory { OnMemory result (BeginsGood (lent_rows tables.entry)) }
    {
        let tree = load_tree(tables.tree)?;
        let counts = counts_in(&tree, &tables);
        check_names(tables.names)?;
        let extern_prelude = load_table(alloc, hash_builder, tables.extern_prelude, &counts, 3)?;
        let from = 3 + tables.extern_prelude.len();
        let macro_use = load_table(alloc, hash_builder, tables.macro_use, &counts, from)?;
        let from = from + tables.macro_use.len();
        let preludes = load_table(alloc, hash_builder, tables.preludes, &counts, from)?;
        let from = from + tables.preludes.len();
        let legacy = load_table(alloc, hash_builder, tables.legacy, &counts, from)?;
        let from = from + tables.legacy.len();
        let variants = load_table(alloc, hash_builder, tables.variants, &counts, from)?;
        check_styles(tables.styles, tables.macros, from + tables.variants.len())?;
        Ok(LoadedTables {
            tree,
            names: tables.names,
            enums: tables.enums,
            macros: tables.macros,
            extern_prelude,
            macro_use,
            preludes,
            legacy,
            variants,
            styles: tables.styles,
            hash_builder,
        })
    }

    /// Takes the tables in, in place of those that it had, or says which row is the first that is not good. The tree's tables
    /// come first; then rows are counted through the three counts, extern preludes, macro-use preludes, prelude modules,
    /// legacy macros, enum variants and the call styles of macros. Refused tables and want of memory leave it as it was; memory
    /// is not asked for before the tree and the count of names are tested.
    pub fn load(&mut self, alloc: Global, tables: IndexTables<'a>) -> Result<(), Failure<Fault>>
        ensures answers { AnswersLoad (lent_rows tables.entry) result }
        ensures accepted { AcceptsGood (lent_rows tables.entry) result }
        ensures holds { OnOk result (rows_in self.new ≡ lent_rows tables.entry) }
        ensures memory { OnMemory result (BeginsGood (lent_rows tables.entry)) }
        ensures untouched { OnErr result (self.new ≡ self.old) }
    {
        let loaded = LoadedTables::over(alloc, self.hash_builder, tables)?;
        *self = loaded;
        Ok(())
    }
}

impl<'a, S: BuildHasher> LoadedTables<'a, S> {
    ghost use Rattle.index_tables.specs.LoadedTables.{data_of};

    /// How many names there are; their numbers are those below it.
    pub fn names(&self) -> u32
        ensures { result ≡ (data_of self.now).names }
    {
        self.names
    }

    /// How many enums there are.
    pub fn enums(&self) -> u32
        ensures { result ≡ (data_of self.now).enums }
    {
        self.enums
    }

    /// How many macros there are.
    pub fn macro_count(&self) -> u32
        ensures { result ≡ (data_of self.now).macro_count }
    {
        self.macros
    }

    /// What the name means in the crate's extern prelude.
    pub fn extern_prelude(&self, krate: CrateId, name: Name) -> Option<ExternPrelude>
        ensures { result ≡ (data_of self.now).extern_prelude krate name }
    {
        self.extern_prelude.get(CrateName { krate, name })
    }

    /// What the name means in the map's macro-use prelude.
    pub fn macro_use(&self, map: DefMapId, name: Name) -> Option<MacroUse>
        ensures { result ≡ (data_of self.now).macro_use map name }
    {
        self.macro_use.get(MapName { map, name })
    }

    /// The map's prelude module.
    pub fn prelude(&self, map: DefMapId) -> Option<ModuleId>
        ensures { result ≡ (data_of self.now).prelude map }
    {
        self.preludes.get(map)
    }

    /// The last legacy macro of the name in the module.
    pub fn legacy_macro(&self, at: ModuleId, name: Name) -> Option<MacroId>
        ensures { result ≡ (data_of self.now).legacy at name }
    {
        self.legacy.get(ModuleName { at, name })
    }

    /// The enum's variant of the name.
    pub fn enum_variant(&self, of: EnumId, name: Name) -> Option<EnumVariant>
        ensures { result ≡ (data_of self.now).variant of name }
    {
        self.variants.get(EnumName { of, name })
    }

    /// How the macro may be called: in no way if it does not exist.
    pub fn call_styles(&self, m: MacroId) -> CallStyles
        ensures { result ≡ (data_of self.now).styles m }
    {
        let none = CallStyles {
            fn_like: false,
            attr: false,
            derive: false,
        };
        self.styles.get(m.0 as usize).copied().unwrap_or(none)
    }
}

impl<'a, S: BuildHasher> Tree for LoadedTables<'a, S> {
    ghost use Rattle.nameres.specs.Rows.{tree_of, row_number};
    ghost use Rattle.nameres.specs.Tabled.{rules_in};

    ghost shape = { λ s. tree_of (tree_rows_in s.tree) };

    ghost rank = { λ _. row_number };

    fn modules(&self) -> u32 {
        self.tree.modules()
    }

    fn blocks(&self) -> u32 {
        self.tree.blocks()
    }

    fn crates(&self) -> u32 {
        self.tree.crates()
    }

    fn krate(&self, m: ModuleId) -> CrateId {
        self.tree.krate(m)
    }

    fn block(&self, m: ModuleId) -> Option<BlockId> {
        self.tree.block(m)
    }

    fn parent(&self, m: ModuleId) -> Option<ModuleId> {
        self.tree.parent(m)
    }

    fn block_root(&self, b: BlockId) -> ModuleId {
        self.tree.block_root(b)
    }

    fn outside(&self, b: BlockId) -> ModuleId {
        self.tree.outside(b)
    }

    fn crate_root(&self, c: CrateId) -> ModuleId {
        self.tree.crate_root(c)
    }

    fn edition(&self, c: CrateId) -> Edition {
        self.tree.edition(c)
    }

    ghost ruled = { λ s. rules_in s.tree };
}
