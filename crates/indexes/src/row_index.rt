// An index over tables and over rows that hold the entries of its places.
ghost use Rattle.std.specs.Prelude.{◌≡◌, ◌+◌, [], ◌++◌, length, is_ok, refl, IfOk, OnOk, OnErr};
ghost use Rattle.hir_def.specs.Faults.{OnMemory};
ghost use Rattle.nameres.specs.Rows.{row_number};
ghost use Rattle.nameres.specs.Tabled.{rules_in};
ghost use Rattle.item_scope.specs.Views.{Sound};
ghost use Rattle.index_tables.specs.IndexRows.{lent_rows, data_from};
ghost use Rattle.index_tables.specs.LoadedTables.{data_of, no_index_rows};
ghost use Rattle.index_tables.specs.Loading.{AnswersLoad, AcceptsGood, BeginsGood};
ghost use Rattle.indexes.specs.Told.{view_of, no_places};
ghost use Rattle.indexes.specs.Storing.{told, all_free, rows_of, Stores};

use crate::place_rows::{PlaceRows, arrive_all};
use entries::per_ns::{MacrosItem, PerNs, TypesItem, ValuesItem};
use hir_def::edition::Edition;
use hir_def::fault::{Failure, Fault, IndexFault};
use hir_def::import::ImportOrExternCrate;
use hir_def::{BlockId, CrateId, EnumId, MacroId, ModuleId, Name};
use index_tables::loaded_tables::{IndexTables, LoadedTables};
use item_scope::delivery::Delivery;
use item_scope::index::{Index, Recipient};
use item_scope::index_data::{CallStyles, DefMapId, EnumVariant, ExternPrelude, MacroUse};
use item_scope::place::Place;
use item_scope::refusal::refusal;
use nameres::Tree;
use std::alloc::{AllocError, Global};
use std::hash::BuildHasher;

/// An index whose tables the caller keeps, and whose places are told by rows that the caller lends. Beside deliveries and
/// loads nothing changes it.
#[derive(Drop)]
pub struct RowIndex<'a, R: PlaceRows, S: BuildHasher> {
    tables: LoadedTables<'a, S>,
    rows: R,
    ghost sound: { Sound (view_of (data_of tables) (told R.storing (R.contents rows).entries)) },
}

impl<'a, R: PlaceRows, S: BuildHasher + Copy> RowIndex<'a, R, S> {
    ghost use Rattle.indexes.specs.RowIndexes.{view_in, left_in, contents_in, empty_index};

    // An index without crates and names.
    pub(crate) fn over(alloc: Global, hash_builder: S, rows: R) -> Result<Self, AllocError>
        requires { (R.contents rows).entries ≡ [] }
        ensures view { IfOk result (λ x. view_in x ≡ empty_index (data_from no_index_rows)) }
        ensures rows { IfOk result (λ x. contents_in x ≡ R.contents rows) }
    {
        Ok(RowIndex {
            tables: LoadedTables::new(alloc, hash_builder)?,
            rows,
        })
    }

    /// Takes tables in, in place of those that it had, or says which row is the first that is not good; see
    /// `LoadedTables::load`. Then every place is empty and all rows are free, and they stay as they are. Refused tables
    /// and want of memory leave it as it was.
    pub fn load(&mut self, alloc: Global, tables: IndexTables<'a>) -> Result<(), Failure<Fault>>
        ensures answers { AnswersLoad (lent_rows tables.entry) result }
        ensures accepted { AcceptsGood (lent_rows tables.entry) result }
        ensures view { OnOk result (view_in self.new ≡ empty_index (data_from (lent_rows tables.entry))) }
        ensures rows { OnOk result (contents_in self.new ≡ all_free (rows_of (contents_in self.old))) }
        ensures left { OnOk result (left_in self.new ≡ length (rows_of (contents_in self.old))) }
        ensures memory { OnMemory result (BeginsGood (lent_rows tables.entry)) }
        ensures same_view { OnErr result (view_in self.new ≡ view_in self.old) }
        ensures same_rows { OnErr result (contents_in self.new ≡ contents_in self.old) }
    {
        self.tables.load(alloc, tables)?;
        self.rows.clear();
        Ok(())
    }
}

impl<'a, R: PlaceRows, S: BuildHasher> RowIndex<'a, R, S> {
    ghost use Rattle.indexes.specs.RowIndexes.{contents_in, Receives};

    /// Takes the entries of a delivery in by the four steps, and answers whether any namespace changed; or refuses the
    /// delivery, and changes nothing.
    pub fn deliver(&mut self, delivery: Delivery) -> Result<bool, IndexFault>
        ensures takes { Receives self.old delivery result self.new }
        ensures stores { Stores R.storing (contents_in self.old) delivery (is_ok result) (contents_in self.new) }
    {
        if let Some(fault) = refusal(&*self, &delivery) {
            return Err(fault);
        }
        Ok(arrive_all(&mut self.rows, &delivery))
    }
}

impl<'a, R: PlaceRows, S: BuildHasher> Tree for RowIndex<'a, R, S> {
    ghost shape = { λ s. (data_of s.tables).tree };

    ghost rank = { λ _. row_number };

    fn modules(&self) -> u32 {
        self.tables.modules()
    }

    fn blocks(&self) -> u32 {
        self.tables.blocks()
    }

    fn crates(&self) -> u32 {
        self.tables.crates()
    }

    fn krate(&self, m: ModuleId) -> CrateId {
        self.tables.krate(m)
    }

    fn block(&self, m: ModuleId) -> Option<BlockId> {
        self.tables.block(m)
    }

    fn parent(&self, m: ModuleId) -> Option<ModuleId> {
        self.tables.parent(m)
    }

    fn block_root(&self, b: BlockId) -> ModuleId {
        self.tables.block_root(b)
    }

    fn outside(&self, b: BlockId) -> ModuleId {
        self.tables.outside(b)
    }

    fn crate_root(&self, c: CrateId) -> ModuleId {
        self.tables.crate_root(c)
    }

    fn edition(&self, c: CrateId) -> Edition {
        self.tables.edition(c)
    }

    ghost ruled = { λ s. rules_in s.tables.tree };
}

impl<'a, R: PlaceRows, S: BuildHasher> Index for RowIndex<'a, R, S> {
    ghost view = { λ s. view_of (data_of s.tables) (told R.storing (R.contents s.rows).entries) };

    ghost left = { λ s. length (R.contents s.rows).free };

    fn names(&self) -> u32 {
        self.tables.names()
    }

    fn enums(&self) -> u32 {
        self.tables.enums()
    }

    fn macro_count(&self) -> u32 {
        self.tables.macro_count()
    }

    fn types(&self, m: ModuleId, n: Name) -> Place<TypesItem> {
        self.rows.place(m, n)
    }

    fn values(&self, m: ModuleId, n: Name) -> Place<ValuesItem> {
        self.rows.place(m, n)
    }

    fn macros(&self, m: ModuleId, n: Name) -> Place<MacrosItem> {
        self.rows.place(m, n)
    }

    // Inlined, so that the entries are not copied on from a place of their own.
    #[inline(always)]
    fn get(&self, m: ModuleId, n: Name) -> PerNs {
        PerNs {
            types: self.rows.holder(m, n),
            values: self.rows.holder(m, n),
            macros: self.rows.holder(m, n),
        }
    }

    fn extern_prelude(&self, c: CrateId, n: Name) -> Option<ExternPrelude> {
        self.tables.extern_prelude(c, n)
    }

    fn macro_use(&self, map: DefMapId, n: Name) -> Option<MacroUse> {
        self.tables.macro_use(map, n)
    }

    fn prelude(&self, map: DefMapId) -> Option<ModuleId> {
        self.tables.prelude(map)
    }

    fn legacy_macro(&self, m: ModuleId, n: Name) -> Option<MacroId> {
        self.tables.legacy_macro(m, n)
    }

    fn enum_variant(&self, e: EnumId, n: Name) -> Option<EnumVariant> {
        self.tables.enum_variant(e, n)
    }

    fn call_styles(&self, m: MacroId) -> CallStyles {
        self.tables.call_styles(m)
    }

    fn left(&self) -> usize {
        self.rows.free()
    }

    ghost tied = { λ s. refl };

    ghost sound = { λ s. s.sound };
}

impl<'a, R: PlaceRows, S: BuildHasher> Recipient for RowIndex<'a, R, S> {
    ghost use Rattle.indexes.specs.RowIndexes.{Delivers};

    ghost delivers = { λ x d r y. Delivers x d r y };

    ghost like_any = { λ x d r y h. h.takes };

    fn push_res_with_import(
        &mut self,
        receiver: ModuleId,
        name: Name,
        types: Option<TypesItem>,
        values: Option<ValuesItem>,
        macros: Option<MacrosItem>,
        import: Option<ImportOrExternCrate>,
    ) -> Result<bool, IndexFault> {
        self.deliver(Delivery {
            receiver,
            name,
            entries: PerNs {
                types,
                values,
                macros,
            },
            import,
        })
    }
}
