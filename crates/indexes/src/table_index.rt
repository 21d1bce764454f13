// The table: an index that keeps a row for each place, which holds what holds the place.
ghost use Rattle.std.specs.Prelude.{◌≡◌, true, min, take, length, refl, IfOk};
ghost use Rattle.keyed.specs.Entries.{find, most_rows};
ghost use Rattle.index_tables.specs.IndexRows.{data_from};
ghost use Rattle.index_tables.specs.LoadedTables.{no_index_rows};
ghost use Rattle.indexes.specs.Storing.{all_free};
ghost use Rattle.indexes.specs.Table.{table_storing};
ghost use Rattle.indexes.specs.Fitting.{all_of};

use crate::entry::{Entry, FREE_ENTRY, FREE_KEY, PlaceKey};
use crate::namespaced::{Namespaced, next, place_key};
use crate::place_rows::PlaceRows;
use crate::row_index::RowIndex;
use hir_def::{ModuleId, Name};
use item_scope::place::Place;
use item_scope::steps::Stepped;
use keyed::row::Row;
use keyed::table::Table;
use std::alloc::{AllocError, Global};
use std::hash::BuildHasher;

/// A row of the table: a place and what holds it.
pub type PlaceRow = Row<PlaceKey, Entry>;

/// A row as it may stand before it is used.
pub const FREE_PLACE_ROW: PlaceRow = Row {
    key: FREE_KEY,
    value: FREE_ENTRY,
};

/// A row for each place to which an entry came.
#[derive(Drop)]
pub struct TableRows<'a, S: BuildHasher> {
    table: Table<&'a mut [PlaceRow], S>,
    ghost fits: { all_of table.entries ≡ true },
}

impl<'a, S: BuildHasher + Drop> PlaceRows for TableRows<'a, S> {
    type Key = PlaceKey;

    ghost storing = { table_storing };

    ghost contents = { λ r. r.table };

    ghost clean = { λ k. refl };

    fn free(&self) -> usize {
        self.table.room()
    }

    // Inlined, so that the entry is read where it is wanted.
    #[inline(always)]
    fn place<T: Namespaced>(&self, at: ModuleId, name: Name) -> Place<T> {
        self.table
            .get(place_key::<T>(at, name))
            .map_or(Place::Empty, |entry| next(Place::Empty, entry))
    }

    // A row holds what holds its place, so no step is asked.
    #[inline(always)]
    #[tactic(auto, using(crate::proofs::Held::held_by_row))]
    fn holder<T: Namespaced>(&self, at: ModuleId, name: Name) -> Option<T> {
        let entry = self.table.get_ref(place_key::<T>(at, name))?;
        T::from_entry(entry)
    }

    fn put<T: Namespaced>(&mut self, at: ModuleId, name: Name, entry: T) -> bool {
        let Stepped { changed, .. } = T::step(self.place(at, name), entry);
        if changed {
            let _ = self
                .table
                .insert(place_key::<T>(at, name), entry.into_entry());
        }
        changed
    }

    fn clear(&mut self) {
        self.table.clear();
    }
}

/// An index that keeps a row for each place. A delivery takes a row for each of its places that was empty.
pub type TableIndex<'a, S> = RowIndex<'a, TableRows<'a, S>, S>;

impl<'a, S: BuildHasher + Copy> TableIndex<'a, S> {
    ghost use Rattle.indexes.specs.RowIndexes.{view_in, left_in, contents_in, empty_index};

    /// A table without crates and names over the rows, which stay as they are. Rows past the first 2^32 - 1 are left
    /// alone. `hash_builder` makes the hashers of keys, and no answer depends on it. Fails where memory is wanting.
    pub fn new(alloc: Global, hash_builder: S, rows: &'a mut [PlaceRow]) -> Result<Self, AllocError>
        ensures view { IfOk result (λ x. view_in x ≡ empty_index (data_from no_index_rows)) }
        ensures rows { IfOk result (λ x. contents_in x ≡ all_free (take most_rows rows.old)) }
        ensures left { IfOk result (λ x. left_in x ≡ min most_rows (length rows.old)) }
    {
        let table = Table::new(alloc, hash_builder, rows)?;
        RowIndex::over(alloc, hash_builder, TableRows { table })
    }
}
