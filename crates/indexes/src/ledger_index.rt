// The ledger: an index that keeps a row for each entry that came, and finds a place by replaying its entries.
ghost use Rattle.std.specs.Prelude.{◌≡◌, min, take, length, refl, IfOk};
ghost use Rattle.std.proofs.Common.{rules};
ghost use Rattle.keyed.specs.Entries.{most_rows};
ghost use Rattle.index_tables.specs.IndexRows.{data_from};
ghost use Rattle.index_tables.specs.LoadedTables.{no_index_rows};
ghost use Rattle.indexes.specs.Told.{key};
ghost use Rattle.indexes.specs.Storing.{told_of, all_free};
ghost use Rattle.indexes.specs.Ledger.{ledger_storing, came, FoundByTurn};

use crate::entry::{Entry, FREE_ENTRY, FREE_KEY, PlaceKey};
use crate::namespaced::{Namespaced, next, place_key};
use crate::place_rows::PlaceRows;
use crate::row_index::RowIndex;
use hir_def::lawful_eq::LawfulEq;
use hir_def::{ModuleId, Name};
use item_scope::place::Place;
use keyed::row::Row;
use keyed::table::Table;
use std::alloc::{AllocError, Global};
use std::hash::BuildHasher;

/// An entry's place, and how many came to the place before it.
#[derive(Clone, Copy, PartialEq, Eq, Hash, Debug)]
pub struct LedgerKey {
    pub place: PlaceKey,
    pub turn: usize,
}

impl LawfulEq for LedgerKey {
    ghost eq_is_identity = { Prim.search rules };
}

/// A row of the ledger: an entry and when it came to which place.
pub type LedgerRow = Row<LedgerKey, Entry>;

/// A row as it may stand before it is used.
pub const FREE_LEDGER_ROW: LedgerRow = Row {
    key: LedgerKey {
        place: FREE_KEY,
        turn: 0,
    },
    value: FREE_ENTRY,
};

/// A row for each entry that came.
#[derive(Drop)]
pub struct LedgerRows<'a, S: BuildHasher> {
    table: Table<&'a mut [LedgerRow], S>,
    ghost found_by_turn: { FoundByTurn table.entries },
}

// What the entries that came to a place make of it, and how many they are.
#[derive(Clone, Copy)]
struct Replayed<T> {
    place: Place<T>,
    turns: usize,
}

impl<'a, S: BuildHasher> LedgerRows<'a, S> {
    // Asks for the turns of the place one after the other, up to the first that did not come.
    fn replay<T: Namespaced>(&self, at: ModuleId, name: Name) -> Replayed<T>
        ensures place { result.place ≡ told_of ledger_storing T.space self.now.table.entries at name }
        ensures turns { result.turns ≡ length (came self.now.table.entries (key T.space.namespace at name)) }
    {
        let key = place_key::<T>(at, name);
        let mut place = Place::Empty;
        for turn in 0..self.table.len() {
            match self.table.get(LedgerKey { place: key, turn }) {
                Some(entry) => place = next(place, entry),
                None => return Replayed { place, turns: turn },
            }
        }
        Replayed {
            place,
            turns: self.table.len(),
        }
    }
}

impl<'a, S: BuildHasher + Drop> PlaceRows for LedgerRows<'a, S> {
    type Key = LedgerKey;

    ghost storing = { ledger_storing };

    ghost contents = { λ r. r.table };

    ghost clean = { λ k. refl };

    fn free(&self) -> usize {
        self.table.room()
    }

    fn place<T: Namespaced>(&self, at: ModuleId, name: Name) -> Place<T> {
        self.replay(at, name).place
    }

    fn put<T: Namespaced>(&mut self, at: ModuleId, name: Name, entry: T) -> bool {
        let Replayed { place, turns } = self.replay::<T>(at, name);
        let key = LedgerKey {
            place: place_key::<T>(at, name),
            turn: turns,
        };
        let _ = self.table.insert_new(key, entry.into_entry());
        T::step(place, entry).changed
    }

    fn clear(&mut self) {
        self.table.clear();
    }
}

/// An index that keeps a row for each entry that came.
pub type LedgerIndex<'a, S> = RowIndex<'a, LedgerRows<'a, S>, S>;

impl<'a, S: BuildHasher + Copy> LedgerIndex<'a, S> {
    ghost use Rattle.indexes.specs.RowIndexes.{view_in, left_in, contents_in, empty_index};

    /// A ledger without crates and names over the rows, which stay as they are. Rows past the first 2^32 - 1 are left
    /// alone. `hash_builder` makes the hashers of keys, and no answer depends on it. Fails where memory is wanting.
    pub fn new(
        alloc: Global,
        hash_builder: S,
        rows: &'a mut [LedgerRow],
    ) -> Result<Self, AllocError>
        ensures view { IfOk result (λ x. view_in x ≡ empty_index (data_from no_index_rows)) }
        ensures rows { IfOk result (λ x. contents_in x ≡ all_free (take most_rows rows.old)) }
        ensures left { IfOk result (λ x. left_in x ≡ min most_rows (length rows.old)) }
    {
        let table = Table::new(alloc, hash_builder, rows)?;
        RowIndex::over(alloc, hash_builder, LedgerRows { table })
    }
}
