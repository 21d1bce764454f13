// Rows in which a make keeps entries, and how a delivery comes into them.
ghost use Rattle.std.specs.Prelude.{◌≡◌, ◌≤◌, ◌<◌, true, [], ◌++◌, length, Some};
ghost use Rattle.hir_def.specs.declared.ModuleId.{ModuleId as ModuleNumber};
ghost use Rattle.item_scope.specs.Deliveries.{count_of, filled};
ghost use Rattle.item_scope.specs.Places.{holder};
ghost use Rattle.keyed.specs.Entries.{Contents};
ghost use Rattle.indexes.specs.declared.entry.Entry.{Entry as AnyEntry};
ghost use Rattle.indexes.specs.declared.entry.PlaceKey.{PlaceKey as Key};
ghost use Rattle.indexes.specs.Storing.{Storing, all_free, rows_of, Comes, TellsDelivered, TellsChanged, Stores, told_of};

use crate::namespaced::Namespaced;
use hir_def::{ModuleId, Name};
use item_scope::delivery::Delivery;
use item_scope::place::Place;

/// Rows that hold the entries of places.
pub trait PlaceRows: Drop {
    type Key: Copy;

    ghost storing: { Storing Self.Key };

    // The used rows and the free ones.
    ghost contents: { Self → Contents Self.Key AnyEntry };

    /// How many rows are free.
    fn free(&self) -> usize
        ensures { result ≡ length (contents self.now).free };

    /// The place, as the steps make it of the entries that came.
    fn place<T: Namespaced>(&self, at: ModuleId, name: Name) -> Place<T>
        ensures { result ≡ told_of storing T.space (contents self.now).entries at name };

    /// The entry that holds the place.
    fn holder<T: Namespaced>(&self, at: ModuleId, name: Name) -> Option<T>
        ensures { result ≡ holder (told_of storing T.space (contents self.now).entries at name) }
    {
        self.place(at, name).holder()
    }

    /// An entry comes to a place. Whether it is stored there.
    fn put<T: Namespaced>(&mut self, at: ModuleId, name: Name, entry: T) -> bool
        requires { 0 < length (Self.contents self.old).free }
        ensures { let before = Self.contents self.old in
            Comes Self.storing T.space before at name (Some entry) result (Self.contents self.new) };

    /// All rows are free again, and stay as they are.
    fn clear(&mut self)
        ensures { Self.contents self.new ≡ all_free (rows_of (Self.contents self.old)) };

    ghost clean: { (k : Key) → storing.came [] k ≡ [] };
}

// An entry, if there is one.
fn arrive<R: PlaceRows, T: Namespaced>(
    rows: &mut R,
    at: ModuleId,
    name: Name,
    entry: Option<T>,
) -> bool
    requires { count_of entry ≤ length (R.contents rows.old).free }
    ensures { Comes R.storing T.space (R.contents rows.old) at name entry result (R.contents rows.new) }
{
    match entry {
        Some(entry) => rows.put(at, name, entry),
        None => false,
    }
}

/// The entries of a delivery come to their places, types, values and macros in turn. Whether any of them is stored there.
pub(crate) fn arrive_all<R: PlaceRows>(rows: &mut R, delivery: &Delivery) -> bool
    requires { filled delivery.now ≤ length (R.contents rows.old).free }
    ensures told { TellsDelivered R.storing (R.contents rows.old) delivery.now (R.contents rows.new) }
    ensures changed { TellsChanged R.storing (R.contents rows.old) delivery.now result }
    ensures stores { Stores R.storing (R.contents rows.old) delivery.now true (R.contents rows.new) }
{
    let Delivery { receiver, name, .. } = *delivery;
    let brought = delivery.brought();
    let types = arrive(rows, receiver, name, brought.types);
    let values = arrive(rows, receiver, name, brought.values);
    let macros = arrive(rows, receiver, name, brought.macros);
    types || values || macros
}
