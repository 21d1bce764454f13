// When a delivery is refused: the tests that do not ask for rows, then the test of rows.
ghost use Rattle.std.specs.Prelude.{◌≡◌, Bool, Some};
ghost use Rattle.item_scope.specs.IndexData.{IndexData, def_in, macro_in};
ghost use Rattle.item_scope.specs.Deliveries.{entry_in, dangling, faulty, short_of_rows, refused};

use crate::delivery::Delivery;
use crate::index::Index;
use entries::per_ns::{Item, PerNs};
use hir_def::fault::IndexFault;
use hir_def::{AdtId, MacroId, ModuleDefId, Namespace};

/// A def, of which it can be told whether the module, enum or macro that it is exists in an index.
pub trait NumbersExist: Copy {
    ghost exists: { IndexData → Self → Bool };

    /// Whether it exists. What is not counted, as a function, always does.
    fn exists_in<I: Index>(self, index: &I) -> bool
        ensures { result ≡ exists (I.view index.now).fixed self };
}

impl NumbersExist for ModuleDefId {
    ghost exists = { def_in };

    fn exists_in<I: Index>(self, index: &I) -> bool {
        match self {
            ModuleDefId::ModuleId(m) => m.0 < index.modules(),
            ModuleDefId::AdtId(AdtId::EnumId(e)) => e.0 < index.enums(),
            ModuleDefId::MacroId(m) => m.exists_in(index),
            _ => true,
        }
    }
}

impl NumbersExist for MacroId {
    ghost exists = { macro_in };

    fn exists_in<I: Index>(self, index: &I) -> bool {
        self.0 < index.macro_count()
    }
}

// Whether the entry, if there is one, names only what exists.
fn entry_exists<I: Index, Def: NumbersExist, Import: Copy>(
    index: &I,
    entry: Option<Item<Def, Import>>,
) -> bool
    ensures { result ≡ entry_in Def.exists (I.view index.now).fixed entry }
{
    entry.is_none_or(|item| item.def.exists_in(index) && item.vis.is_named(index))
}

fn dangling<I: Index>(index: &I, entries: PerNs) -> Option<IndexFault>
    ensures { result ≡ dangling (I.view index.now).fixed entries }
{
    if !entry_exists(index, entries.types) {
        return Some(IndexFault::Dangling(Namespace::Types));
    }
    if !entry_exists(index, entries.values) {
        return Some(IndexFault::Dangling(Namespace::Values));
    }
    if !entry_exists(index, entries.macros) {
        return Some(IndexFault::Dangling(Namespace::Macros));
    }
    None
}

/// What is wrong with a delivery, however many rows are free: the receiver or the name does not exist, no namespace is filled,
/// or an entry names what does not exist.
pub fn faulty<I: Index>(index: &I, delivery: &Delivery) -> Option<IndexFault>
    ensures { result ≡ faulty (I.view index.now).fixed delivery.now }
{
    if delivery.receiver.0 >= index.modules() {
        return Some(IndexFault::NoModule);
    }
    if delivery.name.0 >= index.names() {
        return Some(IndexFault::NoName);
    }
    if delivery.entries.is_none() {
        return Some(IndexFault::NothingFilled);
    }
    dangling(index, delivery.entries)
}

// Where fewer rows are free than the delivery fills namespaces.
fn short_of_rows(left: usize, delivery: &Delivery) -> Option<IndexFault>
    ensures { result ≡ short_of_rows left delivery.now }
{
    if left < delivery.filled() {
        Some(IndexFault::NoRows(left))
    } else {
        None
    }
}

/// Why the index refuses the delivery, if it does.
pub fn refusal<I: Index>(index: &I, delivery: &Delivery) -> Option<IndexFault>
    ensures { result ≡ refused (I.view index.now) (I.left index.now) delivery.now }
{
    faulty(index, delivery).or_else(|| short_of_rows(index.left(), delivery))
}

/// Why an index that has no rows refuses the delivery, as it refuses each.
pub fn refusal_without_rows<I: Index>(index: &I, delivery: &Delivery) -> IndexFault
    ensures { Some result ≡ refused (I.view index.now) 0 delivery.now }
{
    faulty(index, delivery).unwrap_or(IndexFault::NoRows(0))
}
