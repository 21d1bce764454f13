// The entries of one namespace, as rows hold them.
ghost use Rattle.std.specs.Prelude.{◌≡◌};
ghost use Rattle.item_scope.specs.Places.{stepped};
ghost use Rattle.item_scope.specs.Deliveries.{type_tests, value_tests, macro_tests};
ghost use Rattle.indexes.specs.Spaces.{Space, type_space, value_space, macro_space};
ghost use Rattle.indexes.specs.Told.{SpaceLaws, next, key, type_laws, value_laws, macro_laws};

use crate::entry::{Entry, PlaceKey};
use entries::per_ns::{MacrosItem, TypesItem, ValuesItem};
use hir_def::{ModuleId, Name, Namespace};
use item_scope::place::Place;
use item_scope::steps::{Stepped, step};

/// The entries of a namespace.
pub trait Namespaced: Copy {
    ghost space: { Space Self };

    fn namespace() -> Namespace
        ensures { result ≡ space.namespace };

    fn into_entry(self) -> Entry
        ensures { result ≡ space.to self };

    // None if it is of another namespace.
    fn from_entry(entry: &Entry) -> Option<Self>
        ensures { result ≡ space.of entry.now };

    fn step(place: Place<Self>, new: Self) -> Stepped<Self>
        ensures { result ≡ stepped space.tests place new };

    ghost lawful: { SpaceLaws space };
}

pub(crate) fn place_key<T: Namespaced>(at: ModuleId, name: Name) -> PlaceKey
    ensures { result ≡ key T.space.namespace at name }
{
    PlaceKey {
        namespace: T::namespace(),
        at,
        name,
    }
}

/// The place when an entry has come, if it is one of the namespace.
pub(crate) fn next<T: Namespaced>(place: Place<T>, entry: Entry) -> Place<T>
    ensures { result ≡ next T.space place entry }
{
    match T::from_entry(&entry) {
        Some(item) => T::step(place, item).place,
        None => place,
    }
}

impl Namespaced for TypesItem {
    ghost space = { type_space };

    ghost lawful = { type_laws };

    fn namespace() -> Namespace {
        Namespace::Types
    }

    fn into_entry(self) -> Entry {
        Entry::Types(self)
    }

    fn from_entry(entry: &Entry) -> Option<TypesItem> {
        let Entry::Types(item) = entry else {
            return None;
        };
        Some(*item)
    }

    fn step(place: Place<TypesItem>, new: TypesItem) -> Stepped<TypesItem>
        ensures { result ≡ stepped type_tests place new }
    {
        step(place, new)
    }
}

impl Namespaced for ValuesItem {
    ghost space = { value_space };

    ghost lawful = { value_laws };

    fn namespace() -> Namespace {
        Namespace::Values
    }

    fn into_entry(self) -> Entry {
        Entry::Values(self)
    }

    fn from_entry(entry: &Entry) -> Option<ValuesItem> {
        let Entry::Values(item) = entry else {
            return None;
        };
        Some(*item)
    }

    fn step(place: Place<ValuesItem>, new: ValuesItem) -> Stepped<ValuesItem>
        ensures { result ≡ stepped value_tests place new }
    {
        step(place, new)
    }
}

impl Namespaced for MacrosItem {
    ghost space = { macro_space };

    ghost lawful = { macro_laws };

    fn namespace() -> Namespace {
        Namespace::Macros
    }

    fn into_entry(self) -> Entry {
        Entry::Macros(self)
    }

    fn from_entry(entry: &Entry) -> Option<MacrosItem> {
        let Entry::Macros(item) = entry else {
            return None;
        };
        Some(*item)
    }

    fn step(place: Place<MacrosItem>, new: MacrosItem) -> Stepped<MacrosItem>
        ensures { result ≡ stepped macro_tests place new }
    {
        step(place, new)
    }
}
