// The places that a variant has of its own: 64 rows, each of which is free or holds a place. A name's tag tells the first row
// that can hold a place of it, so that a name without one is mostly not searched for.
ghost use Rattle.std.specs.Prelude.{◌≡◌, ◌+◌, ◌-◌, ◌≤◌, ◌<◌, [], length, position, IfSome};
ghost use Rattle.item_scope.specs.Deliveries.{count_of, filled};
ghost use Rattle.variants.specs.Own.{is_of, own, put, came, changed_at, came_all, any_changed_at};
ghost use Rattle.variants.specs.Tags.{tag_of};

use crate::namespaced::Namespaced;
use entries::per_ns::{MacrosItem, TypesItem, ValuesItem};
use hir_def::{ModuleId, Name};
use item_scope::delivery::Delivery;
use item_scope::place::Place;
use item_scope::steps::Stepped;
use std::marker::Model;

/// The most places that a variant has of its own.
pub const MOST_OWN_PLACES: usize = 64;

// How many tags there are.
const TAGS: usize = 1024;

// What of a name of a module is told apart without a row.
fn tag(at: ModuleId, name: Name) -> usize
    ensures value { result ≡ tag_of at name }
    ensures inside { result < 1024 }
{
    (at.0 as usize * 61 + name.0 as usize) % TAGS
}

/// A place of any namespace.
#[derive(Clone, Copy)]
pub enum AnyPlace {
    Types(Place<TypesItem>),
    Values(Place<ValuesItem>),
    Macros(Place<MacrosItem>),
}

/// A row: a place of a name of a module.
#[derive(Clone, Copy)]
pub struct OwnPlace {
    pub at: ModuleId,
    pub name: Name,
    pub place: AnyPlace,
}

// What a free row may hold; nothing reads it.
const FREE: OwnPlace = OwnPlace {
    at: ModuleId(0),
    name: Name(0),
    place: AnyPlace::Types(Place::Empty),
};

impl OwnPlace {
    // Whether it is the name's place in the namespace.
    fn is_of<T: Namespaced>(&self, at: ModuleId, name: Name) -> bool
        ensures { result ≡ is_of T.space at name self.now }
    {
        self.at == at && self.name == name && T::from_any(self.place).is_some()
    }
}

fn position_in<T: Namespaced>(rows: &[OwnPlace], at: ModuleId, name: Name) -> Option<usize>
    ensures index { result ≡ position (is_of T.space at name) rows.now }
    ensures inside { IfSome result (λ index. index < length rows.now) }
{
    rows.iter().position(|row| row.is_of::<T>(at, name))
}

/// Up to 64 places. Contracts see them as the list of the used rows.
#[derive(Drop)]
pub struct OwnPlaces {
    rows: [OwnPlace; MOST_OWN_PLACES],
    // Of each tag a row before which no row has it.
    firsts: [u8; TAGS],
    used: usize,
}

impl Model for OwnPlaces {
    ghost use Rattle.std.specs.Prelude.{List, take};
    ghost use Rattle.variants.specs.declared.own_places.OwnPlace.{OwnPlace};
    ghost use Rattle.variants.specs.Tags.{IsTagged};

    ghost Value = { List OwnPlace };

    ghost view = { λ o. take o.used o.rows };

    ghost invariant = { λ o. IsTagged o.rows o.firsts o.used };
}

impl OwnPlaces {
    /// No places; all rows are free.
    pub(crate) fn new() -> OwnPlaces
        ensures { result ≡ [] }
    {
        OwnPlaces {
            rows: [FREE; MOST_OWN_PLACES],
            firsts: [MOST_OWN_PLACES as u8; TAGS],
            used: 0,
        }
    }

    /// How many rows are free.
    pub(crate) fn free(&self) -> usize
        ensures { result + length self.now ≡ 64 }
    {
        MOST_OWN_PLACES - self.used
    }

    fn position<T: Namespaced>(&self, at: ModuleId, name: Name) -> Option<usize>
        ensures { result ≡ position (is_of T.space at name) self.now }
    {
        let first = self.firsts[tag(at, name)] as usize;
        if first >= self.used {
            return None;
        }
        let further = position_in::<T>(&self.rows[first..self.used], at, name)?;
        Some(first + further)
    }

    /// The name's place in the namespace, if it is one of these.
    pub(crate) fn get<T: Namespaced>(&self, at: ModuleId, name: Name) -> Option<Place<T>>
        ensures { result ≡ own T.space self.now at name }
    {
        match self.position::<T>(at, name) {
            Some(index) => T::from_any(self.rows[index].place),
            None => None,
        }
    }

    // Writes the place's row, or the next free one if it has none.
    #[tactic(auto, using(crate::proofs::Rows::put_within))]
    fn put<T: Namespaced>(&mut self, at: ModuleId, name: Name, place: Place<T>)
        requires { length self.old < 64 }
        ensures rows { self.new ≡ put T.space self.old at name place }
        ensures one { length self.new ≤ length self.old + 1 }
    {
        let row = OwnPlace {
            at,
            name,
            place: T::into_any(place),
        };
        match self.position::<T>(at, name) {
            Some(index) => self.rows[index] = row,
            None => {
                let tag = tag(at, name);
                self.firsts[tag] = self.firsts[tag].min(self.used as u8);
                self.rows[self.used] = row;
                self.used += 1;
            }
        }
    }

    // An entry, if there is one, comes to a place, which is told so before. Whether it is stored there.
    fn arrive<T: Namespaced>(
        &mut self,
        at: ModuleId,
        name: Name,
        told: Place<T>,
        entry: Option<T>,
    ) -> bool
        requires { count_of entry ≤ 64 - length self.old }
        ensures rows { self.new ≡ came T.space self.old at name told entry }
        ensures changed { result ≡ changed_at T.space told entry }
        ensures room { length self.new ≤ length self.old + count_of entry }
    {
        match entry {
            Some(entry) => {
                let Stepped { place, changed } = T::step(told, entry);
                self.put(at, name, place);
                changed
            }
            None => false,
        }
    }

    /// The entries of a delivery come to the name's places, which are told so before. Whether any of them is stored there.
    pub(crate) fn arrive_all(
        &mut self,
        delivery: &Delivery,
        types: Place<TypesItem>,
        values: Place<ValuesItem>,
        macros: Place<MacrosItem>,
    ) -> bool
        requires { filled delivery.now ≤ 64 - length self.old }
        ensures rows { self.new ≡ came_all types values macros self.old delivery.now }
        ensures changed { result ≡ any_changed_at types values macros delivery.now }
    {
        let Delivery { receiver, name, .. } = *delivery;
        let brought = delivery.brought();
        let types = self.arrive(receiver, name, types, brought.types);
        let values = self.arrive(receiver, name, values, brought.values);
        let macros = self.arrive(receiver, name, macros, brought.macros);
        types || values || macros
    }
}
