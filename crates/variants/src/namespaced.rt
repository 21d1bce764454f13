// The places of one namespace, as rows hold them.
ghost use Rattle.std.specs.Prelude.{◌≡◌};
ghost use Rattle.item_scope.specs.Places.{stepped};
ghost use Rattle.item_scope.specs.Deliveries.{type_tests, value_tests, macro_tests};
ghost use Rattle.variants.specs.declared.own_places.AnyPlace.TheVariants as any;
ghost use Rattle.variants.specs.Spaces.{Space, type_space, value_space, macro_space};

use crate::own_places::AnyPlace;
use entries::per_ns::{MacrosItem, TypesItem, ValuesItem};
use item_scope::place::Place;
use item_scope::steps::{Stepped, step};

/// The entries of a namespace.
pub trait Namespaced: Copy {
    ghost space: { Space Self };

    fn into_any(place: Place<Self>) -> AnyPlace
        ensures { result ≡ space.to place };

    // None if it is a place of another namespace.
    fn from_any(any: AnyPlace) -> Option<Place<Self>>
        ensures { result ≡ space.of any };

    fn step(place: Place<Self>, new: Self) -> Stepped<Self>
        ensures { result ≡ stepped space.tests place new };
}

impl Namespaced for TypesItem {
    ghost space = { type_space };

    fn into_any(place: Place<TypesItem>) -> AnyPlace
        ensures { result ≡ any.Types place }
    {
        AnyPlace::Types(place)
    }

    fn from_any(any: AnyPlace) -> Option<Place<TypesItem>> {
        match any {
            AnyPlace::Types(place) => Some(place),
            _ => None,
        }
    }

    fn step(place: Place<TypesItem>, new: TypesItem) -> Stepped<TypesItem>
        ensures { result ≡ stepped type_tests place new }
    {
        step(place, new)
    }
}

impl Namespaced for ValuesItem {
    ghost space = { value_space };

    fn into_any(place: Place<ValuesItem>) -> AnyPlace
        ensures { result ≡ any.Values place }
    {
        AnyPlace::Values(place)
    }

    fn from_any(any: AnyPlace) -> Option<Place<ValuesItem>> {
        match any {
            AnyPlace::Values(place) => Some(place),
            _ => None,
        }
    }

    fn step(place: Place<ValuesItem>, new: ValuesItem) -> Stepped<ValuesItem>
        ensures { result ≡ stepped value_tests place new }
    {
        step(place, new)
    }
}

impl Namespaced for MacrosItem {
    ghost space = { macro_space };

    fn into_any(place: Place<MacrosItem>) -> AnyPlace
        ensures { result ≡ any.Macros place }
    {
        AnyPlace::Macros(place)
    }

    fn from_any(any: AnyPlace) -> Option<Place<MacrosItem>> {
        match any {
            AnyPlace::Macros(place) => Some(place),
            _ => None,
        }
    }

    fn step(place: Place<MacrosItem>, new: MacrosItem) -> Stepped<MacrosItem>
        ensures { result ≡ stepped macro_tests place new }
    {
        step(place, new)
    }
}
