// What rows hold: entries, and of which place.
ghost use Rattle.std.specs.Hash as fed;
ghost use Rattle.std.proofs.Common.{ap, rules};
ghost use Rattle.indexes.specs.Hashed.{number_of, one_number};

use entries::per_ns::{Item, MacrosItem, TypesItem, ValuesItem};
use entries::visibility::Visibility;
use hir_def::lawful_eq::LawfulEq;
use hir_def::{ModuleDefId, ModuleId, Name, Namespace};
use std::hash::{Hash, Hasher};

/// A place: a name of a module in a namespace.
#[derive(Clone, Copy, PartialEq, Eq, Debug)]
pub struct PlaceKey {
    pub namespace: Namespace,
    pub at: ModuleId,
    pub name: Name,
}

impl LawfulEq for PlaceKey {
    ghost eq_is_identity = { Prim.search rules };
}

// The namespace is left out, so that the three places of a name are found in one chain: who asks for one of them asks for
// the others too.
impl Hash for PlaceKey {
    ghost hash_input = { λ k. fed.u64 (number_of k) };

    ghost respects_eq = { λ x y same. ap fed.u64 (one_number _ x y same) };

    fn hash<H: Hasher>(&self, state: &mut H) {
        let PlaceKey { at, name, .. } = *self;
        state.write_u64(at.0 as u64 * 0x1_0000_0000 + name.0 as u64);
    }
}

/// An entry of any namespace, under the import that brought it. Whether it came by glob or by name follows from that.
#[derive(Clone, Copy, PartialEq, Eq, Debug)]
pub enum Entry {
    Types(TypesItem),
    Values(ValuesItem),
    Macros(MacrosItem),
}

// What a free row may hold; nothing reads it.
pub(crate) const FREE_KEY: PlaceKey = PlaceKey {
    namespace: Namespace::Types,
    at: ModuleId(0),
    name: Name(0),
};

pub(crate) const FREE_ENTRY: Entry = Entry::Types(Item {
    def: ModuleDefId::ModuleId(ModuleId(0)),
    vis: Visibility::Public,
    import: None,
});
