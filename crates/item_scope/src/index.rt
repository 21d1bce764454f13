// An index: a module tree with more to tell, and places that deliveries fill.
ghost use Rattle.std.specs.Prelude.{◌≡◌, ℕ, Bool, Result};
ghost use Rattle.hir_def.specs.declared.fault.IndexFault.{IndexFault};
ghost use Rattle.item_scope.specs.declared.delivery.Delivery.{Delivery};
ghost use Rattle.item_scope.specs.Views.{View, Sound, entries_at};
ghost use Rattle.item_scope.specs.Deliveries.{delivery_of, Takes};

use crate::delivery::Delivery;
use crate::index_data::{CallStyles, DefMapId, EnumVariant, ExternPrelude, MacroUse};
use crate::place::Place;
use entries::per_ns::{MacrosItem, PerNs, TypesItem, ValuesItem};
use hir_def::fault::IndexFault;
use hir_def::import::ImportOrExternCrate;
use hir_def::{CrateId, EnumId, MacroId, ModuleId, Name};
use nameres::Tree;

/// An index. Each lookup is total: what does not exist is told as nothing.
pub trait Index: Tree {
    ghost view: { Self → View };

    // How many rows are free.
    ghost left: { Self → ℕ };

    /// How many names there are, at most 65,536; their numbers are those below it.
    fn names(&self) -> u32
        ensures { result ≡ (view self.now).fixed.names };

    /// How many enums there are; their numbers are those below it.
    fn enums(&self) -> u32
        ensures { result ≡ (view self.now).fixed.enums };

    /// How many macros there are; their numbers are those below it.
    fn macro_count(&self) -> u32
        ensures { result ≡ (view self.now).fixed.macro_count };

    /// The name's place in the types.
    fn types(&self, m: ModuleId, n: Name) -> Place<TypesItem>
        ensures { result ≡ (view self.now).types m n };

    /// The name's place in the values.
    fn values(&self, m: ModuleId, n: Name) -> Place<ValuesItem>
        ensures { result ≡ (view self.now).values m n };

    /// The name's place in the macros.
    fn macros(&self, m: ModuleId, n: Name) -> Place<MacrosItem>
        ensures { result ≡ (view self.now).macros m n };

    /// What the name means in the extern prelude of the crate.
    fn extern_prelude(&self, c: CrateId, n: Name) -> Option<ExternPrelude>
        ensures { result ≡ (view self.now).fixed.extern_prelude c n };

    /// What the name means in the macro-use prelude of the map.
    fn macro_use(&self, map: DefMapId, n: Name) -> Option<MacroUse>
        ensures { result ≡ (view self.now).fixed.macro_use map n };

    /// The map's prelude module.
    fn prelude(&self, map: DefMapId) -> Option<ModuleId>
        ensures { result ≡ (view self.now).fixed.prelude map };

    /// The last `macro_rules!` of that name in the module.
    fn legacy_macro(&self, m: ModuleId, n: Name) -> Option<MacroId>
        ensures { result ≡ (view self.now).fixed.legacy m n };

    /// The enum's variant of that name.
    fn enum_variant(&self, e: EnumId, n: Name) -> Option<EnumVariant>
        ensures { result ≡ (view self.now).fixed.variant e n };

    /// How the macro may be called.
    fn call_styles(&self, m: MacroId) -> CallStyles
        ensures { result ≡ (view self.now).fixed.styles m };

    /// How many rows are free. A delivery is refused where it fills more namespaces.
    fn left(&self) -> usize
        ensures { result ≡ left self.now };

    /// The entries that hold the name's places.
    fn get(&self, m: ModuleId, n: Name) -> PerNs
        ensures { result ≡ entries_at (view self.now) m n }
    {
        PerNs {
            types: self.types(m, n).holder(),
            values: self.values(m, n).holder(),
            macros: self.macros(m, n).holder(),
        }
    }

    // A law: what is told of the tree is what the tree tells.
    ghost tied: { (s : Self) → (view s).fixed.tree ≡ Self.Tree.shape s };

    // A law: every number that is told exists.
    ghost sound: { (s : Self) → Sound (view s) };
}

/// An index to which deliveries can be made.
pub trait Recipient: Index {
    // What a delivery does, by the index's own rule: it answers so, and is such an index then, in all its rows.
    ghost delivers: { Self → Delivery → Result Bool IndexFault → Self → Type 0 };

    /// Takes a delivery in, part by part, or refuses it; see `deliver`.
    fn push_res_with_import(
        &mut self,
        receiver: ModuleId,
        name: Name,
        types: Option<TypesItem>,
        values: Option<ValuesItem>,
        macros: Option<MacrosItem>,
        import: Option<ImportOrExternCrate>,
    ) -> Result<bool, IndexFault>
        ensures takes { let d = delivery_of receiver name types values macros import in
            Takes (Self.view self.old) (Self.left self.old) d result (Self.view self.new) (Self.left self.new) }
        ensures delivers { delivers self.old (delivery_of receiver name types values macros import) result self.new };

    // A law: it does what a delivery does on every index.
    ghost like_any: { (x : Self) → (d : Delivery) → (r : Result Bool IndexFault) → (y : Self) → delivers x d r y
        → Takes (Self.view x) (Self.left x) d r (Self.view y) (Self.left y) };
}

/// Takes the entries of a delivery in by the four steps, and answers whether any namespace changed; or refuses the delivery, and
/// changes nothing.
pub fn deliver<I: Recipient>(index: &mut I, delivery: Delivery) -> Result<bool, IndexFault>
    ensures takes { Takes (I.view index.old) (I.left index.old) delivery result (I.view index.new) (I.left index.new) }
    ensures delivers { I.delivers index.old delivery result index.new }
{
    let entries = delivery.entries;
    index.push_res_with_import(
        delivery.receiver,
        delivery.name,
        entries.types,
        entries.values,
        entries.macros,
        delivery.import,
    )
}
