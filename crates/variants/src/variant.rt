// An index with up to 64 places of its own over another index, which it never changes.
ghost use Rattle.std.specs.Prelude.{◌≡◌, ◌-◌, [], length, is_ok, None, Err};
ghost use Rattle.hir_def.specs.declared.fault.IndexFault.TheVariants.{NoRows};
ghost use Rattle.item_scope.specs.Deliveries.{faulty};
ghost use Rattle.item_scope.specs.Views.{Sound};
ghost use Rattle.variants.specs.Own.{overlaid};

use crate::own_places::OwnPlaces;
use entries::per_ns::{MacrosItem, PerNs, TypesItem, ValuesItem};
use hir_def::edition::Edition;
use hir_def::fault::IndexFault;
use hir_def::import::ImportOrExternCrate;
use hir_def::{BlockId, CrateId, EnumId, MacroId, ModuleId, Name};
use item_scope::delivery::Delivery;
use item_scope::index::{Index, Recipient};
use item_scope::index_data::{CallStyles, DefMapId, EnumVariant, ExternPrelude, MacroUse};
use item_scope::place::Place;
use item_scope::refusal::refusal;
use nameres::Tree;

/// An index with up to 64 places of its own over another index. It tells what that one tells, save at its own places. At its first
/// delivery to a place it copies the place; beside deliveries nothing changes it.
pub struct Variant<'a, I: Index> {
    below: &'a I,
    own: OwnPlaces,
    ghost sound: { Sound (overlaid (I.view below.now) own) },
}

impl<'a, I: Index> Drop for Variant<'a, I> {
    fn drop(self) {
        let Variant { below: _, own: _ } = self;
    }
}

impl<'a, I: Index> Variant<'a, I> {
    ghost use Rattle.variants.specs.Variants.{below_of, own_in, view_in, left_in, Receives, Copies, IsFull};

    /// A variant without places of its own: it tells what the index below tells.
    pub fn new(below: &'a I) -> Variant<'a, I>
        ensures view { view_in result ≡ I.view below.now }
        ensures left { left_in result ≡ 64 }
        ensures own { own_in result ≡ [] }
        ensures below { below_of result ≡ below.now }
    {
        Variant {
            below,
            own: OwnPlaces::new(),
        }
    }

    /// Takes the entries of a delivery in by the four steps, and answers whether any namespace changed; or refuses the
    /// delivery, and changes nothing. A place that it has not of its own it copies first, into a free row.
    pub fn deliver(&mut self, delivery: Delivery) -> Result<bool, IndexFault>
        ensures takes { Receives self.old delivery result self.new }
        ensures copies { Copies self.old delivery (is_ok result) self.new }
        ensures full { IsFull self.old → faulty (view_in self.old).fixed delivery ≡ None → result ≡ Err (NoRows 0) }
    {
        if let Some(fault) = refusal(&*self, &delivery) {
            return Err(fault);
        }
        let Delivery { receiver, name, .. } = delivery;
        let types = self.types(receiver, name);
        let values = self.values(receiver, name);
        let macros = self.macros(receiver, name);
        Ok(self.own.arrive_all(&delivery, types, values, macros))
    }
}

impl<'a, I: Index> Tree for Variant<'a, I> {
    ghost shape = { λ s. I.shape s.below.now };

    ghost rank = { λ s. I.rank s.below.now };

    fn modules(&self) -> u32 {
        self.below.modules()
    }

    fn blocks(&self) -> u32 {
        self.below.blocks()
    }

    fn crates(&self) -> u32 {
        self.below.crates()
    }

    fn krate(&self, m: ModuleId) -> CrateId {
        self.below.krate(m)
    }

    fn block(&self, m: ModuleId) -> Option<BlockId> {
        self.below.block(m)
    }

    fn parent(&self, m: ModuleId) -> Option<ModuleId> {
        self.below.parent(m)
    }

    fn block_root(&self, b: BlockId) -> ModuleId {
        self.below.block_root(b)
    }

    fn outside(&self, b: BlockId) -> ModuleId {
        self.below.outside(b)
    }

    fn crate_root(&self, c: CrateId) -> ModuleId {
        self.below.crate_root(c)
    }

    fn edition(&self, c: CrateId) -> Edition {
        self.below.edition(c)
    }

    ghost ruled = { λ s. I.ruled s.below.now };
}

impl<'a, I: Index> Index for Variant<'a, I> {
    ghost view = { λ s. overlaid (I.view s.below.now) s.own };

    ghost left = { λ s. 64 - length s.own };

    fn names(&self) -> u32 {
        self.below.names()
    }

    fn enums(&self) -> u32 {
        self.below.enums()
    }

    fn macro_count(&self) -> u32 {
        self.below.macro_count()
    }

    fn types(&self, m: ModuleId, n: Name) -> Place<TypesItem> {
        self.own.get(m, n).unwrap_or_else(|| self.below.types(m, n))
    }

    fn values(&self, m: ModuleId, n: Name) -> Place<ValuesItem> {
        self.own
            .get(m, n)
            .unwrap_or_else(|| self.below.values(m, n))
    }

    fn macros(&self, m: ModuleId, n: Name) -> Place<MacrosItem> {
        self.own
            .get(m, n)
            .unwrap_or_else(|| self.below.macros(m, n))
    }

    fn extern_prelude(&self, c: CrateId, n: Name) -> Option<ExternPrelude> {
        self.below.extern_prelude(c, n)
    }

    fn macro_use(&self, map: DefMapId, n: Name) -> Option<MacroUse> {
        self.below.macro_use(map, n)
    }

    fn prelude(&self, map: DefMapId) -> Option<ModuleId> {
        self.below.prelude(map)
    }

    fn legacy_macro(&self, m: ModuleId, n: Name) -> Option<MacroId> {
        self.below.legacy_macro(m, n)
    }

    fn enum_variant(&self, e: EnumId, n: Name) -> Option<EnumVariant> {
        self.below.enum_variant(e, n)
    }

    fn call_styles(&self, m: MacroId) -> CallStyles {
        self.below.call_styles(m)
    }

    fn left(&self) -> usize {
        self.own.free()
    }

    ghost tied = { λ s. I.tied s.below.now };

    ghost sound = { λ s. s.sound };
}

impl<'a, I: Index> Recipient for Variant<'a, I> {
    ghost use Rattle.variants.specs.Variants.{Delivers};

    ghost delivers = { λ x d r y. Delivers x d r y };

    ghost like_any = { λ x d r y h. h.takes };

    fn push_res_with_import(
        &mut self,
        receiver: ModuleId,
        name: Name,
        types: Option<TypesItem>,
        values: Option<ValuesItem>,
        macros: Option<MacrosItem>,
        import: Option<ImportOrExternCrate>,
    ) -> Result<bool, IndexFault> {
        self.deliver(Delivery {
            receiver,
            name,
            entries: PerNs {
                types,
                values,
                macros,
            },
            import,
        })
    }
}
