// The smallest index: a tree, and names that stand for nothing. It has no rows, so it refuses every delivery.
ghost use Rattle.std.specs.Prelude.{◌≤◌, refl};
ghost use Rattle.item_scope.specs.Deliveries.{Takes};
ghost use Rattle.scope_tests.specs.Bare.{bare, bare_sound};

use entries::per_ns::{MacrosItem, PerNs, TypesItem, ValuesItem};
use entries::visibility::Visibility;
use hir_def::edition::Edition;
use hir_def::fault::IndexFault;
use hir_def::import::ImportOrExternCrate;
use hir_def::{
    BlockId, CrateId, EnumId, FunctionId, MacroId, ModuleDefId, ModuleId, Name, Namespace,
};
use item_scope::delivery::Delivery;
use item_scope::index::{Index, Recipient, deliver};
use item_scope::index_data::{CallStyles, DefMapId, EnumVariant, ExternPrelude, MacroUse};
use item_scope::place::Place;
use item_scope::refusal::refusal_without_rows;
use nameres::Tree;
use nameres::tree_rows::{CrateRow, ModuleRow, Tables};
use nameres::tree_table::TreeTable;
use std::process::Abort;

struct Bare<'a, T: Tree> {
    tree: &'a T,
    names: u32,
    ghost few: { names ≤ 65536 },
}

impl<'a, T: Tree> Drop for Bare<'a, T> {
    fn drop(self) {
        let Bare { tree: _, names: _ } = self;
    }
}

impl<'a, T: Tree> Tree for Bare<'a, T> {
    ghost shape = { λ s. T.shape s.tree.now };

    ghost rank = { λ s. T.rank s.tree.now };

    fn modules(&self) -> u32 {
        self.tree.modules()
    }

    fn blocks(&self) -> u32 {
        self.tree.blocks()
    }

    fn crates(&self) -> u32 {
        self.tree.crates()
    }

    fn krate(&self, m: ModuleId) -> CrateId {
        self.tree.krate(m)
    }

    fn block(&self, m: ModuleId) -> Option<BlockId> {
        self.tree.block(m)
    }

    fn parent(&self, m: ModuleId) -> Option<ModuleId> {
        self.tree.parent(m)
    }

    fn block_root(&self, b: BlockId) -> ModuleId {
        self.tree.block_root(b)
    }

    fn outside(&self, b: BlockId) -> ModuleId {
        self.tree.outside(b)
    }

    fn crate_root(&self, c: CrateId) -> ModuleId {
        self.tree.crate_root(c)
    }

    fn edition(&self, c: CrateId) -> Edition {
        self.tree.edition(c)
    }

    ghost ruled = { λ s. T.ruled s.tree.now };
}

impl<'a, T: Tree> Index for Bare<'a, T> {
    ghost view = { λ s. bare (T.shape s.tree.now) s.names };

    ghost left = { λ s. 0 };

    fn names(&self) -> u32 {
        self.names
    }

    fn enums(&self) -> u32 {
        0
    }

    fn macro_count(&self) -> u32 {
        0
    }

    fn types(&self, _m: ModuleId, _n: Name) -> Place<TypesItem> {
        Place::Empty
    }

    fn values(&self, _m: ModuleId, _n: Name) -> Place<ValuesItem> {
        Place::Empty
    }

    fn macros(&self, _m: ModuleId, _n: Name) -> Place<MacrosItem> {
        Place::Empty
    }

    fn extern_prelude(&self, _c: CrateId, _n: Name) -> Option<ExternPrelude> {
        None
    }

    fn macro_use(&self, _map: DefMapId, _n: Name) -> Option<MacroUse> {
        None
    }

    fn prelude(&self, _map: DefMapId) -> Option<ModuleId> {
        None
    }

    fn legacy_macro(&self, _m: ModuleId, _n: Name) -> Option<MacroId> {
        None
    }

    fn enum_variant(&self, _e: EnumId, _n: Name) -> Option<EnumVariant> {
        None
    }

    fn call_styles(&self, _m: MacroId) -> CallStyles {
        CallStyles {
            fn_like: false,
            attr: false,
            derive: false,
        }
    }

    fn left(&self) -> usize {
        0
    }

    ghost tied = { λ s. refl };

    ghost sound = { λ s. bare_sound (T.shape s.tree.now) s.names s.few };
}

impl<'a, T: Tree> Recipient for Bare<'a, T> {
    // It has no rows.
    ghost delivers = { λ x d r y. Takes (bare (T.shape x.tree.now) x.names) 0 d r (bare (T.shape y.tree.now) y.names) 0 };

    ghost like_any = { λ x d r y h. h };

    fn push_res_with_import(
        &mut self,
        receiver: ModuleId,
        name: Name,
        types: Option<TypesItem>,
        values: Option<ValuesItem>,
        macros: Option<MacrosItem>,
        import: Option<ImportOrExternCrate>,
    ) -> Result<bool, IndexFault> {
        let delivery = Delivery {
            receiver,
            name,
            entries: PerNs {
                types,
                values,
                macros,
            },
            import,
        };
        Err(refusal_without_rows(&*self, &delivery))
    }
}

// One crate of one module.
fn one_module(rt: &impl Abort) -> TreeTable<'static> {
    let mut tree = TreeTable::new();
    let tables = Tables {
        modules: &MODULES,
        blocks: &[],
        crates: &CRATES,
    };
    assert!(rt; tree.load(tables).is_ok());
    tree
}

static MODULES: [ModuleRow; 1] = [ModuleRow {
    krate: CrateId(0),
    block: None,
    parent: None,
}];

static CRATES: [CrateRow; 1] = [CrateRow {
    root: ModuleId(0),
    edition: Edition::Edition2021,
}];

fn function(name: u32, vis: Visibility) -> Delivery {
    Delivery {
        receiver: ModuleId(0),
        name: Name(name),
        entries: PerNs::values(ModuleDefId::FunctionId(FunctionId(3)), vis, None),
        import: None,
    }
}

#[test]
fn an_index_without_rows(rt: HostRuntime) {
    let tree = one_module(&rt);
    let mut bare = Bare {
        tree: &tree,
        names: 20,
    };
    assert!(rt; bare.get(ModuleId(0), Name(19)).is_none());
    assert!(rt; deliver(&mut bare, function(20, Visibility::Public)) == Err(IndexFault::NoName));
    let hidden = function(19, Visibility::PubCrate(CrateId(1)));
    assert!(rt; deliver(&mut bare, hidden) == Err(IndexFault::Dangling(Namespace::Values)));
    let public = function(19, Visibility::Public);
    assert!(rt; deliver(&mut bare, public) == Err(IndexFault::NoRows(0)));
}
