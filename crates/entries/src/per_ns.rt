// One name can stand for a type, a value and a macro at once: an entry for each namespace.
ghost use Rattle.std.specs.Prelude.{◌≡◌, Bool, Decides};
ghost use Rattle.entries.specs.Entries.{Both, both_equal, reresolved_by, nothing, of_types, of_values, of_both, of_macros, is_nothing, or_else, kept, kept_all, value_entry, macro_entry};
ghost use Rattle.entries.specs.Merges.{LeftWinsEach, KeepsSeenEach};

use crate::visibility::Visibility;
use hir_def::import::{ImportOrExternCrate, ImportOrGlob, import_or_glob, widened};
use hir_def::lawful_eq::{LawfulEq, same};
use hir_def::{MacroId, ModuleDefId, ModuleId};
use nameres::Tree;

/// An entry: what a name stands for, who may see it, and what imported it.
#[derive(Clone, Copy, PartialEq, Eq, Hash, Debug)]
pub struct Item<Def, Import> {
    pub def: Def,
    pub vis: Visibility,
    pub import: Option<Import>,
}

pub type TypesItem = Item<ModuleDefId, ImportOrExternCrate>;

pub type ValuesItem = Item<ModuleDefId, ImportOrGlob>;

pub type MacrosItem = Item<MacroId, ImportOrExternCrate>;

impl<Def: LawfulEq, Import: LawfulEq> Item<Def, Import> {
    /// Whether the entry stands for `def`.
    pub fn same_def(self, def: Def) -> bool
        ensures value { result ≡ Def.PartialEq.eq self.def def }
        ensures means { Decides result (self.def ≡ def) }
    {
        same(self.def, def)
    }

    /// Whether the entry was imported, and by `import`.
    pub fn same_import(self, import: Option<Import>) -> bool
        ensures value { result ≡ both_equal Import.PartialEq.eq self.import import }
        ensures means { Decides result (Both self.import import) }
    {
        match (self.import, import) {
            (Some(own), Some(other)) => same(own, other),
            _ => false,
        }
    }

    /// Whether `import`, which brought the entry, brings `def` now, and so another def.
    pub fn is_reresolved_by(self, def: Def, import: Option<Import>) -> bool
        ensures { result ≡ reresolved_by Def.PartialEq.eq Import.PartialEq.eq self def import }
    {
        self.same_import(import) && !self.same_def(def)
    }
}

/// An entry of the values with its def and import as those of any namespace.
pub fn value_entry(item: ValuesItem) -> TypesItem
    ensures { result ≡ value_entry item }
{
    Item {
        def: item.def,
        vis: item.vis,
        import: widened(item.import),
    }
}

/// An entry of the macros with its def as that of any namespace.
pub fn macro_entry(item: MacrosItem) -> TypesItem
    ensures { result ≡ macro_entry item }
{
    Item {
        def: ModuleDefId::MacroId(item.def),
        vis: item.vis,
        import: item.import,
    }
}

// Takes the entry out, unless `from` may see it.
fn filter_item<T: Tree, Def: Copy, Import: Copy>(
    item: &mut Option<Item<Def, Import>>,
    tree: &T,
    from: ModuleId,
)
    ensures { item.new ≡ kept (T.shape tree.now) from item.old }
{
    if item.is_some_and(|it| !it.vis.sees(tree, from)) {
        *item = None;
    }
}

#[derive(Clone, Copy, PartialEq, Eq, Hash, Debug)]
pub struct PerNs {
    pub types: Option<TypesItem>,
    pub values: Option<ValuesItem>,
    pub macros: Option<MacrosItem>,
}

impl PerNs {
    pub fn none() -> PerNs
        ensures { result ≡ nothing }
    {
        PerNs {
            types: None,
            values: None,
            macros: None,
        }
    }

    pub fn types(def: ModuleDefId, vis: Visibility, import: Option<ImportOrExternCrate>) -> PerNs
        ensures { result ≡ of_types def vis import }
    {
        PerNs {
            types: Some(Item { def, vis, import }),
            ..PerNs::none()
        }
    }

    pub fn values(def: ModuleDefId, vis: Visibility, import: Option<ImportOrGlob>) -> PerNs
        ensures { result ≡ of_values def vis import }
    {
        PerNs {
            values: Some(Item { def, vis, import }),
            ..PerNs::none()
        }
    }

    /// A type and a value of one visibility and import; the value keeps no import by an extern crate.
    pub fn both(
        types: ModuleDefId,
        values: ModuleDefId,
        vis: Visibility,
        import: Option<ImportOrExternCrate>,
    ) -> PerNs
        ensures { result ≡ of_both types values vis import }
    {
        PerNs {
            types: Some(Item {
                def: types,
                vis,
                import,
            }),
            values: Some(Item {
                def: values,
                vis,
                import: import_or_glob(import),
            }),
            ..PerNs::none()
        }
    }

    pub fn macros(def: MacroId, vis: Visibility, import: Option<ImportOrExternCrate>) -> PerNs
        ensures { result ≡ of_macros def vis import }
    {
        PerNs {
            macros: Some(Item { def, vis, import }),
            ..PerNs::none()
        }
    }

    pub fn is_none(&self) -> bool
        ensures { result ≡ is_nothing self.now }
    {
        self.types.is_none() && self.values.is_none() && self.macros.is_none()
    }

    /// In each namespace this entry, else the other one.
    pub fn or(mut self, other: PerNs) -> PerNs
        ensures value { result ≡ or_else self other }
        ensures left { LeftWinsEach self other result }
    {
        self.fill(&other);
        self
    }

    /// Takes the other's entry in each namespace that has none.
    pub fn fill(&mut self, other: &PerNs)
        ensures value { self.new ≡ or_else self.old other.now }
        ensures left { LeftWinsEach self.old other.now self.new }
    {
        if self.types.is_none() {
            self.types = other.types;
        }
        if self.values.is_none() {
            self.values = other.values;
        }
        if self.macros.is_none() {
            self.macros = other.macros;
        }
    }

    /// Takes the entries out that `from` may not see.
    pub fn filter_visibility<T: Tree>(&mut self, tree: &T, from: ModuleId)
        ensures value { self.new ≡ kept_all (T.shape tree.now) from self.old }
        ensures seen { KeepsSeenEach (T.shape tree.now) from self.old self.new }
    {
        filter_item(&mut self.types, tree, from);
        filter_item(&mut self.values, tree, from);
        filter_item(&mut self.macros, tree, from);
    }
}
