// A crate of two modules, the root and `a` in it, and what comes to names of `a`.
use entries::per_ns::PerNs;
use entries::visibility::{Visibility, VisibilityExplicitness};
use hir_def::edition::Edition;
use hir_def::import::ImportOrExternCrate;
use hir_def::{CrateId, FunctionId, GlobId, ImportId, ModuleDefId, ModuleId, Name};
use index_tables::loaded_tables::IndexTables;
use item_scope::delivery::Delivery;
use nameres::tree_rows::{CrateRow, ModuleRow, Tables};
use path_resolution::question::{BuiltinShadowMode, Question, ResolveMode};
use std::hash::{BuildHasherDefault, FoldHasher};

static MODULES: [ModuleRow; 2] = [
    ModuleRow {
        krate: CrateId(0),
        block: None,
        parent: None,
    },
    ModuleRow {
        krate: CrateId(0),
        block: None,
        parent: Some(ModuleId(0)),
    },
];

static CRATES: [CrateRow; 1] = [CrateRow {
    root: ModuleId(0),
    edition: Edition::Edition2021,
}];

pub(crate) const ROOT: ModuleId = ModuleId(0);

pub(crate) const A: ModuleId = ModuleId(1);

// The names, after those of the built-in types.
pub(crate) const A_NAME: Name = Name(19);

pub(crate) const G: Name = Name(20);

const H: Name = Name(21);

// How many names there are.
const NAMES: u32 = 22;

pub(crate) fn tables() -> IndexTables<'static> {
    IndexTables {
        tree: Tables {
            modules: &MODULES,
            blocks: &[],
            crates: &CRATES,
        },
        names: NAMES,
        enums: 0,
        macros: 0,
        extern_prelude: &[],
        macro_use: &[],
        preludes: &[],
        legacy: &[],
        variants: &[],
        styles: &[],
    }
}

/// The root declares `a`.
pub(crate) fn declares_a() -> Delivery {
    Delivery {
        receiver: ROOT,
        name: A_NAME,
        entries: PerNs::types(
            ModuleDefId::ModuleId(A),
            Visibility::PubCrate(CrateId(0)),
            None,
        ),
        import: None,
    }
}

/// A function comes to a name of `a`, by a glob.
pub(crate) fn by_glob(name: Name, number: u32) -> Delivery {
    Delivery {
        receiver: A,
        name,
        entries: function(number, Visibility::Public),
        import: Some(ImportOrExternCrate::Glob(GlobId(0))),
    }
}

/// A function comes to a name of `a`, by a named import.
pub(crate) fn by_name(name: Name, number: u32) -> Delivery {
    Delivery {
        receiver: A,
        name,
        entries: function(number, Visibility::Public),
        import: Some(ImportOrExternCrate::Import(ImportId(0))),
    }
}

/// A function that is private to `a`, and so hidden from the root, comes to its name `h`.
pub(crate) fn hidden() -> Delivery {
    Delivery {
        receiver: A,
        name: H,
        entries: function(9, Visibility::Module(A, VisibilityExplicitness::Implicit)),
        import: None,
    }
}

fn function(number: u32, vis: Visibility) -> PerNs {
    PerNs::values(ModuleDefId::FunctionId(FunctionId(number)), vis, None)
}

pub(crate) fn is_function(entries: PerNs, number: u32) -> bool {
    entries
        .values
        .is_some_and(|it| it.def == ModuleDefId::FunctionId(FunctionId(number)))
}

pub(crate) fn asked_in_the_root() -> Question {
    Question {
        mode: ResolveMode::Other,
        original_module: ROOT,
        shadow: BuiltinShadowMode::Module,
        expected_macro_subns: None,
    }
}

pub(crate) fn hashers() -> BuildHasherDefault<FoldHasher> {
    BuildHasherDefault::new()
}
