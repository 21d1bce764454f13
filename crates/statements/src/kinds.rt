// The kinds of items and imports that statements tell, and the entries that they are.
ghost use Rattle.std.specs.Prelude.{◌≡◌};
ghost use Rattle.std.specs.Option.{option_map};
ghost use Rattle.statements.specs.Kinds.{has_constructor, import_of, seen_by, with_visibility, shaped, def_of, entries_of};

use entries::per_ns::{Item, PerNs};
use entries::visibility::Visibility;
use hir_def::import::ImportOrExternCrate;
use hir_def::{
    AdtId, ConstId, EnumId, EnumVariantId, ExternCrateId, FunctionId, GlobId, ImportId, MacroId,
    ModuleDefId, StaticId, StructId, TraitId, TypeAliasId, UnionId,
};
use item_scope::index_data::CallStyles;

/// How the fields of a struct or a variant are written. Only with a record there is no constructor that is a value.
#[derive(Clone, Copy, PartialEq, Eq, Debug)]
pub enum Shape {
    Unit,
    Tuple,
    Record,
}

/// The kind of an item.
#[derive(Clone, Copy, PartialEq, Eq, Debug)]
pub enum ItemKind {
    Function,
    Const,
    Static,
    Struct(Shape),
    Union,
    Enum,
    Trait,
    TypeAlias,
    Macro(CallStyles),
    Variant(Shape),
}

/// How an import brings what it names.
#[derive(Clone, Copy, PartialEq, Eq, Debug)]
pub enum Bringing {
    Named,
    Glob,
    ExternCrate,
}

impl Shape {
    /// Whether its name is a value too.
    pub fn has_constructor(self) -> bool
        ensures { result ≡ has_constructor self }
    {
        !matches!(self, Shape::Record)
    }
}

impl Bringing {
    /// The import with that number among those of its kind.
    pub fn import(self, number: u32) -> ImportOrExternCrate
        ensures { result ≡ import_of self number }
    {
        match self {
            Bringing::Named => ImportOrExternCrate::Import(ImportId(number)),
            Bringing::Glob => ImportOrExternCrate::Glob(GlobId(number)),
            Bringing::ExternCrate => ImportOrExternCrate::ExternCrate(ExternCrateId(number)),
        }
    }
}

// The entry, if there is one, with that visibility.
fn seen_by<Def: Copy, Import: Copy>(
    entry: Option<Item<Def, Import>>,
    vis: Visibility,
) -> Option<Item<Def, Import>>
    ensures { result ≡ option_map (seen_by vis) entry }
{
    entry.map(|item| Item { vis, ..item })
}

/// The entries, each with that visibility.
pub fn with_visibility(entries: PerNs, vis: Visibility) -> PerNs
    ensures { result ≡ with_visibility vis entries }
{
    PerNs {
        types: seen_by(entries.types, vis),
        values: seen_by(entries.values, vis),
        macros: seen_by(entries.macros, vis),
    }
}

// A type, which is a value too where it has a constructor.
fn shaped(def: ModuleDefId, shape: Shape, vis: Visibility) -> PerNs
    ensures { result ≡ shaped def shape vis }
{
    if shape.has_constructor() {
        PerNs::both(def, def, vis, None)
    } else {
        PerNs::types(def, vis, None)
    }
}

impl ItemKind {
    /// What a name of the item with that number among those of its kind stands for.
    pub fn def(self, number: u32) -> ModuleDefId
        ensures { result ≡ def_of self number }
    {
        match self {
            ItemKind::Function => ModuleDefId::FunctionId(FunctionId(number)),
            ItemKind::Const => ModuleDefId::ConstId(ConstId(number)),
            ItemKind::Static => ModuleDefId::StaticId(StaticId(number)),
            ItemKind::Struct(_) => ModuleDefId::AdtId(AdtId::StructId(StructId(number))),
            ItemKind::Union => ModuleDefId::AdtId(AdtId::UnionId(UnionId(number))),
            ItemKind::Enum => ModuleDefId::AdtId(AdtId::EnumId(EnumId(number))),
            ItemKind::Trait => ModuleDefId::TraitId(TraitId(number)),
            ItemKind::TypeAlias => ModuleDefId::TypeAliasId(TypeAliasId(number)),
            ItemKind::Macro(_) => ModuleDefId::MacroId(MacroId(number)),
            ItemKind::Variant(_) => ModuleDefId::EnumVariantId(EnumVariantId(number)),
        }
    }

    /// The entries of the item with that number among those of its kind.
    pub fn entries(self, number: u32, vis: Visibility) -> PerNs
        ensures { result ≡ entries_of self number vis }
    {
        let def = self.def(number);
        match self {
            ItemKind::Function | ItemKind::Const | ItemKind::Static => {
                PerNs::values(def, vis, None)
            }
            ItemKind::Struct(shape) | ItemKind::Variant(shape) => shaped(def, shape, vis),
            ItemKind::Union | ItemKind::Enum | ItemKind::Trait | ItemKind::TypeAlias => {
                PerNs::types(def, vis, None)
            }
            ItemKind::Macro(_) => PerNs::macros(MacroId(number), vis, None),
        }
    }
}
