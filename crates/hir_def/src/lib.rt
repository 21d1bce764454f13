// Ids and defs: what the names of a crate can stand for.
#![tactic(auto)]

pub mod builtin_type;
pub mod edition;
pub mod fault;
pub mod import;
pub mod lawful_eq;

use crate::builtin_type::BuiltinType;

/// A name, by its line in the name list; the first nineteen are the built-in types' names.
#[derive(Clone, Copy, PartialEq, Eq, Hash, Debug)]
pub struct Name(pub u32);

#[derive(Clone, Copy, PartialEq, Eq, Hash, Debug)]
pub struct CrateId(pub u32);

#[derive(Clone, Copy, PartialEq, Eq, Hash, Debug)]
pub struct ModuleId(pub u32);

/// A block expression that declares items, and so has a module tree of its own.
#[derive(Clone, Copy, PartialEq, Eq, Hash, Debug)]
pub struct BlockId(pub u32);

#[derive(Clone, Copy, PartialEq, Eq, Hash, Debug)]
pub struct FunctionId(pub u32);

#[derive(Clone, Copy, PartialEq, Eq, Hash, Debug)]
pub struct StructId(pub u32);

#[derive(Clone, Copy, PartialEq, Eq, Hash, Debug)]
pub struct UnionId(pub u32);

#[derive(Clone, Copy, PartialEq, Eq, Hash, Debug)]
pub struct EnumId(pub u32);

#[derive(Clone, Copy, PartialEq, Eq, Hash, Debug)]
pub struct EnumVariantId(pub u32);

#[derive(Clone, Copy, PartialEq, Eq, Hash, Debug)]
pub struct ConstId(pub u32);

#[derive(Clone, Copy, PartialEq, Eq, Hash, Debug)]
pub struct StaticId(pub u32);

#[derive(Clone, Copy, PartialEq, Eq, Hash, Debug)]
pub struct TraitId(pub u32);

#[derive(Clone, Copy, PartialEq, Eq, Hash, Debug)]
pub struct TypeAliasId(pub u32);

#[derive(Clone, Copy, PartialEq, Eq, Hash, Debug)]
pub struct MacroId(pub u32);

/// One leaf of a `use` declaration that names what it imports.
#[derive(Clone, Copy, PartialEq, Eq, Hash, Debug)]
pub struct ImportId(pub u32);

/// One leaf of a `use` declaration that ends in `*`.
#[derive(Clone, Copy, PartialEq, Eq, Hash, Debug)]
pub struct GlobId(pub u32);

/// An `extern crate` declaration.
#[derive(Clone, Copy, PartialEq, Eq, Hash, Debug)]
pub struct ExternCrateId(pub u32);

/// What a name can stand for: one thing in each namespace. A refusal tells a namespace by its place in this order, from 0.
#[derive(Clone, Copy, PartialEq, Eq, Hash, Debug)]
pub enum Namespace {
    Types,
    Values,
    Macros,
}

/// A type that is declared by its fields or variants.
#[derive(Clone, Copy, PartialEq, Eq, Hash, Debug)]
pub enum AdtId {
    StructId(StructId),
    UnionId(UnionId),
    EnumId(EnumId),
}

/// What a name of the types or the values can stand for.
#[derive(Clone, Copy, PartialEq, Eq, Hash, Debug)]
pub enum ModuleDefId {
    ModuleId(ModuleId),
    FunctionId(FunctionId),
    AdtId(AdtId),
    EnumVariantId(EnumVariantId),
    ConstId(ConstId),
    StaticId(StaticId),
    TraitId(TraitId),
    TypeAliasId(TypeAliasId),
    BuiltinType(BuiltinType),
    MacroId(MacroId),
}
