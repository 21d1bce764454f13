// The statements of a file by the numbers of what they declare, so that a def or an import is told by its name and its line.
ghost use Rattle.std.specs.Prelude.{◌≡◌, slice_get};
ghost use Rattle.firmware.specs.Definitions.{definition_of, statement_of, line_of, place_of, item_of};

use crate::definition::{Definition, Standing};
use hir_def::import::ImportOrExternCrate;
use hir_def::{AdtId, ModuleDefId};

/// The statements of definitions and imports, each by its number.
#[derive(Drop)]
pub struct Definitions<'a> {
    pub modules: Vec<Definition<'a>>,
    pub enums: Vec<Definition<'a>>,
    pub macros: Vec<Definition<'a>>,
    /// Functions, structs, variants and the like have one count.
    pub others: Vec<Definition<'a>>,
    /// The statements of imports, each with the module that imports.
    pub imports: Vec<Definition<'a>>,
    pub globs: Vec<Definition<'a>>,
    pub extern_crates: Vec<Definition<'a>>,
    /// The items of a kind and the legacy macros, in the order of their statements.
    pub of_a_kind: Vec<ModuleDefId>,
}

// The statement of that number among those counted with its kind.
fn nth<'a>(statements: &[Definition<'a>], number: u32) -> Option<Definition<'a>>
    ensures { result ≡ slice_get statements.now number }
{
    statements.get(number as usize).copied()
}

impl<'a> Definitions<'a> {
    /// The statement of what a name stands for. A built-in type has none.
    pub fn get(&self, def: ModuleDefId) -> Option<Definition<'a>>
        ensures { result ≡ definition_of self.now def }
    {
        match def {
            ModuleDefId::ModuleId(id) => nth(&self.modules, id.0),
            ModuleDefId::AdtId(AdtId::EnumId(id)) => nth(&self.enums, id.0),
            ModuleDefId::MacroId(id) => nth(&self.macros, id.0),
            ModuleDefId::FunctionId(id) => nth(&self.others, id.0),
            ModuleDefId::AdtId(AdtId::StructId(id)) => nth(&self.others, id.0),
            ModuleDefId::AdtId(AdtId::UnionId(id)) => nth(&self.others, id.0),
            ModuleDefId::EnumVariantId(id) => nth(&self.others, id.0),
            ModuleDefId::ConstId(id) => nth(&self.others, id.0),
            ModuleDefId::StaticId(id) => nth(&self.others, id.0),
            ModuleDefId::TraitId(id) => nth(&self.others, id.0),
            ModuleDefId::TypeAliasId(id) => nth(&self.others, id.0),
            ModuleDefId::BuiltinType(_) => None,
        }
    }

    /// The statement that brought an entry: the import, or where it has none the definition itself. None where the file has no
    /// such statement.
    pub fn statement_of(
        &self,
        def: ModuleDefId,
        import: Option<ImportOrExternCrate>,
    ) -> Option<Definition<'a>>
        ensures { result ≡ statement_of self.now def import }
    {
        match import {
            Some(ImportOrExternCrate::Import(id)) => nth(&self.imports, id.0),
            Some(ImportOrExternCrate::Glob(id)) => nth(&self.globs, id.0),
            Some(ImportOrExternCrate::ExternCrate(id)) => nth(&self.extern_crates, id.0),
            None => self.get(def),
        }
    }

    /// The line of the statement that brought an entry.
    pub fn line_of(&self, def: ModuleDefId, import: Option<ImportOrExternCrate>) -> Option<usize>
        ensures { result ≡ line_of self.now def import }
    {
        self.statement_of(def, import)
            .map(|statement| statement.line)
    }

    /// The place to which its statement delivered an entry. None for a variant, a legacy macro, a crate or a block's root that no
    /// import brought, and for a built-in type.
    pub fn place_of(
        &self,
        def: ModuleDefId,
        import: Option<ImportOrExternCrate>,
    ) -> Option<Definition<'a>>
        ensures { result ≡ place_of self.now def import }
    {
        let statement = self.statement_of(def, import)?;
        match statement.standing {
            Standing::Place => Some(statement),
            _ => None,
        }
    }

    /// The item that an entry is of: a variant's enum, or what the entry stands for itself.
    pub fn item_of(&self, def: ModuleDefId) -> ModuleDefId
        ensures { result ≡ item_of self.now def }
    {
        match self.get(def) {
            Some(definition) => match definition.standing {
                Standing::Variant(of) => ModuleDefId::AdtId(AdtId::EnumId(of)),
                _ => def,
            },
            None => def,
        }
    }
}
