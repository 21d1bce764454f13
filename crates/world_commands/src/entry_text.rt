// Entries as words of a line.
ghost use Rattle.std.specs.Prelude.{◌≡◌, Some};
ghost use Rattle.std.specs.Option.{option_map};
ghost use Rattle.world_commands.specs.EntryTexts.{def_kind, def_number, visibility_text, import_text, entry_text, entries_text};

use entries::per_ns::{PerNs, TypesItem, macro_entry, value_entry};
use entries::visibility::{Visibility, VisibilityExplicitness};
use hir_def::import::ImportOrExternCrate;
use hir_def::{AdtId, ModuleDefId};
use std::fmt;

/// The entries of a name, or `-` where a namespace has none.
#[derive(Clone, Copy, Debug)]
pub(crate) struct EntriesText(pub PerNs);

#[derive(Clone, Copy, Debug)]
struct EntryText(Option<TypesItem>);

#[derive(Clone, Copy, Debug)]
struct VisibilityText(Visibility);

#[derive(Clone, Copy, Debug)]
struct ImportText(Option<ImportOrExternCrate>);

fn def_kind(def: ModuleDefId) -> &'static str
    ensures { result.now ≡ def_kind def }
{
    match def {
        ModuleDefId::ModuleId(_) => "mod",
        ModuleDefId::FunctionId(_) => "fn",
        ModuleDefId::AdtId(AdtId::StructId(_)) => "struct",
        ModuleDefId::AdtId(AdtId::UnionId(_)) => "union",
        ModuleDefId::AdtId(AdtId::EnumId(_)) => "enum",
        ModuleDefId::EnumVariantId(_) => "variant",
        ModuleDefId::ConstId(_) => "const",
        ModuleDefId::StaticId(_) => "static",
        ModuleDefId::TraitId(_) => "trait",
        ModuleDefId::TypeAliasId(_) => "alias",
        ModuleDefId::BuiltinType(_) => "builtin",
        ModuleDefId::MacroId(_) => "macro",
    }
}

fn def_number(def: ModuleDefId) -> u32
    ensures { result ≡ def_number def }
{
    match def {
        ModuleDefId::ModuleId(id) => id.0,
        ModuleDefId::FunctionId(id) => id.0,
        ModuleDefId::AdtId(AdtId::StructId(id)) => id.0,
        ModuleDefId::AdtId(AdtId::UnionId(id)) => id.0,
        ModuleDefId::AdtId(AdtId::EnumId(id)) => id.0,
        ModuleDefId::EnumVariantId(id) => id.0,
        ModuleDefId::ConstId(id) => id.0,
        ModuleDefId::StaticId(id) => id.0,
        ModuleDefId::TraitId(id) => id.0,
        ModuleDefId::TypeAliasId(id) => id.0,
        ModuleDefId::BuiltinType(ty) => ty.as_name().0,
        ModuleDefId::MacroId(id) => id.0,
    }
}

impl fmt::Display for VisibilityText {
    ghost output = { λ v. Some (visibility_text v.0) };

    fn fmt<W: fmt::Write>(&self, f: &mut fmt::Formatter<W>) -> fmt::Result {
        match self.0 {
            Visibility::Public => f.write_str("pub"),
            Visibility::PubCrate(krate) => {
                let number = krate.0;
                write!(f, "crate:{number}")
            }
            Visibility::Module(module, VisibilityExplicitness::Explicit) => {
                let number = module.0;
                write!(f, "in:{number}:e")
            }
            Visibility::Module(module, VisibilityExplicitness::Implicit) => {
                let number = module.0;
                write!(f, "in:{number}:i")
            }
        }
    }
}

impl fmt::Display for ImportText {
    ghost output = { λ i. Some (import_text i.0) };

    fn fmt<W: fmt::Write>(&self, f: &mut fmt::Formatter<W>) -> fmt::Result {
        match self.0 {
            None => f.write_str("-"),
            Some(ImportOrExternCrate::Glob(id)) => {
                let number = id.0;
                write!(f, "glob:{number}")
            }
            Some(ImportOrExternCrate::Import(id)) => {
                let number = id.0;
                write!(f, "import:{number}")
            }
            Some(ImportOrExternCrate::ExternCrate(id)) => {
                let number = id.0;
                write!(f, "extern:{number}")
            }
        }
    }
}

impl fmt::Display for EntryText {
    ghost output = { λ e. Some (entry_text e.0) };

    fn fmt<W: fmt::Write>(&self, f: &mut fmt::Formatter<W>) -> fmt::Result {
        match self.0 {
            None => f.write_str("-"),
            Some(item) => {
                let kind = def_kind(item.def);
                let number = def_number(item.def);
                let vis = VisibilityText(item.vis);
                let import = ImportText(item.import);
                write!(f, "{kind}:{number},{vis},{import}")
            }
        }
    }
}

impl fmt::Display for EntriesText {
    ghost output = { λ e. Some (entries_text e.0) };

    fn fmt<W: fmt::Write>(&self, f: &mut fmt::Formatter<W>) -> fmt::Result {
        let types = EntryText(self.0.types);
        let values = EntryText(self.0.values.map(value_entry));
        let macros = EntryText(self.0.macros.map(macro_entry));
        write!(f, "{types} {values} {macros}")
    }
}
