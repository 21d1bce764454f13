// Deliveries as a line says them: entries, imports and defs.
ghost use Rattle.std.specs.Prelude.{◌≡◌, ◌≢◌, MatchOption, map};
ghost use Rattle.hir_def.specs.declared.MacroId.{MacroId};
ghost use Rattle.hir_def.specs.declared.ModuleDefId.TheVariants as def;
ghost use Rattle.entries.specs.Entries.{macro_entry};
ghost use Rattle.world_commands.specs.Words.{ReadAs, IsDefOf, IsDef, IsImport, IsEntry, IsTypes, IsValues, IsMacros, value_of};
ghost use Rattle.world_commands.specs.Commands.{IsPlace, IsEntries, IsDelivery};

use crate::fields::{cut, visibility};
use entries::per_ns::{Item, MacrosItem, PerNs, TypesItem, ValuesItem};
use hir_def::builtin_type::BuiltinType;
use hir_def::import::{ImportOrExternCrate, import_or_glob};
use hir_def::{
    AdtId, ConstId, EnumId, EnumVariantId, ExternCrateId, FunctionId, GlobId, ImportId, MacroId,
    ModuleDefId, ModuleId, Name, StaticId, StructId, TraitId, TypeAliasId, UnionId,
};
use item_scope::delivery::Delivery;
use source_text::number::number;

// A built-in type is told by its name's number.
fn def_of(kind: &str, id: u32) -> Option<ModuleDefId>
    ensures { ReadAs (IsDefOf id) kind.now result }
{
    match kind {
        "mod" => Some(ModuleDefId::ModuleId(ModuleId(id))),
        "fn" => Some(ModuleDefId::FunctionId(FunctionId(id))),
        "struct" => Some(ModuleDefId::AdtId(AdtId::StructId(StructId(id)))),
        "union" => Some(ModuleDefId::AdtId(AdtId::UnionId(UnionId(id)))),
        "enum" => Some(ModuleDefId::AdtId(AdtId::EnumId(EnumId(id)))),
        "variant" => Some(ModuleDefId::EnumVariantId(EnumVariantId(id))),
        "const" => Some(ModuleDefId::ConstId(ConstId(id))),
        "static" => Some(ModuleDefId::StaticId(StaticId(id))),
        "trait" => Some(ModuleDefId::TraitId(TraitId(id))),
        "alias" => Some(ModuleDefId::TypeAliasId(TypeAliasId(id))),
        "builtin" => BuiltinType::by_name(Name(id)).map(ModuleDefId::BuiltinType),
        "macro" => Some(ModuleDefId::MacroId(MacroId(id))),
        _ => None,
    }
}

// A kind, a colon and a number.
#[tactic(auto, using(crate::proofs::Defs::no_colon, crate::proofs::Defs::def_of))]
fn module_def(word: &str) -> Option<ModuleDefId>
    ensures { ReadAs IsDef word.now result }
{
    let (kind, id) = cut(word, ':')?;
    let id = number(id)?;
    def_of(kind, id)
}

// `glob:N`, `import:N` or `extern:N`, or `-` for none.
#[tactic(auto, unfolding(crate::specs::Words::IsImport))]
fn import(word: &str) -> Option<Option<ImportOrExternCrate>>
    ensures { ReadAs IsImport word.now result }
{
    if word == "-" {
        return Some(None);
    }
    if let Some(id) = word.strip_prefix("glob:") {
        return Some(Some(ImportOrExternCrate::Glob(GlobId(number(id)?))));
    }
    if let Some(id) = word.strip_prefix("import:") {
        return Some(Some(ImportOrExternCrate::Import(ImportId(number(id)?))));
    }
    let id = ExternCrateId(number(word.strip_prefix("extern:")?)?);
    Some(Some(ImportOrExternCrate::ExternCrate(id)))
}

// A def, a visibility and an import, with commas between them.
#[tactic(auto, unfolding(crate::specs::Words::IsEntry, crate::specs::Words::IsImport), using(crate::proofs::EntryWords::no_entry))]
fn entry(word: &str) -> Option<TypesItem>
    ensures { ReadAs IsEntry word.now result }
{
    let (def, rest) = cut(word, ',')?;
    let (vis, imported) = cut(rest, ',')?;
    Some(Item {
        def: module_def(def)?,
        vis: visibility(vis)?,
        import: import(imported)?,
    })
}

#[tactic(auto, unfolding(crate::specs::Words::IsTypes))]
fn types(word: &str) -> Option<Option<TypesItem>>
    ensures { ReadAs IsTypes word.now result }
{
    if word == "-" {
        return Some(None);
    }
    Some(Some(entry(word)?))
}

fn value_of(item: TypesItem) -> ValuesItem
    ensures { result ≡ value_of item }
{
    Item {
        def: item.def,
        vis: item.vis,
        import: import_or_glob(item.import),
    }
}

#[tactic(auto, unfolding(crate::specs::Words::IsValues, crate::specs::Words::IsTypes))]
fn values(word: &str) -> Option<Option<ValuesItem>>
    ensures { ReadAs IsValues word.now result }
{
    Some(types(word)?.map(value_of))
}

// The entry, where it is of a macro.
fn macro_of(item: TypesItem) -> Option<MacrosItem>
    ensures { MatchOption result ((m : MacroId) → item.def ≢ def.MacroId m) (λ m. macro_entry m ≡ item) }
{
    match item.def {
        ModuleDefId::MacroId(def) => Some(Item {
            def,
            vis: item.vis,
            import: item.import,
        }),
        _ => None,
    }
}

#[tactic(auto, unfolding(crate::specs::Words::IsMacros, crate::specs::Words::IsTypes), using(crate::proofs::EntryWords::not_macro))]
fn macros(word: &str) -> Option<Option<MacrosItem>>
    ensures { ReadAs IsMacros word.now result }
{
    match types(word)? {
        None => Some(None),
        Some(item) => Some(Some(macro_of(item)?)),
    }
}

/// `MODULE NAME`.
#[tactic(auto, unfolding(crate::specs::Commands::IsPlace))]
pub(crate) fn place(at: &str, name: &str) -> Option<(ModuleId, Name)>
    ensures { ReadAs IsPlace (at.now, name.now) result }
{
    Some((ModuleId(number(at)?), Name(number(name)?)))
}

#[tactic(auto, unfolding(crate::specs::Commands::IsEntries))]
fn entries(of_types: &str, of_values: &str, of_macros: &str) -> Option<PerNs>
    ensures { ReadAs IsEntries (of_types.now, (of_values.now, of_macros.now)) result }
{
    Some(PerNs {
        types: types(of_types)?,
        values: values(of_values)?,
        macros: macros(of_macros)?,
    })
}

/// `MODULE NAME TYPES VALUES MACROS IMPORT`.
#[tactic(auto, unfolding(crate::specs::Commands::IsDelivery))]
pub(crate) fn delivery(fields: &[&str]) -> Option<Delivery>
    ensures { ReadAs IsDelivery (map (λ f. f.now) fields.now) result }
{
    let [module, name, of_types, of_values, of_macros, by] = fields else {
        return None;
    };
    let (receiver, name) = place(module, name)?;
    Some(Delivery {
        receiver,
        name,
        entries: entries(of_types, of_values, of_macros)?,
        import: import(by)?,
    })
}
