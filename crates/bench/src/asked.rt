// The deliveries and the questions of a world.
use crate::numbers::{Numbers, list};
use entries::per_ns::{Item, MacrosItem, PerNs, TypesItem, ValuesItem};
use entries::visibility::{Visibility, VisibilityExplicitness};
use hir_def::builtin_type::BuiltinType;
use hir_def::import::{ImportOrExternCrate, import_or_glob};
use hir_def::{
    AdtId, ConstId, CrateId, EnumId, EnumVariantId, ExternCrateId, FunctionId, GlobId, ImportId,
    MacroId, ModuleDefId, ModuleId, Name, StaticId, StructId, TraitId, TypeAliasId, UnionId,
};
use item_scope::delivery::Delivery;
use path_resolution::question::{BuiltinShadowMode, MacroSubNs, Question, ResolveMode};
use path_text::mod_path::{ModPath, PathKind};
use std::alloc::Global;

/// A question, and the path that is asked.
#[derive(Drop)]
pub(crate) struct Asked {
    pub question: Question,
    pub path: ModPath,
}

/// Questions of one kind, and how often they are asked for one time.
#[derive(Drop)]
pub(crate) struct Group {
    pub rounds: u32,
    pub asked: Vec<Asked>,
}

fn def_of(kind: u32, id: u32) -> Option<ModuleDefId> {
    Some(match kind {
        1 => ModuleDefId::ModuleId(ModuleId(id)),
        2 => ModuleDefId::FunctionId(FunctionId(id)),
        3 => ModuleDefId::AdtId(AdtId::StructId(StructId(id))),
        4 => ModuleDefId::AdtId(AdtId::UnionId(UnionId(id))),
        5 => ModuleDefId::AdtId(AdtId::EnumId(EnumId(id))),
        6 => ModuleDefId::EnumVariantId(EnumVariantId(id)),
        7 => ModuleDefId::ConstId(ConstId(id)),
        8 => ModuleDefId::StaticId(StaticId(id)),
        9 => ModuleDefId::TraitId(TraitId(id)),
        10 => ModuleDefId::TypeAliasId(TypeAliasId(id)),
        11 => match BuiltinType::by_name(Name(id)) {
            Some(builtin) => ModuleDefId::BuiltinType(builtin),
            None => return None,
        },
        12 => ModuleDefId::MacroId(MacroId(id)),
        _ => return None,
    })
}

fn visibility(numbers: &mut Numbers) -> Option<Visibility> {
    let kind = numbers.next()?;
    let number = numbers.next()?;
    Some(match kind {
        0 => Visibility::Public,
        1 => Visibility::PubCrate(CrateId(number)),
        2 => Visibility::Module(ModuleId(number), VisibilityExplicitness::Explicit),
        _ => Visibility::Module(ModuleId(number), VisibilityExplicitness::Implicit),
    })
}

// 0 for no entry; else the kind of its def, the def's number and the visibility.
fn entry(numbers: &mut Numbers) -> Option<Option<TypesItem>> {
    let kind = numbers.next()?;
    if kind == 0 {
        return Some(None);
    }
    let id = numbers.next()?;
    Some(Some(Item {
        def: def_of(kind, id)?,
        vis: visibility(numbers)?,
        import: None,
    }))
}

// 0 for none; else the kind of the import and its number.
fn import(numbers: &mut Numbers) -> Option<Option<ImportOrExternCrate>> {
    let kind = numbers.next()?;
    if kind == 0 {
        return Some(None);
    }
    let number = numbers.next()?;
    Some(Some(match kind {
        1 => ImportOrExternCrate::Glob(GlobId(number)),
        2 => ImportOrExternCrate::Import(ImportId(number)),
        _ => ImportOrExternCrate::ExternCrate(ExternCrateId(number)),
    }))
}

fn as_value(item: TypesItem) -> ValuesItem {
    Item {
        def: item.def,
        vis: item.vis,
        import: import_or_glob(item.import),
    }
}

fn as_macro(item: TypesItem) -> Option<MacrosItem> {
    match item.def {
        ModuleDefId::MacroId(def) => Some(Item {
            def,
            vis: item.vis,
            import: item.import,
        }),
        _ => None,
    }
}

fn entries(numbers: &mut Numbers) -> Option<PerNs> {
    Some(PerNs {
        types: entry(numbers)?,
        values: entry(numbers)?.map(as_value),
        macros: entry(numbers)?.and_then(as_macro),
    })
}

fn delivery(numbers: &mut Numbers) -> Option<Delivery> {
    Some(Delivery {
        receiver: ModuleId(numbers.next()?),
        name: Name(numbers.next()?),
        entries: entries(numbers)?,
        import: import(numbers)?,
    })
}

/// How many deliveries follow, and then each.
pub(crate) fn deliveries(alloc: Global, numbers: &mut Numbers) -> Option<Vec<Delivery>> {
    list(alloc, numbers, delivery)
}

fn kind(numbers: &mut Numbers) -> Option<PathKind> {
    let kind = numbers.next()?;
    let number = numbers.next()?;
    Some(match kind {
        0 => PathKind::Plain,
        1 => PathKind::Abs,
        2 => PathKind::Crate,
        3 => PathKind::Super(number),
        _ => PathKind::DollarCrate(CrateId(number)),
    })
}

fn mode(number: u32) -> ResolveMode {
    match number {
        0 => ResolveMode::Import,
        _ => ResolveMode::Other,
    }
}

fn shadow(number: u32) -> BuiltinShadowMode {
    match number {
        0 => BuiltinShadowMode::Module,
        _ => BuiltinShadowMode::Other,
    }
}

fn macro_kind(number: u32) -> Option<MacroSubNs> {
    match number {
        0 => None,
        1 => Some(MacroSubNs::Bang),
        _ => Some(MacroSubNs::Attr),
    }
}

fn question(numbers: &mut Numbers) -> Option<Question> {
    Some(Question {
        mode: mode(numbers.next()?),
        original_module: ModuleId(numbers.next()?),
        shadow: shadow(numbers.next()?),
        expected_macro_subns: macro_kind(numbers.next()?),
    })
}

fn name(numbers: &mut Numbers) -> Option<Name> {
    numbers.next().map(Name)
}

fn one_asked(alloc: Global, numbers: &mut Numbers) -> Option<Asked> {
    let question = question(numbers)?;
    let kind = kind(numbers)?;
    let names = list(alloc, numbers, name)?;
    Some(Asked {
        question,
        path: ModPath { kind, names },
    })
}

fn one_group(alloc: Global, numbers: &mut Numbers) -> Option<Group> {
    let rounds = numbers.next()?;
    let asked = list(
        alloc,
        numbers,
        |numbers: &mut Numbers| one_asked(alloc, numbers),
    )?;
    Some(Group { rounds, asked })
}

/// How many groups follow, and then each.
pub(crate) fn groups(alloc: Global, numbers: &mut Numbers) -> Option<Vec<Group>> {
    list(
        alloc,
        numbers,
        |numbers: &mut Numbers| one_group(alloc, numbers),
    )
}
