// The sources of a path's first name, in their order.
ghost use Rattle.std.specs.Prelude.{◌≡◌};
ghost use Rattle.entries.specs.Entries.{or_else};
ghost use Rattle.path_resolution.specs.Sources.{fits, macro_fitting, fitting, from_legacy, from_builtin, from_extern_prelude, from_macro_use, from_prelude, from_preludes, precedes, is_block_root, skipped_in_block_roots, type_in_module, macro_in_module, from_module, from_crate_root};
ghost use Rattle.path_resolution.specs.Starts.{map_of};

use crate::question::{BuiltinShadowMode, MacroSubNs, Question};
use crate::starts::map_of;
use entries::per_ns::{Item, MacrosItem, PerNs, TypesItem};
use entries::visibility::Visibility;
use hir_def::builtin_type::BuiltinType;
use hir_def::import::ImportOrExternCrate;
use hir_def::{MacroId, ModuleDefId, ModuleId, Name};
use item_scope::index::Index;
use item_scope::index_data::DefMapId;
use nameres::{Tree, block_exit};

// Whether a macro is of the kind that is asked for.
fn sub_namespace_match<I: Index>(index: &I, expected: Option<MacroSubNs>, def: MacroId) -> bool
    ensures { result ≡ fits (I.view index.now) expected def }
{
    let styles = index.call_styles(def);
    match expected {
        Some(MacroSubNs::Bang) => styles.fn_like,
        Some(MacroSubNs::Attr) => styles.attr || styles.derive,
        None => true,
    }
}

// A macro of another kind counts as none.
fn filter_macro<I: Index>(
    index: &I,
    expected: Option<MacroSubNs>,
    entry: Option<MacrosItem>,
) -> Option<MacrosItem>
    ensures { result ≡ macro_fitting (I.view index.now) expected entry }
{
    entry.filter(|it| sub_namespace_match(index, expected, it.def))
}

fn resolve_in_legacy_scope<I: Index>(
    index: &I,
    expected: Option<MacroSubNs>,
    m: ModuleId,
    name: Name,
) -> Option<MacrosItem>
    ensures { let v = I.view index.now in result ≡ (fitting v expected (from_legacy v m name)).macros }
{
    let legacy = index.legacy_macro(m, name).map(|def| Item {
        def,
        vis: Visibility::Public,
        import: None,
    });
    filter_macro(index, expected, legacy)
}

// A built-in type is found in no block's map.
fn resolve_in_builtin_scope<T: Tree>(tree: &T, m: ModuleId, name: Name) -> Option<TypesItem>
    ensures { result ≡ (from_builtin (T.shape tree.now) m name).types }
{
    if tree.block(m).is_some() {
        return None;
    }
    BuiltinType::by_name(name).map(|ty| Item {
        def: ModuleDefId::BuiltinType(ty),
        vis: Visibility::Public,
        import: None,
    })
}

fn type_in_extern_prelude<I: Index>(index: &I, m: ModuleId, name: Name) -> Option<TypesItem>
    ensures { result ≡ (from_extern_prelude (I.view index.now) m name).types }
{
    index.extern_prelude(index.krate(m), name).map(|it| Item {
        def: ModuleDefId::ModuleId(it.module),
        vis: Visibility::Public,
        import: it.extern_crate.map(ImportOrExternCrate::ExternCrate),
    })
}

// Inlined, as `resolve_in_prelude` is, so that what is found is not written to a place of its own and read from there again.
#[inline(always)]
fn resolve_in_macro_use_prelude<I: Index>(
    index: &I,
    expected: Option<MacroSubNs>,
    map: DefMapId,
    name: Name,
) -> Option<MacrosItem>
    ensures { let v = I.view index.now in result ≡ (fitting v expected (from_macro_use v map name)).macros }
{
    let used = index.macro_use(map, name).map(|it| Item {
        def: it.def,
        vis: Visibility::Public,
        import: it.extern_crate.map(ImportOrExternCrate::ExternCrate),
    });
    filter_macro(index, expected, used)
}

/// What a name means in the extern prelude of `m`'s crate.
pub(crate) fn resolve_name_in_extern_prelude<I: Index>(index: &I, m: ModuleId, name: Name) -> PerNs
    ensures { result ≡ from_extern_prelude (I.view index.now) m name }
{
    PerNs {
        types: type_in_extern_prelude(index, m, name),
        ..PerNs::none()
    }
}

// Of a prelude module's entries those that the judge may see.
#[inline(always)]
fn resolve_in_prelude<I: Index>(
    index: &I,
    expected: Option<MacroSubNs>,
    map: DefMapId,
    judge: ModuleId,
    name: Name,
) -> PerNs
    ensures { let v = I.view index.now in result ≡ fitting v expected (from_prelude v map judge name) }
{
    let Some(prelude) = index.prelude(map) else {
        return PerNs::none();
    };
    let mut entries = index.get(prelude, name);
    entries.filter_visibility(index, judge);
    entries.macros = filter_macro(index, expected, entries.macros);
    entries
}

/// The name in the preludes of the crate of `m`, which also judges who may see.
pub(crate) fn resolve_name_in_all_preludes<I: Index>(
    index: &I,
    expected: Option<MacroSubNs>,
    m: ModuleId,
    name: Name,
) -> PerNs
    ensures { result ≡ from_preludes (I.view index.now) expected m name }
{
    let map = DefMapId::Crate(index.krate(m));
    let prelude = resolve_in_prelude(index, expected, map, m, name);
    PerNs {
        types: type_in_extern_prelude(index, m, name).or(prelude.types),
        values: prelude.values,
        macros: resolve_in_macro_use_prelude(index, expected, map, name).or(prelude.macros),
    }
}

fn is_block_root<T: Tree>(tree: &T, m: ModuleId) -> bool
    ensures { result ≡ is_block_root (T.shape tree.now) m }
{
    block_exit(tree, m).is_some()
}

// A block's root skips the extern prelude.
fn extern_prelude<I: Index>(index: &I, m: ModuleId, name: Name) -> Option<TypesItem>
    ensures { let v = I.view index.now in
        result ≡ (skipped_in_block_roots v.fixed.tree m (from_extern_prelude v m name)).types }
{
    if is_block_root(index, m) {
        return None;
    }
    type_in_extern_prelude(index, m, name)
}

// A block's root skips the prelude too.
fn fill_from_prelude<I: Index>(
    index: &I,
    question: Question,
    m: ModuleId,
    name: Name,
    found: &mut PerNs,
)
    ensures { let v = I.view index.now in let t = v.fixed.tree in
        found.new ≡ or_else found.old (skipped_in_block_roots t m (fitting v question.expected_macro_subns (from_prelude v (map_of t m) question.original_module name))) }
{
    if is_block_root(index, m) {
        return;
    }
    let expected = question.expected_macro_subns;
    let map = map_of(index, m);
    found.fill(&resolve_in_prelude(index, expected, map, question.original_module, name));
}

// In shadow mode Other a built-in type precedes a module.
fn builtin_first(shadow: BuiltinShadowMode, from_scope: &Option<TypesItem>) -> bool
    ensures { result ≡ precedes shadow from_scope.now }
{
    match (shadow, from_scope) {
        (BuiltinShadowMode::Other, Some(it)) => matches!(it.def, ModuleDefId::ModuleId(_)),
        _ => false,
    }
}

// Where a module's own places have no type, or a built-in type goes first: the built-in type, else that of the extern prelude.
fn fill_type<I: Index>(
    index: &I,
    shadow: BuiltinShadowMode,
    m: ModuleId,
    name: Name,
    from_scope: &mut Option<TypesItem>,
)
    ensures { let v = I.view index.now in from_scope.new ≡ type_in_module v shadow m name from_scope.old }
{
    if from_scope.is_some() && !builtin_first(shadow, from_scope) {
        return;
    }
    let from_builtin = resolve_in_builtin_scope(index, m, name);
    if from_builtin.is_some() {
        *from_scope = from_builtin;
    } else if from_scope.is_none() {
        *from_scope = extern_prelude(index, m, name);
    }
}

// The legacy macro goes before that of a module's own places; where there is neither, that of the macro-use prelude.
fn fill_macro<I: Index>(
    index: &I,
    expected: Option<MacroSubNs>,
    m: ModuleId,
    name: Name,
    from_scope: &mut Option<MacrosItem>,
)
    ensures { let v = I.view index.now in from_scope.new ≡ macro_in_module v expected m name from_scope.old }
{
    let legacy = resolve_in_legacy_scope(index, expected, m, name);
    if legacy.is_some() {
        *from_scope = legacy;
        return;
    }
    *from_scope = filter_macro(index, expected, *from_scope);
    if from_scope.is_none() {
        *from_scope = resolve_in_macro_use_prelude(index, expected, map_of(index, m), name);
    }
}

/// The first name of a plain path, asked in `m`: in each namespace from the first source that has it.
#[tactic(auto, using(crate::proofs::Filled::module_filled))]
pub(crate) fn resolve_name_in_module<I: Index>(
    index: &I,
    question: Question,
    shadow: BuiltinShadowMode,
    m: ModuleId,
    name: Name,
) -> PerNs
    ensures { result ≡ from_module (I.view index.now) question shadow m name }
{
    let expected = question.expected_macro_subns;
    let mut found = index.get(m, name);
    fill_type(index, shadow, m, name, &mut found.types);
    fill_macro(index, expected, m, name, &mut found.macros);
    fill_from_prelude(index, question, m, name, &mut found);
    found
}

/// The first name as edition 2015 takes it: in the crate's root, and then in the extern prelude unless a block's root asks.
pub(crate) fn resolve_name_in_crate_root_or_extern_prelude<I: Index>(
    index: &I,
    m: ModuleId,
    name: Name,
) -> PerNs
    ensures { result ≡ from_crate_root (I.view index.now) m name }
{
    let root = index.crate_root(index.krate(m));
    let from_crate_root = index.get(root, name);
    PerNs {
        types: from_crate_root.types.or(extern_prelude(index, m, name)),
        ..from_crate_root
    }
}
