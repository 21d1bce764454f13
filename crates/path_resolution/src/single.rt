// A path asked in one module, and in the preludes of a crate, without what is asked further outward.
ghost use Rattle.std.specs.Prelude.{◌≡◌, Some};
ghost use Rattle.path_resolution.specs.Sources.{from_extern_prelude, from_crate_root, from_module};
ghost use Rattle.path_resolution.specs.Answers.{no_flags, empty, resolved};
ghost use Rattle.path_resolution.specs.Starts.{super_of};
ghost use Rattle.path_resolution.specs.Singles.{goes_on, as_2015, shadow_of, present, asked_from, preludes_first, settles, named_by, single_named, super_asked, self_asked, root_asked, single_of, preludes_of};

use crate::answer::{ReachedFixedPoint, ResolvePathResult, ResolvePathResultPrefixInfo};
use crate::question::{BuiltinShadowMode, Question, ResolveMode};
use crate::remaining_segments::resolve_remaining_segments;
use crate::sources::{
    resolve_name_in_all_preludes, resolve_name_in_crate_root_or_extern_prelude,
    resolve_name_in_extern_prelude, resolve_name_in_module,
};
use crate::starts::{begin, map_of, start_at, super_of};
use entries::per_ns::PerNs;
use hir_def::edition::Edition;
use hir_def::{CrateId, ModuleId, Name};
use item_scope::index::Index;
use path_text::mod_path::PathKind;

/// The answer of one module, and whether no other is asked any more.
#[derive(Clone, Copy)]
pub(crate) struct Asked {
    pub answer: ResolvePathResult,
    pub is_final: bool,
}

impl Asked {
    fn goes_on(answer: ResolvePathResult) -> Asked
        ensures { result ≡ goes_on answer }
    {
        Asked {
            answer,
            is_final: false,
        }
    }

    fn empty(reached_fixedpoint: ReachedFixedPoint) -> Asked
        ensures { result ≡ goes_on (empty reached_fixedpoint) }
    {
        Asked::goes_on(ResolvePathResult::empty(reached_fixedpoint))
    }
}

// Plain imports and `::` paths of edition 2015 begin in the crate's root.
fn is_as_2015<I: Index>(index: &I, question: Question, kind: PathKind, m: ModuleId) -> bool
    ensures { result ≡ as_2015 (I.view index.now) question kind m }
{
    index.edition(index.krate(m)) == Edition::Edition2015
        && (kind == PathKind::Abs || question.mode == ResolveMode::Import)
}

fn present(entries: PerNs) -> Option<PerNs>
    ensures { result ≡ present entries }
{
    if entries.is_none() {
        None
    } else {
        Some(entries)
    }
}

// The first name of a `::` path: a crate of the extern prelude, if there is one of that name.
fn resolve_path_abs<I: Index>(index: &I, m: ModuleId, name: Name) -> Option<PerNs>
    ensures { let v = I.view index.now in result ≡ present (from_extern_prelude v m name) }
{
    present(resolve_name_in_extern_prelude(index, m, name))
}

// The shadow mode counts for paths of one name.
fn shadow_of(shadow: BuiltinShadowMode, further: &[Name]) -> BuiltinShadowMode
    ensures { result ≡ shadow_of shadow further.now }
{
    match further {
        [] => shadow,
        _ => BuiltinShadowMode::Module,
    }
}

// The same in the crate's preludes alone.
fn preludes_first<I: Index>(
    index: &I,
    question: Question,
    kind: PathKind,
    m: ModuleId,
    name: Name,
) -> Option<PerNs>
    ensures { result ≡ preludes_first (I.view index.now) question kind m name }
{
    if is_as_2015(index, question, kind, m) {
        return Some(resolve_name_in_extern_prelude(index, m, name));
    }
    match kind {
        PathKind::Abs => resolve_path_abs(index, m, name),
        _ => Some(resolve_name_in_all_preludes(index, question.expected_macro_subns, m, name)),
    }
}

// A path of one name needs no walk.
fn resolved_at_once(first: PerNs) -> ResolvePathResult
    ensures { result ≡ resolved first no_flags }
{
    ResolvePathResult::resolved(first, ResolvePathResultPrefixInfo::none())
}

// The answer where the first name of a path asked in `m` has those entries.
#[tactic(auto, unfolding(crate::specs::Walks::walk_of))]
fn resolve_further<I: Index>(
    index: &I,
    judge: ModuleId,
    m: ModuleId,
    first: &PerNs,
    further: &[Name],
) -> ResolvePathResult
    ensures { result ≡ named_by (I.view index.now) judge m (Some first.now) further.now }
{
    if further.is_empty() {
        return resolved_at_once(*first);
    }
    resolve_remaining_segments(index, judge, begin(index, m, *first), 1, further)
}

// A plain path of several names asks no further once its first name has a type.
fn settles(kind: PathKind, first: &PerNs, further: &[Name]) -> bool
    ensures { result ≡ settles kind (Some first.now) further.now }
{
    kind == PathKind::Plain && !further.is_empty() && first.types.is_some()
}

// A path whose first name has those entries, asked in `m`.
#[tactic(auto, unfolding(crate::specs::Walks::walk_of))]
fn single_from<I: Index>(
    index: &I,
    judge: ModuleId,
    kind: PathKind,
    m: ModuleId,
    first: &PerNs,
    further: &[Name],
) -> Asked
    ensures { result ≡ asked_from (I.view index.now) judge kind m (Some first.now) further.now }
{
    if further.is_empty() {
        return Asked::goes_on(resolved_at_once(*first));
    }
    Asked {
        answer: resolve_further(index, judge, m, first, further),
        is_final: settles(kind, first, further),
    }
}

// A path of edition 2015 that begins in the crate's root.
fn single_2015<I: Index>(
    index: &I,
    judge: ModuleId,
    kind: PathKind,
    m: ModuleId,
    name: Name,
    further: &[Name],
) -> Asked
    ensures { let v = I.view index.now in
        result ≡ asked_from v judge kind m (Some (from_crate_root v m name)) further.now }
{
    let first = resolve_name_in_crate_root_or_extern_prelude(index, m, name);
    single_from(index, judge, kind, m, &first, further)
}

// A `::` path, whose first name is a crate of the extern prelude, if there is one of that name.
fn single_abs<I: Index>(
    index: &I,
    judge: ModuleId,
    m: ModuleId,
    name: Name,
    further: &[Name],
) -> Asked
    ensures { let v = I.view index.now in
        result ≡ asked_from v judge PathKind.Abs m (present (from_extern_prelude v m name)) further.now }
{
    let Some(first) = resolve_path_abs(index, m, name) else {
        return Asked::empty(ReachedFixedPoint::No);
    };
    single_from(index, judge, PathKind::Abs, m, &first, further)
}

// A plain path.
fn single_plain<I: Index>(
    index: &I,
    question: Question,
    kind: PathKind,
    m: ModuleId,
    name: Name,
    further: &[Name],
) -> Asked
    ensures { let v = I.view index.now in
        result ≡ asked_from v question.original_module kind m (Some (from_module v question (shadow_of question.shadow further.now) m name)) further.now }
{
    let shadow = shadow_of(question.shadow, further);
    let first = resolve_name_in_module(index, question, shadow, m, name);
    single_from(index, question.original_module, kind, m, &first, further)
}

// A plain or a `::` path.
fn single_named<I: Index>(
    index: &I,
    question: Question,
    kind: PathKind,
    names: &[Name],
    m: ModuleId,
) -> Asked
    ensures { result ≡ single_named (I.view index.now) question kind names.now m }
{
    let [name, further @ ..] = names else {
        return Asked::empty(ReachedFixedPoint::Yes);
    };
    let judge = question.original_module;
    if is_as_2015(index, question, kind, m) {
        return single_2015(index, judge, kind, m, *name, further);
    }
    if kind == PathKind::Abs {
        return single_abs(index, judge, m, *name, further);
    }
    single_plain(index, question, kind, m, *name, further)
}

// A `self` path in a module that is no block's root. In a module of a block the crate's preludes are asked last and have
// nothing for it.
fn self_asked<I: Index>(
    index: &I,
    judge: ModuleId,
    names: &[Name],
    at: ModuleId,
) -> ResolvePathResult
    ensures { result ≡ self_asked (I.view index.now) judge names.now at }
{
    let start = start_at(index, at, at);
    let answer = resolve_remaining_segments(index, judge, start, 0, names);
    if index.block(at).is_some() {
        answer.merge(ResolvePathResult::empty(ReachedFixedPoint::Yes))
    } else {
        answer
    }
}

// What `super` found in `m`: a module of the same map, of another one, or none.
fn super_asked<I: Index>(
    index: &I,
    judge: ModuleId,
    names: &[Name],
    m: ModuleId,
    found: Option<ModuleId>,
) -> ResolvePathResult
    ensures { result ≡ super_asked (I.view index.now) judge names.now m found }
{
    match found {
        Some(at) if map_of(index, at) == map_of(index, m) => {
            let start = start_at(index, m, at);
            resolve_remaining_segments(index, judge, start, 0, names)
        }
        Some(at) => self_asked(index, judge, names, at),
        None => ResolvePathResult::empty(ReachedFixedPoint::Yes),
    }
}

// A path that begins with `super` or `self`.
fn super_named<I: Index>(
    index: &I,
    judge: ModuleId,
    level: u32,
    names: &[Name],
    m: ModuleId,
) -> Asked
    ensures { let v = I.view index.now in
        result ≡ goes_on (super_asked v judge names.now m (super_of v.fixed.tree level m)) }
{
    let found = super_of(index, level, m);
    Asked::goes_on(super_asked(index, judge, names, m, found))
}

// A path that begins with a crate.
fn root_named<I: Index>(
    index: &I,
    judge: ModuleId,
    krate: CrateId,
    names: &[Name],
    m: ModuleId,
) -> Asked
    ensures { result ≡ goes_on (root_asked (I.view index.now) judge names.now m krate) }
{
    let start = start_at(index, m, index.crate_root(krate));
    Asked::goes_on(resolve_remaining_segments(index, judge, start, 0, names))
}

/// The answer of the module `m` alone.
#[tactic(auto, unfolding(crate::specs::Singles::single_of))]
pub(crate) fn resolve_path_fp_with_macro_single<I: Index>(
    index: &I,
    question: Question,
    kind: PathKind,
    names: &[Name],
    m: ModuleId,
) -> Asked
    ensures { result ≡ single_of (I.view index.now) question kind names.now m }
{
    let judge = question.original_module;
    match kind {
        PathKind::Plain | PathKind::Abs => single_named(index, question, kind, names, m),
        PathKind::Crate => root_named(index, judge, index.krate(m), names, m),
        PathKind::DollarCrate(krate) => root_named(index, judge, krate, names, m),
        PathKind::Super(level) => super_named(index, judge, level, names, m),
    }
}

/// The answer of the preludes of the crate of `m`, a block's root, which also judges who may see.
#[tactic(auto, unfolding(crate::specs::Singles::preludes_of))]
pub(crate) fn resolve_path_fp_in_all_preludes<I: Index>(
    index: &I,
    question: Question,
    kind: PathKind,
    names: &[Name],
    m: ModuleId,
) -> ResolvePathResult
    ensures { result ≡ preludes_of (I.view index.now) question kind names.now m }
{
    match (kind, names) {
        (PathKind::Plain | PathKind::Abs, [name, further @ ..]) => {
            match preludes_first(index, question, kind, m, *name) {
                Some(first) => resolve_further(index, m, m, &first, further),
                None => ResolvePathResult::empty(ReachedFixedPoint::No),
            }
        }
        _ => ResolvePathResult::empty(ReachedFixedPoint::Yes),
    }
}
