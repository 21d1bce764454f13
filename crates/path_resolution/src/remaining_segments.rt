// The walk over a path's further names. What the Rust asks anew in another crate is one more step of the same walk: it goes on
// there from the module on which the foreign one settles, with the path's own index, and the first asker judges who may see.
ghost use Rattle.std.specs.Prelude.{◌≡◌, ◌≤◌};
ghost use Rattle.path_resolution.specs.Walks.{whole, unresolved, stopped, variant_of, sight, module_step, enum_step_by, type_step, step_of, walk_of};

use crate::answer::{ReachedFixedPoint, ResolvePathResult, ResolvePathResultPrefixInfo};
use entries::per_ns::{PerNs, TypesItem};
use entries::visibility::leave_blocks;
use hir_def::{AdtId, CrateId, EnumId, ModuleDefId, ModuleId, Name};
use item_scope::index::Index;
use item_scope::index_data::EnumVariant;

/// Where a walk stands: the entries so far, the crate in which it asks, and what it passed.
#[derive(Clone, Copy)]
pub(crate) struct Reached {
    pub entries: PerNs,
    pub krate: CrateId,
    pub passed: ResolvePathResultPrefixInfo,
}

/// What a name leads to: further on, or to the answer.
#[derive(Clone, Copy)]
pub(crate) enum Step {
    On(Reached),
    Done(ResolvePathResult),
}

impl Reached {
    // The whole path is resolved.
    fn whole(&self) -> ResolvePathResult
        ensures { result ≡ whole self.now }
    {
        ResolvePathResult::resolved(self.entries, self.passed)
    }

    // Names are left, and there is no type. In another crate no item can come any more.
    fn unresolved(&self) -> ResolvePathResult
        ensures { result ≡ unresolved self.now }
    {
        let differing_crate = self.passed.differing_crate;
        ResolvePathResult {
            reached_fixedpoint: if differing_crate {
                ReachedFixedPoint::Yes
            } else {
                ReachedFixedPoint::No
            },
            prefix_info: ResolvePathResultPrefixInfo {
                differing_crate,
                enum_variant: false,
            },
            ..ResolvePathResult::empty(ReachedFixedPoint::No)
        }
    }

    // The type stays, and the names from the `i`-th on are left.
    fn stopped(&self, ty: &TypesItem, i: usize) -> ResolvePathResult
        ensures { result ≡ stopped self.now ty.now i }
    {
        ResolvePathResult {
            resolved_def: PerNs::types(ty.def, ty.vis, ty.import),
            segment_index: Some(i),
            reached_fixedpoint: ReachedFixedPoint::Yes,
            prefix_info: self.passed,
        }
    }
}

fn variant_entries(ty: &TypesItem, variant: EnumVariant) -> PerNs
    ensures { result ≡ variant_of ty.now variant }
{
    let def = ModuleDefId::EnumVariantId(variant.variant);
    if variant.has_constructor {
        PerNs::both(def, def, ty.vis, None)
    } else {
        PerNs::types(def, ty.vis, None)
    }
}

// The module whose places are asked: a foreign one is asked as `self` there, and so leaves block roots.
fn module_step<I: Index>(
    index: &I,
    judge: ModuleId,
    at: &Reached,
    m: ModuleId,
    name: Name,
) -> Reached
    ensures { result ≡ module_step (sight (I.view index.now) judge) at.now m name }
{
    let krate = index.krate(m);
    let is_foreign = krate != at.krate;
    let asked = if is_foreign {
        leave_blocks(index, m)
    } else {
        m
    };
    let mut entries = index.get(asked, name);
    entries.filter_visibility(index, judge);
    Reached {
        entries,
        krate,
        passed: ResolvePathResultPrefixInfo {
            differing_crate: at.passed.differing_crate || is_foreign,
            ..at.passed
        },
    }
}

// A variant ends a path; of an enum without that variant the type stays.
fn enum_step<I: Index>(
    index: &I,
    at: &Reached,
    ty: &TypesItem,
    e: EnumId,
    i: usize,
    name: Name,
) -> Step
    ensures { result ≡ enum_step_by ((I.view index.now).fixed.variant e name) at.now ty.now i }
{
    match index.enum_variant(e, name) {
        Some(variant) => Step::On(Reached {
            entries: variant_entries(ty, variant),
            krate: at.krate,
            passed: ResolvePathResultPrefixInfo {
                enum_variant: true,
                ..at.passed
            },
        }),
        None => Step::Done(at.stopped(ty, i)),
    }
}

fn type_step<I: Index>(
    index: &I,
    judge: ModuleId,
    at: &Reached,
    ty: &TypesItem,
    i: usize,
    name: Name,
) -> Step
    ensures { result ≡ type_step (sight (I.view index.now) judge) at.now ty.now i name }
{
    match ty.def {
        ModuleDefId::ModuleId(m) => Step::On(module_step(index, judge, at, m, name)),
        ModuleDefId::AdtId(AdtId::EnumId(e)) => enum_step(index, at, ty, e, i, name),
        _ => Step::Done(at.stopped(ty, i)),
    }
}

// The `i`-th name, asked of the type so far.
fn next_step<I: Index>(index: &I, judge: ModuleId, at: &Reached, i: usize, name: Name) -> Step
    ensures { result ≡ step_of (sight (I.view index.now) judge) at.now i name }
{
    match &at.entries.types {
        Some(ty) if !at.passed.enum_variant => type_step(index, judge, at, ty, i, name),
        _ => Step::Done(at.unresolved()),
    }
}

/// The answer when the names are asked one after the other, the first of them the `first`-th of the path.
pub(crate) fn resolve_remaining_segments<I: Index>(
    index: &I,
    judge: ModuleId,
    mut at: Reached,
    first: usize,
    names: &[Name],
) -> ResolvePathResult
    requires { first ≤ 1 }
    ensures { result ≡ walk_of (sight (I.view index.now) judge) at first names.now }
{
    for (k, name) in names.iter().enumerate() {
        match next_step(index, judge, &at, first + k, *name) {
            Step::On(next) => at = next,
            Step::Done(answer) => return answer,
        }
    }
    at.whole()
}
