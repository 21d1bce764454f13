// What a path was resolved to, and how two answers are merged.
ghost use Rattle.std.specs.Prelude.{◌≡◌};
ghost use Rattle.path_resolution.specs.Answers.{no_flags, empty, resolved, merged, larger, newer_if_no, joined};

use entries::per_ns::PerNs;

/// The status of an answer: No where names are left and there is no type in which to look up the next one, as long as no name was
/// asked in another crate; No too where a `::` path's first name is no crate; else Yes, even if the last name has no entry. Later
/// deliveries can change an answer of either status.
#[derive(Clone, Copy, PartialEq, Eq, Hash, Debug)]
pub enum ReachedFixedPoint {
    Yes,
    No,
}

/// What the names passed on the way.
#[derive(Clone, Copy, PartialEq, Eq, Hash, Debug)]
pub struct ResolvePathResultPrefixInfo {
    /// A further name was asked in another crate.
    pub differing_crate: bool,
    /// The last name is a variant of the enum that the names before it stand for.
    pub enum_variant: bool,
}

/// What a path stands for, as far as it was resolved.
#[derive(Clone, Copy, PartialEq, Eq, Hash, Debug)]
pub struct ResolvePathResult {
    pub resolved_def: PerNs,
    /// The index in the path of a name that the type before it does not have, where that type is kept: it is no module and has no such
    /// variant. Else none, as where all names were resolved, or nothing was. Of two answers that are merged the larger one.
    pub segment_index: Option<usize>,
    pub reached_fixedpoint: ReachedFixedPoint,
    pub prefix_info: ResolvePathResultPrefixInfo,
}

impl ReachedFixedPoint {
    // The newer status, if this one is No.
    fn or(self, newer: ReachedFixedPoint) -> ReachedFixedPoint
        ensures { result ≡ newer_if_no self newer }
    {
        match self {
            ReachedFixedPoint::Yes => self,
            ReachedFixedPoint::No => newer,
        }
    }
}

impl ResolvePathResultPrefixInfo {
    /// Nothing was passed.
    pub fn none() -> ResolvePathResultPrefixInfo
        ensures { result ≡ no_flags }
    {
        ResolvePathResultPrefixInfo {
            differing_crate: false,
            enum_variant: false,
        }
    }

    // Flags of answers are joined here alone.
    fn join(self, newer: ResolvePathResultPrefixInfo) -> ResolvePathResultPrefixInfo
        ensures { result ≡ joined self newer }
    {
        ResolvePathResultPrefixInfo {
            differing_crate: self.differing_crate || newer.differing_crate,
            enum_variant: self.enum_variant || newer.enum_variant,
        }
    }
}

fn larger_index(older: Option<usize>, newer: Option<usize>) -> Option<usize>
    ensures { result ≡ larger older newer }
{
    match (older, newer) {
        (Some(older), Some(newer)) => Some(older.max(newer)),
        _ => older.or(newer),
    }
}

impl ResolvePathResult {
    /// No entries, no index and no flags.
    pub fn empty(reached_fixedpoint: ReachedFixedPoint) -> ResolvePathResult
        ensures { result ≡ empty reached_fixedpoint }
    {
        ResolvePathResult {
            resolved_def: PerNs::none(),
            segment_index: None,
            reached_fixedpoint,
            prefix_info: ResolvePathResultPrefixInfo::none(),
        }
    }

    // The whole path is resolved, to these entries.
    pub(crate) fn resolved(entries: PerNs, passed: ResolvePathResultPrefixInfo) -> ResolvePathResult
        ensures { result ≡ resolved entries passed }
    {
        ResolvePathResult {
            resolved_def: entries,
            segment_index: None,
            reached_fixedpoint: ReachedFixedPoint::Yes,
            prefix_info: passed,
        }
    }

    /// This answer, and where it leaves something open the newer one.
    pub fn merge(mut self, newer: ResolvePathResult) -> ResolvePathResult
        ensures { result ≡ merged self newer }
    {
        self.join(&newer);
        self
    }

    // Merges the newer answer into this one.
    pub(crate) fn join(&mut self, newer: &ResolvePathResult)
        ensures { self.new ≡ merged self.old newer.now }
    {
        self.resolved_def.fill(&newer.resolved_def);
        self.segment_index = larger_index(self.segment_index, newer.segment_index);
        self.reached_fixedpoint = self.reached_fixedpoint.or(newer.reached_fixedpoint);
        self.prefix_info = self.prefix_info.join(newer.prefix_info);
    }
}
