// The verdict on each item of a model, and how many are kept and cut.
ghost use Rattle.std.specs.Prelude.{◌≡◌, ◌+◌, length, filter};
ghost use Rattle.cuts.specs.Reached.{said};
ghost use Rattle.cuts.specs.Verdicts.{verdict_of, is_kept, is_cut};

use crate::reached::{Reached, Reason};
use hir_def::ModuleDefId;

/// Whether an item of a model is kept, and why, or cut.
#[derive(Clone, Copy, PartialEq, Eq, Debug)]
pub enum Verdict {
    Kept(Reason),
    Cut,
}

/// How many items of a model are kept, and how many are cut.
#[derive(Clone, Copy, PartialEq, Eq, Debug)]
pub struct Tally {
    pub kept: usize,
    pub cut: usize,
}

impl Verdict {
    /// Kept where an answer reaches the item, and else cut.
    pub fn on(reached: &Reached, item: ModuleDefId) -> Verdict
        ensures { result ≡ verdict_of (said reached.now item) }
    {
        match reached.reason(item) {
            Some(reason) => Verdict::Kept(reason),
            None => Verdict::Cut,
        }
    }
}

fn count_kept(reached: &Reached, items: &[ModuleDefId]) -> usize
    ensures { result ≡ length (filter (λ i. is_kept (said reached.now i)) items.now) }
{
    items
        .iter()
        .filter(|item| reached.reason(**item).is_some())
        .count()
}

fn count_cut(reached: &Reached, items: &[ModuleDefId]) -> usize
    ensures { result ≡ length (filter (λ i. is_cut (said reached.now i)) items.now) }
{
    items
        .iter()
        .filter(|item| reached.reason(**item).is_none())
        .count()
}

impl Tally {
    /// The counts of the verdicts on the items.
    pub fn of(reached: &Reached, items: &[ModuleDefId]) -> Tally
        ensures kept { result.kept ≡ length (filter (λ i. is_kept (said reached.now i)) items.now) }
        ensures cut { result.cut ≡ length (filter (λ i. is_cut (said reached.now i)) items.now) }
        ensures all { result.kept + result.cut ≡ length items.now }
    {
        Tally {
            kept: count_kept(reached, items),
            cut: count_cut(reached, items),
        }
    }
}
