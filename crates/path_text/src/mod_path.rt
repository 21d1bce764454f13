// A path by the numbers of its names, after ModPath.
use hir_def::{CrateId, Name};

/// The most names that a path may have.
pub const MOST_NAMES: usize = 64;

/// The most `super` that a path may begin with.
pub const MOST_SUPERS: u32 = 255;

/// How a path begins.
#[derive(Clone, Copy, PartialEq, Eq, Debug)]
pub enum PathKind {
    Plain,
    /// `self` is level 0, `super` 1, and so on.
    Super(u32),
    Crate,
    /// A leading `::`.
    Abs,
    /// `$crate`, with the crate that it stands for.
    DollarCrate(CrateId),
}

/// A path: any number of names and any level; `MOST_NAMES` and `MOST_SUPERS` are limits of the calls that take one.
#[derive(Debug, Drop)]
pub struct ModPath {
    pub kind: PathKind,
    pub names: Vec<Name>,
}
