// Whom a visibility reaches, as a range of modules.
ghost use Rattle.std.specs.Prelude.{◌≡◌, Some, IfOk, string_bytes};
ghost use Rattle.hir_def.specs.declared.ModuleId.{ModuleId};
ghost use Rattle.entries.specs.Visibilities.{visible};
ghost use Rattle.wording.specs.declared.range.Range.{Range};
ghost use Rattle.wording.specs.Ranges.{range_of, in_range, named_by, range_text, ToldApart};

use entries::visibility::{Visibility, leave_blocks};
use hir_def::{CrateId, ModuleId};
use nameres::Tree;
use std::alloc::{AllocError, Global};
use std::fmt;

/// The modules that see what has a visibility.
#[derive(Clone, Copy, PartialEq, Eq, Debug)]
pub enum Range {
    All,
    /// All of that crate.
    Crate(CrateId),
    /// That module and all inside it.
    Inside(ModuleId),
}

impl Range {
    /// The range of a visibility in a tree.
    pub fn of<T: Tree>(tree: &T, vis: Visibility) -> Range
        ensures value { result ≡ range_of (T.shape tree.now) vis }
        ensures reaches { (m : ModuleId) → in_range (T.shape tree.now) result m ≡ visible (T.shape tree.now) m vis }
    {
        match vis {
            Visibility::Public => Range::All,
            Visibility::PubCrate(krate) => Range::Crate(krate),
            Visibility::Module(module, _) => Range::Inside(leave_blocks(tree, module)),
        }
    }
}

impl Range {
    /// The module that a range is named by: a crate's root, or the one that all others of it are inside.
    pub fn named_by<T: Tree>(self, tree: &T) -> ModuleId
        ensures { result ≡ named_by (T.shape tree.now) self }
    {
        match self {
            Range::All => ModuleId(0),
            Range::Crate(krate) => tree.crate_root(krate),
            Range::Inside(module) => module,
        }
    }
}

#[tactic(auto, using(crate::proofs::Ranges::told_apart))]
impl Range {
    /// The range as it is written, which no other one is.
    pub fn text(self, alloc: Global) -> Result<String, AllocError>
        ensures value { IfOk result (λ t. string_bytes t ≡ range_text self) }
        ensures alone { IfOk result (λ t. ToldApart self (string_bytes t)) }
    {
        self.to_string(alloc)
    }
}

/// `all`, `crate N` or `inside N`.
impl fmt::Display for Range {
    ghost output = { λ r. Some (range_text r) };

    fn fmt<W: fmt::Write>(&self, f: &mut fmt::Formatter<W>) -> fmt::Result {
        match *self {
            Range::All => f.write_str("all"),
            Range::Crate(krate) => {
                let number = krate.0;
                write!(f, "crate {number}")
            }
            Range::Inside(module) => {
                let number = module.0;
                write!(f, "inside {number}")
            }
        }
    }
}
