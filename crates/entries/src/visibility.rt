// Who may see an item.
ghost use Rattle.std.specs.Prelude.{◌≡◌, true, IfOk, Decides};
ghost use Rattle.entries.specs.Visibilities.{inside, settled, visible, named, asked, Settles, Sees, Apart};

use hir_def::fault::TreeFault;
use hir_def::{CrateId, ModuleId};
use nameres::{Tree, block_exit, containing_module};

/// Whether a module visibility was written, or is the default. It never alters who may see.
#[derive(Clone, Copy, PartialEq, Eq, Hash, Debug)]
pub enum VisibilityExplicitness {
    Explicit,
    Implicit,
}

#[derive(Clone, Copy, PartialEq, Eq, Hash, Debug)]
pub enum Visibility {
    /// Seen from that module and from all inside it.
    Module(ModuleId, VisibilityExplicitness),
    /// Seen from every module of the crate.
    PubCrate(CrateId),
    /// Seen from everywhere.
    Public,
}

/// `m`, or the first module outward that is no block root.
pub fn leave_blocks<T: Tree>(tree: &T, m: ModuleId) -> ModuleId
    ensures value { result ≡ settled (T.shape tree.now) m }
    ensures means { Settles (T.shape tree.now) m result }
{
    let mut here = m;
    while let Some(outside) = block_exit(tree, here) {
        here = outside;
    }
    here
}

/// Whether `from` is the target or stands inside it.
pub(crate) fn is_inside<T: Tree>(tree: &T, from: ModuleId, target: ModuleId) -> bool
    ensures { result ≡ inside (T.shape tree.now) target from }
{
    let mut here = from;
    loop {
        if here == target {
            return true;
        }
        match containing_module(tree, here) {
            Some(outer) => here = outer,
            None => return false,
        }
    }
}

impl Visibility {
    /// Whether what the visibility names exists in the tree.
    pub fn is_named<T: Tree>(self, tree: &T) -> bool
        ensures { result ≡ named (T.shape tree.now) self }
    {
        match self {
            Visibility::Module(m, _) => m.0 < tree.modules(),
            Visibility::PubCrate(c) => c.0 < tree.crates(),
            Visibility::Public => true,
        }
    }

    /// Whether `from` may see what has this visibility. At numbers that do not exist, by what the tree tells of them.
    pub fn sees<T: Tree>(self, tree: &T, from: ModuleId) -> bool
        ensures value { result ≡ visible (T.shape tree.now) from self }
        ensures means { Decides result (Sees (T.shape tree.now) from self) }
    {
        match self {
            Visibility::Module(m, _) => is_inside(tree, from, leave_blocks(tree, m)),
            Visibility::PubCrate(c) => tree.krate(from) == c,
            Visibility::Public => true,
        }
    }

    /// Whether `from` may see what has this visibility; numbers that do not exist are refused.
    pub fn is_visible_from<T: Tree>(self, tree: &T, from: ModuleId) -> Result<bool, TreeFault>
        ensures value { result ≡ asked (T.shape tree.now) from self }
        ensures means { IfOk result (λ seen. Decides seen (Sees (T.shape tree.now) from self)) }
        ensures apart { IfOk result (λ seen. seen ≡ true → Apart (T.shape tree.now) from self) }
    {
        if from.0 >= tree.modules() {
            return Err(TreeFault::NoModule);
        }
        if !self.is_named(tree) {
            return Err(TreeFault::Dangling);
        }
        Ok(self.sees(tree, from))
    }
}
