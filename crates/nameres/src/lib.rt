// The module tree: what it tells of modules, blocks and crates.
//
// A block expression that declares items has a module tree of its own, whose root has no parent; the module that it stands in
// is its outside module. A module's map is its block, or its crate if it has no block: what rust-analyzer keeps in one
// `DefMap`. There `DefMap`, `BlockInfo` and `CrateRootModuleId` of nameres.rs have what `Tree` tells here.
#![tactic(auto)]

ghost use Rattle.std.specs.Prelude.{◌≡◌, ℕ, ◌↔◌, Some};
ghost use Rattle.hir_def.specs.declared.ModuleId.{ModuleId};
ghost use Rattle.nameres.specs.Shapes.{Shape, Rules, block_exit, around, LeavesBlock, StandsIn};

pub mod tree_rows;
pub mod tree_table;

use hir_def::edition::Edition;
use hir_def::{BlockId, CrateId, ModuleId};

/// A module tree. Each lookup is total: what does not exist is told as crate 0, no block, no parent, module 0 or
/// the first edition.
pub trait Tree {
    ghost shape: { Self → Shape };

    ghost rank: { Self → ModuleId → ℕ };

    /// How many modules there are; their numbers are those below it.
    fn modules(&self) -> u32
        ensures { result ≡ (shape self.now).modules };

    fn blocks(&self) -> u32
        ensures { result ≡ (shape self.now).blocks };

    fn crates(&self) -> u32
        ensures { result ≡ (shape self.now).crates };

    fn krate(&self, m: ModuleId) -> CrateId
        ensures { result ≡ (shape self.now).crate_of m };

    /// The block that `m` is in.
    fn block(&self, m: ModuleId) -> Option<BlockId>
        ensures { result ≡ (shape self.now).block_of m };

    /// The module that `m` is declared in, in the same block and crate.
    fn parent(&self, m: ModuleId) -> Option<ModuleId>
        ensures { result ≡ (shape self.now).parent_of m };

    /// The one module of the block that has no parent.
    fn block_root(&self, b: BlockId) -> ModuleId
        ensures { result ≡ (shape self.now).block_root b };

    /// The module that the block stands in.
    fn outside(&self, b: BlockId) -> ModuleId
        ensures { result ≡ (shape self.now).outside_of b };

    /// The one module of the crate that is in no block and has no parent.
    fn crate_root(&self, c: CrateId) -> ModuleId
        ensures { result ≡ (shape self.now).crate_root c };

    fn edition(&self, c: CrateId) -> Edition
        ensures { result ≡ (shape self.now).edition_of c };

    // A law: what is told keeps the rules of a module tree.
    ghost ruled: { (s : Self) → Rules (shape s) (rank s) };
}

/// The module that `m`'s block stands in, where `m` is the root of a block.
pub fn block_exit<T: Tree>(tree: &T, m: ModuleId) -> Option<ModuleId>
    ensures value { result ≡ block_exit (T.shape tree.now) m }
    ensures means { (n : ModuleId) → (result ≡ Some n) ↔ LeavesBlock (T.shape tree.now) m n }
{
    if tree.parent(m).is_some() {
        return None;
    }
    tree.block(m).map(|b| tree.outside(b))
}

/// The module around `m`: its parent, or for a block's root the module that the block stands in.
pub fn containing_module<T: Tree>(tree: &T, m: ModuleId) -> Option<ModuleId>
    ensures value { result ≡ around (T.shape tree.now) m }
    ensures means { (n : ModuleId) → (result ≡ Some n) ↔ StandsIn (T.shape tree.now) m n }
{
    match tree.parent(m) {
        Some(p) => Some(p),
        None => block_exit(tree, m),
    }
}
