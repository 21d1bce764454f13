// Where the paths begin that name their start: `crate`, `$crate`, and `super` of any level.
ghost use Rattle.std.specs.Prelude.{◌≡◌};
ghost use Rattle.path_resolution.specs.Starts.{begun, start_at, climbed, super_of, map_of};

use crate::answer::ResolvePathResultPrefixInfo;
use crate::remaining_segments::Reached;
use entries::per_ns::PerNs;
use entries::visibility::{Visibility, leave_blocks};
use hir_def::{ModuleDefId, ModuleId};
use item_scope::index_data::DefMapId;
use nameres::Tree;

/// A walk from the entries with which a path begins that is asked in `m`.
pub(crate) fn begin<T: Tree>(tree: &T, m: ModuleId, entries: PerNs) -> Reached
    ensures { result ≡ begun (T.shape tree.now) m entries }
{
    Reached {
        entries,
        krate: tree.krate(m),
        passed: ResolvePathResultPrefixInfo::none(),
    }
}

/// A walk from the module `start`, of a path that is asked in `m`.
pub(crate) fn start_at<T: Tree>(tree: &T, m: ModuleId, start: ModuleId) -> Reached
    ensures { result ≡ start_at (T.shape tree.now) m start }
{
    let def = ModuleDefId::ModuleId(start);
    begin(tree, m, PerNs::types(def, Visibility::Public, None))
}

/// A module's map: its block, or its crate.
pub(crate) fn map_of<T: Tree>(tree: &T, m: ModuleId) -> DefMapId
    ensures { result ≡ map_of (T.shape tree.now) m }
{
    tree.block(m)
        .map_or(DefMapId::Crate(tree.krate(m)), DefMapId::Block)
}

#[tactic(auto, using(crate::proofs::Climbing::climbs))]
fn climb<T: Tree>(tree: &T, level: u32, from: ModuleId) -> Option<ModuleId>
    ensures { result ≡ climbed (T.shape tree.now) level from }
{
    let mut here = from;
    for _step in 0..level {
        here = leave_blocks(tree, tree.parent(here)?);
    }
    Some(here)
}

/// The module that `super` of that level means in `m`: block roots are left first and after each climb.
pub(crate) fn super_of<T: Tree>(tree: &T, level: u32, m: ModuleId) -> Option<ModuleId>
    ensures { result ≡ super_of (T.shape tree.now) level m }
{
    climb(tree, level, leave_blocks(tree, m))
}
