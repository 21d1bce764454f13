// Which modules may see an item.
ghost use Rattle.std.specs.Prelude.{◌≡◌, filter, IfOk};
ghost use Rattle.entries.specs.Visibilities.{visible};
ghost use Rattle.hir_def.specs.Faults.{Answers};
ghost use Rattle.entries.specs.Viewers.{all_modules, viewers_of, ListsViewers};

use crate::visibility::Visibility;
use hir_def::ModuleId;
use hir_def::fault::{Failure, TreeFault};
use nameres::Tree;
use std::alloc::{AllocError, Global};

fn seeing<T: Tree>(alloc: Global, tree: &T, vis: Visibility) -> Result<Vec<ModuleId>, AllocError>
    ensures { let t = T.shape tree.now in IfOk result (λ v. v.items ≡ filter (λ m. visible t m vis) (all_modules t)) }
{
    (0..tree.modules())
        .map(ModuleId)
        .filter(|m| vis.sees(tree, *m))
        .collect(alloc)
}

/// The modules that may see what has that visibility, in the order of their numbers.
pub fn viewers<T: Tree>(
    alloc: Global,
    tree: &T,
    vis: Visibility,
) -> Result<Vec<ModuleId>, Failure<TreeFault>>
    ensures value { Answers (λ v. v.items) (viewers_of (T.shape tree.now) vis) result }
    ensures lists { IfOk result (λ v. ListsViewers (T.shape tree.now) vis v.items) }
{
    if tree.modules() > 0 && !vis.is_named(tree) {
        return Err(Failure::Refused(TreeFault::Dangling));
    }
    Ok(seeing(alloc, tree, vis)?)
}
