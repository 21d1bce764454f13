// How many modules see what has a visibility, and which, where they are few.
ghost use Rattle.std.specs.Prelude.{◌≡◌, length, filter, Ok};
ghost use Rattle.entries.specs.Viewers.{all_modules, viewers_of};
ghost use Rattle.entries.specs.Visibilities.{visible};
ghost use Rattle.wording.specs.Ranges.{counted};
ghost use Rattle.wording.specs.Counts.{FewOf, SeenOf};

use crate::range::Range;
use entries::viewers::viewers;
use entries::visibility::Visibility;
use hir_def::ModuleId;
use hir_def::fault::{Failure, TreeFault};
use nameres::Tree;
use std::alloc::Global;

/// Who sees what has a visibility.
#[derive(Drop)]
pub struct Seen {
    pub range: Range,
    /// The module that the range is named by: the crate's root, or the one that all others are inside.
    pub of: ModuleId,
    /// How many modules see it.
    pub count: usize,
    /// These modules in the order of their numbers, where they are few enough to be named.
    pub seers: Option<Vec<ModuleId>>,
}

fn count_seeing<T: Tree>(tree: &T, vis: Visibility) -> usize
    ensures { let t = T.shape tree.now in result ≡ length (filter (λ m. visible t m vis) (all_modules t)) }
{
    (0..tree.modules())
        .map(ModuleId)
        .filter(|m| vis.sees(tree, *m))
        .count()
}

/// How many modules see what has that visibility.
pub fn count_viewers<T: Tree>(tree: &T, vis: Visibility) -> Result<usize, TreeFault>
    ensures { result ≡ counted (viewers_of (T.shape tree.now) vis) }
{
    if tree.modules() > 0 && !vis.is_named(tree) {
        return Err(TreeFault::Dangling);
    }
    Ok(count_seeing(tree, vis))
}

// The modules that see, if there are no more than so many.
fn few_viewers<T: Tree>(
    alloc: Global,
    tree: &T,
    vis: Visibility,
    count: usize,
    most: usize,
) -> Result<Option<Vec<ModuleId>>, Failure<TreeFault>>
    requires { counted (viewers_of (T.shape tree.now) vis) ≡ Ok count }
    ensures { FewOf (viewers_of (T.shape tree.now) vis) most result }
{
    if count > most {
        return Ok(None);
    }
    Ok(Some(viewers(alloc, tree, vis)?))
}

impl Seen {
    /// Who sees what has that visibility; the modules themselves where they are no more than `most`. Refused where the visibility names
    /// what does not exist; only a list of modules wants memory.
    pub fn of<T: Tree>(
        alloc: Global,
        tree: &T,
        vis: Visibility,
        most: usize,
    ) -> Result<Seen, Failure<TreeFault>>
        ensures { SeenOf (T.shape tree.now) vis (viewers_of (T.shape tree.now) vis) most result }
    {
        let count = count_viewers(tree, vis)?;
        let seers = few_viewers(alloc, tree, vis, count, most)?;
        let range = Range::of(tree, vis);
        Ok(Seen {
            range,
            of: range.named_by(tree),
            count,
            seers,
        })
    }
}
