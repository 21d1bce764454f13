// Who sees what has each visibility that came up so far.
ghost use Rattle.std.specs.Prelude.{◌≡◌, Err, None, IfErr, IsSome, OnOk};
ghost use Rattle.std.specs.Option.{option_map};
ghost use Rattle.entries.specs.Viewers.{viewers_of};
ghost use Rattle.entries.specs.declared.visibility.Visibility.{Visibility};
ghost use Rattle.hir_def.specs.Faults.{IfRefused};
ghost use Rattle.reports.specs.Sights.{known, AreSeen};

use entries::visibility::Visibility;
use hir_def::fault::{Failure, TreeFault};
use nameres::Tree;
use std::alloc::Global;
use std::collections::HashMap;
use wording::seen::Seen;

/// Who sees what has each visibility that came up so far; modules are named where they are no more than `most`.
#[derive(Drop)]
pub(crate) struct Sights {
    most: usize,
    seen: HashMap<Visibility, Seen>,
}

impl Sights {
    /// No visibility came up.
    pub(crate) fn new(alloc: Global, most: usize) -> Sights
        ensures most { result.most ≡ most }
        ensures unknown { (vis : Visibility) → known result vis ≡ None }
    {
        Sights {
            most,
            seen: HashMap::new(alloc),
        }
    }

    /// Looks up who sees what has that visibility, if it did not come up before. Refused where it names what does not exist.
    pub(crate) fn look<T: Tree>(
        &mut self,
        alloc: Global,
        tree: &T,
        vis: Visibility,
    ) -> Result<(), Failure<TreeFault>>
        ensures most { self.new.most ≡ self.old.most }
        ensures seen { AreSeen (T.shape tree.now) self.old → AreSeen (T.shape tree.now) self.new }
        ensures known { OnOk result (IsSome (known self.new vis)) }
        ensures refused { IfErr result (IfRefused (λ f. viewers_of (T.shape tree.now) vis ≡ Err f)) }
    {
        if !self.seen.contains_key(&vis) {
            let seen = Seen::of(alloc, tree, vis, self.most)?;
            self.seen.insert(vis, seen)?;
        }
        Ok(())
    }

    /// Who sees what has that visibility, if it was looked up.
    pub(crate) fn get(&self, vis: Visibility) -> Option<&Seen>
        ensures { option_map (λ s. s.now) result ≡ known self.now vis }
    {
        self.seen.get(&vis)
    }
}
