// The items that answers reach, each with the first answer that does.
ghost use Rattle.std.specs.Prelude.{◌≡◌, ◌↔◌, IfOk, OnOk, None};
ghost use Rattle.hir_def.specs.declared.ModuleDefId.{ModuleDefId};
ghost use Rattle.cuts.specs.Reached.{said, def_in, item_in, Follows, noted, reason_at, reason_of, reason_in, reason, Nowhere};

use crate::asked::Answered;
use entries::per_ns::PerNs;
use firmware::definitions::Definitions;
use hir_def::{ModuleDefId, Namespace};
use std::alloc::{AllocError, Global};
use std::collections::HashMap;

/// Why an item is kept: the first path whose answer reaches it, with the answer's entries and the first namespace whose entry stands
/// for it.
#[derive(Clone, Copy, PartialEq, Eq, Debug)]
pub struct Reason {
    /// The path's number among those of the file.
    pub path: usize,
    pub entries: PerNs,
    pub namespace: Namespace,
}

/// The items that answers reach, each with its reason.
#[derive(Drop)]
pub struct Reached {
    reasons: HashMap<ModuleDefId, Reason>,
}

// What the entry of a namespace stands for, if there is one.
fn def_in(entries: &PerNs, namespace: Namespace) -> Option<ModuleDefId>
    ensures { result ≡ def_in entries.now namespace }
{
    match namespace {
        Namespace::Types => entries.types.map(|item| item.def),
        Namespace::Values => entries.values.map(|item| item.def),
        Namespace::Macros => entries.macros.map(|item| ModuleDefId::MacroId(item.def)),
    }
}

impl Reached {
    fn empty(alloc: Global) -> Reached
        ensures { (item : ModuleDefId) → said result item ≡ None }
    {
        Reached {
            reasons: HashMap::new(alloc),
        }
    }

    // The reason is that of the item, unless it has an earlier one.
    fn note(&mut self, item: ModuleDefId, reason: Reason) -> Result<(), AllocError>
        ensures { OnOk result (Follows self.old (noted item reason) self.new) }
    {
        if !self.reasons.contains_key(&item) {
            self.reasons.insert(item, reason)?;
        }
        Ok(())
    }

    // The item for which the entry of a namespace stands, if there is one.
    fn note_in(
        &mut self,
        definitions: &Definitions,
        path: usize,
        entries: PerNs,
        namespace: Namespace,
    ) -> Result<(), AllocError>
        ensures { OnOk result (Follows self.old (reason_at definitions.now path entries namespace) self.new) }
    {
        match def_in(&entries, namespace) {
            Some(def) => self.note(
                definitions.item_of(def),
                Reason {
                    path,
                    entries,
                    namespace,
                },
            ),
            None => Ok(()),
        }
    }

    // The items that the entries stand for, in the order of the namespaces.
    fn note_all(
        &mut self,
        definitions: &Definitions,
        path: usize,
        entries: PerNs,
    ) -> Result<(), AllocError>
        ensures { OnOk result (Follows self.old (reason_of definitions.now path entries) self.new) }
    {
        self.note_in(definitions, path, entries, Namespace::Types)?;
        self.note_in(definitions, path, entries, Namespace::Values)?;
        self.note_in(definitions, path, entries, Namespace::Macros)?;
        Ok(())
    }

    // What one more answer reaches; a path that is not asked reaches nothing.
    fn add(&mut self, definitions: &Definitions, answered: &Answered) -> Result<(), AllocError>
        ensures { OnOk result (Follows self.old (reason_in definitions.now answered.now) self.new) }
    {
        match answered.result {
            Ok(answer) => { self.note_all(definitions, answered.ask.number, answer.resolved_def) }
            Err(_) => Ok(()),
        }
    }

    /// What the answers reach. Fails where memory is wanting.
    pub fn of(
        alloc: Global,
        definitions: &Definitions,
        answers: &[Answered],
    ) -> Result<Reached, AllocError>
        ensures first { IfOk result (λ r. (item : ModuleDefId) → said r item ≡ reason definitions.now answers.now item) }
        ensures exactly { IfOk result (λ r. (item : ModuleDefId) → (said r item ≡ None) ↔ Nowhere definitions.now answers.now item) }
    {
        let mut reached = Reached::empty(alloc);
        for answered in answers.iter() {
            reached.add(definitions, answered)?;
        }
        Ok(reached)
    }

    /// Why the item is kept: the first answer, in the order of the paths, that has an entry that stands for it, or for a variant of
    /// it; none where no answer has one.
    pub fn reason(&self, item: ModuleDefId) -> Option<Reason>
        ensures { result ≡ said self.now item }
    {
        self.reasons.get(&item).copied()
    }
}
