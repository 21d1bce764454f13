// Full names: the modules that a file declares, and what it declares with a kind, part by part.
ghost use Rattle.std.specs.Prelude.{◌≡◌, OnOk};
ghost use Rattle.std.specs.Result.{result_ok};
ghost use Rattle.file_reader.specs.FullNames.{DeclaresAs, declared_above, declared_in, declared_in_all, entries_above, meaning};
ghost use Rattle.file_reader.specs.Named.{known_of};
ghost use Rattle.file_reader.specs.Told.{told_by};
ghost use Rattle.firmware.specs.Piles.{parts_of};
ghost use Rattle.firmware.specs.declared.pile.Part.TheVariants as part;
ghost use Rattle.statements.specs.Lines.{ToldIn};

use crate::reader::{Known, Reader};
use entries::per_ns::PerNs;
use entries::visibility::Visibility;
use firmware::pile::{Part, Pile};
use hir_def::ModuleDefId;
use source_text::words::Word;
use statements::names::split;
use std::alloc::AllocError;
use troubles::complaint::Complaint;

const MODULE: &str = "the full name of a module declared above, as in `raid::layout`";

impl<'a> Reader<'a> {
    pub(crate) fn known(&self, word: Word<'a>) -> Result<Known, Complaint>
        ensures known { result_ok result ≡ known_of self.now.by_name word.entry.text.now }
        ensures line { ToldIn word.entry.line result }
    {
        self.by_name.get(word.text).copied().ok_or(Complaint::at(
            word,
            "no module of this name is declared above",
            MODULE,
        ))
    }

    // What a part declares with a full name: nothing where it has none such.
    #[tactic(auto, unfolding(crate::specs::FullNames::declared_in))]
    fn declared_in(&self, part: Part, within: &'a [u8], name: &'a [u8]) -> PerNs
        ensures { result ≡ declared_in self.now.declared part within.now name.now }
    {
        let entries = self.declared.get(&(part, within, name));
        entries.copied().unwrap_or(PerNs::none())
    }

    // What a part declares first with a full name holds it there, in each namespace.
    #[tactic(auto, unfolding(crate::specs::FullNames::Gains))]
    pub(crate) fn declare(
        &mut self,
        within: &'a [u8],
        name: &'a [u8],
        entries: PerNs,
    ) -> Result<(), AllocError>
        ensures told { told_by self.new ≡ record (told_by self.old) { declared = self.new.declared } }
        ensures declared { OnOk result (DeclaresAs (told_by self.old) within.entry name.entry entries (told_by self.new)) }
    {
        let part = self.part();
        let known = self.declared_in(part, within, name).or(entries);
        self.declared.insert((part, within, name), known)?;
        Ok(())
    }

    fn declared_in_model(&self, model: usize, within: &'a [u8], name: &'a [u8]) -> PerNs
        ensures { result ≡ declared_in self.now.declared (part.Model model) within.now name.now }
    {
        self.declared_in(Part::Model(model), within, name)
    }

    // What the base declares with a full name comes first, then what the models of the pile do from the lowest.
    #[tactic(auto, unfolding(crate::specs::FullNames::declared_in_all))]
    fn declared_in_parts(&self, pile: Pile, within: &'a [u8], name: &'a [u8]) -> PerNs
        ensures { result ≡ declared_in_all self.now.declared (parts_of pile) within.now name.now }
    {
        let base = self.declared_in(Part::Base, within, name);
        match pile {
            Pile::One(a) => base.or(self.declared_in_model(a, within, name)),
            Pile::Two(a, b) => base
                .or(self.declared_in_model(a, within, name))
                .or(self.declared_in_model(b, within, name)),
            Pile::Three(a, b, c) => base
                .or(self.declared_in_model(a, within, name))
                .or(self.declared_in_model(b, within, name))
                .or(self.declared_in_model(c, within, name)),
        }
    }

    // What the base declares with a full name, and the models of the last one's pile.
    #[tactic(auto, unfolding(crate::specs::FullNames::declared_in_all))]
    fn declared_in_pile(&self, within: &'a [u8], name: &'a [u8]) -> PerNs
        ensures { result ≡ entries_above (declared_above (told_by self.now)) within.now name.now }
    {
        match self.firmware.models.last() {
            Some(model) => self.declared_in_parts(model.pile, within, name),
            None => self.declared_in(Part::Base, within, name),
        }
    }

    // What the file declares above with that full name and a kind, in the base or in the pile; a crate too.
    #[tactic(auto, unfolding(crate::specs::FullNames::meaning))]
    pub(crate) fn declared_as(&self, word: Word<'a>) -> Result<PerNs, Complaint>
        ensures meaning { result_ok result ≡ meaning (declared_above (told_by self.now)) word.entry.text.now }
        ensures line { ToldIn word.entry.line result }
    {
        let Ok((outer, name)) = split(word) else {
            let def = ModuleDefId::ModuleId(self.known(word)?.id);
            return Ok(PerNs::types(def, Visibility::Public, None));
        };
        let found = self.declared_in_pile(outer.text, name.text);
        if found.is_none() {
            return Err(Complaint::at(
                word,
                "nothing that has a kind is declared above with this full name",
                "the full name of a module, an item of a kind or a variant declared above; an `item` has no kind",
            ));
        }
        Ok(found)
    }
}
