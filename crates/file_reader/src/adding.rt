// What statements of several kinds add to a file: names, items, deliveries and paths.
ghost use Rattle.std.specs.Prelude.{◌≡◌, ◌∷◌, ◌++◌, [], ℕ, IfOk, IfErr, MatchResult, OnOk, Option};
ghost use Rattle.file_reader.specs.Refusals.{IsListable, NoOutcome, OnRefused, ToldAt};
ghost use Rattle.file_reader.specs.Named.{Names, Tells};
ghost use Rattle.file_reader.specs.Adding.{Asks, AddsPath, AddsItem, Lists, Stands};
ghost use Rattle.file_reader.specs.Told.{told_by};
ghost use Rattle.file_reader.specs.declared.reader.Known.{Known};
ghost use Rattle.entries.specs.declared.visibility.Visibility.{Visibility};
ghost use Rattle.hir_def.specs.declared.ModuleId.{ModuleId};
ghost use Rattle.path_resolution.specs.declared.question.Question.{Question};
ghost use Rattle.statements.specs.Lines.{AskingStandsIn, SiteStandsIn, ToldIn, VisibilityStandsIn};

use crate::reader::{Known, Reader};
use entries::per_ns::PerNs;
use entries::visibility::{Visibility, VisibilityExplicitness};
use firmware::file::{Declared, DeliveryStatement};
use hir_def::fault::Failure;
use hir_def::import::ImportOrExternCrate;
use hir_def::{ModuleId, Name};
use item_scope::delivery::Delivery;
use path_resolution::question::Question;
use source_text::words::Word;
use statements::asking::Asking;
use statements::clauses::{RawVisibility, Site};
use statements::names::{name_of, numbered, text_of};
use std::alloc::AllocError;
use troubles::complaint::Complaint;
use troubles::trouble::Trouble;

// A name in the file's list: its word, its text and its number.
#[derive(Clone, Copy)]
pub(crate) struct Listed<'a> {
    pub(crate) word: Word<'a>,
    pub(crate) text: &'a str,
    pub(crate) number: Name,
}

// Where an item or an import stands, and who sees it.
#[derive(Clone, Copy)]
pub(crate) struct Place<'a> {
    pub(crate) known: Known,
    pub(crate) module: &'a str,
    pub(crate) vis: Visibility,
}

impl<'a> Reader<'a> {
    pub(crate) fn list_name(&mut self, word: Word<'a>) -> Result<Listed<'a>, Failure<Trouble>>
        ensures told { told_by self.new ≡ record (told_by self.old) { names = self.new.firmware.list } }
        ensures lists { IfOk result (λ l. Lists (told_by self.old) word.entry.text.now l.number (told_by self.new)) }
        ensures word { IfOk result (λ l. (l.word ≡ word.entry) × (l.text.now ≡ word.entry.text.now)) }
        ensures refused { OnRefused result (¬ (IsListable word.entry.text.now)) }
        ensures line { ToldAt word.entry.line result }
    {
        let text = name_of(word)?;
        self.firmware.list.add(word.text)?;
        let number = self.firmware.list.number(word.text).ok_or(AllocError)?;
        Ok(Listed { word, text, number })
    }

    // One more delivery, in the line of its name.
    pub(crate) fn deliver(
        &mut self,
        receiver: ModuleId,
        name: Listed<'a>,
        module: &'a str,
        entries: PerNs,
        import: Option<ImportOrExternCrate>,
    ) -> Result<(), AllocError>
        ensures { OnOk result (told_by self.new ≡ record (told_by self.old) {
          delivered = (told_by self.old).delivered ++ record {
            delivery = record { receiver = receiver; name = name.entry.number; entries = entries; import = import };
            name = name.entry.text.now;
            within = «module».entry.now;
            line = name.entry.word.line;
          } ∷ [];
        }) }
    {
        self.firmware.deliveries.push(DeliveryStatement {
            delivery: Delivery {
                receiver,
                name: name.number,
                entries,
                import,
            },
            name: name.text,
            module,
            line: name.word.line,
        })?;
        Ok(())
    }

    // The module of `pub(in MODULE)`.
    fn named(&self, word: Word<'a>) -> Result<ModuleId, Complaint>
        ensures named { MatchResult result (Names (told_by self.now).above word.entry.text.now)
            (λ _. (m : ModuleId) → ¬ (Names (told_by self.now).above word.entry.text.now m)) }
        ensures line { ToldIn word.entry.line result }
    {
        match numbered(word.text) {
            Some(row) => Ok(ModuleId(row)),
            None => Ok(self.known(word)?.id),
        }
    }

    pub(crate) fn visibility(
        &self,
        at: Known,
        raw: RawVisibility<'a>,
    ) -> Result<Visibility, Complaint>
        ensures tells { MatchResult result (Tells (told_by self.now).above at raw.entry)
            (λ _. (v : Visibility) → ¬ (Tells (told_by self.now).above at raw.entry v)) }
        ensures line { (n : ℕ) → VisibilityStandsIn n raw.entry → ToldIn n result }
    {
        match raw {
            RawVisibility::Public => Ok(Visibility::Public),
            RawVisibility::Crate => Ok(Visibility::PubCrate(at.krate)),
            RawVisibility::Private => Ok(Visibility::Module(
                at.id,
                VisibilityExplicitness::Implicit,
            )),
            RawVisibility::In(word) => Ok(Visibility::Module(
                self.named(word)?,
                VisibilityExplicitness::Explicit,
            )),
        }
    }

    pub(crate) fn place(&self, site: Site<'a>) -> Result<Place<'a>, Complaint>
        ensures stands { IfOk result (λ p. Stands (told_by self.now).above site.entry p.known p.vis) }
        ensures module { IfOk result (λ p. p.«module».now ≡ site.entry.«module».text.now) }
        ensures refused { IfErr result (λ _. (at : Known) (v : Visibility) → ¬ (Stands (told_by self.now).above site.entry at v)) }
        ensures line { (n : ℕ) → SiteStandsIn n site.entry → ToldIn n result }
    {
        let known = self.known(site.module)?;
        Ok(Place {
            known,
            module: text_of(site.module)?,
            vis: self.visibility(known, site.vis)?,
        })
    }

    // Adds an item, and answers its name and where it stands.
    pub(crate) fn add_item(
        &mut self,
        site: Site<'a>,
    ) -> Result<(Listed<'a>, Place<'a>), Failure<Trouble>>
        ensures added { IfOk result (λ p. AddsItem (told_by self.old) site.entry p.1.known p.1.vis p.0.number (told_by self.new)) }
        ensures name { IfOk result (λ p. (p.0.word ≡ site.entry.name) × (p.0.text.now ≡ site.entry.name.text.now)) }
        ensures module { IfOk result (λ p. p.1.«module».now ≡ site.entry.«module».text.now) }
        ensures refused { OnRefused result ((at : Known) → (v : Visibility) →
            ¬ (Stands (told_by self.old).above site.entry at v × IsListable site.entry.name.text.now)) }
        ensures line { (n : ℕ) → SiteStandsIn n site.entry → ToldAt n result }
    {
        let place = self.place(site)?;
        let name = self.list_name(site.name)?;
        self.firmware.items.push(Declared {
            name: name.text,
            module: place.module,
            vis: place.vis,
        })?;
        Ok((name, place))
    }

    // What is asked of a path, if anyone asks it.
    fn question(&self, asking: Option<Asking<'a>>) -> Result<Option<Question>, Complaint>
        ensures asks { MatchResult result (Asks (told_by self.now).above asking.entry)
            (λ _. (q : Option Question) → ¬ (Asks (told_by self.now).above asking.entry q)) }
        ensures line { (n : ℕ) → AskingStandsIn n asking.entry → ToldIn n result }
    {
        match asking {
            Some(asking) => Ok(Some(asking.question(self.known(asking.module)?.id))),
            None => Ok(None),
        }
    }

    pub(crate) fn add_path(
        &mut self,
        text: Word<'a>,
        asking: Option<Asking<'a>>,
    ) -> Result<(), Failure<Trouble>>
        ensures added { OnOk result (AddsPath (told_by self.old) text.entry asking.entry (told_by self.new)) }
        ensures refused { OnRefused result (NoOutcome (AddsPath (told_by self.old) text.entry asking.entry)) }
        ensures line { (n : ℕ) → AskingStandsIn n asking.entry → ToldAt n result }
    {
        let question = self.question(asking)?;
        self.firmware.paths.push(text)?;
        self.firmware.questions.push(question)?;
        Ok(())
    }
}
