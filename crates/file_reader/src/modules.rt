// What the statements of crates, modules and blocks add to a file's tree.
ghost use Rattle.std.specs.Prelude.{IfOk, OnOk};
ghost use Rattle.file_reader.specs.Refusals.{NoOutcome, OnRefused, ToldAt};
ghost use Rattle.file_reader.specs.Adding.{AddsBlock, AddsCrate, AddsInner, AddsModule, MayDeclare, standing_of};
ghost use Rattle.file_reader.specs.Told.{told_by};
ghost use Rattle.statements.specs.Lines.{VisibilityStandsIn};

use crate::reader::{Known, Reader};
use entries::per_ns::PerNs;
use firmware::definition::{Definition, Standing};
use hir_def::edition::Edition;
use hir_def::fault::Failure;
use hir_def::{BlockId, CrateId, ModuleDefId, ModuleId};
use item_scope::index_data::DefMapId;
use nameres::tree_rows::{BlockRow, CrateRow, ModuleRow};
use source_text::words::Word;
use statements::clauses::RawVisibility;
use statements::names::{row_number, split, text_of};
use troubles::complaint::Complaint;
use troubles::trouble::Trouble;

impl<'a> Reader<'a> {
    // A module of that full name, which ends in its own name.
    fn add_module(
        &mut self,
        word: Word<'a>,
        within: &'a str,
        name: &'a str,
        row: ModuleRow,
        root_of: Option<DefMapId>,
    ) -> Result<ModuleId, Failure<Trouble>>
        ensures added { IfOk result (λ id. AddsModule (told_by self.old) word.entry
            (record { within = within.entry.now; name = name.entry.now; line = word.entry.line; standing = standing_of root_of })
            row root_of id (told_by self.new)) }
        ensures refused { OnRefused result (¬ (MayDeclare (told_by self.old) word.entry)) }
        ensures line { ToldAt word.entry.line result }
    {
        if self.by_name.contains_key(word.text) {
            return Err(Failure::from(Complaint::at(
                word,
                "a module of this name is declared above",
                "a name of its own",
            )));
        }
        let id = ModuleId(row_number(word, self.firmware.modules.len())?);
        self.firmware.names.push(text_of(word)?)?;
        self.firmware.modules.push(row)?;
        self.firmware.definitions.modules.push(Definition {
            within,
            name,
            line: word.line,
            standing: match root_of {
                Some(_) => Standing::Apart,
                None => Standing::Place,
            },
        })?;
        let known = Known {
            id,
            krate: row.krate,
            block: row.block,
            root_of,
        };
        self.by_name.insert(word.text, known)?;
        Ok(id)
    }

    pub(crate) fn add_crate(
        &mut self,
        word: Word<'a>,
        edition: Edition,
    ) -> Result<(), Failure<Trouble>>
        ensures added { OnOk result (AddsCrate (told_by self.old) word.entry edition (told_by self.new)) }
        ensures refused { OnRefused result (NoOutcome (AddsCrate (told_by self.old) word.entry edition)) }
        ensures line { ToldAt word.entry.line result }
    {
        let name = self.list_name(word)?;
        let krate = CrateId(row_number(word, self.firmware.crates.len())?);
        let row = ModuleRow {
            krate,
            block: None,
            parent: None,
        };
        let root = self.add_module(word, "", name.text, row, Some(DefMapId::Crate(krate)))?;
        self.firmware.crates.push(CrateRow { root, edition })?;
        Ok(())
    }

    /// A module is delivered to the one around it, as an item is.
    pub(crate) fn add_inner(
        &mut self,
        word: Word<'a>,
        raw: RawVisibility<'a>,
    ) -> Result<(), Failure<Trouble>>
        ensures added { OnOk result (AddsInner (told_by self.old) word.entry raw.entry (told_by self.new)) }
        ensures refused { OnRefused result (NoOutcome (AddsInner (told_by self.old) word.entry raw.entry)) }
        ensures line { VisibilityStandsIn word.entry.line raw.entry → ToldAt word.entry.line result }
    {
        let (outer, own) = split(word)?;
        let parent = self.known(outer)?;
        let within = text_of(outer)?;
        let name = self.list_name(own)?;
        let vis = self.visibility(parent, raw)?;
        let row = ModuleRow {
            krate: parent.krate,
            block: parent.block,
            parent: Some(parent.id),
        };
        let id = self.add_module(word, within, name.text, row, None)?;
        let entries = PerNs::types(ModuleDefId::ModuleId(id), vis, None);
        self.declare(outer.text, own.text, entries)?;
        Ok(self.deliver(parent.id, name, within, entries, None)?)
    }

    pub(crate) fn add_block(&mut self, word: Word<'a>) -> Result<(), Failure<Trouble>>
        ensures added { OnOk result (AddsBlock (told_by self.old) word.entry (told_by self.new)) }
        ensures refused { OnRefused result (NoOutcome (AddsBlock (told_by self.old) word.entry)) }
        ensures line { ToldAt word.entry.line result }
    {
        let (outer, own) = split(word)?;
        let outside = self.known(outer)?;
        let within = text_of(outer)?;
        let name = self.list_name(own)?;
        let block = BlockId(row_number(word, self.firmware.blocks.len())?);
        let row = ModuleRow {
            krate: outside.krate,
            block: Some(block),
            parent: None,
        };
        let root = self.add_module(word, within, name.text, row, Some(DefMapId::Block(block)))?;
        self.firmware.blocks.push(BlockRow {
            root,
            outside: outside.id,
        })?;
        Ok(())
    }
}
