// Reads a firmware file, statement by statement.
ghost use Rattle.std.specs.Prelude.{◌≡◌, ℕ, IfErr, IfOk, OnOk};
ghost use Rattle.hir_def.specs.Faults.{IfRefused};
ghost use Rattle.file_reader.specs.Adding.{Adds};
ghost use Rattle.file_reader.specs.Nothing.{IsNew};
ghost use Rattle.file_reader.specs.Reading.{ReadsLine, Reads, RefusesFile, RefusesLine, line_number};
ghost use Rattle.file_reader.specs.Refusals.{NoOutcome, OnRefused, ToldAt};
ghost use Rattle.file_reader.specs.Told.{told_by};
ghost use Rattle.statements.specs.Lines.{StandsIn};

use crate::models::below_a_model;
use crate::nothing::nothing;
use entries::per_ns::PerNs;
use firmware::file::Firmware;
use firmware::pile::Part;
use hir_def::fault::Failure;
use hir_def::{BlockId, CrateId, ModuleId};
use item_scope::index_data::DefMapId;
use statements::statement::Statement;
use statements::words::StatementWords;
use std::alloc::{AllocError, Global};
use std::collections::BTreeMap;
use troubles::trouble::Trouble;

// A module that a statement declared.
#[derive(Clone, Copy)]
pub(crate) struct Known {
    pub(crate) id: ModuleId,
    pub(crate) krate: CrateId,
    pub(crate) block: Option<BlockId>,
    // The map whose root it is.
    pub(crate) root_of: Option<DefMapId>,
}

/// A file that is read, as far as it has come, and what its statements are found by.
#[derive(Drop)]
pub(crate) struct Reader<'a> {
    pub(crate) firmware: Firmware<'a>,
    // The modules, by their full names.
    pub(crate) by_name: BTreeMap<&'a [u8], Known>,
    // What each part declares with a kind, by what stands before the last `::` of its full name and the name after it.
    pub(crate) declared: BTreeMap<(Part, &'a [u8], &'a [u8]), PerNs>,
    pub(crate) model_numbers: BTreeMap<&'a [u8], usize>,
}

impl<'a> Reader<'a> {
    fn new(alloc: Global) -> Result<Reader<'a>, AllocError>
        ensures { IfOk result (λ r. IsNew (told_by r)) }
    {
        Ok(Reader {
            firmware: nothing(alloc)?,
            by_name: BTreeMap::new(alloc),
            declared: BTreeMap::new(alloc),
            model_numbers: BTreeMap::new(alloc),
        })
    }

    // Adds what a statement tells.
    fn add(&mut self, statement: Statement<'a>) -> Result<(), Failure<Trouble>>
        ensures added { OnOk result (Adds statement.entry (told_by self.old) (told_by self.new)) }
        ensures refused { OnRefused result (NoOutcome (Adds statement.entry (told_by self.old))) }
        ensures line { (n : ℕ) → StandsIn n statement.entry → ToldAt n result }
    {
        match statement {
            Statement::Crate(name, edition) => self.add_crate(name, edition),
            Statement::Module(name, raw) => self.add_inner(name, raw),
            Statement::Block(name) => self.add_block(name),
            Statement::Item(site) => {
                self.add_item(site)?;
                Ok(())
            }
            Statement::Defined(kind, site) => self.add_definition(kind, site),
            Statement::Variant(name, shape) => self.add_variant(name, shape),
            Statement::LegacyMacro(name, module, None) => self.add_legacy(name, module),
            Statement::LegacyMacro(name, module, Some(meant)) => {
                self.add_legacy_of(name, module, meant)
            }
            Statement::Use(bringing, full, site) => self.add_use(bringing, full, site),
            Statement::ExternPrelude(name, krate, meant) => {
                self.add_extern_prelude(name, krate, meant)
            }
            Statement::MacroUse(name, map, meant) => self.add_macro_use(name, map, meant),
            Statement::Prelude(module, map) => self.add_prelude(module, map),
            Statement::Path(text, asking) => self.add_path(text, asking),
            Statement::Model(name, below) => self.add_model(name, below),
        }
    }

    // Adds what the line of that number tells.
    fn take_line(&mut self, line: &'a [u8], number: usize) -> Result<(), Failure<Trouble>>
        ensures read { OnOk result (ReadsLine number line.now (told_by self.old) (told_by self.new)) }
        ensures refused { OnRefused result (RefusesLine number line.now (told_by self.old)) }
        ensures line { ToldAt number result }
    {
        let Some((verb, statement)) = Statement::of(StatementWords::of(line, number))? else {
            return Ok(());
        };
        if !self.firmware.models.is_empty() && !statement.stands_below_models() {
            return Err(Failure::from(below_a_model(verb)));
        }
        self.add(statement)
    }
}

// Lines count from 1. The largest number stands for more.
fn line_number(before: usize) -> usize
    ensures { result ≡ line_number before }
{
    before.saturating_add(1)
}

/// Reads a whole file, or says what is wrong with its first bad line.
pub fn read_firmware<'a>(alloc: Global, text: &'a [u8]) -> Result<Firmware<'a>, Failure<Trouble>>
    ensures read { IfOk result (Reads text.now) }
    ensures refused { IfErr result (IfRefused (RefusesFile text.now)) }
{
    let mut reader = Reader::new(alloc)?;
    for (i, line) in text.split(|b| *b == b'\n').enumerate() {
        reader.take_line(line, line_number(i))?;
    }
    Ok(reader.firmware)
}
