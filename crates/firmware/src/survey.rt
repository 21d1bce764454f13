// A file that was read and is taken whole: its tables are loaded and its paths are read.
ghost use Rattle.std.specs.Prelude.{◌≡◌, IfOk, IfErr};
ghost use Rattle.index_tables.specs.IndexRows.{lent_rows};
ghost use Rattle.firmware.specs.Surveys.{declared_rows, Tells, TablesOf, Takes, WhyNot, count_of};

use crate::file::Firmware;
use crate::path_words::read_paths;
use hir_def::fault::{Failure, Fault, IndexFault};
use index_tables::loaded_tables::{IndexTables, LoadedTables};
use nameres::tree_rows::Tables;
use path_text::mod_path::ModPath;
use path_text::name_list::NameList;
use std::alloc::Global;
use std::hash::{BuildHasherDefault, FoldHasher};
use troubles::complaint::Complaint;
use troubles::trouble::Trouble;

/// How the keys of tables are hashed; no answer depends on it.
pub type Hashers = BuildHasherDefault<FoldHasher>;

/// What a file tells: its statements, the tables of its index, and its paths by the names that it declares.
#[derive(Drop)]
pub struct Survey<'f, 't> {
    pub firmware: &'f Firmware<'t>,
    pub tables: LoadedTables<'f, Hashers>,
    pub list: &'f NameList<'t>,
    pub paths: Vec<ModPath>,
}

// So many of a kind, as an index counts them.
fn count_of(count: usize) -> u32
    ensures { result ≡ count_of count }
{
    u32::try_from(count).unwrap_or(u32::MAX)
}

/// The tables that the statements of a file declare.
pub fn tables_of<'f, 't>(firmware: &'f Firmware<'t>) -> IndexTables<'f>
    ensures { lent_rows result ≡ declared_rows firmware.entry.now }
{
    let tables = &firmware.tables;
    IndexTables {
        tree: Tables {
            modules: firmware.modules.as_slice(),
            blocks: firmware.blocks.as_slice(),
            crates: firmware.crates.as_slice(),
        },
        names: count_of(firmware.list.count()),
        enums: count_of(firmware.definitions.enums.len()),
        macros: count_of(tables.styles.len()),
        extern_prelude: tables.extern_prelude.rows.as_slice(),
        macro_use: tables.macro_use.rows.as_slice(),
        preludes: tables.preludes.rows.as_slice(),
        legacy: tables.legacy.rows.as_slice(),
        variants: tables.variants.rows.as_slice(),
        styles: tables.styles.as_slice(),
    }
}

// A bad row is told at its statement, where one tells it.
fn trouble_of(firmware: &Firmware, fault: Fault) -> Trouble
    ensures { Tells firmware.now fault result }
{
    match fault {
        Fault::Index(IndexFault::BadRow(row)) => match firmware.tables.word(row) {
            Some(word) => Trouble::Text(Complaint::at(
                word,
                "a statement above tells this already",
                "one statement for each name in a table",
            )),
            None => Trouble::Tables(fault),
        },
        fault => Trouble::Tables(fault),
    }
}

fn load<'f, 't>(
    alloc: Global,
    firmware: &'f Firmware<'t>,
) -> Result<LoadedTables<'f, Hashers>, Failure<Trouble>>
    ensures { TablesOf firmware.entry.now result }
{
    let mut tables = LoadedTables::new(alloc, Hashers::new())?;
    match tables.load(alloc, tables_of(firmware)) {
        Ok(()) => Ok(tables),
        Err(Failure::Refused(fault)) => Err(Failure::Refused(trouble_of(firmware, fault))),
        Err(Failure::Memory(e)) => Err(Failure::Memory(e)),
    }
}

impl<'f, 't> Survey<'f, 't> {
    /// Takes what a file declares, or says why not: its paths first, then its tables.
    #[tactic(auto, using(crate::proofs::Why::bad_path, crate::proofs::Why::bad_tables))]
    pub fn of(alloc: Global, firmware: &'f Firmware<'t>) -> Result<Survey<'f, 't>, Failure<Trouble>>
        ensures taken { IfOk result (Takes firmware.entry.now) }
        ensures refused { IfErr result (WhyNot firmware.entry.now) }
    {
        let list = &firmware.list;
        let paths = read_paths(alloc, list, firmware.paths.as_slice())?;
        Ok(Survey {
            firmware,
            tables: load(alloc, firmware)?,
            list,
            paths,
        })
    }
}
