// The tables of a world, as its lines tell them.
ghost use Rattle.std.specs.Prelude.{◌≡◌, ◌++◌, IfOk};
ghost use Rattle.world_commands.specs.Words.{ReadAs, parts_of};
ghost use Rattle.index_tables.specs.IndexRows.{lent_rows};
ghost use Rattle.world_lines.specs.Crates.{crates_from};
ghost use Rattle.world_lines.specs.Lent.{lent};
ghost use Rattle.world_lines.specs.NameTexts.{name_line, listed};
ghost use Rattle.world_lines.specs.Rows.{IsModuleRow, IsBlockRow, IsMake};

use crate::index_rows::{IndexRows, pushed, set};
use crate::lines::Line;
use crate::words::{three, two};
use hir_def::builtin_type::BuiltinType;
use hir_def::edition::Edition;
use hir_def::{BlockId, CrateId, ModuleId, Name};
use index_tables::loaded_tables::{IndexTables, MOST_NAMES};
use nameres::tree_rows;
use nameres::tree_rows::{BlockRow, CrateRow, ModuleRow};
use source_text::number::number;
use std::alloc::{AllocError, Global};
use world_commands::fields::{bytes, optional};

// How many rows a world has that does not say it.
const ROWS: u32 = 65_536;

/// What the name list of a world is made of.
#[derive(Drop)]
enum List {
    /// The built-in names, and then `n19`, `n20` and so on.
    Numbered,
    Told(Vec<u8>),
}

/// Which make of an index answers.
#[derive(Clone, Copy, PartialEq, Eq, Debug)]
pub(crate) enum Make {
    Table,
    Ledger,
}

#[derive(Drop)]
pub(crate) struct Tables {
    pub make: Make,
    /// How many rows the index is lent for its places.
    pub rows: u32,
    modules: Vec<ModuleRow>,
    blocks: Vec<BlockRow>,
    editions: Vec<Edition>,
    names: u32,
    list: List,
    index: IndexRows,
}

fn module_row(rest: &str) -> Option<ModuleRow>
    ensures { ReadAs IsModuleRow (parts_of 32 rest.now) result }
{
    let (krate, block, parent) = three(rest)?;
    Some(ModuleRow {
        krate: CrateId(number(krate)?),
        block: optional(block)?.map(BlockId),
        parent: optional(parent)?.map(ModuleId),
    })
}

fn block_row(rest: &str) -> Option<BlockRow>
    ensures { ReadAs IsBlockRow (parts_of 32 rest.now) result }
{
    let (root, outside) = two(rest)?;
    Some(BlockRow {
        root: ModuleId(number(root)?),
        outside: ModuleId(number(outside)?),
    })
}

fn make_of(rest: &str) -> Option<Make>
    ensures { ReadAs IsMake rest.now result }
{
    match rest {
        "table" => Some(Make::Table),
        "ledger" => Some(Make::Ledger),
        _ => None,
    }
}

fn push_numbered(alloc: Global, lines: &mut Vec<u8>, name: u32) -> Result<(), AllocError>
    ensures { IfOk result (λ _. lines.new.items ≡ lines.old.items ++ name_line name) }
{
    match BuiltinType::text(Name(name)) {
        Some(text) => lines.extend_from_slice(text.as_bytes())?,
        None => {
            let text = format!(in alloc; "n{name}")?;
            lines.extend_from_slice(text.as_bytes())?;
        }
    }
    lines.extend_from_slice(b"\n")
}

impl Tables {
    pub(crate) fn new(alloc: Global) -> Tables {
        Tables {
            make: Make::Table,
            rows: ROWS,
            modules: Vec::new(alloc),
            blocks: Vec::new(alloc),
            editions: Vec::new(alloc),
            names: 0,
            list: List::Numbered,
            index: IndexRows::new(alloc),
        }
    }

    fn told_list(&mut self, alloc: Global, rest: &str) -> Result<bool, AllocError> {
        match bytes(alloc, rest)? {
            Some(bytes) => {
                self.list = List::Told(bytes);
                Ok(true)
            }
            None => Ok(false),
        }
    }

    /// Takes in one line of the tables, or answers that it is none.
    pub(crate) fn read(&mut self, alloc: Global, line: Line) -> Result<bool, AllocError> {
        let rest = line.rest;
        match line.verb {
            "crate" => pushed(&mut self.editions, rest.parse::<Edition>().ok()),
            "module" => pushed(&mut self.modules, module_row(rest)),
            "block" => pushed(&mut self.blocks, block_row(rest)),
            "names" => Ok(set(&mut self.names, number(rest))),
            "make" => Ok(set(&mut self.make, make_of(rest))),
            "rows" => Ok(set(&mut self.rows, number(rest))),
            "list" => self.told_list(alloc, rest),
            verb => self.index.read(verb, rest),
        }
    }

    /// A row for each crate. Its root is its first blockless module without a parent; if there is none, a number that
    /// does not exist.
    #[tactic(auto, using(std::proofs::lemmas::List::take_all))]
    pub(crate) fn crates(&self, alloc: Global) -> Result<Vec<CrateRow>, AllocError>
        ensures { IfOk result (λ v. v.items ≡ crates_from 0 self.now.editions.items self.now.modules.items) }
    {
        let mut rows = Vec::new(alloc);
        for edition in &self.editions {
            rows.push(CrateRow {
                root: ModuleId(u32::MAX),
                edition: *edition,
            })?;
        }
        for (number, row) in self.modules.iter().enumerate() {
            let krate = row.krate.0 as usize;
            let is_top = row.block.is_none() && row.parent.is_none();
            if is_top && krate < rows.len() && rows[krate].root.0 == u32::MAX {
                rows[krate].root = ModuleId(u32::try_from(number).unwrap_or(u32::MAX));
            }
        }
        Ok(rows)
    }

    /// The tables, lent to an index, with the rows of the crates.
    pub(crate) fn lend<'a>(&'a self, crates: &'a [CrateRow]) -> IndexTables<'a>
        ensures { lent_rows result ≡ lent self.now crates.now }
    {
        let rows = &self.index;
        IndexTables {
            tree: tree_rows::Tables {
                modules: self.modules.as_slice(),
                blocks: self.blocks.as_slice(),
                crates,
            },
            names: self.names,
            enums: rows.enums,
            macros: u32::try_from(rows.styles.len()).unwrap_or(u32::MAX),
            extern_prelude: rows.extern_prelude.as_slice(),
            macro_use: rows.macro_use.as_slice(),
            preludes: rows.preludes.as_slice(),
            legacy: rows.legacy.as_slice(),
            variants: rows.variants.as_slice(),
            styles: rows.styles.as_slice(),
        }
    }

    /// The bytes of the name list.
    #[tactic(auto, using(crate::proofs::NameLines::one_line_more))]
    pub(crate) fn names_text(&self, alloc: Global) -> Result<Vec<u8>, AllocError>
        ensures { IfOk result (λ v. v.items ≡ listed self.now.list self.now.names) }
    {
        if let List::Told(bytes) = &self.list {
            return bytes.clone();
        }
        let mut lines = Vec::new(alloc);
        for name in 0..self.names.min(MOST_NAMES) {
            push_numbered(alloc, &mut lines, name)?;
        }
        Ok(lines)
    }
}
