// A module tree over tables that the caller keeps.
ghost use Rattle.std.specs.Prelude.{◌≡◌, ◌≤◌, is_ok, if◌then◌else◌, None, Decides};
ghost use Rattle.nameres.specs.Shapes.{Rules};
ghost use Rattle.nameres.specs.Rows.{rows_of, no_rows, tree_of, row_number, good_row, row_count, FirstBad, Loads};
ghost use Rattle.nameres.specs.Checked.{ModulesGood, BlocksGood, CratesGood, rules-of};

use crate::Tree;
use crate::tree_rows::{Tables, first_bad_row};
use hir_def::edition::Edition;
use hir_def::fault::TreeFault;
use hir_def::{BlockId, CrateId, ModuleId};

/// A tree over tables that keep the rules.
#[derive(Debug, Drop)]
pub struct TreeTable<'a> {
    tables: Tables<'a>,
    ghost modules_good: { ModulesGood (rows_of tables) },
    ghost blocks_good: { BlocksGood (rows_of tables) },
    ghost crates_good: { CratesGood (rows_of tables) },
    ghost few: { row_count (rows_of tables) ≤ 5184 },
}

impl<'a> TreeTable<'a> {
    ghost use Rattle.nameres.specs.Tabled.{rows_in};

    /// A tree without crates.
    pub fn new() -> TreeTable<'a>
        ensures { rows_in result ≡ no_rows }
    {
        TreeTable {
            tables: Tables {
                modules: &[],
                blocks: &[],
                crates: &[],
            },
        }
    }

    fn over(tables: Tables<'a>) -> TreeTable<'a>
        requires { FirstBad (good_row (rows_of tables)) (row_count (rows_of tables)) None }
        ensures { rows_in result ≡ rows_of tables.entry }
    {
        TreeTable { tables }
    }

    /// Takes the tables in, or says which row is the first that breaks a rule and keeps what it had. Rows are counted
    /// through the modules, then the blocks, then the crates.
    pub fn load(&mut self, tables: Tables<'a>) -> Result<(), TreeFault>
        ensures answers { Loads (rows_of tables.entry) result }
        ensures accepted { Decides (is_ok result) (Rules (tree_of (rows_of tables.entry)) row_number) }
        ensures after { rows_in self.new ≡ (if is_ok result then rows_of tables.entry else rows_in self.old) }
    {
        if let Some(row) = first_bad_row(&tables) {
            return Err(TreeFault::BadRow(row));
        }
        *self = TreeTable::over(tables);
        Ok(())
    }
}

impl<'a> Tree for TreeTable<'a> {
    ghost shape = { λ s. tree_of (rows_of s.tables) };

    ghost rank = { λ s. row_number };

    fn modules(&self) -> u32 {
        self.tables.modules.len() as u32
    }

    fn blocks(&self) -> u32 {
        self.tables.blocks.len() as u32
    }

    fn crates(&self) -> u32 {
        self.tables.crates.len() as u32
    }

    fn krate(&self, m: ModuleId) -> CrateId {
        self.tables.module(m).krate
    }

    fn block(&self, m: ModuleId) -> Option<BlockId> {
        self.tables.module(m).block
    }

    fn parent(&self, m: ModuleId) -> Option<ModuleId> {
        self.tables.module(m).parent
    }

    fn block_root(&self, b: BlockId) -> ModuleId {
        self.tables.block(b).root
    }

    fn outside(&self, b: BlockId) -> ModuleId {
        self.tables.block(b).outside
    }

    fn crate_root(&self, c: CrateId) -> ModuleId {
        self.tables.krate(c).root
    }

    fn edition(&self, c: CrateId) -> Edition {
        self.tables.krate(c).edition
    }

    ghost ruled = { λ s. rules-of (rows_of s.tables) s.modules_good s.blocks_good s.crates_good };
}
