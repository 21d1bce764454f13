// The tables of a module tree, and the first of their rows that breaks a rule.
ghost use Rattle.std.specs.Prelude.{◌≡◌, ℕ, Bool, length, slice_index_or};
ghost use Rattle.nameres.specs.Rows.{Rows, rows_of, module_at, block_at, crate_at, block_exists, is_root, good_parent, good_module, good_block, good_crate, tests, good_row, row_count, FirstBad};

use hir_def::edition::Edition;
use hir_def::{BlockId, CrateId, ModuleId};

/// No tree has more modules.
pub const MOST_MODULES: usize = 4096;

/// No tree has more blocks.
pub const MOST_BLOCKS: usize = 1024;

/// No tree has more crates.
pub const MOST_CRATES: usize = 64;

#[derive(Clone, Copy, Debug)]
pub struct ModuleRow {
    pub krate: CrateId,
    pub block: Option<BlockId>,
    pub parent: Option<ModuleId>,
}

#[derive(Clone, Copy, Debug)]
pub struct BlockRow {
    pub root: ModuleId,
    /// The module that the block stands in.
    pub outside: ModuleId,
}

#[derive(Clone, Copy, Debug)]
pub struct CrateRow {
    pub root: ModuleId,
    pub edition: Edition,
}

/// Row `i` of each table tells of number `i`.
#[derive(Clone, Copy, Debug)]
pub struct Tables<'a> {
    pub modules: &'a [ModuleRow],
    pub blocks: &'a [BlockRow],
    pub crates: &'a [CrateRow],
}

fn row_or<R: Copy>(rows: &[R], number: u32, blank: R) -> R
    ensures { result ≡ slice_index_or rows.now number blank }
{
    rows.get(number as usize).copied().unwrap_or(blank)
}

impl<'a> Tables<'a> {
    pub(crate) fn module(&self, m: ModuleId) -> ModuleRow
        ensures { result ≡ module_at (rows_of self.now) m }
    {
        row_or(
            self.modules,
            m.0,
            ModuleRow {
                krate: CrateId(0),
                block: None,
                parent: None,
            },
        )
    }

    pub(crate) fn block(&self, b: BlockId) -> BlockRow
        ensures { result ≡ block_at (rows_of self.now) b }
    {
        row_or(
            self.blocks,
            b.0,
            BlockRow {
                root: ModuleId(0),
                outside: ModuleId(0),
            },
        )
    }

    pub(crate) fn krate(&self, c: CrateId) -> CrateRow
        ensures { result ≡ crate_at (rows_of self.now) c }
    {
        row_or(
            self.crates,
            c.0,
            CrateRow {
                root: ModuleId(0),
                edition: Edition::Edition2015,
            },
        )
    }
}

/// A row that can be tested by itself, against the tables that it stands in.
trait Row: Copy {
    ghost good: { Rows → ℕ → Self → Bool };

    fn is_good(&self, tables: &Tables, number: usize) -> bool
        ensures { result ≡ good (rows_of tables.now) number self.now };
}

fn block_exists(tables: &Tables, block: Option<BlockId>) -> bool
    ensures { result ≡ block_exists (rows_of tables.now) block }
{
    match block {
        None => true,
        Some(b) => (b.0 as usize) < tables.blocks.len(),
    }
}

// The root that its block's row tells, or its crate's row if it has no block.
fn is_root(tables: &Tables, number: usize, krate: CrateId, block: Option<BlockId>) -> bool
    ensures { result ≡ is_root (rows_of tables.now) number krate block }
{
    match block {
        None => tables.krate(krate).root.0 as usize == number,
        Some(b) => tables.block(b).root.0 as usize == number,
    }
}

// A parent is lower and has the crate and the block; without a parent a module is a root.
fn good_parent(tables: &Tables, number: usize, row: ModuleRow) -> bool
    ensures { result ≡ good_parent (rows_of tables.now) number row.krate row.block row.parent }
{
    match row.parent {
        None => is_root(tables, number, row.krate, row.block),
        Some(p) => {
            let parent = tables.module(p);
            (p.0 as usize) < number && parent.krate == row.krate && parent.block == row.block
        }
    }
}

impl Row for ModuleRow {
    ghost good = { good_module };

    fn is_good(&self, tables: &Tables, number: usize) -> bool {
        number < MOST_MODULES
            && (self.krate.0 as usize) < tables.crates.len()
            && block_exists(tables, self.block)
            && good_parent(tables, number, *self)
    }
}

impl Row for BlockRow {
    ghost good = { good_block };

    fn is_good(&self, tables: &Tables, number: usize) -> bool {
        let root = tables.module(self.root);
        number < MOST_BLOCKS
            && (self.root.0 as usize) < tables.modules.len()
            && root.block == Some(BlockId(number as u32))
            && root.parent.is_none()
            && self.outside.0 < self.root.0
            && tables.module(self.outside).krate == root.krate
    }
}

impl Row for CrateRow {
    ghost good = { good_crate };

    fn is_good(&self, tables: &Tables, number: usize) -> bool {
        let root = tables.module(self.root);
        number < MOST_CRATES
            && (self.root.0 as usize) < tables.modules.len()
            && root.krate.0 as usize == number
            && root.block.is_none()
            && root.parent.is_none()
    }
}

fn first_bad<R: Row>(tables: &Tables, rows: &[R]) -> Option<usize>
    ensures { (d : R) → FirstBad (tests (R.Row.good (rows_of tables.now)) d rows.now) (length rows.now) result }
{
    for (i, row) in rows.iter().enumerate() {
        if !row.is_good(tables, i) {
            return Some(i);
        }
    }
    None
}

/// The first row that breaks a rule, counted through the modules, then the blocks, then the crates.
pub(crate) fn first_bad_row(tables: &Tables) -> Option<usize>
    ensures { FirstBad (good_row (rows_of tables.now)) (row_count (rows_of tables.now)) result }
{
    if let Some(m) = first_bad(tables, tables.modules) {
        return Some(m);
    }
    if let Some(b) = first_bad(tables, tables.blocks) {
        return Some(tables.modules.len() + b);
    }
    match first_bad(tables, tables.crates) {
        Some(c) => Some(tables.modules.len() + tables.blocks.len() + c),
        None => None,
    }
}
