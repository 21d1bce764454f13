// The rows of an index's tables, as the statements of a file tell them, each with the word that tells it.
ghost use Rattle.std.specs.Prelude.{◌≡◌, ◌-◌, None, Some, length, vec_items, IfOk, IfErr};
ghost use Rattle.std.specs.List.{slice_get};
ghost use Rattle.firmware.specs.Words.{word_at};

use hir_def::{MacroId, ModuleId};
use index_tables::keys::{CrateName, EnumName, MapName, ModuleName};
use item_scope::index_data::{CallStyles, DefMapId, EnumVariant, ExternPrelude, MacroUse};
use keyed::row::Row;
use source_text::words::Word;

/// Rows, and the words that tell them.
#[derive(Drop)]
pub struct RowsTold<'a, K, V> {
    pub rows: Vec<Row<K, V>>,
    pub words: Vec<Word<'a>>,
}

impl<'a, K: Copy, V: Copy> RowsTold<'a, K, V> {
    // The word at a position, or the position among the words that follow these.
    fn word(&self, at: usize) -> Result<Word<'a>, usize>
        ensures found { IfOk result (λ w. slice_get (vec_items self.now.words) at ≡ Some w) }
        ensures beyond { IfErr result (λ rest. (slice_get (vec_items self.now.words) at ≡ None) × (rest ≡ at - length (vec_items self.now.words))) }
    {
        match self.words.get(at) {
            Some(word) => Ok(*word),
            None => Err(at.saturating_sub(self.words.len())),
        }
    }
}

/// The tables of an index beside its tree.
#[derive(Drop)]
pub struct IndexRows<'a> {
    pub extern_prelude: RowsTold<'a, CrateName, ExternPrelude>,
    pub macro_use: RowsTold<'a, MapName, MacroUse>,
    pub preludes: RowsTold<'a, DefMapId, ModuleId>,
    pub legacy: RowsTold<'a, ModuleName, MacroId>,
    pub variants: RowsTold<'a, EnumName, EnumVariant>,
    pub styles: Vec<CallStyles>,
}

impl<'a> IndexRows<'a> {
    /// The word that tells the row of that number, as a load counts them: after the three counts. None for a row of another
    /// table.
    pub fn word(&self, row: usize) -> Option<Word<'a>>
        ensures { result ≡ word_at self.now row }
    {
        let row = row.checked_sub(3)?;
        let row = match self.extern_prelude.word(row) {
            Ok(word) => return Some(word),
            Err(row) => row,
        };
        let row = match self.macro_use.word(row) {
            Ok(word) => return Some(word),
            Err(row) => row,
        };
        let row = match self.preludes.word(row) {
            Ok(word) => return Some(word),
            Err(row) => row,
        };
        let row = match self.legacy.word(row) {
            Ok(word) => return Some(word),
            Err(row) => row,
        };
        self.variants.word(row).ok()
    }
}
