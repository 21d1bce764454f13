// A table comes in row by row, up to the first row that is not good.
ghost use Rattle.std.specs.Prelude.{◌≡◌, ◌<◌, ◌^◌, [], length, IfOk, OnOk};
ghost use Rattle.keyed.specs.Entries.{most_rows};
ghost use Rattle.index_tables.specs.RowTests.{row_tests, AnswersTests, RowsPass};

use crate::numbers::{Counts, NumbersExist};
use hir_def::fault::{Failure, Fault, IndexFault};
use keyed::row::Row;
use keyed::table::Table;
use std::alloc::Global;
use std::hash::BuildHasher;

/// A table of the rows, or the number of the first row that is not good, where they are counted from `from` on.
#[tactic(auto, using(keyed::specs::Entries::most_rows_few))]
pub(crate) fn load_table<'a, K: NumbersExist<V>, V: Copy, S: BuildHasher + Drop>(
    alloc: Global,
    hash_builder: S,
    rows: &'a [Row<K, V>],
    counts: &Counts,
    from: usize,
) -> Result<Table<&'a [Row<K, V>], S>, Failure<Fault>>
    requires { from < 2 ^ 40 }
    ensures few { OnOk result (length rows.now < 2 ^ 32) }
    ensures tested { AnswersTests (row_tests K.eq (K.exist counts.now) most_rows [] rows.now) from rows.now result }
    ensures good { IfOk result (λ t. RowsPass K.eq (K.exist counts.now) t.entries) }
{
    let mut table = Table::new(alloc, hash_builder, rows)?;
    for i in 0..rows.len() {
        let row = rows[i];
        if !row.key.numbers_exist(row.value, counts) {
            return Err(Failure::from(IndexFault::BadRow(from + i)));
        }
        if table.adopt().is_err() {
            return Err(Failure::from(IndexFault::BadRow(from + i)));
        }
    }
    Ok(table)
}
