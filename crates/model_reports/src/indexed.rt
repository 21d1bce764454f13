// The index to which the deliveries of a file are made: its make, and the rows that it is lent.
ghost use Rattle.std.specs.Prelude.{◌≡◌, is_ok, OnOk};
ghost use Rattle.model_reports.specs.Results.{rows_for};
ghost use Rattle.reports.specs.Base.{TakesBase};

use crate::models::write_models;
use firmware::pile::Part;
use firmware::survey::{Hashers, Survey, tables_of};
use hir_def::fault::{Failure, Fault};
use indexes::ledger_index::{FREE_LEDGER_ROW, LedgerIndex};
use indexes::table_index::{FREE_PLACE_ROW, TableIndex};
use item_scope::index::Recipient;
use reports::report::write_report;
use reports::style::Style;
use std::alloc::Global;
use std::io;

#[derive(Clone, Copy, PartialEq, Eq, Debug)]
pub enum Make {
    Table,
    Ledger,
}

/// Which make of an index, and how many rows it is lent at most.
#[derive(Clone, Copy, Debug)]
pub struct Lending {
    pub make: Make,
    pub rows: usize,
}

impl Lending {
    // Rows for all deliveries of the base, three for each, or fewer.
    fn rows_for(self, survey: &Survey) -> usize
        ensures { result ≡ rows_for survey.now.firmware.now self.rows }
    {
        let deliveries = survey.firmware.deliveries_of(Part::Base);
        self.rows.min(deliveries.len().saturating_mul(3))
    }
}

// The tables of a file that is taken are loaded once already, so nothing is refused here.
fn loaded(answer: Result<(), Failure<Fault>>) -> io::Result<()>
    ensures { is_ok result ≡ is_ok answer }
{
    match answer {
        Ok(()) => Ok(()),
        Err(Failure::Refused(_)) => Err(io::Error::from(io::ErrorKind::InvalidData)),
        Err(Failure::Memory(e)) => Err(io::Error::from(e)),
    }
}

// The report on the base, and then on each model over it.
fn write_whole<I: Recipient, W: io::Write, E: io::Write>(
    alloc: Global,
    w: &mut W,
    progress: &mut E,
    path: &str,
    survey: &Survey,
    index: &mut I,
    style: Style,
) -> io::Result<()>
    ensures { OnOk result (TakesBase I.view I.left I.delivers survey.now.firmware.now index.old index.new) }
{
    write_report(alloc, w, progress, path, survey, index, style)?;
    write_models(alloc, w, progress, path, survey, &*index, style)
}

fn write_on_table<W: io::Write, E: io::Write>(
    alloc: Global,
    w: &mut W,
    progress: &mut E,
    path: &str,
    survey: &Survey,
    style: Style,
    count: usize,
) -> io::Result<()> {
    let mut rows = vec![in alloc; FREE_PLACE_ROW; count]?;
    let mut index = TableIndex::new(alloc, Hashers::new(), rows.as_mut_slice())?;
    loaded(index.load(alloc, tables_of(survey.firmware)))?;
    write_whole(alloc, w, progress, path, survey, &mut index, style)
}

fn write_on_ledger<W: io::Write, E: io::Write>(
    alloc: Global,
    w: &mut W,
    progress: &mut E,
    path: &str,
    survey: &Survey,
    style: Style,
    count: usize,
) -> io::Result<()> {
    let mut rows = vec![in alloc; FREE_LEDGER_ROW; count]?;
    let mut index = LedgerIndex::new(alloc, Hashers::new(), rows.as_mut_slice())?;
    loaded(index.load(alloc, tables_of(survey.firmware)))?;
    write_whole(alloc, w, progress, path, survey, &mut index, style)
}

/// Makes the deliveries of a file's base to an index of its own, and writes the report on it and on the models over it.
pub fn write_indexed<W: io::Write, E: io::Write>(
    alloc: Global,
    w: &mut W,
    progress: &mut E,
    path: &str,
    survey: &Survey,
    style: Style,
    lending: Lending,
) -> io::Result<()> {
    let count = lending.rows_for(survey);
    match lending.make {
        Make::Table => write_on_table(alloc, w, progress, path, survey, style, count),
        Make::Ledger => write_on_ledger(alloc, w, progress, path, survey, style, count),
    }
}
