// One world after another: its tables are loaded at `go`, and its commands answered from them, a line for a line.
use crate::lines::Lines;
use crate::pile::{answer_pile, write_bad};
use crate::tables::{Make, Tables};
use hir_def::fault::{Failure, Fault};
use indexes::ledger_index::{FREE_LEDGER_ROW, LedgerIndex};
use indexes::table_index::{FREE_PLACE_ROW, TableIndex};
use item_scope::index::Recipient;
use std::alloc::Global;
use std::hash::{BuildHasherDefault, FoldHasher};
use std::io;
use std::io::{BufRead, Write};
use world_commands::answer::Answer;

// A refused load is told at `go`, and again for each line up to the next world.
fn refuse_all<R: BufRead + Drop, W: Write>(
    lines: &mut Lines<R>,
    out: &mut W,
    fault: Fault,
) -> io::Result<bool> {
    let answer = Answer::Refused(fault);
    for _ in 0..u64::MAX {
        writeln!(out, "{answer}")?;
        if !lines.advance()? {
            return Ok(false);
        }
        if lines.line().verb == "world" {
            return Ok(true);
        }
    }
    Ok(false)
}

// Answers each line from a loaded index, or refuses it, up to the next world, and whether there is one.
fn answer_loaded<I: Recipient + Drop, R: BufRead + Drop, W: Write>(
    alloc: Global,
    lines: &mut Lines<R>,
    out: &mut W,
    list: &[u8],
    index: I,
    loaded: Result<(), Failure<Fault>>,
) -> io::Result<bool> {
    match loaded {
        Ok(()) => answer_pile(alloc, lines, out, index, list),
        Err(Failure::Refused(fault)) => refuse_all(lines, out, fault),
        Err(Failure::Memory(e)) => Err(io::Error::from(e)),
    }
}

// Loads the tables into the index that the world asks for, and answers each line up to the next world, and whether there is
// one.
fn play_commands<R: BufRead + Drop, W: Write>(
    alloc: Global,
    lines: &mut Lines<R>,
    out: &mut W,
    tables: &Tables,
) -> io::Result<bool> {
    let list = tables.names_text(alloc)?;
    let list = list.as_slice();
    let crates = tables.crates(alloc)?;
    let lent = tables.lend(crates.as_slice());
    let hashers = BuildHasherDefault::<FoldHasher>::new();
    let count = tables.rows as usize;
    match tables.make {
        Make::Table => {
            let mut rows = vec![in alloc; FREE_PLACE_ROW; count]?;
            let mut index = TableIndex::new(alloc, hashers, rows.as_mut_slice())?;
            let loaded = index.load(alloc, lent);
            answer_loaded(alloc, lines, out, list, index, loaded)
        }
        Make::Ledger => {
            let mut rows = vec![in alloc; FREE_LEDGER_ROW; count]?;
            let mut index = LedgerIndex::new(alloc, hashers, rows.as_mut_slice())?;
            let loaded = index.load(alloc, lent);
            answer_loaded(alloc, lines, out, list, index, loaded)
        }
    }
}

// The line of a world is echoed. Answers whether a line follows.
fn begin<R: BufRead + Drop, W: Write>(lines: &mut Lines<R>, out: &mut W) -> io::Result<bool> {
    let line = lines.line();
    if line.verb != "world" {
        return Ok(true);
    }
    let text = line.text;
    writeln!(out, "{text}")?;
    lines.advance()
}

// A world from its first line on: its tables up to `go`, and its commands. Answers whether a further world begins.
fn play<R: BufRead + Drop, W: Write>(
    alloc: Global,
    lines: &mut Lines<R>,
    out: &mut W,
) -> io::Result<bool> {
    let mut tables = Tables::new(alloc);
    let mut goes_on = begin(lines, out)?;
    for _ in 0..u64::MAX {
        if !goes_on {
            return Ok(false);
        }
        let line = lines.line();
        match line.verb {
            "world" => return Ok(true),
            "go" if line.text == "go" => return play_commands(alloc, lines, out, &tables),
            _ => {
                if !tables.read(alloc, line)? {
                    write_bad(out, line.number)?;
                }
            }
        }
        goes_on = lines.advance()?;
    }
    Ok(false)
}

/// Answers a whole input, a line for each command. It keeps one world and one line at a time.
pub fn answer_input<R: BufRead + Drop, W: Write>(
    alloc: Global,
    input: R,
    out: &mut W,
) -> io::Result<()> {
    let mut lines = Lines::new(alloc, input);
    let mut goes_on = lines.advance()?;
    for _ in 0..u64::MAX {
        if !goes_on {
            break;
        }
        goes_on = play(alloc, &mut lines, out)?;
    }
    out.flush()
}
