// bench: loads a world, makes its deliveries and asks its questions, and tells what came of them; after `times` also how long each took,
// in nanoseconds. The input, which bench/run.py writes, is read before any clock starts; `input` reads it and no more, so that its memory
// can be told apart.
#![tactic(auto)]

mod asked;
mod numbers;
mod tables;
mod timing;

use crate::asked::{Group, deliveries, groups};
use crate::numbers::{Numbers, all_numbers};
use crate::tables::Tables;
use crate::timing::{Report, deliver_all, time_groups, variant_on};
use anyhow::{Result, anyhow};
use indexes::table_index::{FREE_PLACE_ROW, PlaceRow, TableIndex};
use item_scope::delivery::Delivery;
use item_scope::index::{Index, Recipient};
use std::alloc::Global;
use std::hash::{BuildHasherDefault, FoldHasher};
use std::process::ExitCode;
use std::time::Instant;
use std::{env, fs, io};

const USAGE: &str =
    "expected `counts`, `times` or `input`, and then a file that is a world in numbers";

// All that is read before a clock starts.
#[derive(Drop)]
struct Input {
    tables: Tables,
    made: Vec<Delivery>,
    asked: Vec<Group>,
    own: Vec<Delivery>,
}

fn read_input(alloc: Global, numbers: &[u32]) -> Option<Input> {
    let mut rest = Numbers(numbers);
    let tables = Tables::read(alloc, &mut rest)?;
    let made = deliveries(alloc, &mut rest)?;
    let asked = groups(alloc, &mut rest)?;
    let own = deliveries(alloc, &mut rest)?;
    Some(Input {
        tables,
        made,
        asked,
        own,
    })
}

// The questions through a pile of three variants, each with the same places of its own.
fn time_pile<I: Index>(report: Report, index: &I, input: &Input) -> io::Result<()> {
    let own = input.own.as_slice();
    let low = variant_on(index, own);
    let middle = variant_on(&low, own);
    let top = variant_on(&middle, own);
    time_groups(report, &top, "pile", input.asked.as_slice())
}

fn time_index<I: Recipient>(report: Report, index: &mut I, input: &Input) -> io::Result<()> {
    let start = Instant::now(report.rt)?;
    let changed = deliver_all(index, input.made.as_slice());
    let time = start.elapsed(report.rt)?;
    report.tell("deliver", input.made.len(), changed, time)?;
    time_groups(report, &*index, "ask", input.asked.as_slice())?;
    time_pile(report, &*index, input)
}

// Loads the tables into an index over free rows, and times it. Answers whether they are taken.
fn time_all(report: Report, input: &Input) -> io::Result<bool> {
    let alloc = report.rt.alloc();
    let start = Instant::now(report.rt)?;
    let mut rows: Vec<PlaceRow> = vec![in alloc; FREE_PLACE_ROW; input.tables.rows]?;
    let hashers = BuildHasherDefault::<FoldHasher>::new();
    let mut index = TableIndex::new(alloc, hashers, rows.as_mut_slice())?;
    if index.load(alloc, input.tables.lend()).is_err() {
        return Ok(false);
    }
    let time = start.elapsed(report.rt)?;
    report.tell("load", input.tables.rows, 0, time)?;
    time_index(report, &mut index, input)?;
    Ok(true)
}

// What is done with a world.
#[derive(Clone, Copy)]
enum Task {
    Counts,
    Times,
    // It is read, and nothing else.
    Input,
}

fn task_of(word: &str) -> Option<Task> {
    match word {
        "counts" => Some(Task::Counts),
        "times" => Some(Task::Times),
        "input" => Some(Task::Input),
        _ => None,
    }
}

fn do_task(rt: &HostRuntime, task: Task, path: &str) -> Result<()> {
    let text = fs::read_to_string(rt, path).map_err(|e| anyhow!("{path}: {e}"))?;
    let numbers = all_numbers(rt.alloc(), text.as_str())?;
    let Some(input) = read_input(rt.alloc(), numbers.as_slice()) else {
        return Err(anyhow!("{path}: no world in numbers, or memory is wanting"));
    };
    let with_times = match task {
        Task::Counts => false,
        Task::Times => true,
        Task::Input => return Ok(()),
    };
    if time_all(Report { rt, with_times }, &input)? {
        Ok(())
    } else {
        Err(anyhow!("{path}: the tables of the world are refused"))
    }
}

fn run(rt: &HostRuntime) -> Result<()> {
    let mut words = env::args(rt)?.skip(1);
    let (Some(task), Some(path)) = (words.next(), words.next()) else {
        return Err(anyhow!("{USAGE}"));
    };
    match task_of(task.as_str()) {
        Some(task) => do_task(rt, task, path.as_str()),
        None => Err(anyhow!("{USAGE}")),
    }
}

fn main(rt: HostRuntime) -> io::Result<ExitCode> {
    match run(&rt) {
        Ok(()) => Ok(ExitCode::SUCCESS),
        Err(error) => {
            eprintln!(rt; "bench: {error}")?;
            Ok(ExitCode::FAILURE)
        }
    }
}
