// The commands of a world, answered from a pile: the loaded index, and up to three variants on it, of which the last one answers.
use crate::lines::{Line, Lines};
use item_scope::index::{Index, Recipient};
use std::alloc::Global;
use std::io;
use std::io::{BufRead, Write};
use variants::variant::Variant;
use world_commands::command::Command;
use world_commands::world::World;

// What a line asks of the pile.
#[derive(Clone, Copy)]
enum Asked {
    // Nothing: it is answered.
    Nothing,
    // A variant on the top.
    Variant,
    // The top taken off.
    End,
    // The world is over; whether a further one begins.
    World(bool),
}

// Why an index answers no more: it was taken off the pile, or the world is over.
#[derive(Clone, Copy)]
enum Over {
    Ended,
    // Whether a further world begins.
    World(bool),
}

pub(crate) fn write_bad<W: Write>(out: &mut W, number: usize) -> io::Result<()> {
    writeln!(out, "bad line {number}")
}

fn answer_line<I: Recipient + Drop, W: Write>(
    alloc: Global,
    out: &mut W,
    world: &mut World<I>,
    line: Line,
) -> io::Result<()> {
    match Command::parse(alloc, line.text)? {
        Some(command) => {
            let answer = world.answer(alloc, &command)?;
            writeln!(out, "{answer}")
        }
        None => write_bad(out, line.number),
    }
}

// Answers the next line, unless it is none of a command.
fn answer_next<I: Recipient + Drop, R: BufRead + Drop, W: Write>(
    alloc: Global,
    lines: &mut Lines<R>,
    out: &mut W,
    world: &mut World<I>,
) -> io::Result<Asked> {
    if !lines.advance()? {
        return Ok(Asked::World(false));
    }
    let line = lines.line();
    if line.verb == "world" {
        return Ok(Asked::World(true));
    }
    match line.text {
        "variant" => Ok(Asked::Variant),
        "end" => Ok(Asked::End),
        _ => {
            answer_line(alloc, out, world, line)?;
            Ok(Asked::Nothing)
        }
    }
}

// Answers lines from the index at that depth of the pile, up to one that asks for a variant on it (none then), or until it answers
// no more.
fn answer_up_to_variant<I: Recipient + Drop, R: BufRead + Drop, W: Write>(
    alloc: Global,
    lines: &mut Lines<R>,
    out: &mut W,
    world: &mut World<I>,
    depth: usize,
) -> io::Result<Option<Over>> {
    for _ in 0..u64::MAX {
        match answer_next(alloc, lines, out, world)? {
            Asked::Nothing => {}
            Asked::Variant => return Ok(None),
            Asked::World(begins) => return Ok(Some(Over::World(begins))),
            Asked::End => match depth.checked_sub(1) {
                Some(rest) => {
                    writeln!(out, "end {rest}")?;
                    return Ok(Some(Over::Ended));
                }
                None => write_bad(out, lines.line().number)?,
            },
        }
    }
    Ok(Some(Over::World(false)))
}

// A variant on the index, at that depth, with the names of the list.
fn put_on<'a, 'n, I: Index, W: Write>(
    alloc: Global,
    out: &mut W,
    depth: usize,
    below: &'a I,
    list: &'n [u8],
) -> io::Result<World<'n, Variant<'a, I>>> {
    writeln!(out, "variant {depth}")?;
    Ok(World::new(alloc, Variant::new(below), list)?)
}

// No fourth variant is put on.
fn answer_third<I: Index, R: BufRead + Drop, W: Write>(
    alloc: Global,
    lines: &mut Lines<R>,
    out: &mut W,
    below: &I,
    list: &[u8],
) -> io::Result<Over> {
    let mut world = put_on(alloc, out, 3, below, list)?;
    for _ in 0..u64::MAX {
        match answer_up_to_variant(alloc, lines, out, &mut world, 3)? {
            Some(over) => return Ok(over),
            None => write_bad(out, lines.line().number)?,
        }
    }
    Ok(Over::World(false))
}

fn answer_second<I: Index, R: BufRead + Drop, W: Write>(
    alloc: Global,
    lines: &mut Lines<R>,
    out: &mut W,
    below: &I,
    list: &[u8],
) -> io::Result<Over> {
    let mut world = put_on(alloc, out, 2, below, list)?;
    for _ in 0..u64::MAX {
        if let Some(over) = answer_up_to_variant(alloc, lines, out, &mut world, 2)? {
            return Ok(over);
        }
        if let Over::World(begins) = answer_third(alloc, lines, out, world.index(), list)? {
            return Ok(Over::World(begins));
        }
    }
    Ok(Over::World(false))
}

fn answer_first<I: Index, R: BufRead + Drop, W: Write>(
    alloc: Global,
    lines: &mut Lines<R>,
    out: &mut W,
    below: &I,
    list: &[u8],
) -> io::Result<Over> {
    let mut world = put_on(alloc, out, 1, below, list)?;
    for _ in 0..u64::MAX {
        if let Some(over) = answer_up_to_variant(alloc, lines, out, &mut world, 1)? {
            return Ok(over);
        }
        if let Over::World(begins) = answer_second(alloc, lines, out, world.index(), list)? {
            return Ok(Over::World(begins));
        }
    }
    Ok(Over::World(false))
}

/// Answers each line from the index and the variants put on it, up to the next world, and whether there is one.
pub(crate) fn answer_pile<I: Recipient + Drop, R: BufRead + Drop, W: Write>(
    alloc: Global,
    lines: &mut Lines<R>,
    out: &mut W,
    index: I,
    list: &[u8],
) -> io::Result<bool> {
    let mut world = World::new(alloc, index, list)?;
    for _ in 0..u64::MAX {
        if let Some(Over::World(begins)) = answer_up_to_variant(alloc, lines, out, &mut world, 0)? {
            return Ok(begins);
        }
        if let Over::World(begins) = answer_first(alloc, lines, out, world.index(), list)? {
            return Ok(begins);
        }
    }
    Ok(false)
}
