// The command line of feqhazo.
#![tactic(auto)]

use clap::{Arg, ArgAction, Command, Error, value_parser};
use std::alloc::{AllocError, Global};

/// How a report is written.
#[derive(Clone, Copy, PartialEq, Eq, Debug)]
pub enum Format {
    /// For people.
    Text,
    /// A line of words for each item, place, path and answer.
    Lines,
    /// An object a line.
    Json,
}

/// How the index to which the deliveries are made keeps its places.
#[derive(Clone, Copy, PartialEq, Eq, Debug)]
pub enum Make {
    /// A row for each place.
    Table,
    /// A row for each entry that came.
    Ledger,
}

/// What the program is asked to do.
#[derive(Debug, Drop)]
pub struct Options<'a> {
    /// How the report is written.
    pub format: Format,
    /// Whether each module that sees an item is named, however many there are.
    pub all: bool,
    /// How the index keeps its places.
    pub make: Make,
    /// How many rows the index is lent; none for as many as the deliveries may need.
    pub rows: Option<u32>,
    /// Whether it is told on standard error how far the report has come.
    pub progress: bool,
    /// The files to read, one at least; `-` is standard input.
    pub files: Vec<&'a str>,
}

/// The kit that the program was proved with, as `rt version` names it.
pub const VERSION: &str = "0.1, proved with rattle-kit-13f logic dac8208d650f15bf";

const ABOUT: &str =
    "Reads firmware trees with their items, imports, paths and card models, and prints which modules may see each item, what holds each place, what each path was read as and stands for, and what each model keeps and cuts";

static MAKES: [&str; 2] = ["table", "ledger"];

static FORMATS: [&str; 3] = ["text", "lines", "json"];

fn format_of(text: &str) -> Format {
    match text {
        "lines" => Format::Lines,
        "json" => Format::Json,
        _ => Format::Text,
    }
}

fn make_of(text: &str) -> Make {
    match text {
        "ledger" => Make::Ledger,
        _ => Make::Table,
    }
}

fn format_argument<'a>(alloc: Global) -> Result<Arg<'a>, AllocError> {
    Arg::new(alloc, "format")
        .long("format")
        .value_name("FORMAT")
        .value_parser(FORMATS.as_slice())
        .help(
            "How the report is written: for people (the default), in lines of words, or as JSON, an object a line",
        )
        .conflicts_with("lines")
}

fn make_argument<'a>(alloc: Global) -> Arg<'a> {
    Arg::new(alloc, "make")
        .long("make")
        .value_name("MAKE")
        .value_parser(MAKES.as_slice())
        .help(
            "How the index keeps its places: a row for each place, or a row for each entry that came; the places are the same",
        )
        .default_value("table")
}

fn rows_argument<'a>(alloc: Global) -> Arg<'a> {
    Arg::new(alloc, "rows")
        .long("rows")
        .value_name("N")
        .value_parser(value_parser!(u32))
        .help(
            "Lends the index no more than N rows, so that deliveries may be refused for want of rows; without it none is",
        )
}

fn flag<'a>(alloc: Global, name: &'a str, help: &'a str) -> Arg<'a> {
    Arg::new(alloc, name)
        .long(name)
        .action(ArgAction::SetTrue)
        .help(help)
}

fn command<'a>(alloc: Global) -> Result<Command<'a>, AllocError> {
    let files = Arg::new(alloc, "FILE")
        .required(true)
        .num_args(1..)
        .help("The files to read; - is standard input");
    Command::new(alloc, "feqhazo")
        .version(VERSION)
        .about(ABOUT)
        .arg(files)?
        .arg(format_argument(alloc)?)?
        .arg(make_argument(alloc))?
        .arg(rows_argument(alloc))?
        .arg(flag(alloc, "lines", "Short for --format lines"))?
        .arg(flag(
            alloc,
            "all",
            "Name each module that sees an item, however many there are",
        ))?
        .arg(flag(
            alloc,
            "progress",
            "Tell on standard error how far the report has come",
        ))
}

/// The options that the words of a command line say, the program's name first. Where they say none, or ask for help or the
/// version, the error has the text and the status.
pub fn read_options<'a>(alloc: Global, words: &'a [String]) -> Result<Options<'a>, Error> {
    let matches = command(alloc)?.try_get_matches_from(words)?;
    let format = if matches.get_flag("lines") {
        Format::Lines
    } else {
        format_of(matches.get_str("format").unwrap_or("text"))
    };
    let mut files = Vec::new(alloc);
    files.extend_from_slice(matches.get_strs("FILE").unwrap_or(&[]))?;
    Ok(Options {
        format,
        make: make_of(matches.get_str("make").unwrap_or("table")),
        rows: matches.get_one::<u32>("rows"),
        all: matches.get_flag("all"),
        progress: matches.get_flag("progress"),
        files,
    })
}
