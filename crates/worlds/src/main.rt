// worlds: reads worlds and commands from standard input, and prints an answer for each command.
#![tactic(auto)]

use std::io::{BufReader, BufWriter};
use std::process::ExitCode;
use std::{env, io};
use world_lines::answer_input;

const USAGE: &str = "usage: worlds < INPUT, where INPUT has the lines that docs/FORMAT.md tells";

fn answer(rt: &HostRuntime) -> io::Result<()> {
    let input = BufReader::new(rt.alloc(), rt.stdin())?;
    let mut out = BufWriter::new(rt.alloc(), io::writer(rt))?;
    answer_input(rt.alloc(), input, &mut out)
}

fn main(rt: HostRuntime) -> io::Result<ExitCode> {
    if env::args(&rt)?.nth(1).is_some() {
        rt.eprintln(USAGE)?;
        return Ok(ExitCode::from(2));
    }
    match answer(&rt) {
        Ok(()) => Ok(ExitCode::SUCCESS),
        // A reader that goes away ends the program quietly.
        Err(e) if e.kind() == io::ErrorKind::BrokenPipe => Ok(ExitCode::SUCCESS),
        Err(e) => {
            eprintln!(rt; "worlds: {e}")?;
            Ok(ExitCode::FAILURE)
        }
    }
}
