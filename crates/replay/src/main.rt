// replay: answers the worlds that lie beside it, and holds each answer against what is stored for it: the Rust's answers, and
// what rustc says.
#![tactic(auto)]

use anyhow::{Result, anyhow};
use replays::rustc::{Defs, Said};
use replays::stored::{Stored, hold_all};
use replays::tally::Tally;
use replays::verdict::Verdict;
use replays::words::lines_of;
use std::alloc::Global;
use std::process::ExitCode;
use std::{fs, io};
use world_lines::answer_input;

// A file that lies beside the program.
#[derive(Drop)]
struct File {
    name: &'static str,
    text: String,
}

fn read(rt: &HostRuntime, name: &'static str) -> Result<File> {
    let text = fs::read_to_string(rt, name).map_err(|e| anyhow!("{name}: {e}"))?;
    Ok(File { name, text })
}

fn answers_of(alloc: Global, input: &File) -> Result<String> {
    let mut out = Vec::new(alloc);
    answer_input(alloc, input.text.as_bytes(), &mut out)?;
    String::from_utf8(out).map_err(|_| anyhow!("the answers are no text"))
}

// Adds the tally to the report, and tells where something is not as written. Answers whether all is.
fn add_tally(alloc: Global, report: &mut String, file: &str, verdicts: &[Verdict]) -> Result<bool> {
    let tally = Tally::of(alloc, verdicts)?;
    let lines = verdicts.len();
    write!(report, "{file}, {lines} lines\n{tally}")?;
    for (at, verdict) in verdicts.iter().enumerate() {
        if let Verdict::NotAsWritten = verdict {
            writeln!(report, "{file}, line {}: {verdict}", at.saturating_add(1))?;
        }
    }
    Ok(tally.wrong == 0)
}

fn hold_answers(alloc: Global, report: &mut String, file: &File, answers: &[&str]) -> Result<bool> {
    let lines = lines_of(alloc, file.text.as_str())?;
    let mut stored = Vec::new(alloc);
    for line in lines.as_slice() {
        stored.push(Stored::read(alloc, line)?)?;
    }
    let verdicts = hold_all(alloc, stored.as_slice(), answers)?;
    add_tally(alloc, report, file.name, verdicts.as_slice())
}

fn hold_said<'a>(alloc: Global, line: &'a str, answers: &[&str]) -> Result<Verdict<'a>> {
    let Some(said) = Said::read(alloc, line)? else {
        return Ok(Verdict::NotAsWritten);
    };
    let answer = (said.line as usize)
        .checked_sub(1)
        .and_then(|at| answers.get(at));
    let defs = match answer {
        Some(answer) => Defs::answered(alloc, answer)?,
        None => None,
    };
    Ok(said.hold(defs.as_ref()))
}

fn hold_rustc(alloc: Global, report: &mut String, file: &File, answers: &[&str]) -> Result<bool> {
    let mut verdicts = Vec::new(alloc);
    let lines = lines_of(alloc, file.text.as_str())?;
    for line in lines.as_slice() {
        verdicts.push(hold_said(alloc, line, answers)?)?;
    }
    add_tally(alloc, report, file.name, verdicts.as_slice())
}

// The report, and whether all is as written. What cannot be read is told before anything is reported.
fn replay(rt: &HostRuntime) -> Result<(String, bool)> {
    let alloc = rt.alloc();
    let sample = read(rt, "sample.in")?;
    let sample_answers = read(rt, "sample.answers")?;
    let real = read(rt, "regex-syntax.in")?;
    let real_answers = read(rt, "regex-syntax.answers")?;
    let real_said = read(rt, "regex-syntax.rustc")?;
    let mut report = String::new(alloc);

    let answered = answers_of(alloc, &sample)?;
    let lines = lines_of(alloc, answered.as_str())?;
    let sample_is = hold_answers(alloc, &mut report, &sample_answers, lines.as_slice())?;

    let answered = answers_of(alloc, &real)?;
    let lines = lines_of(alloc, answered.as_str())?;
    let real_is = hold_answers(alloc, &mut report, &real_answers, lines.as_slice())?;
    let said_is = hold_rustc(alloc, &mut report, &real_said, lines.as_slice())?;
    Ok((report, sample_is && real_is && said_is))
}

fn main(rt: HostRuntime) -> io::Result<ExitCode> {
    match replay(&rt) {
        Ok((report, is_as_written)) => {
            print!(rt; "{report}")?;
            Ok(if is_as_written {
                ExitCode::SUCCESS
            } else {
                ExitCode::FAILURE
            })
        }
        Err(error) => {
            eprintln!(rt; "replay: {error}")?;
            Ok(ExitCode::FAILURE)
        }
    }
}
