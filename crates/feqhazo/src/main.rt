// feqhazo: reads firmware trees and prints which modules may see each of their items, what holds their places after all deliveries,
// what their paths are read as, and what each card model over them keeps and cuts.
#![tactic(auto)]

use anyhow::anyhow;
use command_line::{Format, Options, read_options};
use model_reports::files::{File, ReportError, report_files};
use model_reports::indexed::{Lending, Make};
use reports::style::{Form, Style};
use std::io::{BufWriter, Read};
use std::process::ExitCode;
use std::{env, fs, io};

fn style_of(options: &Options) -> Style {
    let form = match options.format {
        Format::Text => Form::Text,
        Format::Lines => Form::Lines,
        Format::Json => Form::Json,
    };
    Style {
        form,
        all: options.all,
        progress: options.progress,
    }
}

fn lending_of(options: &Options) -> Lending {
    Lending {
        make: match options.make {
            command_line::Make::Table => Make::Table,
            command_line::Make::Ledger => Make::Ledger,
        },
        rows: options.rows.map_or(usize::MAX, |rows| rows as usize),
    }
}

fn read_input(rt: &HostRuntime) -> io::Result<Vec<u8>> {
    let mut text = Vec::new(rt.alloc());
    rt.stdin().read_to_end(&mut text)?;
    Ok(text)
}

fn read_file<'a>(rt: &HostRuntime, path: &'a str) -> anyhow::Result<File<'a>> {
    let text = if path == "-" {
        read_input(rt)
    } else {
        fs::read(rt, path)
    };
    match text {
        Ok(text) => Ok(File { path, text }),
        Err(e) => Err(anyhow!("{path}: {e}")),
    }
}

fn read_files<'a>(rt: &HostRuntime, paths: &[&'a str]) -> anyhow::Result<Vec<File<'a>>> {
    let mut files = Vec::new(rt.alloc());
    for path in paths {
        files.push(read_file(rt, *path)?)?;
    }
    Ok(files)
}

// A reader that goes away ends the program quietly.
fn tell(rt: &HostRuntime, error: ReportError) -> io::Result<ExitCode> {
    match error {
        ReportError::Refused(located) => rt.eprint(located)?,
        ReportError::Memory(_) => rt.eprintln("feqhazo: out of memory")?,
        ReportError::Write(e) if e.kind() == io::ErrorKind::BrokenPipe => {
            return Ok(ExitCode::SUCCESS);
        }
        ReportError::Write(e) => eprintln!(rt; "feqhazo: {e}")?,
    }
    Ok(ExitCode::FAILURE)
}

fn report(rt: &HostRuntime, options: &Options) -> anyhow::Result<ExitCode> {
    let files = read_files(rt, options.files.as_slice())?;
    let mut out = BufWriter::new(rt.alloc(), io::writer(rt))?;
    let mut progress = rt.stderr();
    match report_files(
        rt.alloc(),
        &mut out,
        &mut progress,
        files.as_slice(),
        style_of(options),
        lending_of(options),
    ) {
        Ok(()) => Ok(ExitCode::SUCCESS),
        Err(error) => Ok(tell(rt, error)?),
    }
}

fn main(rt: HostRuntime) -> io::Result<ExitCode> {
    let words: Vec<String> = env::args(&rt)?.collect(rt.alloc())?;
    let options = match read_options(rt.alloc(), words.as_slice()) {
        Ok(options) => options,
        Err(error) => {
            error.print(&rt)?;
            let status = if error.use_stderr() { 2 } else { 0 };
            return Ok(ExitCode::from(status));
        }
    };
    match report(&rt, &options) {
        Ok(status) => Ok(status),
        Err(error) => {
            eprintln!(rt; "feqhazo: {error}")?;
            Ok(ExitCode::FAILURE)
        }
    }
}
