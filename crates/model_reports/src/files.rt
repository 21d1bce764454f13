// Reports on several files: all of them are taken before anything is written.
ghost use Rattle.std.specs.Prelude.{◌≡◌, IfErr, IfOk, alloc_error, vec_items};
ghost use Rattle.std.specs.List.{All};
ghost use Rattle.model_reports.specs.declared.files.ReportError.TheVariants.{Memory, Write};
ghost use Rattle.model_reports.specs.Files.{AreNotTaken, AreTaken, BeforeWriting, FirstRefused, IfNotTaken, IsRead, IsTaken, OnceWriting, TellsOf, files_of};

use crate::indexed::{Lending, write_indexed};
use file_reader::reader::read_firmware;
use firmware::file::Firmware;
use firmware::survey::Survey;
use hir_def::fault::Failure;
use reports::report::write_heading;
use reports::style::{Form, Style};
use std::alloc::{AllocError, AllocFailed, Global};
use std::io;
use troubles::trouble::{Located, Trouble};

/// A file as it was read.
#[derive(Debug, Drop)]
pub struct File<'a> {
    pub path: &'a str,
    pub text: Vec<u8>,
}

// A file, and what its statements tell.
#[derive(Drop)]
struct ReadFile<'a> {
    file: &'a File<'a>,
    firmware: Firmware<'a>,
}

/// Why there is no report, or no whole one.
#[derive(Drop)]
pub enum ReportError<'a> {
    /// A file is not taken; nothing was written.
    Refused(Located<'a>),
    /// Nothing was written.
    Memory(AllocError),
    /// The report could not be written.
    Write(io::Error),
}

impl<'a> From<AllocError> for ReportError<'a> {
    ghost from_gives = { λ e r. r ≡ Memory e };

    fn from(e: AllocError) -> ReportError<'a> {
        ReportError::Memory(e)
    }
}

impl<'a, T: Drop> From<AllocFailed<T>> for ReportError<'a> {
    ghost from_gives = { λ _ r. r ≡ Memory alloc_error };

    fn from(e: AllocFailed<T>) -> ReportError<'a> {
        ReportError::Memory(AllocError::from(e))
    }
}

impl<'a> From<io::Error> for ReportError<'a> {
    ghost from_gives = { λ e r. r ≡ Write e };

    fn from(e: io::Error) -> ReportError<'a> {
        ReportError::Write(e)
    }
}

fn error_of<'a>(file: &'a File<'a>, failure: Failure<Trouble>) -> ReportError<'a>
    ensures { TellsOf file.entry.now failure result }
{
    match failure {
        Failure::Refused(trouble) => ReportError::Refused(Located {
            path: file.path,
            text: file.text.as_slice(),
            trouble,
        }),
        Failure::Memory(e) => ReportError::Memory(e),
    }
}

// Of each file what it declares and whether that is taken.
fn survey_all<'f, 'a>(
    alloc: Global,
    read: &'f [ReadFile<'a>],
) -> Result<Vec<Survey<'f, 'a>>, ReportError<'a>>
    requires { All IsRead read.now }
    ensures taken { IfOk result (λ v. AreTaken read.entry.now (vec_items v)) }
    ensures refused { IfErr result (AreNotTaken (files_of read.entry.now)) }
{
    let mut surveys = Vec::new(alloc);
    for one in read {
        match Survey::of(alloc, &one.firmware) {
            Ok(survey) => surveys.push(survey)?,
            Err(failure) => return Err(error_of(one.file, failure)),
        }
    }
    Ok(surveys)
}

// Where a file is not read, those before it are surveyed first: of all files the first that is not taken is told.
fn read_all<'a>(alloc: Global, files: &'a [File<'a>]) -> Result<Vec<ReadFile<'a>>, ReportError<'a>>
    ensures each { IfOk result (λ v. files_of (vec_items v) ≡ files.entry.now) }
    ensures read { IfOk result (λ v. All IsRead (vec_items v)) }
    ensures refused { IfErr result (AreNotTaken files.entry.now) }
{
    let mut read = Vec::new(alloc);
    for file in files {
        match read_firmware(alloc, file.text.as_slice()) {
            Ok(firmware) => read.push(ReadFile { file, firmware })?,
            Err(failure) => {
                survey_all(alloc, read.as_slice())?;
                return Err(error_of(file, failure));
            }
        }
    }
    Ok(read)
}

// Each file is reported by itself, under a heading where there are several.
fn write_all<W: io::Write, E: io::Write>(
    alloc: Global,
    w: &mut W,
    progress: &mut E,
    files: &[File],
    surveys: &[Survey],
    style: Style,
    lending: Lending,
) -> io::Result<()> {
    let headed = files.len() > 1 || style.form == Form::Json;
    for (i, (survey, file)) in surveys.iter().zip(files).enumerate() {
        if i > 0 && style.form == Form::Text {
            writeln!(w)?;
        }
        if headed {
            write_heading(alloc, w, file.path, survey, style.form)?;
        }
        write_indexed(alloc, w, progress, file.path, survey, style, lending)?;
    }
    w.flush()
}

/// Reads all files and writes the report on each, or says why not. The deliveries of each are made to an index of its own. How far
/// it has come goes to `progress`, if the style asks for it.
pub fn report_files<'a, W: io::Write, E: io::Write>(
    alloc: Global,
    w: &mut W,
    progress: &mut E,
    files: &'a [File<'a>],
    style: Style,
    lending: Lending,
) -> Result<(), ReportError<'a>>
    ensures taken { OnceWriting result (All IsTaken files.entry.now) }
    ensures refused { IfErr result (IfNotTaken (FirstRefused files.entry.now)) }
    ensures untouched { IfErr result (BeforeWriting ((w.new ≡ w.old) × (progress.new ≡ progress.old))) }
{
    let read = read_all(alloc, files)?;
    let surveys = survey_all(alloc, read.as_slice())?;
    write_all(
        alloc,
        w,
        progress,
        files,
        surveys.as_slice(),
        style,
        lending,
    )?;
    Ok(())
}
