// What is written of files, in each form.
use model_reports::files::{File, ReportError, report_files};
use model_reports::indexed::{Lending, Make};
use reports::style::{Form, Style};
use std::alloc::Global;
use std::process::Abort;
use std::test::Fail;

// As many rows as the deliveries may need.
pub(crate) const TABLE: Lending = Lending {
    make: Make::Table,
    rows: usize::MAX,
};

pub(crate) fn styled(form: Form) -> Style {
    Style {
        form,
        all: false,
        progress: false,
    }
}

// What is written of files, or of what is wrong with them, and whether that is the report.
pub(crate) fn written(
    alloc: Global,
    texts: &[(&'static str, &[u8])],
    style: Style,
    lending: Lending,
) -> Result<(String, bool), Fail> {
    let mut files = Vec::new(alloc);
    for (path, text) in texts {
        files.push(File {
            path: *path,
            text: Vec::from_slice(alloc, *text)?,
        })?;
    }
    let mut out = Vec::new(alloc);
    let mut progress = Vec::new(alloc);
    let files = files.as_slice();
    match report_files(alloc, &mut out, &mut progress, files, style, lending) {
        Ok(()) => Ok((String::from_utf8_lossy(alloc, out.as_slice())?, true)),
        Err(ReportError::Refused(located)) => {
            if !out.is_empty() || !progress.is_empty() {
                return Err(Fail::from("something was written of files that are refused"));
            }
            Ok((format!(in alloc; "{located}")?, false))
        }
        Err(_) => Err(Fail::from("out of memory")),
    }
}

// The report on a text.
pub(crate) fn says(
    rt: &(impl Abort + Alloc<A = Global>),
    text: &[u8],
    form: Form,
    want: &str,
) -> Result<(), Fail> {
    let (out, reported) = written(rt.alloc(), &[("f.feq", text)], styled(form), TABLE)?;
    assert!(rt; reported);
    assert_eq!(rt; out.as_str(), want);
    Ok(())
}

// What is told of a text that is refused.
pub(crate) fn complains(
    rt: &(impl Abort + Alloc<A = Global>),
    text: &[u8],
    want: &str,
) -> Result<(), Fail> {
    let (out, reported) = written(rt.alloc(), &[("f.feq", text)], styled(Form::Text), TABLE)?;
    assert!(rt; !reported);
    assert_eq!(rt; out.as_str(), want);
    Ok(())
}

// Each text is refused, with what stands beside it.
pub(crate) fn complain_each(
    rt: &(impl Abort + Alloc<A = Global>),
    cases: &[(&[u8], &str)],
) -> Result<(), Fail> {
    for (text, want) in cases {
        complains(rt, *text, *want)?;
    }
    Ok(())
}
