// Tests of feqhazo's command line: what the options come to, and what is told where there are none.
#![tactic(auto)]

#[cfg(test)]
mod tests {
    use command_line::{VERSION, read_options};
    use std::alloc::Global;
    use std::process::Abort;
    use std::test::Fail;

    // The options that the words say; or the text that they ask for, or what is wrong with them, with the status before it.
    fn told(alloc: Global, words: &[&'static str]) -> Result<String, Fail> {
        let mut line = Vec::new(alloc);
        line.push(String::from_str(alloc, "feqhazo")?)?;
        for word in words {
            line.push(String::from_str(alloc, word)?)?;
        }
        match read_options(alloc, line.as_slice()) {
            Ok(options) => Ok(format!(in alloc; "{options:?}")?),
            Err(error) => {
                let status = error.exit_code();
                Ok(format!(in alloc; "{status} {error}")?)
            }
        }
    }

    fn says(
        rt: &(impl Abort + Alloc<A = Global>),
        words: &[&'static str],
        want: &str,
    ) -> Result<(), Fail> {
        let text = told(rt.alloc(), words)?;
        assert!(rt; text.contains(want));
        Ok(())
    }

    #[test]
    fn options(rt: HostRuntime) -> Result<(), Fail> {
        says(&rt, &["a.feq"], "format: Text, all: false, ")?;
        says(&rt, &["--lines", "a.feq", "-"], "format: Lines")?;
        says(&rt, &["--lines", "a.feq", "-"], "files: [\"a.feq\", \"-\"]")?;
        says(
            &rt,
            &["a.feq"],
            "make: Table, rows: None, progress: false, ",
        )?;
        says(
            &rt,
            &["--make", "ledger", "--rows", "5", "--progress", "a.feq"],
            "make: Ledger, rows: Some(5), progress: true, ",
        )?;
        says(
            &rt,
            &["--format", "json", "--all", "a.feq"],
            "format: Json, all: true, ",
        )
    }

    #[test]
    fn no_options(rt: HostRuntime) -> Result<(), Fail> {
        says(&rt, &["--help"], "0 Reads firmware trees")?;
        says(&rt, &["--help"], "--format <FORMAT>")?;
        says(&rt, &["--version"], VERSION)?;
        says(&rt, &[], "2 error: ")?;
        says(
            &rt,
            &["--format", "xml", "a.feq"],
            "2 error: invalid value 'xml'",
        )?;
        says(
            &rt,
            &["--make", "heap", "a.feq"],
            "2 error: invalid value 'heap'",
        )?;
        says(
            &rt,
            &["--rows", "many", "a.feq"],
            "2 error: invalid value 'many'",
        )?;
        says(&rt, &["--lines", "--format", "text", "a.feq"], "2 error: ")
    }
}
