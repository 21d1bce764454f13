// Tests of paths that are written as text: they read as the same path.
#![tactic(auto)]

#[cfg(test)]
mod tests {
    use hir_def::fault::{Failure, TextFault};
    use hir_def::{CrateId, Name};
    use path_text::mod_path::{ModPath, PathKind};
    use path_text::name_list::NameList;
    use path_text::read::read_path;
    use path_text::write::write_path;
    use std::test::Fail;

    const BUILT_IN: &[u8] =
        b"char\nbool\nstr\nisize\ni8\ni16\ni32\ni64\ni128\nusize\nu8\nu16\nu32\nu64\nu128\nf16\nf32\nf64\nf128\n";

    // The built-in names, then a (19), b (20) and a again (21).
    fn names(rt: &HostRuntime) -> Result<Vec<u8>, Fail> {
        let mut bytes = BUILT_IN.to_vec(rt.alloc())?;
        bytes.extend_from_slice(b"a\nb\na\n")?;
        Ok(bytes)
    }

    fn read(rt: &HostRuntime, text: &[u8]) -> Result<Result<ModPath, Failure<TextFault>>, Fail> {
        let bytes = names(rt)?;
        let list = NameList::new(rt.alloc(), bytes.as_slice(), 22)
            .ok()
            .ok_or("the list does not fit")?;
        Ok(read_path(rt.alloc(), &list, text))
    }

    fn written(rt: &HostRuntime, path: &ModPath) -> Result<Option<Vec<u8>>, Fail> {
        let bytes = names(rt)?;
        let list = NameList::new(rt.alloc(), bytes.as_slice(), 22)
            .ok()
            .ok_or("the list does not fit")?;
        let text = write_path(rt.alloc(), &list, path)?;
        Ok(text)
    }

    // A text repeated, and its end.
    fn repeated(rt: &HostRuntime, text: &[u8], times: usize, end: &[u8]) -> Result<Vec<u8>, Fail> {
        let mut bytes = Vec::new(rt.alloc());
        for _ in 0..times {
            bytes.extend_from_slice(text)?;
        }
        bytes.extend_from_slice(end)?;
        Ok(bytes)
    }

    // Whether the path of the text is written as `expected`.
    fn comes_back(rt: &HostRuntime, text: &[u8], expected: &[u8]) -> Result<bool, Fail> {
        let path = read(rt, text)?.ok().ok_or("the text was not read")?;
        let back = written(rt, &path)?.ok_or("a name has no line")?;
        Ok(back.as_slice() == expected)
    }

    #[test]
    fn paths_come_back(rt: HostRuntime) -> Result<(), Fail> {
        let texts: [&[u8]; 11] = [
            b"a",
            b"a::b::u8",
            b"::a",
            b"::b::a",
            b"crate",
            b"crate::a::b",
            b"self",
            b"self::b",
            b"super",
            b"super::super::super",
            b"super::super::a::b",
        ];
        for text in texts {
            assert!(rt; comes_back(&rt, text, text)?);
        }
        let long = repeated(&rt, b"super::", 255, b"a")?;
        assert!(rt; comes_back(&rt, long.as_slice(), long.as_slice())?);
        assert!(rt; comes_back(&rt, b"self::super::a", b"super::a")?);
        Ok(())
    }

    #[test]
    fn paths_that_no_text_reads_as(rt: HostRuntime) -> Result<(), Fail> {
        let mut path = ModPath {
            kind: PathKind::DollarCrate(CrateId(3)),
            names: Vec::new(rt.alloc()),
        };
        path.names.push(Name(20))?;
        let text = written(&rt, &path)?.ok_or("a name has no line")?;
        assert!(rt; text.as_slice() == b"$crate::b".as_slice());
        path.names.push(Name(22))?;
        assert!(rt; written(&rt, &path)?.is_none(), "22 has no line");
        Ok(())
    }
}
