// Statements and paths that are read, and what is told of bad ones.
use crate::written::{TABLE, complain_each, complains, says, styled, written};
use reports::style::Form;
use std::alloc::AllocError;
use std::test::Fail;

#[test]
fn an_empty_file(rt: HostRuntime) -> Result<(), Fail> {
    says(&rt, b"", Form::Lines, "account 0 0 0 0 0 0 0 0 0\n")?;
    says(
        &rt,
        b"// nothing\n\n \t\r\n",
        Form::Lines,
        "account 0 0 0 0 0 0 0 0 0\n",
    )
}

#[test]
fn lines_for_programs(rt: HostRuntime) -> Result<(), Fail> {
    let text =
        b"crate a 2015\nmodule a::b\nblock a::c\nitem x in a::b private\nitem y in a::c private//last\nitem z in a pub(in #3)";
    let want =
        "seen x a::b 1 a::b\nseen y a::c 3 a a::b a::c\nrefused z a tree 6 0\nplace b a types module a::b name 2\naccount 3 3 4 2 1 0 1 0 0\n";
    says(&rt, text, Form::Lines, want)
}

#[test]
fn bad_statements(rt: HostRuntime) -> Result<(), Fail> {
    complain_each(
        &rt,
        &[
            (
                b"krate a 2021",
                "f.feq:1:1: no statement begins so\n    krate a 2021\n    ^\nexpected the first word of a statement, as `crate`, `module`, `fn`, `use` or `path`\n",
            ),
            (
                b"crate a 2020",
                "f.feq:1:9: this is no edition\n    crate a 2020\n            ^\nexpected an edition: 2015, 2018, 2021 or 2024\n",
            ),
            (
                b"crate a 2021\n\titem x of a pub",
                "f.feq:2:9: this word cannot stand here\n    \titem x of a pub\n    \t       ^\nexpected `in` and the module that the item stands in\n",
            ),
            (
                b"crate _ 2021",
                "f.feq:1:7: this is no name\n    crate _ 2021\n          ^\nexpected an identifier (a letter or `_`, then letters, digits or `_`, and not `_` alone) other than `crate`, `self` and `super`\n",
            ),
        ],
    )
}

#[test]
fn bad_names(rt: HostRuntime) -> Result<(), Fail> {
    complain_each(
        &rt,
        &[
            (
                b"crate a 2021\nmodule b::c\n",
                "f.feq:2:8: no module of this name is declared above\n    module b::c\n           ^\nexpected the full name of a module declared above, as in `raid::layout`\n",
            ),
            (
                b"crate a 2021\nmodule a::b\nblock a::b\n",
                "f.feq:3:7: a module of this name is declared above\n    block a::b\n          ^\nexpected a name of its own\n",
            ),
            (
                b"crate a 2021\nmodule a::9\n",
                "f.feq:2:11: this is no name\n    module a::9\n              ^\nexpected an identifier (a letter or `_`, then letters, digits or `_`, and not `_` alone) other than `crate`, `self` and `super`\n",
            ),
        ],
    )
}

#[test]
fn paths_of_each_kind(rt: HostRuntime) -> Result<(), Fail> {
    let text =
        b"crate a 2021\nmodule a::b\nitem u8 in a pub\npath b::x\npath self\npath self::super::b\npath super::super::u8\npath crate\npath ::a::b\nitem x in a pub\n";
    says(
        &rt,
        text,
        Form::Lines,
        "seen u8 a 2 a a::b\nseen x a 2 a a::b\nplace b a types module a::b name 2\npath plain 0 20 21\npath super 0\npath super 1 20\npath super 2 10\npath crate 0\npath abs 0 19 20\naccount 2 2 4 0 0 6 1 0 0\n",
    )?;
    says(
        &rt,
        b"crate a 2021\npath crate::a\npath self::super::a\npath self\n",
        Form::Text,
        "path crate::a\n    read as crate: a #19\npath super::a\n    read as super of level 1: a #19\npath self\n    read as super of level 0\n\naccount\n    items                      0\n    modules                    1\n    pairs seen                 0\n    pairs not seen             0\n    items refused              0\n    paths                      3\n    deliveries made            0\n    changed nothing            0\n    deliveries refused         0\n",
    )
}

#[test]
fn bad_paths(rt: HostRuntime) -> Result<(), Fail> {
    complain_each(
        &rt,
        &[
            (
                b"crate a 2021\n\tpath a:a  // one colon\n",
                "f.feq:2:9: the path cannot go on so\n    \tpath a:a  // one colon\n    \t       ^\nexpected names joined by `::`, after `crate`, `self`, `super` or `::`\n",
            ),
            (
                b"crate a 2021\npath a::",
                "f.feq:2:9: the path cannot go on so\n    path a::\n            ^\nexpected names joined by `::`, after `crate`, `self`, `super` or `::`\n",
            ),
            (
                b"crate a 2021\npath a::u8::b::c\n",
                "f.feq:2:13: no statement declares this name\n    path a::u8::b::c\n                ^\nexpected the name of a crate, module, block or item, or a built-in name\n",
            ),
            (
                b"crate self 2021\n",
                "f.feq:1:7: this is no name\n    crate self 2021\n          ^\nexpected an identifier (a letter or `_`, then letters, digits or `_`, and not `_` alone) other than `crate`, `self` and `super`\n",
            ),
        ],
    )
}

// A line with a path of that many names.
fn push_names(out: &mut String, names: u32) -> Result<(), AllocError> {
    out.push_str("crate a 2021\npath a")?;
    for _ in 1..names {
        out.push_str("::a")?;
    }
    Ok(())
}

#[test]
fn sixty_five_names(rt: HostRuntime) -> Result<(), Fail> {
    let mut text = String::new(rt.alloc());
    push_names(&mut text, 64)?;
    let lines = styled(Form::Lines);
    let (_, reported) = written(rt.alloc(), &[("f.feq", text.as_bytes())], lines, TABLE)?;
    assert!(rt; reported);
    text.push_str("::a")?;
    let (out, reported) = written(rt.alloc(), &[("f.feq", text.as_bytes())], lines, TABLE)?;
    assert!(rt; !reported);
    assert!(rt;
        out.as_str()
            .starts_with("f.feq:2:6: the path has more than 64 names\n")
    );
    Ok(())
}

#[test]
fn places_that_are_hard_to_show(rt: HostRuntime) -> Result<(), Fail> {
    complains(
        &rt,
        b"crate a 2021\r\nitem \xe6\x97\xa5 \xff\x1b x\r\n",
        "f.feq:2:10: this word cannot stand here\n    item \u{65e5} \\xff\\x1b x\n            ^\nexpected `in` and the module that the item stands in\n",
    )?;
    let mut text = String::from_str(rt.alloc(), "module ")?;
    for _ in 0..40 {
        text.push_str("a::b")?;
    }
    text.push_str(" wrong ")?;
    for _ in 0..40 {
        text.push_str("// a long comment ")?;
    }
    let (out, _) = written(
        rt.alloc(),
        &[("f.feq", text.as_bytes())],
        styled(Form::Text),
        TABLE,
    )?;
    assert_eq!(rt;
        out.as_str(),
        "f.feq:1:169: this is no visibility\n    ...::ba::ba::ba::ba::ba::ba::ba::ba::ba::ba::ba::ba::ba::ba::b wrong // a long comment // a long comment // a long comment // a long comment //...\n                                                                   ^\nexpected a visibility: `pub`, `pub(crate)`, `pub(in MODULE)` or `private`\n"
    );
    Ok(())
}

#[test]
fn many_seers(rt: HostRuntime) -> Result<(), Fail> {
    let mut text = String::from_str(rt.alloc(), "crate a 2021\ncrate b 2021\nmodule a::m\n")?;
    for i in 0..21 {
        write!(text, "module a::m::n{i}\n")?;
    }
    text.push_str(
        "item x in a pub(crate)\nitem y in a::m private\nitem z in a::m::n0 private\nitem w in a pub\n",
    )?;
    let (out, _) = written(
        rt.alloc(),
        &[("f.feq", text.as_bytes())],
        styled(Form::Text),
        TABLE,
    )?;
    assert!(rt;
        out.as_str().starts_with(
            "x in a, pub(crate)\n    seen from all 23 modules of crate a\ny in a::m, private\n    seen from all 22 modules inside a::m\nz in a::m::n0, private\n    seen from 1 of 24: a::m::n0\nw in a, pub\n    seen from all 24 modules\n"
        )
    );
    Ok(())
}

#[test]
fn json(rt: HostRuntime) -> Result<(), Fail> {
    let text =
        b"crate a 2021\nmodule a::b\nitem x in a::b private\nitem y in a pub(in #9)\npath self::super::b\n";
    says(
        &rt,
        text,
        Form::Json,
        "{\"file\":\"f.feq\",\"items\":2,\"kind\":\"file\",\"modules\":2,\"paths\":1}\n{\"count\":1,\"item\":\"x\",\"kind\":\"item\",\"module\":\"a::b\",\"of\":\"a::b\",\"range\":\"inside 1\",\"seers\":null,\"visibility\":\"private\"}\n{\"item\":\"y\",\"kind\":\"refused\",\"layer\":\"tree\",\"module\":\"a\",\"number\":6,\"place\":0,\"visibility\":\"pub(in #9)\",\"why\":\"a module or a crate that the item's visibility names does not exist\"}\n{\"by\":\"name\",\"def\":\"a::b\",\"def_kind\":\"module\",\"kind\":\"place\",\"line\":2,\"module\":\"a\",\"name\":\"b\",\"namespace\":\"types\",\"visibility\":\"private\"}\n{\"kind\":\"path\",\"level\":1,\"names\":[\"b\"],\"numbers\":[20],\"path\":\"super::b\",\"start\":\"super\"}\n{\"changed\":1,\"hidden\":1,\"items\":2,\"kind\":\"account\",\"modules\":2,\"paths\":1,\"refused\":1,\"refused_deliveries\":0,\"seen\":1,\"unchanged\":0}\n",
    )
}

#[test]
fn several_files(rt: HostRuntime) -> Result<(), Fail> {
    let lines = styled(Form::Lines);
    let good: &[u8] = b"crate a 2021\nitem x in a pub\n";
    let (out, _) = written(rt.alloc(), &[("f.feq", good), ("g.feq", b"")], lines, TABLE)?;
    assert_eq!(rt;
        out.as_str(),
        "file f.feq\nseen x a 1 a\naccount 1 1 1 0 0 0 0 0 0\nfile g.feq\naccount 0 0 0 0 0 0 0 0 0\n"
    );
    let (out, reported) = written(
        rt.alloc(),
        &[("f.feq", good), ("g.feq", b"crate")],
        lines,
        TABLE,
    )?;
    assert!(rt; !reported);
    assert!(rt;
        out.as_str()
            .starts_with("g.feq:1:6: the statement ends here\n")
    );
    // The first file that is not taken is told, whatever is wrong with it.
    let (out, reported) = written(
        rt.alloc(),
        &[("f.feq", b"crate a 2021\npath a::b\n"), ("g.feq", b"crate")],
        lines,
        TABLE,
    )?;
    assert!(rt; !reported);
    assert!(rt;
        out.as_str()
            .starts_with("f.feq:2:9: no statement declares this name\n")
    );
    Ok(())
}
