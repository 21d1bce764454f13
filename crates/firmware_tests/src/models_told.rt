// Card models: what is written of them in each form, and where a model's places run out.
use crate::written::{TABLE, says, styled, written};
use model_reports::files::{File, report_files};
use reports::style::{Form, Style};
use std::test::Fail;

// In `x` a glob and a named import bring an `s` each to one place; `y` stands over it, and one of its deliveries is refused.
const TWO: &[u8] =
    b"crate a 2021\nmodule a::b pub\nmodule a::c\nfn s in a pub\nfn s in a::b pub\nenum e in a pub\nvariant a::e::v unit\npath crate::e::v from a::c\nmodel x\nuse-glob a::b::s in a::c private\nuse a::s in a::c private\npath s from a::c\nmodel y over x\nfn t in a::c pub\nfn u in a::c pub(in #9)\npath t from a::c\n";

const LINES: &str =
    "seen s a 3 a a::b a::c\nseen s a::b 3 a a::b a::c\nseen e a 3 a a::b a::c\nseen t a::c 3 a a::b a::c\nrefused u a::c tree 6 0\nplace b a types module a::b name 2\nplace c a types module a::c name 3\nplace s a values fn a::s name 4\nplace e a types enum a::e name 6\nplace s a::b values fn a::b::s name 5\npath crate 0 23 24\nanswer a::c other other - yes - - e variant a::e::v variant a::e::v - -\naccount 5 3 12 0 1 1 5 0 0\nmodel x - 1\norders x names-first agree s a::c 10\npath crate 0 23 24\nanswer a::c other other - yes - - e variant a::e::v variant a::e::v - -\npath plain 0 22\nanswer a::c other other - yes - - - - - fn a::s - -\nkept fn a::s 4 12 values s a::c name 11\nkept enum a::e 6 8 types - - name 7\ncut fn a::b::s 5\nmodel-account x 2 0 2 1 2 0 0 1\nmodel y x 2\norders y - agree - - -\npath crate 0 23 24\nanswer a::c other other - yes - - e variant a::e::v variant a::e::v - -\npath plain 0 22\nanswer a::c other other - yes - - - - - fn a::s - -\npath plain 0 25\nanswer a::c other other - yes - - - - - fn a::c::t - -\nrefused-delivery u a::c 15 index 6 1\nkept fn a::s 4 12 values s a::c name 11\nkept enum a::e 6 8 types - - name 7\nkept fn a::c::t 14 16 values t a::c name 14\ncut fn a::b::s 5\ncut fn a::c::u 15\nmodel-account y 3 0 3 2 1 0 1 1\n";

// The report on `y`, which is the last.
const TEXT: &str =
    "\nmodel y\n    over model x\n    no other order to compare\npath crate::e::v\n    asked from a::c\n    types: variant a::e::v, pub, by name in line 7\n    values: variant a::e::v, pub, by name in line 7\n    status yes, a variant of its enum\npath s\n    asked from a::c\n    values: fn a::s, private, by name in line 11\n    status yes\npath t\n    asked from a::c\n    values: fn a::c::t, pub, by name in line 14\n    status yes\ndelivery of u to a::c in line 15\n    refused by layer index, number 6, place 1: a module, crate, enum or macro in an entry does not exist; the place is the entry's namespace: 0 types, 1 values, 2 macros\nkept fn a::s\n    reached by path s in line 12, in values through s in a::c, by name in line 11\nkept enum a::e\n    reached by path crate::e::v in line 8, in types as its variant v, by name in line 7\nkept fn a::c::t\n    reached by path t in line 16, in values through t in a::c, by name in line 14\ncut fn a::b::s in line 5\ncut fn a::c::u in line 15\n\naccount of model y\n    paths asked                3\n    paths refused              0\n    items kept                 3\n    items cut                  2\n    deliveries made            1\n    changed nothing            0\n    deliveries refused         1\n    own places                 1 of 64\n";

// The report on `x`.
const JSON: &str =
    "{\"depth\":1,\"kind\":\"model\",\"model\":\"x\",\"over\":null}\n{\"agree\":true,\"differed\":{\"line\":10,\"module\":\"a::c\",\"name\":\"s\"},\"kind\":\"orders\",\"model\":\"x\",\"order\":\"names-first\",\"parted\":null}\n{\"answer\":{\"entries\":{\"macros\":null,\"types\":{\"by\":\"name\",\"def\":\"a::e::v\",\"def_kind\":\"variant\",\"line\":7,\"visibility\":\"pub\"},\"values\":{\"by\":\"name\",\"def\":\"a::e::v\",\"def_kind\":\"variant\",\"line\":7,\"visibility\":\"pub\"}},\"flags\":{\"differing_crate\":false,\"enum_variant\":true},\"index\":null,\"kind\":\"answer\",\"name\":null,\"question\":{\"from\":\"a::c\",\"macro\":\"-\",\"mode\":\"other\",\"shadow\":\"other\"},\"status\":\"yes\"},\"kind\":\"model-path\",\"line\":8,\"model\":\"x\",\"path\":\"crate::e::v\",\"refused\":null}\n{\"answer\":{\"entries\":{\"macros\":null,\"types\":null,\"values\":{\"by\":\"name\",\"def\":\"a::s\",\"def_kind\":\"fn\",\"line\":11,\"visibility\":\"private\"}},\"flags\":{\"differing_crate\":false,\"enum_variant\":false},\"index\":null,\"kind\":\"answer\",\"name\":null,\"question\":{\"from\":\"a::c\",\"macro\":\"-\",\"mode\":\"other\",\"shadow\":\"other\"},\"status\":\"yes\"},\"kind\":\"model-path\",\"line\":12,\"model\":\"x\",\"path\":\"s\",\"refused\":null}\n{\"by\":\"name\",\"by_line\":11,\"item\":{\"def\":\"a::s\",\"def_kind\":\"fn\",\"line\":4},\"kind\":\"kept\",\"model\":\"x\",\"path\":{\"line\":12,\"path\":\"s\"},\"through\":{\"module\":\"a::c\",\"name\":\"s\",\"namespace\":\"values\",\"variant\":null}}\n{\"by\":\"name\",\"by_line\":7,\"item\":{\"def\":\"a::e\",\"def_kind\":\"enum\",\"line\":6},\"kind\":\"kept\",\"model\":\"x\",\"path\":{\"line\":8,\"path\":\"crate::e::v\"},\"through\":{\"module\":null,\"name\":null,\"namespace\":\"types\",\"variant\":\"v\"}}\n{\"def\":\"a::b::s\",\"def_kind\":\"fn\",\"kind\":\"cut\",\"line\":5,\"model\":\"x\"}\n{\"deliveries\":{\"changed\":2,\"refused\":0,\"unchanged\":0},\"items\":{\"cut\":1,\"kept\":2},\"kind\":\"model-account\",\"model\":\"x\",\"paths\":{\"asked\":2,\"refused\":0},\"places\":1}\n";

#[test]
fn models_in_lines(rt: HostRuntime) -> Result<(), Fail> {
    says(&rt, TWO, Form::Lines, LINES)
}

#[test]
fn models_for_people_and_as_json(rt: HostRuntime) -> Result<(), Fail> {
    let files = [("f.feq", TWO)];
    let (text, _) = written(rt.alloc(), &files, styled(Form::Text), TABLE)?;
    assert!(rt; text.as_str().ends_with(TEXT));
    let (json, _) = written(rt.alloc(), &files, styled(Form::Json), TABLE)?;
    assert!(rt; json.as_str().contains(JSON));
    Ok(())
}

// With the glob first no place is left for the last `fn`, and with the names first none for the glob.
#[test]
fn places_run_out(rt: HostRuntime) -> Result<(), Fail> {
    let alloc = rt.alloc();
    let mut text = Vec::from_slice(
        alloc,
        b"crate a 2021\nmodule a::b pub\nfn g in a pub\nmodel x\nuse-glob a::g in a::b private\n",
    )?;
    for i in 0..64u32 {
        let line = format!(in alloc; "fn f{i} in a::b pub\n")?;
        text.extend_from_slice(line.as_bytes())?;
    }
    let files = [("f.feq", text.as_slice())];
    let (out, _) = written(alloc, &files, styled(Form::Lines), TABLE)?;
    assert!(rt;
        out.as_str()
            .contains("\norders x names-first parted f63 a::b 69\n")
    );
    assert!(rt;
        out.as_str()
            .contains("\nmodel-account x 0 0 0 65 64 0 1 64\n")
    );
    Ok(())
}

// `x` and `y` each give the name `s` a meaning: in `z` over both, that of the lowest holds.
#[test]
fn piles_of_three(rt: HostRuntime) -> Result<(), Fail> {
    let text =
        b"crate a 2021\nmodule a::c\nfn p in a pub\nfn q in a pub\nmodel x\nuse a::p as s in a::c private\nmodel y over x\nuse a::q as s in a::c private\nmodel z over y\npath s from a::c\n";
    let files = [("f.feq", text.as_slice())];
    let (out, _) = written(rt.alloc(), &files, styled(Form::Lines), TABLE)?;
    assert!(rt; out.as_str().contains("\nmodel z y 3\n"));
    assert!(rt;
        out.as_str()
            .contains("\nanswer a::c other other - yes - - - - - fn a::p - -\n")
    );
    Ok(())
}

// How far the report on both has come.
const PROGRESS: &[u8] =
    b"f.feq: 0 of 5 items\nf.feq: model x, 1 of 2\nf.feq: model x, 0 of 2 paths\nf.feq: model y, 2 of 2\nf.feq: model y, 0 of 3 paths\n";

#[test]
fn progress_is_told(rt: HostRuntime) -> Result<(), Fail> {
    let alloc = rt.alloc();
    let files = [File {
        path: "f.feq",
        text: Vec::from_slice(alloc, TWO)?,
    }];
    let style = Style {
        progress: true,
        ..styled(Form::Lines)
    };
    let mut out = Vec::new(alloc);
    let mut told = Vec::new(alloc);
    let done = report_files(alloc, &mut out, &mut told, &files, style, TABLE);
    assert!(rt; done.is_ok());
    assert_eq!(rt; out.as_slice(), LINES.as_bytes());
    assert_eq!(rt; told.as_slice(), PROGRESS);
    Ok(())
}
