// Definitions and imports: what holds each place, and what is refused.
use crate::written::{TABLE, complain_each, says, styled, written};
use model_reports::indexed::{Lending, Make};
use reports::style::Form;
use std::test::Fail;

// In both modules a glob brings one `s` and a named import another.
const BOTH: &[u8] =
    b"crate a 2021\nmodule a::b pub\nmodule a::c\nfn s in a pub\nfn s in a::b pub\nblock a::d\nuse-glob a::b::s in a::c private\nuse a::s in a::c private\nuse a::s as s in a::d private\nuse-glob a::b::s in a::d pub(crate)\n";

const HELD: &str =
    "seen s a 4 a a::b a::c a::d\nseen s a::b 4 a a::b a::c a::d\nplace b a types module a::b name 2\nplace c a types module a::c name 3\nplace s a values fn a::s name 4\nplace s a::b values fn a::b::s name 5\nplace s a::c values fn a::s name 8\nplace s a::d values fn a::s name 9\naccount 2 4 8 0 0 0 7 1 0\n";

#[test]
fn a_name_holds_against_a_glob(rt: HostRuntime) -> Result<(), Fail> {
    let lines = styled(Form::Lines);
    let (table, _) = written(rt.alloc(), &[("f.feq", BOTH)], lines, TABLE)?;
    assert_eq!(rt; table.as_str(), HELD);
    let ledger = Lending {
        make: Make::Ledger,
        rows: usize::MAX,
    };
    let (ledger, _) = written(rt.alloc(), &[("f.feq", BOTH)], lines, ledger)?;
    assert_eq!(rt; ledger.as_str(), HELD);
    Ok(())
}

// A struct with a constructor fills two places, and only two rows are lent.
#[test]
fn too_few_rows(rt: HostRuntime) -> Result<(), Fail> {
    let text =
        b"crate a 2021\nfn f in a pub\nstruct s in a pub tuple\nstruct r in a private record\n";
    let lending = Lending {
        make: Make::Table,
        rows: 2,
    };
    let (out, _) = written(rt.alloc(), &[("f.feq", text)], styled(Form::Lines), lending)?;
    assert_eq!(rt;
        out.as_str(),
        "seen f a 1 a\nseen s a 1 a\nseen r a 1 a\nplace f a values fn a::f name 2\nplace r a types struct a::r name 4\nrefused-delivery s a 3 index 7 1\naccount 3 1 3 0 0 0 2 0 1\n"
    );
    Ok(())
}

#[test]
fn each_kind(rt: HostRuntime) -> Result<(), Fail> {
    let text =
        b"crate a 2021\ncrate h 2018\nenum e in a pub\nvariant a::e::v tuple\nmacro m in h pub bang derive\nlegacy-macro l in a\nlegacy-macro m in a is h::m\nuse a::e::v in a pub\nextern-crate h as g in a private\nextern-prelude h in a is h\nmacro-use m in a is h::m\nprelude h in a\nuse a::l in h private\n";
    says(
        &rt,
        text,
        Form::Lines,
        "seen e a 2 a h\nseen m h 2 a h\nplace e a types enum a::e name 3\nplace v a types variant a::e::v name 8\nplace v a values variant a::e::v name 8\nplace g a types module h name 9\nplace m h macros macro h::m name 5\nplace l h macros macro a::l name 13\naccount 2 2 4 0 0 0 5 0 0\n",
    )
}

#[test]
fn bad_items(rt: HostRuntime) -> Result<(), Fail> {
    complain_each(
        &rt,
        &[
            (
                b"crate a 2021\nstruct s in a pub\n",
                "f.feq:2:18: the statement ends here\n    struct s in a pub\n                     ^\nexpected a shape: `unit`, `tuple` or `record`\n",
            ),
            (
                b"crate a 2021\nmacro m in a pub bang once\n",
                "f.feq:2:23: this is no way to call a macro\n    macro m in a pub bang once\n                          ^\nexpected how the macro is called: `bang`, `attribute` or `derive`, one at least\n",
            ),
            (
                b"crate a 2021\nvariant a::e::v unit\n",
                "f.feq:2:9: nothing that has a kind is declared above with this full name\n    variant a::e::v unit\n            ^\nexpected the full name of a module, an item of a kind or a variant declared above; an `item` has no kind\n",
            ),
            (
                b"crate a 2021\nlegacy-macro m in a\nlegacy-macro m in a\n",
                "f.feq:3:14: a statement above tells this already\n    legacy-macro m in a\n                 ^\nexpected one statement for each name in a table\n",
            ),
        ],
    )
}

#[test]
fn bad_imports(rt: HostRuntime) -> Result<(), Fail> {
    complain_each(
        &rt,
        &[
            (
                b"crate a 2021\nitem x in a pub\nuse a::x in a pub\n",
                "f.feq:3:5: nothing that has a kind is declared above with this full name\n    use a::x in a pub\n        ^\nexpected the full name of a module, an item of a kind or a variant declared above; an `item` has no kind\n",
            ),
            (
                b"crate a 2021\nfn x in a pub\nuse-glob a::x as y in a pub\n",
                "f.feq:3:15: this word cannot stand here\n    use-glob a::x as y in a pub\n                  ^\nexpected `in` and the module that the item stands in\n",
            ),
            (
                b"crate a 2021\nmodule a::b\nextern-crate a::b in a pub\n",
                "f.feq:3:14: this is no crate\n    extern-crate a::b in a pub\n                 ^\nexpected the name of a crate declared above\n",
            ),
            (
                b"crate a 2021\nmodule a::b\nprelude a::b in a::b\n",
                "f.feq:3:17: this is no crate and no block\n    prelude a::b in a::b\n                    ^\nexpected the full name of a crate or a block declared above\n",
            ),
        ],
    )
}
