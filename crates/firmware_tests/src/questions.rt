// Tests of paths that are asked: what is answered, and statements that ask nothing.
use crate::written::{complain_each, says};
use reports::style::Form;
use std::test::Fail;

#[test]
fn answers(rt: HostRuntime) -> Result<(), Fail> {
    says(
        &rt,
        b"crate a 2021\nmodule a::b\nfn s in a::b private\nenum e in a pub\nvariant a::e::v unit\npath crate::b::s from a::b\npath crate::b::s from a\npath crate::e::s from a mode=import shadow=module macro=bang\n",
        Form::Lines,
        "seen s a::b 1 a::b\nseen e a 2 a a::b\nplace b a types module a::b name 2\nplace e a types enum a::e name 4\nplace s a::b values fn a::b::s name 3\npath crate 0 20 21\nanswer a::b other other - yes - - - - - fn a::b::s - -\npath crate 0 20 21\nanswer a other other - yes - - - - - - - - -\npath crate 0 22 21\nanswer a import module bang yes 1 s - enum a::e - - - -\naccount 2 2 3 1 0 3 3 0 0\n",
    )
}

#[test]
fn bad_questions(rt: HostRuntime) -> Result<(), Fail> {
    complain_each(
        &rt,
        &[
            (
                b"crate a 2021\npath a from a mode=no\n",
                "f.feq:2:15: this is no option of a question\n    path a from a mode=no\n                  ^\nexpected `mode=import`, `mode=other`, `shadow=module`, `shadow=other`, `macro=bang` or `macro=attribute`\n",
            ),
            (
                b"crate a 2021\npath a at a\n",
                "f.feq:2:8: this word cannot stand here\n    path a at a\n           ^\nexpected `from` and the module where the path stands, or the end of the line\n",
            ),
        ],
    )
}
