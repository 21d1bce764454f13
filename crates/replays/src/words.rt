// A text cut into its lines, and a line cut at a character.
ghost use Rattle.std.specs.Prelude.{◌≡◌, ◌<◌, ◌==◌, IfOk, map};
ghost use Rattle.std.specs.List.{slice_split};
ghost use Rattle.std.specs.Str.Lines.{lines};

use std::alloc::{AllocError, Global};

/// The lines of a text. Fails where memory is wanting.
pub fn lines_of(alloc: Global, text: &str) -> Result<Vec<&str>, AllocError>
    ensures { IfOk result (λ v. map (λ x. x.now) v.items ≡ lines text.now) }
{
    text.lines().collect(alloc)
}

/// The parts of a line between such characters, which are ASCII.
pub(crate) fn parts(alloc: Global, line: &str, by: char) -> Result<Vec<&str>, AllocError>
    requires { by < 128 }
    ensures { IfOk result (λ v. map (λ x. x.now) v.items ≡ slice_split (λ b. b == by) line.now) }
{
    line.split(by).collect(alloc)
}
