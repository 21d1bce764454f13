// The paths that a model asks, and what an index answers to them.
ghost use Rattle.std.specs.Prelude.{◌≡◌};
ghost use Rattle.cuts.specs.Asked.{answered_by};

use hir_def::fault::PathFault;
use item_scope::index::Index;
use path_resolution::answer::ResolvePathResult;
use path_resolution::path_resolution::resolve_path_fp_with_macro;
use path_resolution::question::Question;
use path_text::mod_path::ModPath;

/// A path of a file, and who asks it.
#[derive(Clone, Copy, Debug)]
pub struct Ask<'a> {
    /// The path's number among those of the file.
    pub number: usize,
    pub question: Question,
    pub path: &'a ModPath,
}

/// What an index answers to a path, or why the path is not asked.
#[derive(Clone, Copy, Debug)]
pub struct Answered<'a> {
    pub ask: Ask<'a>,
    pub result: Result<ResolvePathResult, PathFault>,
}

/// What the index answers to the path.
pub fn answer<'a, I: Index>(index: &I, ask: &Ask<'a>) -> Answered<'a>
    ensures { result ≡ answered_by (I.view index.now) ask.now }
{
    let ask = *ask;
    Answered {
        ask,
        result: resolve_path_fp_with_macro(index, ask.question, ask.path),
    }
}
