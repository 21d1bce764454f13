// What a path stands for: asked in a module, then outward from block roots, and last in the crate's preludes.
ghost use Rattle.std.specs.Prelude.{◌≡◌, IfOk};
ghost use Rattle.path_resolution.specs.Alike.{CratePathsAlike};
ghost use Rattle.path_resolution.specs.Answers.{merged};
ghost use Rattle.path_resolution.specs.Elsewhere.{AskedElsewhere};
ghost use Rattle.path_resolution.specs.Existing.{AnswerExists};
ghost use Rattle.path_resolution.specs.Judges.{SeeTheSame};
ghost use Rattle.path_resolution.specs.Order.{InnerFirst, OwnNamesFirst, SourceOrder};
ghost use Rattle.path_resolution.specs.Outward.{joined_to, with_preludes, outward};
ghost use Rattle.path_resolution.specs.Questions.{level_of, known_crate, first_unknown, refusal_of, answered, pair_answered};
ghost use Rattle.path_resolution.specs.Shown.{ShowsVisible};
ghost use Rattle.path_resolution.specs.Singles.{single_of, preludes_of};

use crate::answer::ResolvePathResult;
use crate::question::{Question, ResolveMode};
use crate::single::{Asked, resolve_path_fp_in_all_preludes, resolve_path_fp_with_macro_single};
use entries::per_ns::PerNs;
use hir_def::fault::PathFault;
use hir_def::{ModuleId, Name};
use item_scope::index::Index;
use nameres::block_exit;
use path_text::mod_path::{MOST_NAMES, MOST_SUPERS, ModPath, PathKind};

impl Asked {
    // Asks one more module.
    fn ask<I: Index>(
        &mut self,
        index: &I,
        question: Question,
        kind: PathKind,
        names: &[Name],
        m: ModuleId,
    )
        ensures { self.new ≡ joined_to self.old (single_of (I.view index.now) question kind names.now m) }
    {
        let newer = resolve_path_fp_with_macro_single(index, question, kind, names, m);
        self.answer.join(&newer.answer);
        self.is_final = newer.is_final;
    }

    // Asks the crate's preludes where the last module asked is in a block, unless the answer is final.
    fn ask_preludes<I: Index>(
        &mut self,
        index: &I,
        question: Question,
        kind: PathKind,
        names: &[Name],
        last: ModuleId,
    )
        ensures answer { let v = I.view index.now in
            self.new.answer ≡ with_preludes v question kind names.now (v.fixed.tree.block_of last) self.old }
        ensures is_final { self.new.is_final ≡ self.old.is_final }
    {
        if let Some(block) = index.block(last)
            && !self.is_final
        {
            let root = index.block_root(block);
            join_preludes(&mut self.answer, index, question, kind, names, root);
        }
    }
}

// Merges what the preludes of the crate of `root` answer into an older answer.
fn join_preludes<I: Index>(
    answer: &mut ResolvePathResult,
    index: &I,
    question: Question,
    kind: PathKind,
    names: &[Name],
    root: ModuleId,
)
    ensures { answer.new ≡ merged answer.old (preludes_of (I.view index.now) question kind names.now root) }
{
    answer.join(&resolve_path_fp_in_all_preludes(index, question, kind, names, root));
}

// Asks the module, from block roots their outside modules, and then the preludes.
fn resolve_outward<I: Index>(
    index: &I,
    question: Question,
    kind: PathKind,
    names: &[Name],
) -> ResolvePathResult
    ensures { result ≡ outward (I.view index.now) question kind names.now question.original_module }
{
    let mut here = question.original_module;
    let mut asked = resolve_path_fp_with_macro_single(index, question, kind, names, here);
    'outward: loop {
        match block_exit(index, here) {
            Some(outside) if !asked.is_final => {
                here = outside;
                asked.ask(index, question, kind, names, here);
            }
            _ => {
                asked.ask_preludes(index, question, kind, names, here);
                return asked.answer;
            }
        }
    }
}

fn level(kind: PathKind) -> u32
    ensures { result ≡ level_of kind }
{
    match kind {
        PathKind::Super(level) => level,
        _ => 0,
    }
}

fn is_known_crate<I: Index>(index: &I, kind: PathKind) -> bool
    ensures { result ≡ known_crate (I.view index.now) kind }
{
    match kind {
        PathKind::DollarCrate(krate) => krate.0 < index.crates(),
        _ => true,
    }
}

fn first_unknown<I: Index>(index: &I, names: &[Name]) -> Option<usize>
    ensures { result ≡ first_unknown (I.view index.now) names.now }
{
    let count = index.names();
    names.iter().position(|name| name.0 >= count)
}

// What is wrong with a question.
fn refusal<I: Index>(
    index: &I,
    question: Question,
    kind: PathKind,
    names: &[Name],
) -> Option<PathFault>
    ensures { result ≡ refusal_of (I.view index.now) question kind names.now }
{
    if question.original_module.0 >= index.modules() {
        return Some(PathFault::NoModule);
    }
    if names.len() > MOST_NAMES {
        return Some(PathFault::TooManyNames);
    }
    if level(kind) > MOST_SUPERS {
        return Some(PathFault::TooManySupers);
    }
    if !is_known_crate(index, kind) {
        return Some(PathFault::NoCrate);
    }
    first_unknown(index, names).map(PathFault::NoName)
}

fn answer<I: Index>(
    index: &I,
    question: Question,
    kind: PathKind,
    names: &[Name],
) -> Result<ResolvePathResult, PathFault>
    ensures { result ≡ answered (I.view index.now) question kind names.now }
{
    if let Some(refusal) = refusal(index, question, kind, names) {
        return Err(refusal);
    }
    Ok(resolve_outward(index, question, kind, names))
}

/// What the path stands for in each namespace where the question asks, or why it is not answered: the original module does not
/// exist, the path has more than 64 names or more than 255 `super`, or a crate or a name number in it does not exist.
pub fn resolve_path_fp_with_macro<I: Index>(
    index: &I,
    question: Question,
    path: &ModPath,
) -> Result<ResolvePathResult, PathFault>
    ensures value { result ≡ answered (I.view index.now) question path.now.kind path.now.names.items }
    ensures elsewhere { AskedElsewhere (I.view index.now) question path.now.names.items }
    ensures judge { SeeTheSame (I.view index.now).fixed.tree }
    ensures visible { IfOk result (ShowsVisible (I.view index.now) question path.now.kind) }
    ensures exists { IfOk result (AnswerExists (I.view index.now)) }
    ensures inner { IfOk result (InnerFirst (I.view index.now) question path.now.kind path.now.names.items) }
    ensures order { IfOk result (SourceOrder (I.view index.now) question path.now.kind path.now.names.items) }
    ensures own_names { IfOk result (OwnNamesFirst (I.view index.now) question path.now.kind path.now.names.items) }
    ensures alike { CratePathsAlike (I.view index.now) question path.now.kind path.now.names.items result }
{
    answer(index, question, path.kind, path.names.as_slice())
}

/// The entries that the path stands for, and the index of the first name that was not resolved, if one was left over a type that
/// does not have it. It is asked in mode Other, whatever mode the question has. It is refused as
/// `resolve_path_fp_with_macro` refuses.
pub fn resolve_path<I: Index>(
    index: &I,
    question: Question,
    path: &ModPath,
) -> Result<(PerNs, Option<usize>), PathFault>
    ensures { result ≡ pair_answered (I.view index.now) question path.now.kind path.now.names.items }
{
    let mode = ResolveMode::Other;
    let answer = resolve_path_fp_with_macro(index, Question { mode, ..question }, path)?;
    Ok((answer.resolved_def, answer.segment_index))
}
