// Calls of an index, made one by one.
ghost use Rattle.std.specs.Prelude.{◌≡◌, map};
ghost use Rattle.runs.specs.Kept.{KeepsHolders};
ghost use Rattle.runs.specs.Runs.{state, Did, Ran, Does, Made, unmade, told_after};
ghost use Rattle.runs.specs.Shadowed.{ShadowsGlobs};

use hir_def::fault::{IndexFault, PathFault};
use item_scope::delivery::Delivery;
use item_scope::index::{Recipient, deliver};
use path_resolution::answer::ResolvePathResult;
use path_resolution::path_resolution::resolve_path_fp_with_macro;
use path_resolution::question::Question;
use path_text::mod_path::ModPath;

/// A call of an index and what came of it, which is nothing until the call is made.
#[derive(Clone, Copy)]
pub enum Call<'a> {
    /// A delivery, and whether it changed any namespace, or why it was refused.
    Deliver(Delivery, Option<Result<bool, IndexFault>>),
    /// A question on a path, and what the path stands for, or why the question was refused.
    Ask(Question, &'a ModPath, Option<Result<ResolvePathResult, PathFault>>),
}

// Makes the call.
fn make<'a, I: Recipient>(index: &mut I, call: Call<'a>) -> Call<'a>
    ensures did { Did (state (I.view index.old) (I.left index.old)) result (state (I.view index.new) (I.left index.new)) }
    ensures does { Does I.delivers index.old result index.new }
    ensures same { unmade result ≡ unmade call.entry }
{
    match call {
        Call::Deliver(delivery, _) => Call::Deliver(delivery, Some(deliver(index, delivery))),
        Call::Ask(question, path, _) => {
            let answer = resolve_path_fp_with_macro(index, question, path);
            Call::Ask(question, path, Some(answer))
        }
    }
}

/// Makes the calls in their order, and writes beside each what came of it.
#[tactic(auto, using(crate::proofs::Made::none_made, crate::proofs::Made::next_made, crate::proofs::Made::unmade_set, crate::proofs::Made::ran_told, crate::proofs::Shadowed::ran_shadows, crate::proofs::Kept::ran_keeps, std::proofs::lemmas::List::take_all))]
pub fn run<I: Recipient>(index: &mut I, calls: &mut [Call<'_>])
    ensures ran { Ran (state (I.view index.old) (I.left index.old)) calls.new (state (I.view index.new) (I.left index.new)) }
    // Of the index itself: each delivery did what the index's own rule says, and nothing else did anything.
    ensures made { Made I.delivers index.old calls.new index.new }
    ensures after { I.view index.new ≡ told_after (I.view index.old) calls.new }
    // At each place items and named imports shadow what globs brought.
    ensures shadows { ShadowsGlobs (I.view index.old) calls.new (I.view index.new) }
    // And what holds one by name gives way only to what its own import brings.
    ensures keeps { KeepsHolders (I.view index.old) calls.new (I.view index.new) }
    ensures same { map unmade calls.new ≡ map unmade calls.old }
{
    for call in calls.iter_mut() {
        *call = make(index, *call);
    }
}
