// The order law, the chain law and the hidden law, on one call.
ghost use Rattle.std.specs.Prelude.{◌≡◌};
ghost use Rattle.runs.specs.Chains.{ChainLaw};
ghost use Rattle.runs.specs.Compared.{Tried, MadeWith};
ghost use Rattle.runs.specs.Hidden.{HiddenLaw};
ghost use Rattle.runs.specs.Order.{OrderLaw};
ghost use Rattle.runs.specs.Runs.{state, told_after};

use crate::calls::{Call, run};
use hir_def::fault::{IndexFault, PathFault};
use item_scope::delivery::Delivery;
use item_scope::index::{Recipient, deliver};
use path_resolution::answer::ResolvePathResult;
use path_resolution::path_resolution::resolve_path_fp_with_macro;
use path_resolution::question::Question;
use path_text::mod_path::ModPath;

/// What an index answered after its run, what came of a further delivery, and what it answered to the same question then.
#[derive(Clone, Copy, PartialEq, Eq, Debug)]
pub struct Outcome {
    pub before: Result<ResolvePathResult, PathFault>,
    pub further: Result<bool, IndexFault>,
    pub after: Result<ResolvePathResult, PathFault>,
}

/// What came of it on each of two indexes.
#[derive(Clone, Copy, PartialEq, Eq, Debug)]
pub struct Compared {
    pub first: Outcome,
    pub second: Outcome,
}

// Makes the calls, asks the question, makes the further delivery, and asks again.
#[tactic(auto, using(crate::proofs::Made::more_made, crate::proofs::Made::answered_told))]
fn run_and_ask<I: Recipient>(
    index: &mut I,
    calls: &mut [Call<'_>],
    question: Question,
    path: &ModPath,
    further: Delivery,
) -> Outcome
    ensures tried { Tried (state (I.view index.old) (I.left index.old)) calls.old calls.new question path.now further result (state (I.view index.new) (I.left index.new)) }
    ensures made { MadeWith I.delivers index.old calls.new further result index.new }
{
    run(index, calls);
    let before = resolve_path_fp_with_macro(index, question, path);
    let taken = deliver(index, further);
    let after = resolve_path_fp_with_macro(index, question, path);
    Outcome {
        before,
        further: taken,
        after,
    }
}

/// Makes the calls of each list on its index, and writes beside each what came of it; then asks each index what the path stands
/// for, makes the further delivery to it, and asks it again.
pub fn compare_runs<I: Recipient, J: Recipient>(
    first: &mut I,
    first_calls: &mut [Call<'_>],
    second: &mut J,
    second_calls: &mut [Call<'_>],
    question: Question,
    path: &ModPath,
    further: Delivery,
) -> Compared
    // What was done to each index, and what it answered.
    ensures first { Tried (state (I.view first.old) (I.left first.old)) first_calls.old first_calls.new question path.now further result.first (state (I.view first.new) (I.left first.new)) }
    ensures second { Tried (state (J.view second.old) (J.left second.old)) second_calls.old second_calls.new question path.now further result.second (state (J.view second.new) (J.left second.new)) }
    // And of the index itself, by its own rule.
    ensures made_first { MadeWith I.delivers first.old first_calls.new further result.first first.new }
    ensures made_second { MadeWith J.delivers second.old second_calls.new further result.second second.new }

    // The order law: indexes that began alike, and whose places took the same, answer every question alike.
    ensures order { OrderLaw (I.view first.old) (J.view second.old) first_calls.new second_calls.new result.first.before result.second.before }
    // The chain law: a `crate` path answers what the last of its places holds, where each of them is visible from the asking module.
    ensures chain { let v = told_after (I.view first.old) first_calls.new in
        let w = told_after (J.view second.old) second_calls.new in
        ChainLaw v question path.now result.first.before × ChainLaw w question path.now result.second.before }
    // The hidden law: a further delivery that the asking module cannot see changes no answer to it.
    ensures hidden { let v = told_after (I.view first.old) first_calls.new in
        let w = told_after (J.view second.old) second_calls.new in
        HiddenLaw v further (I.view first.new) question path.now result.first.before result.first.after
        × HiddenLaw w further (J.view second.new) question path.now result.second.before result.second.after }
{
    Compared {
        first: run_and_ask(first, first_calls, question, path, further),
        second: run_and_ask(second, second_calls, question, path, further),
    }
}
