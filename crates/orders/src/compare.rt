// The deliveries of a list on two indexes: in their order on the one, and reordered on the other.
ghost use Rattle.std.specs.Prelude.{◌≡◌, ◌≤◌, IfOk, OnErr, length, vec_len, vec_capacity};
ghost use Rattle.runs.specs.Compared.{Tried, MadeWith};
ghost use Rattle.runs.specs.Runs.{state};
ghost use Rattle.orders.specs.Agreements.{agreement_of, AgreementLaw};
ghost use Rattle.orders.specs.Orders.{calls_of, reordered, other_order};

use crate::agreement::{Agreement, agreement_of};
use crate::order::{Order, fill, other_order, reordered};
use item_scope::delivery::Delivery;
use item_scope::index::Recipient;
use path_resolution::question::Question;
use path_text::mod_path::ModPath;
use runs::calls::Call;
use runs::compare::{Compared, compare_runs};
use std::alloc::{AllocError, Global};

/// What came of the same deliveries in two orders, on an index each.
#[derive(Drop)]
pub struct Orders {
    /// The order of the second run.
    pub order: Order,
    pub agreement: Agreement,
    /// The deliveries in the order in which they were given, each with what came of it on the first index.
    pub first: Vec<Call<'static>>,
    /// The deliveries reordered, each with what came of it on the second index.
    pub second: Vec<Call<'static>>,
    /// What the indexes answered then, and to a further delivery.
    pub compared: Compared,
}

// The deliveries as calls that are to be made.
fn calls(alloc: Global, deliveries: &[Delivery]) -> Result<Vec<Call<'static>>, AllocError>
    ensures { IfOk result (λ list. list.items ≡ calls_of deliveries.now) }
{
    let mut list = Vec::with_capacity(alloc, deliveries.len())?;
    for delivery in deliveries {
        list.push(Call::Deliver(*delivery, None))?;
    }
    Ok(list)
}

// Compares the logs of both runs, the first one put into the order of the second in an empty list with room for it.
fn compare_logs<'a>(
    first: &[Call<'a>],
    second: &[Call<'_>],
    order: Order,
    beside: &mut Vec<Call<'a>>,
) -> Agreement
    requires empty { vec_len beside.old ≡ 0 }
    requires room { length first.now ≤ vec_capacity beside.old }
    ensures { result ≡ agreement_of (reordered order first.now) second.now }
{
    fill(beside, first, order);
    agreement_of(beside, second)
}

// Makes the calls of each list on its index, and compares what came of them, by a list with room for them.
fn compare_lists<'a, I: Recipient, J: Recipient>(
    first: &mut I,
    given: &mut [Call<'a>],
    second: &mut J,
    other: &mut [Call<'_>],
    order: Order,
    beside: &mut Vec<Call<'a>>,
    question: Question,
    path: &ModPath,
    further: Delivery,
) -> (Agreement, Compared)
    requires other { other.old ≡ reordered order given.old }
    requires empty { vec_len beside.old ≡ 0 }
    requires room { length given.old ≤ vec_capacity beside.old }
    ensures first { Tried (state (I.view first.old) (I.left first.old)) given.old given.new
        question path.now further result.1.first (state (I.view first.new) (I.left first.new)) }
    ensures second { Tried (state (J.view second.old) (J.left second.old)) other.old other.new
        question path.now further result.1.second (state (J.view second.new) (J.left second.new)) }
    ensures made_first { MadeWith I.delivers first.old given.new further result.1.first first.new }
    ensures made_second { MadeWith J.delivers second.old other.new further result.1.second second.new }
    ensures agreement { result.0 ≡ agreement_of (reordered order given.new) other.new }
    ensures agree { AgreementLaw (I.view first.old) (J.view second.old) result.0 given.new other.new
        result.1.first.before result.1.second.before }
{
    let compared = compare_runs(first, given, second, other, question, path, further);
    (compare_logs(given, other, order, beside), compared)
}

/// Makes the deliveries to the first index in their order, and to the second in the other order; then asks each index what the
/// path stands for, makes the further delivery to it, and asks it again. All memory is taken before, so that want of memory leaves
/// both indexes as they were.
pub fn compare_orders<I: Recipient, J: Recipient>(
    alloc: Global,
    first: &mut I,
    second: &mut J,
    deliveries: &[Delivery],
    question: Question,
    path: &ModPath,
    further: Delivery,
) -> Result<Orders, AllocError>
    ensures order { IfOk result (λ o. o.order ≡ other_order (calls_of deliveries.now)) }
    // What was done to each index, and what it answered.
    ensures first { IfOk result (λ o. let given = calls_of deliveries.now in
        Tried (state (I.view first.old) (I.left first.old)) given o.first.items
        question path.now further o.compared.first (state (I.view first.new) (I.left first.new))) }
    ensures second { IfOk result (λ o. let other = reordered o.order (calls_of deliveries.now) in
        Tried (state (J.view second.old) (J.left second.old)) other o.second.items
        question path.now further o.compared.second (state (J.view second.new) (J.left second.new))) }
    // And of the index itself, by its own rule.
    ensures made_first { IfOk result (λ o. MadeWith I.delivers first.old o.first.items further o.compared.first first.new) }
    ensures made_second { IfOk result (λ o. MadeWith J.delivers second.old o.second.items further o.compared.second second.new) }
    ensures agreement { IfOk result (λ o. o.agreement ≡ agreement_of (reordered o.order o.first.items) o.second.items) }
    // Indexes that began alike and took the same deliveries answer every question alike.
    ensures agree { IfOk result (λ o. AgreementLaw (I.view first.old) (J.view second.old) o.agreement
        o.first.items o.second.items o.compared.first.before o.compared.second.before) }
    ensures untouched { OnErr result ((first.new ≡ first.old) × (second.new ≡ second.old)) }
{
    let mut given = calls(alloc, deliveries)?;
    let order = other_order(&given);
    let mut other = reordered(alloc, &given, order)?;
    let mut beside = Vec::with_capacity(alloc, given.len())?;
    let (agreement, compared) = compare_lists(
        first,
        given.as_mut_slice(),
        second,
        other.as_mut_slice(),
        order,
        &mut beside,
        question,
        path,
        further,
    );
    Ok(Orders {
        order,
        agreement,
        first: given,
        second: other,
        compared,
    })
}
