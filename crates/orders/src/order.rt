// Orders of deliveries in which those by name, or those by glob, come first.
ghost use Rattle.std.specs.Prelude.{◌≡◌, ◌+◌, ◌≤◌, ◌++◌, IfOk, vec_len, vec_capacity, length};
ghost use Rattle.orders.specs.Orders.{is_by_glob, of_kind, reordered, names_first, other_order, IsOneKind};

use runs::calls::Call;
use std::alloc::{AllocError, Global};

/// Which deliveries of a list come first.
#[derive(Clone, Copy, PartialEq, Eq, Debug)]
pub enum Order {
    NamesFirst,
    GlobsFirst,
}

// Whether the call is a delivery by a glob import.
fn is_by_glob(call: &Call<'_>) -> bool
    ensures { result ≡ is_by_glob call.now }
{
    match call {
        Call::Deliver(delivery, _) => delivery.is_by_glob(),
        Call::Ask(_, _, _) => false,
    }
}

// Adds the calls that are by glob, or those that are not, to a list with room for as many calls.
fn push_kind<'a>(list: &mut Vec<Call<'a>>, calls: &[Call<'a>], by_glob: bool)
    requires { vec_len list.old + length (of_kind by_glob calls.now) ≤ vec_capacity list.old }
    ensures items { list.new.items ≡ list.old.items ++ of_kind by_glob calls.now }
    ensures len { vec_len list.new ≡ vec_len list.old + length (of_kind by_glob calls.now) }
    ensures room { vec_capacity list.old ≤ vec_capacity list.new }
{
    for call in calls {
        if is_by_glob(call) == by_glob {
            list.push(*call).unwrap();
        }
    }
}

// Puts the calls in the order into an empty list with room for them.
pub(crate) fn fill<'a>(list: &mut Vec<Call<'a>>, calls: &[Call<'a>], order: Order)
    requires empty { vec_len list.old ≡ 0 }
    requires room { length calls.now ≤ vec_capacity list.old }
    ensures { list.new.items ≡ reordered order calls.now }
{
    let globs_first = order == Order::GlobsFirst;
    push_kind(list, calls, globs_first);
    push_kind(list, calls, !globs_first);
}

/// The calls in the order: those by glob, and all others, stand among each other as they stood.
pub fn reordered<'a>(
    alloc: Global,
    calls: &[Call<'a>],
    order: Order,
) -> Result<Vec<Call<'a>>, AllocError>
    ensures { IfOk result (λ list. list.items ≡ reordered order calls.now) }
{
    let mut list = Vec::with_capacity(alloc, calls.len())?;
    fill(&mut list, calls, order);
    Ok(list)
}

// Whether only calls by glob follow one by glob.
fn names_first(calls: &[Call<'_>]) -> bool
    ensures { result ≡ names_first calls.now }
{
    let mut globs = false;
    for call in calls {
        let by_glob = is_by_glob(call);
        if globs && !by_glob {
            return false;
        }
        globs = by_glob;
    }
    true
}

/// The order in which the calls do not stand, unless all are by glob or none is: globs first where only calls by glob follow one by
/// glob, else names first.
pub fn other_order(calls: &[Call<'_>]) -> Order
    ensures value { result ≡ other_order calls.now }
    ensures real { reordered result calls.now ≡ calls.now → IsOneKind calls.now }
{
    if names_first(calls) {
        Order::GlobsFirst
    } else {
        Order::NamesFirst
    }
}
