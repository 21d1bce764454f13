// Whether the same deliveries were taken in two orders.
ghost use Rattle.std.specs.Prelude.{◌≡◌};
ghost use Rattle.orders.specs.Agreements.{is_taken, has_changed, parted_at, differed_at, agreement_of};

use runs::calls::Call;

/// Whether two runs took the same deliveries. Positions are those of the second run, from 0.
#[derive(Clone, Copy, PartialEq, Eq, Debug)]
pub enum Agreement {
    /// Each delivery was taken in both or refused in both. `differed` is the first that changed a place in one order and none in the
    /// other.
    Agree { differed: Option<usize> },
    /// The first delivery that was taken in one order and refused in the other.
    Parted(usize),
}

// Whether the call is a delivery that was taken.
fn is_taken(call: &Call<'_>) -> bool
    ensures { result ≡ is_taken call.now }
{
    matches!(call, Call::Deliver(_, Some(Ok(_))))
}

// Whether the call is a delivery that changed a place.
fn has_changed(call: &Call<'_>) -> bool
    ensures { result ≡ has_changed call.now }
{
    matches!(call, Call::Deliver(_, Some(Ok(true))))
}

// The first position at which a call was taken in one run only.
fn parted_at(first: &[Call<'_>], second: &[Call<'_>]) -> Option<usize>
    ensures { result ≡ parted_at first.now second.now }
{
    first
        .iter()
        .zip(second)
        .position(|(a, b)| is_taken(a) != is_taken(b))
}

// The first position at which a call changed a place in one run only.
fn differed_at(first: &[Call<'_>], second: &[Call<'_>]) -> Option<usize>
    ensures { result ≡ differed_at first.now second.now }
{
    first
        .iter()
        .zip(second)
        .position(|(a, b)| has_changed(a) != has_changed(b))
}

// Compares what came of the same calls, in the same order, in two runs.
pub(crate) fn agreement_of(first: &[Call<'_>], second: &[Call<'_>]) -> Agreement
    ensures { result ≡ agreement_of first.now second.now }
{
    match parted_at(first, second) {
        Some(position) => Agreement::Parted(position),
        None => Agreement::Agree {
            differed: differed_at(first, second),
        },
    }
}
