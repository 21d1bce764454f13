// How many deliveries changed a place, changed none, and were refused.
ghost use Rattle.std.specs.Prelude.{◌≡◌, length, filter, Some};
ghost use Rattle.wording.specs.Outcomes.{is_made, is_idle, is_refused, counts_of, counts_text};

use firmware::deliveries::Outcome;
use std::fmt;

/// The deliveries of a file: how many changed a place, how many were taken and changed none, and how many were refused.
#[derive(Clone, Copy, PartialEq, Eq, Debug)]
pub struct DeliveryCounts {
    pub changed: usize,
    pub unchanged: usize,
    pub refused: usize,
}

fn count_changed(outcomes: &[Outcome]) -> usize
    ensures { result ≡ length (filter is_made outcomes.now) }
{
    outcomes
        .iter()
        .filter(|o| matches!(o.result, Ok(true)))
        .count()
}

fn count_unchanged(outcomes: &[Outcome]) -> usize
    ensures { result ≡ length (filter is_idle outcomes.now) }
{
    outcomes
        .iter()
        .filter(|o| matches!(o.result, Ok(false)))
        .count()
}

fn count_refused(outcomes: &[Outcome]) -> usize
    ensures { result ≡ length (filter is_refused outcomes.now) }
{
    outcomes.iter().filter(|o| o.result.is_err()).count()
}

impl DeliveryCounts {
    /// The counts of what an index answered.
    pub fn of(outcomes: &[Outcome]) -> DeliveryCounts
        ensures { result ≡ counts_of outcomes.now }
    {
        DeliveryCounts {
            changed: count_changed(outcomes),
            unchanged: count_unchanged(outcomes),
            refused: count_refused(outcomes),
        }
    }
}

/// The counts with blanks between them.
impl fmt::Display for DeliveryCounts {
    ghost output = { λ c. Some (counts_text c) };

    fn fmt<W: fmt::Write>(&self, f: &mut fmt::Formatter<W>) -> fmt::Result {
        let changed = self.changed;
        let unchanged = self.unchanged;
        let refused = self.refused;
        write!(f, "{changed} {unchanged} {refused}")
    }
}
