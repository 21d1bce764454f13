// Deliveries and questions, and how long they take.
use crate::asked::Group;
use entries::per_ns::PerNs;
use item_scope::delivery::Delivery;
use item_scope::index::{Index, Recipient, deliver};
use path_resolution::path_resolution::resolve_path_fp_with_macro;
use std::io;
use std::time::{Duration, Instant};
use variants::variant::Variant;

/// Where outcomes are printed, and whether times are too.
#[derive(Clone, Copy)]
pub(crate) struct Report<'a> {
    pub rt: &'a HostRuntime,
    pub with_times: bool,
}

// How often a group is timed; the shortest time is told.
const TRIES: u32 = 5;

impl Report<'_> {
    /// Prints how many there were, what came of them, and in how many nanoseconds.
    pub(crate) fn tell(
        self,
        what: &str,
        count: usize,
        outcome: u64,
        time: Duration,
    ) -> io::Result<()> {
        if self.with_times {
            println!(self.rt; "{what} {count} {outcome} {}", time.as_nanos())
        } else {
            println!(self.rt; "{what} {count} {outcome}")
        }
    }
}

/// How many deliveries changed what holds a place.
pub(crate) fn deliver_all<I: Recipient>(index: &mut I, deliveries: &[Delivery]) -> u64 {
    let mut changed = 0u64;
    for delivery in deliveries {
        if let Ok(true) = deliver(index, *delivery) {
            changed = changed.saturating_add(1);
        }
    }
    changed
}

fn filled(entries: PerNs) -> u64 {
    entries.types.is_some() as u64
        + entries.values.is_some() as u64
        + entries.macros.is_some() as u64
}

// How many entries all answers have.
fn ask_all<I: Index>(index: &I, group: &Group) -> u64 {
    let mut entries = 0u64;
    for asked in group.asked.as_slice() {
        if let Ok(answer) = resolve_path_fp_with_macro(index, asked.question, &asked.path) {
            entries = entries.saturating_add(filled(answer.resolved_def));
        }
    }
    entries
}

// All rounds, of which each has the same outcome; the sum is told, so that none is left out.
fn ask_rounds<I: Index>(index: &I, group: &Group) -> u64 {
    let mut entries = 0u64;
    for _ in 0..group.rounds {
        entries = entries.saturating_add(ask_all(index, group));
    }
    entries
}

fn time_group<I: Index>(report: Report, index: &I, what: &str, group: &Group) -> io::Result<()> {
    let mut shortest = Duration::MAX;
    let mut entries = 0;
    for _ in 0..TRIES {
        let start = Instant::now(report.rt)?;
        entries = ask_rounds(index, group);
        shortest = shortest.min(start.elapsed(report.rt)?);
    }
    report.tell(what, group.asked.len(), entries, shortest)
}

/// Asks each group, and tells how many entries its answers had and how long they took.
pub(crate) fn time_groups<I: Index>(
    report: Report,
    index: &I,
    what: &str,
    groups: &[Group],
) -> io::Result<()> {
    for group in groups {
        time_group(report, index, what, group)?;
    }
    Ok(())
}

/// A variant on an index, with places of its own.
pub(crate) fn variant_on<'a, I: Index>(below: &'a I, own: &[Delivery]) -> Variant<'a, I> {
    let mut variant = Variant::new(below);
    deliver_all(&mut variant, own);
    variant
}
