// How many answers are alike, differ by each name, and are not as written.
ghost use Rattle.std.specs.Prelude.{◌≡◌, ◌≢◌, ℕ, List, Some, IfOk, count_by, unwrap_or};
ghost use Rattle.std.specs.List.{filter_map};
ghost use Rattle.std.specs.Str.{bytes_eq};
ghost use Rattle.std.specs.BTreeMap.{get_by_text};
ghost use Rattle.replays.specs.Verdicts.{is_alike, is_wrong, name_of};
ghost use Rattle.replays.specs.Tallies.{Tallies};

use crate::verdict::Verdict;
use std::alloc::{AllocError, Global};
use std::collections::BTreeMap;
use std::fmt;

/// How many answers have each verdict.
#[derive(Debug, Drop)]
pub struct Tally {
    /// The stored answers.
    pub alike: usize,
    /// The answers that differ, by the name of the difference; no name counts 0.
    pub named: BTreeMap<String, usize>,
    /// The answers that are not as written.
    pub wrong: usize,
}

fn names<'a>(alloc: Global, verdicts: &[Verdict<'a>]) -> Result<Vec<&'a str>, AllocError>
    ensures { IfOk result (λ v. v.items ≡ filter_map name_of verdicts.now) }
{
    verdicts.iter().filter_map(|v| v.name()).collect(alloc)
}

fn count_each(alloc: Global, names: &[&str]) -> Result<BTreeMap<String, usize>, AllocError>
    ensures counted { IfOk result (λ m. (q : List ℕ) → unwrap_or (get_by_text m q) 0 ≡ count_by (λ n. bytes_eq q n.now) names.now) }
    ensures listed { IfOk result (λ m. (q : List ℕ) → get_by_text m q ≢ Some 0) }
{
    let mut counts = BTreeMap::new(alloc);
    for name in names {
        *counts.entry(String::from_str(alloc, name)?)?.or_insert(0) += 1;
    }
    Ok(counts)
}

fn count_alike(verdicts: &[Verdict]) -> usize
    ensures { result ≡ count_by is_alike verdicts.now }
{
    verdicts
        .iter()
        .filter(|v| matches!(v, Verdict::Alike))
        .count()
}

fn count_wrong(verdicts: &[Verdict]) -> usize
    ensures { result ≡ count_by is_wrong verdicts.now }
{
    verdicts
        .iter()
        .filter(|v| matches!(v, Verdict::NotAsWritten))
        .count()
}

impl Tally {
    /// How often each verdict is among these. Fails where memory is wanting.
    pub fn of(alloc: Global, verdicts: &[Verdict]) -> Result<Tally, AllocError>
        ensures { IfOk result (Tallies verdicts.now) }
    {
        let names = names(alloc, verdicts)?;
        Ok(Tally {
            alike: count_alike(verdicts),
            named: count_each(alloc, names.as_slice())?,
            wrong: count_wrong(verdicts),
        })
    }
}

impl fmt::Display for Tally {
    fn fmt<W: fmt::Write>(&self, f: &mut fmt::Formatter<W>) -> fmt::Result {
        let alike = self.alike;
        writeln!(f, "{alike:>8} alike")?;
        for (name, count) in self.named.iter() {
            writeln!(f, "{count:>8} {name}")?;
        }
        let wrong = self.wrong;
        writeln!(f, "{wrong:>8} not as written")
    }
}
