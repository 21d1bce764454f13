// What is written of an item and of the account: for people, and as lines of words for programs.
ghost use Rattle.std.specs.Prelude.{Some};
ghost use Rattle.wording.specs.Shown.{held};
ghost use Rattle.wording.specs.Told.{grouped, range_told, item_told, seen_told, seen_line, refused_line, pair, account_line, account_told};

use crate::counts::DeliveryCounts;
use crate::names::{ModuleText, ModulesText, VisibilityText};
use crate::range::Range;
use crate::seen::Seen;
use entries::account::Account;
use firmware::file::Declared;
use hir_def::ModuleId;
use hir_def::fault::FaultCode;
use std::fmt;

/// A number with a comma before its last three digits, where it has more.
#[derive(Clone, Copy)]
pub struct Grouped(pub usize);

/// An item as its statement has it.
#[derive(Clone, Copy)]
pub struct ItemTold<'a> {
    pub names: &'a [&'a str],
    pub item: Declared<'a>,
}

/// Who sees an item, as a line below it.
#[derive(Clone, Copy)]
pub struct SeenTold<'a> {
    pub names: &'a [&'a str],
    /// How many modules there are.
    pub modules: u32,
    pub seen: &'a Seen,
}

/// An item and who sees it as a line: `seen`, its name, its module, how many see it, and each that is named.
#[derive(Clone, Copy)]
pub struct SeenLine<'a> {
    pub names: &'a [&'a str],
    pub item: Declared<'a>,
    pub seen: &'a Seen,
}

/// A refused item as a line: `refused`, its name, its module, and the refusal's layer, number and place.
#[derive(Clone, Copy)]
pub struct RefusedLine<'a> {
    pub item: Declared<'a>,
    pub code: FaultCode,
}

#[derive(Clone, Copy)]
struct RangeTold<'a> {
    names: &'a [&'a str],
    range: Range,
    of: ModuleId,
}

/// The account, with the counts of modules, paths and deliveries.
#[derive(Clone, Copy)]
pub struct AccountTold {
    pub account: Account,
    pub modules: u32,
    pub paths: usize,
    pub deliveries: DeliveryCounts,
}

// Two numbers with a blank between them.
#[derive(Clone, Copy)]
struct Pair(u64, u64);

/// The account as one line: its items, modules, pairs seen and not seen, refused items, and paths; then the deliveries that changed a
/// place, that changed none, and that were refused.
#[derive(Clone, Copy)]
pub struct AccountLine(pub AccountTold);

impl fmt::Display for Grouped {
    ghost output = { λ n. Some (grouped n.0) };

    fn fmt<W: fmt::Write>(&self, f: &mut fmt::Formatter<W>) -> fmt::Result {
        let n = self.0;
        if n < 1000 {
            return write!(f, "{n}");
        }
        let front = n / 1000;
        let hundreds = n / 100 % 10;
        let tens = n / 10 % 10;
        let ones = n % 10;
        write!(f, "{front},{hundreds}{tens}{ones}")
    }
}

impl<'a> fmt::Display for RangeTold<'a> {
    ghost output = { λ r. Some (range_told (held r.names.now) r.range r.of) };

    fn fmt<W: fmt::Write>(&self, f: &mut fmt::Formatter<W>) -> fmt::Result {
        let name = ModuleText {
            names: self.names,
            module: self.of,
        };
        match self.range {
            Range::All => Ok(()),
            Range::Crate(_) => write!(f, " of crate {name}"),
            Range::Inside(_) => write!(f, " inside {name}"),
        }
    }
}

impl<'a> fmt::Display for ItemTold<'a> {
    ghost output = { λ i. Some (item_told (held i.names.now) i.item) };

    fn fmt<W: fmt::Write>(&self, f: &mut fmt::Formatter<W>) -> fmt::Result {
        let name = self.item.name;
        let module = self.item.module;
        let vis = VisibilityText {
            names: self.names,
            vis: self.item.vis,
        };
        write!(f, "{name} in {module}, {vis}")
    }
}

impl<'a> fmt::Display for SeenTold<'a> {
    ghost output = { λ s. Some (seen_told (held s.names.now) s.modules s.seen.now) };

    fn fmt<W: fmt::Write>(&self, f: &mut fmt::Formatter<W>) -> fmt::Result {
        let names = self.names;
        let modules = self.modules;
        let count = self.seen.count;
        if count == modules as usize {
            return write!(f, "    seen from all {modules} modules\n");
        }
        match &self.seen.seers {
            Some(seers) => {
                let seers = ModulesText {
                    names,
                    modules: seers.as_slice(),
                    between: ", ",
                };
                write!(f, "    seen from {count} of {modules}: {seers}\n")
            }
            None => {
                let count = Grouped(count);
                let range = RangeTold {
                    names,
                    range: self.seen.range,
                    of: self.seen.of,
                };
                write!(f, "    seen from all {count} modules{range}\n")
            }
        }
    }
}

impl<'a> fmt::Display for SeenLine<'a> {
    ghost output = { λ s. Some (seen_line (held s.names.now) s.item s.seen.now) };

    fn fmt<W: fmt::Write>(&self, f: &mut fmt::Formatter<W>) -> fmt::Result {
        let name = self.item.name;
        let module = self.item.module;
        let count = self.seen.count;
        let seers = match &self.seen.seers {
            Some(seers) => seers.as_slice(),
            None => &[],
        };
        let seers = ModulesText {
            names: self.names,
            modules: seers,
            between: " ",
        };
        write!(f, "seen {name} {module} {count} {seers}")
    }
}

impl<'a> fmt::Display for RefusedLine<'a> {
    ghost output = { λ r. Some (refused_line r.item r.code) };

    fn fmt<W: fmt::Write>(&self, f: &mut fmt::Formatter<W>) -> fmt::Result {
        let name = self.item.name;
        let module = self.item.module;
        let code = self.code;
        write!(f, "refused {name} {module} {code}")
    }
}

impl fmt::Display for AccountTold {
    ghost output = { λ a. Some (account_told a.account a.modules a.paths a.deliveries) };

    fn fmt<W: fmt::Write>(&self, f: &mut fmt::Formatter<W>) -> fmt::Result {
        let items = self.account.items;
        let modules = self.modules;
        let seen = self.account.seen;
        let hidden = self.account.hidden;
        let refused = self.account.refused;
        let paths = self.paths;
        let DeliveryCounts {
            changed,
            unchanged,
            refused: not_taken,
        } = self.deliveries;
        write!(
            f,
            "\naccount\n    items               {items:>8}\n    modules             {modules:>8}\n    pairs seen          {seen:>8}\n"
        )?;
        write!(
            f,
            "    pairs not seen      {hidden:>8}\n    items refused       {refused:>8}\n    paths               {paths:>8}\n"
        )?;
        write!(
            f,
            "    deliveries made     {changed:>8}\n    changed nothing     {unchanged:>8}\n    deliveries refused  {not_taken:>8}\n"
        )
    }
}

impl fmt::Display for Pair {
    ghost output = { λ p. Some (pair p.0 p.1) };

    fn fmt<W: fmt::Write>(&self, f: &mut fmt::Formatter<W>) -> fmt::Result {
        let first = self.0;
        let second = self.1;
        write!(f, "{first} {second}")
    }
}

impl fmt::Display for AccountLine {
    ghost output = { λ a. Some (account_line a.0.account a.0.modules a.0.paths a.0.deliveries) };

    fn fmt<W: fmt::Write>(&self, f: &mut fmt::Formatter<W>) -> fmt::Result {
        let account = self.0.account;
        let asked = Pair(account.items, u64::from(self.0.modules));
        let seen = Pair(account.seen, account.hidden);
        let rest = Pair(account.refused, self.0.paths as u64);
        let deliveries = self.0.deliveries;
        write!(f, "account {asked} {seen} {rest} {deliveries}")
    }
}
