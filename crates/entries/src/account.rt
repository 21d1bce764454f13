// The account of a report: how many pairs of an item and a module were seen.
ghost use Rattle.std.specs.Prelude.{◌≡◌};
ghost use Rattle.entries.specs.Accounts.{blank, with_item, with_refused, CountsEach};

/// How many items were asked about and how many of these were refused; of all others, how many pairs of the item and a module
/// there are where the module sees it, and where not. No count goes past the largest number of 64 bits.
#[derive(Clone, Copy, PartialEq, Eq, Debug)]
pub struct Account {
    pub items: u64,
    pub seen: u64,
    pub hidden: u64,
    pub refused: u64,
}

impl Account {
    /// Nothing was asked yet.
    pub fn new() -> Account
        ensures { result ≡ blank }
    {
        Account {
            items: 0,
            seen: 0,
            hidden: 0,
            refused: 0,
        }
    }

    /// One more item, which `seen` of `modules` modules may see.
    pub fn add_item(&mut self, seen: u64, modules: u64)
        ensures value { self.new ≡ with_item self.old seen modules }
        ensures pairs { CountsEach self.old seen modules self.new }
    {
        self.items = self.items.saturating_add(1);
        self.seen = self.seen.saturating_add(seen);
        self.hidden = self.hidden.saturating_add(modules.saturating_sub(seen));
    }

    /// One more item, which was refused.
    pub fn add_refused(&mut self)
        ensures { self.new ≡ with_refused self.old }
    {
        self.items = self.items.saturating_add(1);
        self.refused = self.refused.saturating_add(1);
    }
}
