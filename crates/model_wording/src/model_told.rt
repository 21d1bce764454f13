// What is written of a model: its name and what it stands over, what two orders of its deliveries come to, and its account.
ghost use Rattle.std.specs.Prelude.{◌≡◌, Some, length, filter};
ghost use Rattle.cuts.specs.Reached.{said};
ghost use Rattle.model_wording.specs.Models.{below_of, depth_of, told_of, is_refused, account_of};
ghost use Rattle.model_wording.specs.ModelTold.{over_told, over_word, model_told, model_line, order_told, order_word, place_at, differed_told, parted_told, comparison_told, statement_words, comparison_words, orders_line, account_words, places_words, account_line, account_told};

use crate::comparison::Comparison;
use cuts::asked::Answered;
use cuts::reached::Reached;
use cuts::verdict::Tally;
use firmware::deliveries::Outcome;
use firmware::file::DeliveryStatement;
use firmware::models::Model;
use firmware::pile::Pile;
use hir_def::ModuleDefId;
use orders::order::Order;
use std::fmt;
use variants::MOST_OWN_PLACES;
use wording::counts::DeliveryCounts;
use wording::places::DeliveryTold;

/// A model by its name, what it stands over (the firmware tree, if that is no model), and how many models its pile has.
#[derive(Clone, Copy)]
pub struct ModelTold<'a> {
    pub name: &'a str,
    pub over: Option<&'a str>,
    pub depth: usize,
}

/// The same as a line: `model`, the name, the name of the model below or `-`, and the number.
#[derive(Clone, Copy)]
pub struct ModelLine<'a>(pub ModelTold<'a>);

// What a model stands over.
#[derive(Clone, Copy)]
struct OverTold<'a>(Option<&'a str>);

// A name and the module of its delivery.
#[derive(Clone, Copy)]
struct PlaceAt<'a>(DeliveryStatement<'a>);

// What differed on the way, if anything did.
#[derive(Clone, Copy)]
struct DifferedTold<'a>(Option<DeliveryStatement<'a>>);

// The first delivery that parted.
#[derive(Clone, Copy)]
struct PartedTold<'a>(Option<DeliveryStatement<'a>>);

/// What two orders of a model's deliveries come to, as a line below the model.
#[derive(Clone, Copy)]
pub struct ComparisonTold<'a>(pub Comparison<'a>);

// A delivery by its name, its module and its line, `- - -` for none.
#[derive(Clone, Copy)]
struct StatementWords<'a>(Option<DeliveryStatement<'a>>);

// The order, what came of it and where, as words.
#[derive(Clone, Copy)]
struct ComparisonWords<'a>(Comparison<'a>);

/// The same as a line: `orders`, the model, the other order, `agree` or `parted`, and the delivery that differed or parted.
#[derive(Clone, Copy)]
pub struct OrdersLine<'a> {
    pub model: &'a str,
    pub comparison: Comparison<'a>,
}

/// The account of a model.
#[derive(Clone, Copy)]
pub struct ModelAccount<'a> {
    pub model: &'a str,
    /// How many paths are asked, those that are refused among them.
    pub asked: usize,
    pub refused: usize,
    pub items: Tally,
    pub deliveries: DeliveryCounts,
    /// How many places the model has of its own.
    pub places: usize,
}

// The paths and the items of an account, as words.
#[derive(Clone, Copy)]
struct AccountWords<'a>(ModelAccount<'a>);

// The deliveries and the places of an account, as words.
#[derive(Clone, Copy)]
struct PlacesWords<'a>(ModelAccount<'a>);

/// The same as a line: `model-account`, the model, paths asked and refused, items kept and cut; then the deliveries that changed a
/// place, that changed none, and that were refused; and the model's own places.
#[derive(Clone, Copy)]
pub struct ModelAccountLine<'a>(pub ModelAccount<'a>);

// The model below the top of a pile, if one stands there, and how many models the pile has.
fn below_and_depth(pile: Pile) -> (Option<usize>, usize)
    ensures { result ≡ (below_of pile, depth_of pile) }
{
    match pile {
        Pile::One(_) => (None, 1),
        Pile::Two(below, _) => (Some(below), 2),
        Pile::Three(_, below, _) => (Some(below), 3),
    }
}

impl<'a> ModelTold<'a> {
    /// The model, which is one of these: it stands over the one below it in its pile.
    pub fn of(models: &[Model<'a>], model: &Model<'a>) -> ModelTold<'a>
        ensures { result ≡ told_of models.now model.now }
    {
        let (below, depth) = below_and_depth(model.pile);
        let over = match below {
            Some(below) => models.get(below).map(|model| model.name),
            None => None,
        };
        ModelTold {
            name: model.name,
            over,
            depth,
        }
    }
}

fn count_refused(answers: &[Answered]) -> usize
    ensures { result ≡ length (filter is_refused answers.now) }
{
    answers.iter().filter(|a| a.result.is_err()).count()
}

impl<'a> ModelAccount<'a> {
    /// The account of a model: what its paths were answered, what that reaches of its items, what came of its deliveries, and how
    /// many of its own places they left.
    pub fn of(
        model: &'a str,
        answers: &[Answered],
        reached: &Reached,
        items: &[ModuleDefId],
        outcomes: &[Outcome],
        left: usize,
    ) -> ModelAccount<'a>
        ensures { result ≡ account_of model.entry answers.now (said reached.now) items.now outcomes.now left }
    {
        ModelAccount {
            model,
            asked: answers.len(),
            refused: count_refused(answers),
            items: Tally::of(reached, items),
            deliveries: DeliveryCounts::of(outcomes),
            places: MOST_OWN_PLACES.saturating_sub(left),
        }
    }
}

impl<'a> fmt::Display for OverTold<'a> {
    ghost output = { λ o. Some (over_told o.0) };

    fn fmt<W: fmt::Write>(&self, f: &mut fmt::Formatter<W>) -> fmt::Result {
        match self.0 {
            Some(model) => write!(f, "model {model}"),
            None => f.write_str("the firmware tree"),
        }
    }
}

impl<'a> fmt::Display for ModelTold<'a> {
    ghost output = { λ m. Some (model_told m.name.now m.over) };

    fn fmt<W: fmt::Write>(&self, f: &mut fmt::Formatter<W>) -> fmt::Result {
        let name = self.name;
        let over = OverTold(self.over);
        write!(f, "\nmodel {name}\n    over {over}\n")
    }
}

// The name of the model below, `-` where that is none.
fn over_word<'a>(over: Option<&'a str>) -> &'a str
    ensures { result.now ≡ over_word over.entry }
{
    match over {
        Some(model) => model,
        None => "-",
    }
}

impl<'a> fmt::Display for ModelLine<'a> {
    ghost output = { λ m. Some (model_line m.0.name.now m.0.over m.0.depth) };

    fn fmt<W: fmt::Write>(&self, f: &mut fmt::Formatter<W>) -> fmt::Result {
        let name = self.0.name;
        let over = over_word(self.0.over);
        let depth = self.0.depth;
        write!(f, "model {name} {over} {depth}")
    }
}

// The order for people.
fn order_told(order: Order) -> &'static str
    ensures { result.now ≡ order_told order }
{
    match order {
        Order::NamesFirst => "names first",
        Order::GlobsFirst => "globs first",
    }
}

/// The order as a word of a line.
pub(crate) fn order_word(order: Order) -> &'static str
    ensures { result.now ≡ order_word order }
{
    match order {
        Order::NamesFirst => "names-first",
        Order::GlobsFirst => "globs-first",
    }
}

impl<'a> fmt::Display for PlaceAt<'a> {
    ghost output = { λ s. Some (place_at s.0) };

    fn fmt<W: fmt::Write>(&self, f: &mut fmt::Formatter<W>) -> fmt::Result {
        let name = self.0.name;
        let module = self.0.module;
        write!(f, "{name} in {module}")
    }
}

impl<'a> fmt::Display for DifferedTold<'a> {
    ghost output = { λ d. Some (differed_told d.0) };

    fn fmt<W: fmt::Write>(&self, f: &mut fmt::Formatter<W>) -> fmt::Result {
        match self.0 {
            Some(statement) => {
                let place = PlaceAt(statement);
                let line = statement.line;
                write!(f, "; on the way {place} differed, line {line}")
            }
            None => Ok(()),
        }
    }
}

impl<'a> fmt::Display for PartedTold<'a> {
    ghost output = { λ p. Some (parted_told p.0) };

    fn fmt<W: fmt::Write>(&self, f: &mut fmt::Formatter<W>) -> fmt::Result {
        match self.0 {
            Some(statement) => {
                let delivery = DeliveryTold(statement);
                write!(f, "the {delivery}")
            }
            None => f.write_str("a delivery"),
        }
    }
}

impl<'a> fmt::Display for ComparisonTold<'a> {
    ghost output = { λ c. Some (comparison_told c.0) };

    fn fmt<W: fmt::Write>(&self, f: &mut fmt::Formatter<W>) -> fmt::Result {
        match self.0 {
            Comparison::Alone => f.write_str("    no other order to compare\n"),
            Comparison::Agree(order, differed) => {
                let order = order_told(order);
                let differed = DifferedTold(differed);
                write!(
                    f,
                    "    deliveries in the file's order and {order}: every question has one answer{differed}\n"
                )
            }
            Comparison::Parted(order, parted) => {
                let order = order_told(order);
                let parted = PartedTold(parted);
                write!(
                    f,
                    "    deliveries in the file's order and {order}: {parted} is taken in one order and refused in the other, so no agreement is claimed\n"
                )
            }
        }
    }
}

impl<'a> fmt::Display for StatementWords<'a> {
    ghost output = { λ s. Some (statement_words s.0) };

    fn fmt<W: fmt::Write>(&self, f: &mut fmt::Formatter<W>) -> fmt::Result {
        match self.0 {
            Some(statement) => {
                let name = statement.name;
                let module = statement.module;
                let line = statement.line;
                write!(f, "{name} {module} {line}")
            }
            None => f.write_str("- - -"),
        }
    }
}

impl<'a> fmt::Display for ComparisonWords<'a> {
    ghost output = { λ c. Some (comparison_words c.0) };

    fn fmt<W: fmt::Write>(&self, f: &mut fmt::Formatter<W>) -> fmt::Result {
        match self.0 {
            Comparison::Alone => f.write_str("- agree - - -"),
            Comparison::Agree(order, differed) => {
                let order = order_word(order);
                let words = StatementWords(differed);
                write!(f, "{order} agree {words}")
            }
            Comparison::Parted(order, parted) => {
                let order = order_word(order);
                let words = StatementWords(parted);
                write!(f, "{order} parted {words}")
            }
        }
    }
}

impl<'a> fmt::Display for OrdersLine<'a> {
    ghost output = { λ o. Some (orders_line o.model.now o.comparison) };

    fn fmt<W: fmt::Write>(&self, f: &mut fmt::Formatter<W>) -> fmt::Result {
        let model = self.model;
        let words = ComparisonWords(self.comparison);
        write!(f, "orders {model} {words}")
    }
}

impl<'a> fmt::Display for ModelAccount<'a> {
    ghost output = { λ a. Some (account_told a) };

    fn fmt<W: fmt::Write>(&self, f: &mut fmt::Formatter<W>) -> fmt::Result {
        let model = self.model;
        let asked = self.asked;
        let refused = self.refused;
        let Tally { kept, cut } = self.items;
        let DeliveryCounts {
            changed,
            unchanged,
            refused: not_taken,
        } = self.deliveries;
        let places = self.places;
        write!(
            f,
            "\naccount of model {model}\n    paths asked         {asked:>8}\n    paths refused       {refused:>8}\n"
        )?;
        write!(
            f,
            "    items kept          {kept:>8}\n    items cut           {cut:>8}\n"
        )?;
        write!(
            f,
            "    deliveries made     {changed:>8}\n    changed nothing     {unchanged:>8}\n    deliveries refused  {not_taken:>8}\n"
        )?;
        write!(
            f,
            "    own places          {places:>8} of {MOST_OWN_PLACES}\n"
        )
    }
}

impl<'a> fmt::Display for AccountWords<'a> {
    ghost output = { λ a. Some (account_words a.0.asked a.0.refused a.0.items) };

    fn fmt<W: fmt::Write>(&self, f: &mut fmt::Formatter<W>) -> fmt::Result {
        let asked = self.0.asked;
        let refused = self.0.refused;
        let Tally { kept, cut } = self.0.items;
        write!(f, "{asked} {refused} {kept} {cut}")
    }
}

impl<'a> fmt::Display for PlacesWords<'a> {
    ghost output = { λ a. Some (places_words a.0.deliveries a.0.places) };

    fn fmt<W: fmt::Write>(&self, f: &mut fmt::Formatter<W>) -> fmt::Result {
        let deliveries = self.0.deliveries;
        let places = self.0.places;
        write!(f, "{deliveries} {places}")
    }
}

impl<'a> fmt::Display for ModelAccountLine<'a> {
    ghost output = { λ a. Some (account_line a.0.model.now a.0.asked a.0.refused a.0.items a.0.deliveries a.0.places) };

    fn fmt<W: fmt::Write>(&self, f: &mut fmt::Formatter<W>) -> fmt::Result {
        let model = self.0.model;
        let words = AccountWords(self.0);
        let rest = PlacesWords(self.0);
        write!(f, "model-account {model} {words} {rest}")
    }
}
