// What a model's deliveries and paths come to, before any of it is written.
ghost use Rattle.std.specs.Prelude.{◌≡◌, IfOk, vec_items, map};
ghost use Rattle.hir_def.specs.declared.ModuleDefId.{ModuleDefId};
ghost use Rattle.cuts.specs.Asked.{answered_by};
ghost use Rattle.cuts.specs.Reached.{said, reason};
ghost use Rattle.orders.specs.Orders.{other_order};
ghost use Rattle.variants.specs.Variants.{below_of, left_in, own_in, view_in};
ghost use Rattle.model_runs.specs.Calls.{calls_in};
ghost use Rattle.model_runs.specs.Made.{RanOver, Compares};
ghost use Rattle.model_wording.specs.Comparing.{HasStatement, comparison_of};
ghost use Rattle.model_wording.specs.Models.{told_of, account_of};
ghost use Rattle.model_reports.specs.Results.{own_deliveries, pile_items, pile_asks, AreAnswered, StandsOn, HasPile};

use cuts::asked::{Answered, Ask, answer};
use cuts::reached::Reached;
use firmware::models::Model;
use firmware::pile::Part;
use firmware::survey::Survey;
use hir_def::ModuleDefId;
use item_scope::index::Index;
use model_runs::model_run::{Made, make_model};
use model_runs::parts::{asks_of, items_of};
use model_wording::comparison::Comparison;
use model_wording::model_told::{ModelAccount, ModelTold};
use reports::style::{PROGRESS_STEP, Style};
use std::alloc::Global;
use std::io;

/// What is told of a model.
#[derive(Drop)]
pub(crate) struct Results<'b, 's, 'a, I: Index> {
    pub told: ModelTold<'a>,
    /// The model's index, and what came of its deliveries.
    pub made: Made<'b, 'a, I>,
    pub comparison: Comparison<'a>,
    /// What the index answers to each path.
    pub answers: Vec<Answered<'s>>,
    /// The items of the model's pile.
    pub items: Vec<ModuleDefId>,
    /// Which items the answers reach.
    pub reached: Reached,
    pub account: ModelAccount<'a>,
}

// Asks the index each path, and says how far it has come.
#[tactic(auto, using(crate::proofs::Answered::mapped))]
fn answer_all<'s, I: Index, E: io::Write>(
    alloc: Global,
    progress: &mut E,
    path: &str,
    model: &str,
    index: &I,
    asks: &[Ask<'s>],
    style: Style,
) -> io::Result<Vec<Answered<'s>>>
    ensures { IfOk result (λ v. vec_items v ≡ map (answered_by (I.view index.now)) asks.now) }
{
    let mut answers = Vec::new(alloc);
    for ask in asks.iter() {
        let done = answers.len();
        if style.progress && done % PROGRESS_STEP == 0 {
            let all = asks.len();
            writeln!(progress, "{path}: model {model}, {done} of {all} paths")?;
        }
        answers.push(answer(index, ask))?;
    }
    Ok(answers)
}

impl<'b, 's, 'a, I: Index> Results<'b, 's, 'a, I> {
    /// Makes the model's deliveries to two variants over the index, and asks the first one the paths of the model's pile. How far it
    /// has come goes to `progress`. Fails where memory is wanting, or where that cannot be written.
    pub(crate) fn of<E: io::Write>(
        alloc: Global,
        progress: &mut E,
        path: &str,
        survey: &'s Survey<'_, 'a>,
        model: &Model<'a>,
        below: &'b I,
        style: Style,
    ) -> io::Result<Results<'b, 's, 'a, I>>
        // The index is the one that this model stands on: what the models below it in its pile made.
        requires { StandsOn survey.now.firmware.now model.now.pile (I.view below.now) }
        ensures told { IfOk result (λ r. r.told ≡ told_of (vec_items survey.entry.now.firmware.now.models) model.now) }
        // The indexes are what the model's own deliveries make of the one below, in their order and in the other.
        ensures run { IfOk result (λ r. RanOver (I.view below.entry.now) (own_deliveries survey.entry.now.firmware.now model.now)
            (vec_items r.made.outcomes) (own_in r.made.index)) }
        ensures order { IfOk result (λ r. r.made.order ≡ other_order (calls_in (own_deliveries survey.entry.now.firmware.now model.now))) }
        ensures compared { IfOk result (λ r. Compares (I.view below.entry.now) (vec_items r.made.outcomes) (own_in r.made.index)
            r.made.order r.made.agreement (own_in r.made.other)) }
        ensures below { IfOk result (λ r. (below_of r.made.index ≡ below.entry.now) × (below_of r.made.other ≡ below.entry.now)) }
        // So the model's has the deliveries of all models of its pile, each over those below it.
        ensures pile { IfOk result (λ r. HasPile survey.entry.now.firmware.now model.now.pile (view_in r.made.index)) }
        ensures comparison { IfOk result (λ r. r.comparison
            ≡ comparison_of (own_deliveries survey.entry.now.firmware.now model.now) r.made.order r.made.agreement) }
        ensures stands { IfOk result (λ r. HasStatement r.comparison) }
        // It answers all paths of the pile.
        ensures answers { IfOk result (λ r. AreAnswered (view_in r.made.index) (pile_asks survey.entry.now model.now) (vec_items r.answers)) }
        ensures items { IfOk result (λ r. vec_items r.items ≡ pile_items survey.entry.now.firmware.now model.now) }
        ensures reached { IfOk result (λ r. (item : ModuleDefId) → said r.reached item
            ≡ reason survey.entry.now.firmware.now.definitions (vec_items r.answers) item) }
        ensures account { IfOk result (λ r. r.account
            ≡ account_of model.now.name (vec_items r.answers) (said r.reached) (vec_items r.items) (vec_items r.made.outcomes) (left_in r.made.index)) }
    {
        let parts = model.pile.parts(alloc)?;
        let asks = asks_of(alloc, survey, parts.as_slice())?;
        let items = items_of(alloc, survey.firmware, parts.as_slice())?;
        let statements = survey.firmware.deliveries_of(Part::Model(model.pile.top()));
        let made = make_model(alloc, below, statements)?;
        let comparison = Comparison::of(alloc, statements, made.order, made.agreement)?;
        let index = &made.index;
        let answers = answer_all(
            alloc,
            progress,
            path,
            model.name,
            index,
            asks.as_slice(),
            style,
        )?;
        let reached = Reached::of(alloc, &survey.firmware.definitions, answers.as_slice())?;
        let account = ModelAccount::of(
            model.name,
            answers.as_slice(),
            &reached,
            items.as_slice(),
            made.outcomes.as_slice(),
            index.left(),
        );
        Ok(Results {
            told: ModelTold::of(survey.firmware.models.as_slice(), model),
            made,
            comparison,
            answers,
            items,
            reached,
            account,
        })
    }
}
