// What a file's base comes to once its deliveries are made, before that is written.
ghost use Rattle.std.specs.Prelude.{◌≡◌, IfOk, vec_items};
ghost use Rattle.reports.specs.Base.{BaseRan, base_paths, base_questions, base_told};
ghost use Rattle.reports.specs.Items.{account_of};

use entries::account::Account;
use firmware::deliveries::{Outcome, deliver_all};
use firmware::pile::Part;
use firmware::survey::Survey;
use item_scope::index::Recipient;
use nameres::Tree;
use path_resolution::question::Question;
use std::alloc::{AllocError, Global};
use wording::counts::DeliveryCounts;
use wording::items::AccountTold;

/// What is told of a base.
#[derive(Drop)]
pub(crate) struct Base<'s, 'a> {
    /// What came of its deliveries, in their order.
    pub outcomes: Vec<Outcome<'a>>,
    /// Who asks each of its paths, if anyone does.
    pub questions: &'s [Option<Question>],
    pub told: AccountTold,
}

// How many paths stand before the first model.
fn paths_of(survey: &Survey) -> usize
    ensures { result ≡ base_paths survey.now }
{
    survey.firmware.paths_of(Part::Base).end
}

fn questions_of<'s>(survey: &'s Survey<'_, '_>) -> &'s [Option<Question>]
    ensures { result.now ≡ base_questions survey.now }
{
    let questions = survey.firmware.questions.as_slice();
    let paths = paths_of(survey).min(questions.len());
    &questions[..paths]
}

fn told_of(survey: &Survey, account: Account, outcomes: &[Outcome]) -> AccountTold
    requires { account ≡ account_of survey.now }
    ensures { result ≡ base_told survey.now outcomes.now }
{
    AccountTold {
        account,
        modules: survey.tables.modules(),
        paths: paths_of(survey),
        deliveries: DeliveryCounts::of(outcomes),
    }
}

impl<'s, 'a> Base<'s, 'a> {
    /// Makes the base's deliveries to the index. The account is that of the file's items. Fails where memory is wanting.
    pub(crate) fn of<I: Recipient>(
        alloc: Global,
        survey: &'s Survey<'_, 'a>,
        account: Account,
        index: &mut I,
    ) -> Result<Base<'s, 'a>, AllocError>
        requires { account ≡ account_of survey.now }
        ensures made { IfOk result (λ b. BaseRan I.view I.left I.delivers survey.entry.now.firmware.now index.old (vec_items b.outcomes) index.new) }
        ensures questions { IfOk result (λ b. b.questions.now ≡ base_questions survey.entry.now) }
        ensures told { IfOk result (λ b. b.told ≡ base_told survey.entry.now (vec_items b.outcomes)) }
    {
        let statements = survey.firmware.deliveries_of(Part::Base);
        let outcomes = deliver_all(alloc, index, statements)?;
        let told = told_of(survey, account, outcomes.as_slice());
        Ok(Base {
            outcomes,
            questions: questions_of(survey),
            told,
        })
    }
}
