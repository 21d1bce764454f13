// A model's deliveries, made in two orders to two variants over one index.
ghost use Rattle.std.specs.Prelude.{◌≡◌, IfOk, vec_items, map, length, true};
ghost use Rattle.std.specs.List.{slice_get};
ghost use Rattle.entries.specs.Entries.{is_nothing};
ghost use Rattle.orders.specs.Orders.{other_order};
ghost use Rattle.variants.specs.Variants.{below_of, own_in};
ghost use Rattle.firmware.specs.declared.pile.Part.TheVariants.{Model};
ghost use Rattle.firmware.specs.Parts.{deliveries_in};
ghost use Rattle.model_runs.specs.Calls.{calls_in, result_of, result_at, outcomes_of};
ghost use Rattle.model_runs.specs.Made.{IsMadeBy, RanOver, Compares, NamesBelow};

use entries::per_ns::PerNs;
use firmware::deliveries::{Outcome, deliver_all};
use firmware::file::{DeliveryStatement, Firmware};
use firmware::pile::Part;
use hir_def::fault::IndexFault;
use hir_def::{ModuleId, Name};
use item_scope::delivery::Delivery;
use item_scope::index::Index;
use orders::agreement::Agreement;
use orders::compare::compare_orders;
use orders::order::Order;
use path_resolution::question::{BuiltinShadowMode, Question, ResolveMode};
use path_text::mod_path::{ModPath, PathKind};
use runs::calls::Call;
use std::alloc::{AllocError, Global};
use variants::variant::Variant;

// What the comparison of two orders asks beside the deliveries; the answers are not kept.
const ASKED: Question = Question {
    mode: ResolveMode::Other,
    original_module: ModuleId(0),
    shadow: BuiltinShadowMode::Other,
    expected_macro_subns: None,
};

// A delivery that fills no namespace, so that every index refuses it and stays as it is.
fn nothing() -> Delivery
    ensures { is_nothing result.entries ≡ true }
{
    Delivery {
        receiver: ModuleId(0),
        name: Name(0),
        entries: PerNs::none(),
        import: None,
    }
}

#[tactic(auto, using(crate::proofs::Steps::mapped))]
fn deliveries_of(
    alloc: Global,
    statements: &[DeliveryStatement],
) -> Result<Vec<Delivery>, AllocError>
    ensures { IfOk result (λ v. vec_items v ≡ map (λ s. s.delivery) statements.now) }
{
    let mut deliveries = Vec::new(alloc);
    for statement in statements {
        deliveries.push(statement.delivery)?;
    }
    Ok(deliveries)
}

/// A variant over the index, to which the deliveries of a model are made in their order.
pub fn with_model<'a, I: Index>(
    alloc: Global,
    firmware: &Firmware,
    model: usize,
    below: &'a I,
) -> Result<Variant<'a, I>, AllocError>
    ensures made { IfOk result (λ x. IsMadeBy (deliveries_in firmware.now (Model model)) (I.view below.entry.now) (own_in x)) }
    ensures below { IfOk result (λ x. below_of x ≡ below.entry.now) }
{
    let mut variant = Variant::new(below);
    let statements = firmware.deliveries_of(Part::Model(model));
    let _outcomes = deliver_all(alloc, &mut variant, statements)?;
    Ok(variant)
}

// What came of a call, if it is a delivery that was made.
fn result_of(call: &Call<'_>) -> Option<Result<bool, IndexFault>>
    ensures { result ≡ result_of call.now }
{
    match call {
        Call::Deliver(_, result) => *result,
        Call::Ask(_, _, _) => None,
    }
}

// What came of the call at that position.
fn result_at(calls: &[Call<'_>], position: usize) -> Option<Result<bool, IndexFault>>
    ensures { result ≡ result_at (slice_get calls.now position) }
{
    match calls.get(position) {
        Some(call) => result_of(call),
        None => None,
    }
}

// The statements with what came of the calls beside them.
#[tactic(auto, using(crate::proofs::Steps::one_outcome_more, std::proofs::lemmas::List::take_all))]
fn outcomes_of<'s>(
    alloc: Global,
    statements: &[DeliveryStatement<'s>],
    calls: &[Call<'_>],
) -> Result<Vec<Outcome<'s>>, AllocError>
    ensures { IfOk result (λ v. vec_items v ≡ outcomes_of statements.now calls.now) }
{
    let mut outcomes = Vec::new(alloc);
    for (i, statement) in statements.iter().enumerate() {
        match result_at(calls, i) {
            Some(result) => outcomes.push(Outcome {
                statement: *statement,
                result,
            })?,
            None => (),
        }
    }
    Ok(outcomes)
}

/// A model's index, and what came of its deliveries in two orders.
#[derive(Drop)]
pub struct Made<'a, 's, I: Index> {
    /// The model: a variant with the deliveries in the order in which they were given.
    pub index: Variant<'a, I>,
    /// A variant with the deliveries in the other order.
    pub other: Variant<'a, I>,
    /// The statements in that order, each with what came of its delivery.
    pub outcomes: Vec<Outcome<'s>>,
    /// The other order.
    pub order: Order,
    /// Whether the deliveries come to the same in the other order; positions are those of that one.
    pub agreement: Agreement,
}

/// Makes the deliveries of the statements to two variants over the index: to the model in their order, and to the other one in the
/// other order. Fails where memory is wanting.
pub fn make_model<'a, 's, I: Index>(
    alloc: Global,
    below: &'a I,
    statements: &[DeliveryStatement<'s>],
) -> Result<Made<'a, 's, I>, AllocError>
    // What came of each delivery, and which places of its own the model has after all of them.
    ensures run { IfOk result (λ m. RanOver (I.view below.entry.now) statements.now (vec_items m.outcomes) (own_in m.index)) }
    ensures order { IfOk result (λ m. m.order ≡ other_order (calls_in statements.now)) }
    // Whether the other order comes to the same; where it does, every question has one answer in both.
    ensures compared { IfOk result (λ m. Compares (I.view below.entry.now) (vec_items m.outcomes) (own_in m.index)
        m.order m.agreement (own_in m.other)) }
    ensures below { IfOk result (λ m. (below_of m.index ≡ below.entry.now) × (below_of m.other ≡ below.entry.now)) }
    ensures within { IfOk result (λ m. NamesBelow (length statements.now) m.agreement) }
{
    let deliveries = deliveries_of(alloc, statements)?;
    let mut first = Variant::new(below);
    let mut second = Variant::new(below);
    let path = ModPath {
        kind: PathKind::Super(0),
        names: Vec::new(alloc),
    };
    let orders = compare_orders(
        alloc,
        &mut first,
        &mut second,
        deliveries.as_slice(),
        ASKED,
        &path,
        nothing(),
    )?;
    let outcomes = outcomes_of(alloc, statements, orders.first.as_slice())?;
    Ok(Made {
        index: first,
        other: second,
        outcomes,
        order: orders.order,
        agreement: orders.agreement,
    })
}
