// Whether two orders of a model's deliveries come to the same, told by the statements of the file.
ghost use Rattle.std.specs.Prelude.{◌≡◌, ◌↔◌, IfOk, vec_items, filter, length};
ghost use Rattle.std.specs.List.{slice_get};
ghost use Rattle.std.specs.Option.{option_and_then};
ghost use Rattle.orders.specs.Agreements.{Agrees};
ghost use Rattle.orders.specs.Orders.{reordered, IsOneKind};
ghost use Rattle.model_wording.specs.declared.comparison.Comparison.TheVariants.{Alone};
ghost use Rattle.model_wording.specs.Comparing.{is_by_glob, is_by_name, joined, calls_in, compared, comparison_of, position_of, IsParted, PartedBelow, TellsParted, TellsOrder, HasStatement, TellsCallAt};

use firmware::file::DeliveryStatement;
use orders::agreement::Agreement;
use orders::order::Order;
use std::alloc::{AllocError, Global};

/// What the file's order of a model's deliveries and another order come to.
#[derive(Clone, Copy)]
pub enum Comparison<'a> {
    /// All deliveries are by name, or all by glob, so that the other order is the same.
    Alone,
    /// Each delivery is taken in both orders or refused in both, so that every question has one answer. The statement is the first
    /// in the other order that changed a place in one order and none in the other.
    Agree(Order, Option<DeliveryStatement<'a>>),
    /// A delivery is taken in one order and refused in the other. The statement is the first such in the other order.
    Parted(Order, Option<DeliveryStatement<'a>>),
}

#[tactic(auto, using(crate::proofs::Filtered::taken, crate::proofs::Filtered::passed))]
fn by_glob<'a>(
    alloc: Global,
    statements: &[DeliveryStatement<'a>],
) -> Result<Vec<DeliveryStatement<'a>>, AllocError>
    ensures { IfOk result (λ v. vec_items v ≡ filter is_by_glob statements.now) }
{
    let mut globs = Vec::new(alloc);
    for statement in statements {
        if statement.delivery.is_by_glob() {
            globs.push(*statement)?;
        }
    }
    Ok(globs)
}

#[tactic(auto, using(crate::proofs::Filtered::taken, crate::proofs::Filtered::passed))]
fn by_name<'a>(
    alloc: Global,
    statements: &[DeliveryStatement<'a>],
) -> Result<Vec<DeliveryStatement<'a>>, AllocError>
    ensures { IfOk result (λ v. vec_items v ≡ filter is_by_name statements.now) }
{
    let mut names = Vec::new(alloc);
    for statement in statements {
        if !statement.delivery.is_by_glob() {
            names.push(*statement)?;
        }
    }
    Ok(names)
}

// The statements of both kinds, in the order.
fn joined<'a>(
    globs: Vec<DeliveryStatement<'a>>,
    names: Vec<DeliveryStatement<'a>>,
    order: Order,
) -> Result<Vec<DeliveryStatement<'a>>, AllocError>
    ensures { IfOk result (λ v. vec_items v ≡ joined order (vec_items globs.entry) (vec_items names.entry)) }
{
    let (mut first, second) = match order {
        Order::NamesFirst => (names, globs),
        Order::GlobsFirst => (globs, names),
    };
    first.extend_from_slice(second.as_slice())?;
    Ok(first)
}

// The statement at that position, if there is one.
fn at<'a>(
    statements: &[DeliveryStatement<'a>],
    position: Option<usize>,
) -> Option<DeliveryStatement<'a>>
    ensures { result ≡ option_and_then (slice_get statements.now) position }
{
    let position = position?;
    statements.get(position).copied()
}

impl<'a> Comparison<'a> {
    // What the agreement says of statements that stand in the other order, and of which all are of one kind or not.
    fn told(
        statements: &[DeliveryStatement<'a>],
        alone: bool,
        order: Order,
        agreement: Agreement,
    ) -> Comparison<'a>
        ensures { result ≡ compared statements.now alone order agreement }
    {
        match agreement {
            Agreement::Agree { differed } => {
                if alone {
                    Comparison::Alone
                } else {
                    Comparison::Agree(order, at(statements, differed))
                }
            }
            Agreement::Parted(position) => {
                let parted = at(statements, Some(position));
                Comparison::Parted(order, parted)
            }
        }
    }

    /// What the agreement of the statements' order with that other order says of them. Fails where memory is wanting.
    #[tactic(auto, using(crate::proofs::Joined::parted, crate::proofs::Joined::tells_call, crate::proofs::Alone::tells_order))]
    pub fn of(
        alloc: Global,
        statements: &[DeliveryStatement<'a>],
        order: Order,
        agreement: Agreement,
    ) -> Result<Comparison<'a>, AllocError>
        ensures value { IfOk result (λ c. c ≡ comparison_of statements.now order agreement) }
        // No other order is told exactly where none of them is by glob, or all are, and the two orders agree.
        ensures alone { IfOk result (λ c. (c ≡ Alone) ↔ (Agrees agreement × IsOneKind (calls_in statements.now))) }
        // Else the other order is the one that was given.
        ensures order { IfOk result (TellsOrder order) }
        ensures parted { IfOk result (λ c. TellsParted c ↔ IsParted agreement) }
        ensures stands { PartedBelow (length statements.now) agreement → IfOk result HasStatement }
        // The statement that is told is the one whose call stands at the agreement's position in the other order.
        ensures position { IfOk result (TellsCallAt (reordered order (calls_in statements.now)) (position_of agreement)) }
    {
        let globs = by_glob(alloc, statements)?;
        let names = by_name(alloc, statements)?;
        let alone = globs.is_empty() || names.is_empty();
        let list = joined(globs, names, order)?;
        Ok(Comparison::told(list.as_slice(), alone, order, agreement))
    }
}
