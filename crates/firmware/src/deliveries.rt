// The deliveries of a file, made to an index one by one.
ghost use Rattle.std.specs.Prelude.{◌≡◌, IfOk, OnErr, vec_items};
ghost use Rattle.firmware.specs.Deliveries.{Ran, Made};

use crate::file::DeliveryStatement;
use hir_def::fault::IndexFault;
use item_scope::index::{Recipient, deliver};
use std::alloc::{AllocError, Global};

/// A delivery, and what the index answered to it: whether any namespace changed, or why it is refused.
#[derive(Clone, Copy)]
pub struct Outcome<'a> {
    pub statement: DeliveryStatement<'a>,
    pub result: Result<bool, IndexFault>,
}

/// Makes all deliveries in their order, and tells what the index answered to each. All memory is taken before, so that want of it
/// leaves the index as it was.
pub fn deliver_all<'a, I: Recipient>(
    alloc: Global,
    index: &mut I,
    statements: &[DeliveryStatement<'a>],
) -> Result<Vec<Outcome<'a>>, AllocError>
    ensures ran { IfOk result (λ v. Ran (I.view index.old) (I.left index.old) statements.now (vec_items v) (I.view index.new) (I.left index.new)) }
    // Of the index itself: each delivery did what the index's own rule says, and nothing else did anything.
    ensures made { IfOk result (λ v. Made I.delivers index.old (vec_items v) index.new) }
    ensures untouched { OnErr result (index.new ≡ index.old) }
{
    let mut outcomes = Vec::with_capacity(alloc, statements.len())?;
    for statement in statements.iter() {
        let result = deliver(index, statement.delivery);
        outcomes.push_reserved(Outcome {
            statement: *statement,
            result,
        });
    }
    Ok(outcomes)
}
