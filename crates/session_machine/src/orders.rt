//! The orders of the parts of a call that begins.

ghost use Rattle.std.specs.Prelude.{◌≡◌, [], ◌∷◌, IfOk, IfSome};
ghost use Rattle.session_machine.specs.Begun.{ordered_of, orders_in};

use crate::part::Part;
use crate::part_places::is_ordered;
use session_core::PartOrder;
use std::alloc::{AllocError, Global};
use std::slice;

/// The orders of the parts of a call that have one. Those of a call of one part take no memory.
#[derive(Drop)]
pub(crate) enum Orders {
    One(PartOrder),
    Several(Vec<PartOrder>),
}

impl Orders {
    /// The orders, as those of the parts follow one another.
    pub(crate) fn as_slice(&self) -> &[PartOrder]
        ensures { result.now ≡ orders_in self.now }
    {
        match self {
            Orders::One(order) => slice::from_ref(order),
            Orders::Several(orders) => orders.as_slice(),
        }
    }
}

/// The orders of the parts that are ordered.
pub(crate) fn orders_of(alloc: Global, parts: &[Part]) -> Result<Orders, AllocError>
    ensures { IfOk result (λ orders. orders_in orders ≡ ordered_of parts.now) }
{
    if let Some(order) = one_order(parts) {
        return Ok(Orders::One(order));
    }
    let orders = all_orders(alloc, parts)?;
    Ok(Orders::Several(orders))
}

/// The order of the only part, if there is one part and it is ordered.
fn one_order(parts: &[Part]) -> Option<PartOrder>
    ensures { IfSome result (λ order. ordered_of parts.now ≡ order ∷ []) }
{
    let [part] = parts else {
        return None;
    };
    let order = part.order();
    if is_ordered(order) { Some(order) } else { None }
}

fn all_orders(alloc: Global, parts: &[Part]) -> Result<Vec<PartOrder>, AllocError>
    ensures { IfOk result (λ orders. orders.items ≡ ordered_of parts.now) }
{
    parts
        .iter()
        .map(|part| part.order())
        .filter(|order| is_ordered(*order))
        .collect(alloc)
}
