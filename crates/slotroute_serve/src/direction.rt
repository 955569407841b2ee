ghost use Rattle.std.specs.Prelude.{◌≡◌, IfOk};
ghost use Rattle.slotroute_serve.specs.Direction.{send_order};

use std::alloc::{AllocError, Global};

/// The order in which the parts of a command are sent.
#[derive(Debug, Drop, PartialEq)]
pub enum Direction {
    /// By ascending numbers of the routes.
    Forward,
    /// By descending numbers of the routes.
    Reverse,
}

/// The numbers of `count` routes, in the order in which their parts are sent.
pub(super) fn send_order(
    alloc: Global,
    direction: &Direction,
    count: usize,
) -> Result<Vec<usize>, AllocError>
    ensures { IfOk result (λ order. order.items ≡ send_order direction.now count) }
{
    let mut order: Vec<usize> = (0..count).collect(alloc)?;
    match direction {
        Direction::Forward => {}
        Direction::Reverse => order.reverse(),
    }
    Ok(order)
}
