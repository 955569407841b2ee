//! The parts of a call that is given up.

ghost use Rattle.std.specs.Prelude.{◌≡◌, ◌+◌, ◌≤◌, true, false};
ghost use Rattle.session_core.specs.Order.{IsWaiting};
ghost use Rattle.session_machine.specs.Ties.{end_of, given_up, OrderGoes};

use session_core::{CallerOrder, Status};

/// Gives up the parts at so many places that wait.
pub(crate) fn give_up(order: &mut CallerOrder, place: u64, count: usize)
    requires { place + count ≤ end_of order.old }
    ensures { OrderGoes (given_up place count) order.old order.new }
{
    // No place is past the end, so that this sum does not wrap.
    let end = order.end().min(place + count as u64);
    for at in place..end {
        give_up_one(order, at);
    }
}

/// Gives up the part at a place, if it waits.
fn give_up_one(order: &mut CallerOrder, place: u64)
    ensures { OrderGoes (given_up place 1) order.old order.new }
{
    if is_waiting(order, place) {
        order.note_unsent(place);
    }
}

/// Whether the part at a place is left and waits.
fn is_waiting(order: &CallerOrder, place: u64) -> bool
    ensures waits { result ≡ true → IsWaiting place order.now }
    ensures not { result ≡ false → IsWaiting place order.now → ⊥ }
{
    match order.part(place) {
        Some(part) => matches!(part.status, Status::Waits),
        None => false,
    }
}
