//! What parts that were on their way are told.

ghost use Rattle.std.specs.Prelude.{◌≡◌};
ghost use Rattle.session_machine.specs.Calls.{with_told, with_lost};
ghost use Rattle.session_machine.specs.Kept.{CanFollow, Follows};
ghost use Rattle.session_machine.specs.Took.{IsTold};

use crate::caller::CallPlaces;
use crate::callers::Callers;
use crate::calls;
use crate::calls::Calls;
use crate::part_places::follow;
use crate::took::Took;
use session_core::Seat;
use std::collections::VecDeque;

/// Gives a part that was on its way this reply.
pub(crate) fn tell(
    first: u64,
    calls: &mut Calls,
    places: &VecDeque<CallPlaces>,
    callers: &mut Callers,
    call: u64,
    part: usize,
    reply: Vec<u8>,
) -> Took
    requires { CanFollow first call part (with_told call part reply.items first calls.old.items)
        places.now.items callers.old }
    ensures calls { calls.new.items ≡ with_told call part reply.items first calls.old.items }
    ensures callers { Follows first call part calls.new.items places.now.items callers.old callers.new }
    ensures took { IsTold call part reply.items first calls.old.items calls.new.items result }
{
    let back = calls::note_told(first, calls, call, part, reply);
    follow(first, calls, places, callers, call, part);
    let seat = Seat { call, part };
    match back {
        Some(reply) => Took::Back(seat, reply),
        None => Took::Kept(seat),
    }
}

/// Notes that the link of a part that was on its way ended.
pub(crate) fn lose(
    first: u64,
    calls: &mut Calls,
    places: &VecDeque<CallPlaces>,
    callers: &mut Callers,
    call: u64,
    part: usize,
    begun: bool,
)
    requires { CanFollow first call part (with_lost call part begun first calls.old.items)
        places.now.items callers.old }
    ensures calls { calls.new.items ≡ with_lost call part begun first calls.old.items }
    ensures callers { Follows first call part calls.new.items places.now.items callers.old callers.new }
{
    calls::note_lost(first, calls, call, part, begun);
    follow(first, calls, places, callers, call, part);
}
