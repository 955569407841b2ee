//! The parts of calls in the orders of their callers.

ghost use Rattle.std.specs.Prelude.{◌≡◌, ◌+◌, ◌-◌, ◌^◌, ◌<◌, ◌≤◌, true, false, ℕ, Some, None, IfSome, length, slice_get};
ghost use Rattle.session_core.specs.declared.ordered_part.Status.TheVariants.{Waits, Asked, Unsent};
ghost use Rattle.session_core.specs.Order.{MayAsk, OnLink, IsTrimmed, IsWaiting, IsOnItsWay, with_status, trimmed};
ghost use Rattle.session_core.specs.declared.part.PartOrder.TheVariants.{Free};
ghost use Rattle.session_core.specs.Part.{PartState};
ghost use Rattle.session_machine.specs.Ties.{is_ordered, is_owed, end_of};
ghost use Rattle.session_machine.specs.declared.caller.CallPlaces.{CallPlaces};
ghost use Rattle.session_machine.specs.Callers.{order_of, owed_of, OnlyOrder};
ghost use Rattle.session_machine.specs.Kept.{PartGoes, CallGoes, CanFollow, Follows};

use crate::call::Call;
use crate::caller::CallPlaces;
use crate::callers::Callers;
use crate::calls::{Calls, call_of};
use session_core::{PartOrder, Status};
use std::collections::VecDeque;

/// The place of a part in the order of its caller, if it is ordered.
pub(crate) fn place_of(
    first: u64,
    places: &VecDeque<CallPlaces>,
    call: u64,
    part: usize,
    order: PartOrder,
) -> u64
    requires within { (first ≤ call) × (call - first < length places.now.items) }
    requires fits { is_ordered order ≡ true → (at : CallPlaces)
        → slice_get places.now.items (call - first) ≡ Some at → at.order + part < 2 ^ 64 }
    ensures { is_ordered order ≡ true → (at : CallPlaces)
        → slice_get places.now.items (call - first) ≡ Some at → result ≡ at.order + part }
{
    match order {
        PartOrder::OfSlot(_) | PartOrder::Whole => {
            places[(call - first) as usize].order + part as u64
        }
        PartOrder::Free => 0,
    }
}

/// The place of a part in the order of its caller, if the part is ordered and the place is below 2^64.
pub(crate) fn ordered_place(
    first: u64,
    places: &VecDeque<CallPlaces>,
    call: u64,
    part: usize,
    order: PartOrder,
) -> Option<u64>
    requires within { (first ≤ call) × (call - first < length places.now.items) }
    ensures ordered { IfSome result (λ place. is_ordered order ≡ true) }
    ensures place { IfSome result (λ place. (at : CallPlaces)
        → slice_get places.now.items (call - first) ≡ Some at → place ≡ at.order + part) }
{
    match order {
        PartOrder::OfSlot(_) | PartOrder::Whole => {
            places[(call - first) as usize]
                .order
                .checked_add(part as u64)
        }
        PartOrder::Free => None,
    }
}

/// Whether the order lets a part be asked on a link.
pub(crate) fn is_offered(
    callers: &Callers,
    caller: u64,
    place: u64,
    order: PartOrder,
    link: usize,
) -> bool
    ensures yes { result ≡ true → is_ordered order ≡ true → MayAsk place link (order_of caller callers.now) }
    ensures no { result ≡ false → (is_ordered order ≡ true) × (MayAsk place link (order_of caller callers.now) → ⊥) }
{
    match order {
        PartOrder::OfSlot(_) | PartOrder::Whole => is_askable(callers, caller, place, link),
        PartOrder::Free => true,
    }
}

fn is_askable(callers: &Callers, caller: u64, place: u64, link: usize) -> bool
    ensures yes { result ≡ true → MayAsk place link (order_of caller callers.now) }
    ensures no { result ≡ false → MayAsk place link (order_of caller callers.now) → ⊥ }
{
    match callers.askable(caller, place) {
        Some(askable) => is_on(askable.link, link),
        None => false,
    }
}

/// Whether a part that may be asked on this link alone, or on any, may be asked on that link.
fn is_on(only: Option<usize>, link: usize) -> bool
    ensures yes { result ≡ true → OnLink only link }
    ensures no { result ≡ false → OnLink only link → ⊥ }
{
    match only {
        Some(number) => number == link,
        None => true,
    }
}

/// Notes that a part was asked on a link.
pub(crate) fn note_asked(
    callers: &mut Callers,
    caller: u64,
    place: u64,
    order: PartOrder,
    link: usize,
)
    requires { is_ordered order ≡ true → MayAsk place link (order_of caller callers.old) }
    ensures { PartGoes caller place order (Asked link) callers.old callers.new }
{
    if is_ordered(order) {
        callers.note_asked(caller, place, link);
    }
}

/// Notes in the order of its caller what became of a part that was on its way.
#[inline(always)]
pub(crate) fn follow(
    first: u64,
    calls: &Calls,
    places: &VecDeque<CallPlaces>,
    callers: &mut Callers,
    call: u64,
    part: usize,
)
    requires { CanFollow first call part calls.now.items places.now.items callers.old }
    ensures { Follows first call part calls.now.items places.now.items callers.old callers.new }
{
    let Some(state) = call_of(first, calls, call) else {
        return;
    };
    let Some(it) = state.part(part) else {
        return;
    };
    let order = it.order();
    let place = place_of(first, places, call, part, order);
    note_moved(callers, state.caller(), place, order, it.status());
}

/// Notes what became of a part that was on its way.
fn note_moved(callers: &mut Callers, caller: u64, place: u64, order: PartOrder, status: Status)
    requires on_way { is_ordered order ≡ true → IsOnItsWay place (order_of caller callers.old) }
    requires moved { (link : ℕ) → status ≡ Asked link → ⊥ }
    ensures { PartGoes caller place order status callers.old callers.new }
{
    if !is_ordered(order) {
        return;
    }
    match status {
        Status::Waits => callers.note_refused(caller, place),
        Status::Settled => callers.note_settled(caller, place),
        Status::Unsent => note_never(callers, caller, place),
        Status::Asked(_) => unreachable!(),
    }
}

/// Notes that a part on its way did not run, and never will.
fn note_never(callers: &mut Callers, caller: u64, place: u64)
    requires { IsOnItsWay place (order_of caller callers.old) }
    ensures order { order_of caller callers.new
        ≡ trimmed (with_status place Unsent (with_status place Waits (order_of caller callers.old))) }
    ensures only { OnlyOrder caller callers.old callers.new }
{
    callers.note_refused(caller, place);
    callers.note_unsent(caller, place);
}

/// Notes that a part that waits will not be asked any more.
pub(crate) fn note_unsent(callers: &mut Callers, caller: u64, place: u64, order: PartOrder)
    requires { is_ordered order ≡ true → IsWaiting place (order_of caller callers.old) }
    ensures { PartGoes caller place order Unsent callers.old callers.new }
{
    if is_ordered(order) {
        callers.note_unsent(caller, place);
    }
}

/// Whether a part has an order with parts of other calls.
pub(crate) fn is_ordered(order: PartOrder) -> bool
    ensures { result ≡ is_ordered order }
{
    !matches!(order, PartOrder::Free)
}

/// The order of the first part of a call. Without parts, this is [`PartOrder::Free`].
pub(crate) fn first_order(state: &Call) -> PartOrder
    ensures some { (p : PartState) → slice_get state.now.parts 0 ≡ Some p → result ≡ p.order }
    ensures none { slice_get state.now.parts 0 ≡ None → result ≡ Free }
{
    match state.part(0) {
        Some(it) => it.order(),
        None => PartOrder::Free,
    }
}

/// Notes that the parts of a call that wait will not be asked any more.
pub(crate) fn note_given_up(
    callers: &mut Callers,
    caller: u64,
    place: u64,
    count: usize,
    order: PartOrder,
)
    requires { is_ordered order ≡ true → place + count ≤ end_of (order_of caller callers.old) }
    ensures { CallGoes caller place count order callers.old callers.new }
{
    if is_ordered(order) {
        callers.note_all_unsent(caller, place, count);
    }
}

/// Whether the part at a place was forgotten there, if it is ordered. The first part that is left is not
/// done.
pub(crate) fn is_past(callers: &Callers, caller: u64, place: u64, order: PartOrder) -> bool
    ensures yes { result ≡ true → is_ordered order ≡ true → place < (order_of caller callers.now).first }
    ensures no { result ≡ false → (is_ordered order ≡ true) × ((order_of caller callers.now).first ≤ place)
        × IsTrimmed (order_of caller callers.now) }
{
    if !is_ordered(order) {
        return true;
    }
    callers.is_past(caller, place)
}

/// Whether a caller is owed a reply to an earlier call than this.
pub(crate) fn owes_before(callers: &Callers, caller: u64, call: u64) -> bool
    ensures yes { result ≡ true → (earlier : ℕ) × (is_owed earlier (owed_of caller callers.now) ≡ true) × (earlier < call) }
    ensures no { result ≡ false → (other : ℕ) → is_owed other (owed_of caller callers.now) ≡ true → call ≤ other }
{
    match callers.next_reply(caller) {
        Some(next) => next < call,
        None => false,
    }
}
