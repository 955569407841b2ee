//! The calls of a session by their numbers, which begin at `first`.

ghost use Rattle.std.specs.Prelude.{◌≡◌, ◌-◌, ◌<◌, ◌≤◌, ◌⊎◌, IfSome, IfNone, length, Some, None};
ghost use Rattle.session_core.specs.Part.{PartState, is_refusal, phase_asked, phase_told, phase_lost, phase_ended};
ghost use Rattle.session_core.specs.State.{CallState};
ghost use Rattle.session_machine.specs.Waiting.{WaitsThere};
ghost use Rattle.session_machine.specs.Calls.{KeepsAt, ReturnsAt, call_in, with_call, with_phase, given_up, replied};

use crate::call::Call;
use crate::part::Part;
use session_core::Cause;
use std::collections::VecDeque;

/// The calls that were not forgotten.
pub(crate) type Calls = VecDeque<Call>;

/// The call of this number, if it was not forgotten.
pub(crate) fn call_of(first: u64, calls: &Calls, call: u64) -> Option<&Call>
    ensures some { IfSome result (λ state. call_in call first calls.now.items ≡ Some state.now) }
    ensures none { IfNone result (call_in call first calls.now.items ≡ None) }
{
    if call < first {
        return None;
    }
    calls.get((call - first) as usize)
}

/// A part that waits to be asked, and its call.
pub(crate) fn waiting<'a>(
    first: u64,
    calls: &'a Calls,
    call: u64,
    part: usize,
) -> Option<(&'a Call, &'a Part)>
    ensures some { IfSome result (λ found. WaitsThere first call part calls.now.items found.0.now found.1.now) }
    ensures none { IfNone result ((state : CallState) (p : PartState)
        → WaitsThere first call part calls.now.items state p → ⊥) }
{
    let Some(state) = call_of(first, calls, call) else {
        return None;
    };
    let Some(it) = state.part(part) else {
        return None;
    };
    if !it.is_waiting() {
        return None;
    }
    Some((state, it))
}

/// Notes that a part was asked on this link, if it waits.
pub(crate) fn note_asked(first: u64, calls: &mut Calls, call: u64, part: usize, link: usize)
    ensures { calls.new.items ≡ with_call call first
        (with_phase part (λ state p. phase_asked link p.phase)) calls.old.items }
{
    if let Some(index) = index_of(first, calls.len(), call) {
        calls[index].note_asked(part, link);
    }
}

/// Notes the reply that came for a part. Returns the reply if the part does not keep it.
pub(crate) fn note_told(
    first: u64,
    calls: &mut Calls,
    call: u64,
    part: usize,
    reply: Vec<u8>,
) -> Option<Vec<u8>>
    ensures told { calls.new.items ≡ with_call call first (with_phase part
        (λ state p. phase_told state.is_wanted (is_refusal p reply.items) reply.items p.phase)) calls.old.items }
    ensures back { IfSome result (λ back. back.items ≡ reply.items) }
    ensures returned { IfSome result (λ back. ReturnsAt call part reply.items first calls.old.items) }
    ensures kept { IfNone result (KeepsAt call part reply.items first calls.new.items) }
{
    let Some(index) = index_of(first, calls.len(), call) else {
        return Some(reply);
    };
    calls[index].note_told(part, reply)
}

/// Notes that the link of a part ended. Some byte of the part was written, or none.
pub(crate) fn note_lost(first: u64, calls: &mut Calls, call: u64, part: usize, begun: bool)
    ensures { calls.new.items ≡ with_call call first
        (with_phase part (λ state p. phase_lost state.is_wanted begun p.phase)) calls.old.items }
{
    if let Some(index) = index_of(first, calls.len(), call) {
        calls[index].note_lost(part, begun);
    }
}

/// Notes that a part is not asked any more, if it waits.
pub(crate) fn note_ended(first: u64, calls: &mut Calls, call: u64, part: usize, cause: Cause)
    ensures { calls.new.items ≡ with_call call first
        (with_phase part (λ state p. phase_ended cause p.phase)) calls.old.items }
{
    if let Some(index) = index_of(first, calls.len(), call) {
        calls[index].note_ended(part, cause);
    }
}

/// Notes that nobody waits for the reply to a call any more.
pub(crate) fn give_up(first: u64, calls: &mut Calls, call: u64)
    ensures { calls.new.items ≡ with_call call first given_up calls.old.items }
{
    if let Some(index) = index_of(first, calls.len(), call) {
        calls[index].give_up();
    }
}

/// Notes that the reply to a call was made.
pub(crate) fn note_replied(first: u64, calls: &mut Calls, call: u64)
    ensures { calls.new.items ≡ with_call call first replied calls.old.items }
{
    if let Some(index) = index_of(first, calls.len(), call) {
        calls[index].note_replied();
    }
}

/// Puts another call in the place of one.
pub(crate) fn replace(first: u64, calls: &mut Calls, call: u64, new: Call)
    ensures { calls.new.items ≡ with_call call first (λ state. new) calls.old.items }
{
    if let Some(index) = index_of(first, calls.len(), call) {
        calls[index] = new;
    }
}

/// Where a call stands among so many.
fn index_of(first: u64, count: usize, call: u64) -> Option<usize>
    ensures some { IfSome result (λ index. (first ≤ call) × (index ≡ call - first) × (index < count)) }
    ensures none { IfNone result ((call < first) ⊎ (count ≤ call - first)) }
{
    if call < first {
        return None;
    }
    let index = (call - first) as usize;
    if index < count { Some(index) } else { None }
}
