ghost use Rattle.std.specs.Prelude.{◌≡◌, ◌≢◌, ◌∷◌, [], Some, true, IsTrue};
ghost use Rattle.session_core.specs.State.{CallState, call_at};
ghost use Rattle.redis_session.specs.Leads.{Advances, BeginsCall, GivesUp, IsRefused};
ghost use Rattle.redis_session.specs.declared.refusal.CallRefusal as refused;
ghost use Rattle.slotroute_c.specs.Outcomes.{code, is_one_of};
ghost use Rattle.slotroute_c.specs.Refused.{of_refusal};

use crate::outcomes::Outcome;
use crate::session_handle::SessionHandle;
use redis_session::CallRefusal;
use resp::RequestFault;
use std::alloc::Global;

/// Begins a call: a request of a caller, as the bytes of one command. Writes the number of the call to
/// `call`. If its reply is not there at `deadline`, the caller is told so.
///
/// # Errors
///
/// The code of the refusal. Nothing of the request is asked then. `slotroute_refusal_reply` has the
/// reply that says so.
#[unsafe(no_mangle)]
pub extern "C" fn slotroute_session_begin(
    alloc: Global,
    session: &mut SessionHandle,
    caller: u64,
    request: &[u8],
    deadline: u64,
    call: &mut u64,
) -> u32
    ensures done { result ≡ code Outcome.Done
        → BeginsCall caller request.now deadline call.new session.old.value session.new.value }
    ensures refused { result ≢ code Outcome.Done → (refusal : refused.CallRefusal)
        × (result ≡ code (of_refusal refusal)) × (session.new.value ≡ session.old.value)
        × (call.new ≡ call.old) × IsRefused session.old.value request.now refusal }
{
    match session.get_mut().begin(alloc, caller, request, deadline) {
        Ok(number) => {
            *call = number;
            Outcome::Done.code()
        }
        Err(refusal) => code_of_refusal(refusal),
    }
}

/// The code of a refusal.
fn code_of_refusal(refusal: CallRefusal) -> u32
    ensures code { result ≡ code (of_refusal refusal) }
    ensures not_done { result ≢ code Outcome.Done }
{
    match refusal {
        CallRefusal::Memory => Outcome::NoMemory.code(),
        CallRefusal::Unread(RequestFault::Incomplete) => Outcome::RequestIncomplete.code(),
        CallRefusal::Unread(RequestFault::Malformed(_)) => Outcome::RequestMalformed.code(),
        CallRefusal::AfterRequest(_) => Outcome::AfterRequest.code(),
        CallRefusal::NotTaken => Outcome::NotTaken.code(),
        CallRefusal::Blocking => Outcome::Blocking.code(),
        CallRefusal::NoRoute => Outcome::NotRoutable.code(),
        CallRefusal::NoOneReply => Outcome::NoForm.code(),
        CallRefusal::Limit => Outcome::TooMany.code(),
    }
}

/// Notes that the caller waits no more for the reply to a call. It gets none, and nothing of the call
/// is asked any more.
///
/// # Errors
///
/// `NotThere` if nobody waited for it.
#[unsafe(no_mangle)]
pub extern "C" fn slotroute_session_give_up(
    alloc: Global,
    session: &mut SessionHandle,
    call: u64,
) -> u32
    ensures done { result ≡ code Outcome.Done
        → GivesUp call session.old.value session.new.value }
    ensures not_there { result ≡ code Outcome.NotThere → session.new.value ≡ session.old.value }
    ensures why { result ≡ code Outcome.NotThere → (state : CallState)
        → call_at call session.old.value.machine ≡ Some state → state.is_wanted ≡ true → ⊥ }
    ensures no_other { IsTrue (is_one_of result (Outcome.Done ∷ Outcome.NotThere ∷ [])) }
{
    if session.get_mut().give_up(alloc, call) {
        Outcome::Done.code()
    } else {
        Outcome::NotThere.code()
    }
}

/// Notes what time it is. Pauses and calls whose time is over end.
///
/// # Errors
///
/// `NoMemory` if memory runs out for requests that are asked now. A later call asks them.
#[unsafe(no_mangle)]
pub extern "C" fn slotroute_session_advance(
    alloc: Global,
    session: &mut SessionHandle,
    now: u64,
) -> u32
    ensures advances { Advances now session.old.value session.new.value }
    ensures no_other { IsTrue (is_one_of result (Outcome.Done ∷ Outcome.NoMemory ∷ [])) }
{
    match session.get_mut().advance(alloc, now) {
        Ok(()) => Outcome::Done.code(),
        Err(_) => Outcome::NoMemory.code(),
    }
}

/// Writes the time at which `slotroute_session_advance` is to be called next to `time`.
///
/// # Errors
///
/// `NotThere` if nothing waits for a time.
#[unsafe(no_mangle)]
pub extern "C" fn slotroute_session_next_time(session: &mut SessionHandle, time: &mut u64) -> u32
    ensures unchanged { session.new.value ≡ session.old.value }
    ensures unwritten { result ≢ code Outcome.Done → time.new ≡ time.old }
    ensures no_other { IsTrue (is_one_of result (Outcome.Done ∷ Outcome.NotThere ∷ [])) }
{
    match session.get_mut().next_time() {
        Some(next) => {
            *time = next;
            Outcome::Done.code()
        }
        None => Outcome::NotThere.code(),
    }
}
