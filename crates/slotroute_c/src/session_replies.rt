ghost use Rattle.std.specs.Prelude.{◌≡◌, ◌≢◌, ◌<◌, ◌≤◌, ◌∷◌, ℕ, [], IsTrue, drop, length};
ghost use Rattle.redis_session.specs.Due.{IsDone};
ghost use Rattle.redis_session.specs.Leads.{GivesReply, Leads};
ghost use Rattle.redis_session.specs.SessionStates.{last_reply, without_reply};
ghost use Rattle.redis_session.specs.Refusals.{refusal_reply};
ghost use Rattle.redis_session.specs.declared.refusal.CallRefusal as refused;
ghost use Rattle.slotroute_c.specs.Buffers.{IsWritten};
ghost use Rattle.slotroute_c.specs.Outcomes.{code, is_one_of};
ghost use Rattle.slotroute_c.specs.Refused.{of_refusal, reply_of_code};

use crate::buffers::put;
use crate::outcomes::Outcome;
use crate::session_handle::SessionHandle;
use redis_session::CallRefusal;
use resp::RequestFault;
use std::alloc::Global;

/// The caller and the call of a reply.
#[repr(C)]
#[derive(Clone, Copy)]
pub struct SessionReply {
    pub caller: u64,
    pub call: u64,
    /// How many bytes the reply has.
    pub bytes: usize,
}

/// Names the next reply in `reply`. `slotroute_session_reply` has its bytes up to the next call of this
/// function.
///
/// # Errors
///
/// `NotThere` if no reply is there. `NoMemory` if memory runs out: the replies that are there
/// come in later calls.
#[unsafe(no_mangle)]
pub extern "C" fn slotroute_session_next_reply(
    alloc: Global,
    session: &mut SessionHandle,
    reply: &mut SessionReply,
) -> u32
    ensures given { result ≡ code Outcome.Done
        → GivesReply reply.new.caller reply.new.call session.old.value session.new.value }
    // Without a reply, none goes out.
    ensures leads { result ≢ code Outcome.Done
        → Leads (without_reply session.old.value) session.new.value }
    // If none is there, there is none to a call whose parts are done.
    ensures all { result ≡ code Outcome.NotThere → (caller call : ℕ)
        → IsDone caller call session.new.value.machine → ⊥ }
    ensures len { result ≡ code Outcome.Done
        → reply.new.bytes ≡ length (last_reply session.new.value) }
    ensures unwritten { result ≢ code Outcome.Done → reply.new ≡ reply.old }
    ensures no_other { IsTrue (is_one_of result (Outcome.Done ∷ Outcome.NoMemory
        ∷ Outcome.NotThere ∷ [])) }
{
    let session = session.get_mut();
    match session.next_reply(alloc) {
        Ok(Some((caller, call))) => {
            let bytes = session.reply().len();
            *reply = SessionReply {
                caller,
                call,
                bytes,
            };
            Outcome::Done.code()
        }
        Ok(None) => Outcome::NotThere.code(),
        Err(_) => Outcome::NoMemory.code(),
    }
}

/// The length of the reply that `slotroute_session_next_reply` named. The reply is written if it fits.
#[unsafe(no_mangle)]
pub extern "C" fn slotroute_session_reply(session: &mut SessionHandle, bytes: &mut [u8]) -> usize
    ensures unchanged { session.new.value ≡ session.old.value }
    ensures len { result ≡ length (last_reply session.old.value) }
    ensures written { length (last_reply session.old.value) ≤ length bytes.old
        → IsWritten (last_reply session.old.value) bytes.old bytes.new }
    // What follows the reply in the buffer stays.
    ensures rest { drop result bytes.new ≡ drop result bytes.old }
    ensures too_small { length bytes.old < result → bytes.new ≡ bytes.old }
{
    put_if_fits(session.get_mut().reply(), bytes)
}

/// Writes items to the front of a buffer if they fit. Returns how many there are.
fn put_if_fits(items: &[u8], buffer: &mut [u8]) -> usize
    ensures len { result ≡ length items.now }
    ensures written { length items.now ≤ length buffer.old
        → IsWritten items.now buffer.old buffer.new }
    ensures rest { drop (length items.now) buffer.new ≡ drop (length items.now) buffer.old }
    ensures too_small { length buffer.old < length items.now → buffer.new ≡ buffer.old }
{
    if items.len() <= buffer.len() {
        put(buffer, items);
    }
    items.len()
}

/// The length of the reply that tells a client why `slotroute_session_begin` returned this code. The
/// reply is written if it fits. It is empty for a code that no refusal has.
///
/// Code 5 gives `-ERR bytes follow the request`.
#[unsafe(no_mangle)]
pub extern "C" fn slotroute_refusal_reply(answer: u32, bytes: &mut [u8]) -> usize
    ensures len { result ≡ length (reply_of_code answer) }
    ensures written { length (reply_of_code answer) ≤ length bytes.old
        → IsWritten (reply_of_code answer) bytes.old bytes.new }
    ensures too_small { length bytes.old < length (reply_of_code answer) → bytes.new ≡ bytes.old }
    // So 80 bytes have room for each.
    ensures most { result ≤ 80 }
    // It is the reply of each refusal that has this code.
    ensures refusal { (refusal : refused.CallRefusal) → answer ≡ code (of_refusal refusal)
        → reply_of_code answer ≡ refusal_reply refusal }
{
    let reply = match answer {
        1 => CallRefusal::Memory.reply(),
        3 | 4 => CallRefusal::Unread(RequestFault::Incomplete).reply(),
        5 => CallRefusal::AfterRequest(0).reply(),
        13 => CallRefusal::NoOneReply.reply(),
        17 => CallRefusal::NoRoute.reply(),
        21 => CallRefusal::NotTaken.reply(),
        22 => CallRefusal::Blocking.reply(),
        23 => CallRefusal::Limit.reply(),
        _ => b"",
    };
    put_if_fits(reply, bytes)
}
