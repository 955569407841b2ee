ghost use Rattle.std.specs.Prelude.{◌≡◌, ◌≢◌, ◌++◌, ℕ, List, length};
ghost use Rattle.resp.specs.Forms.{IsRequest};
ghost use Rattle.resp.specs.Messages.{IsMessage, MessageCause};
ghost use Rattle.resp.specs.Requests.{RequestCause};
ghost use Rattle.resp.specs.declared.fault.Fault as replies;
ghost use Rattle.resp.specs.declared.fault.RequestFault as requests;
ghost use Rattle.slotroute_c.specs.declared.outcomes.Outcome.TheVariants as outcome;
ghost use Rattle.slotroute_c.specs.Fields.{with_bytes, with_reply_number};
ghost use Rattle.slotroute_c.specs.Faults.{of_request, with_request_fault};
ghost use Rattle.slotroute_c.specs.Outcomes.{code, of_reply};

use crate::faults::{code_of_reply, code_of_request};
use crate::outcomes::Outcome;
use crate::told::Told;
use resp::{reply_len, request_len};

/// Writes the number of bytes of the first message, a reply of version 2 or 3, to `told.bytes`. An
/// error counts as a reply. Takes no memory.
///
/// # Errors
///
/// `ReplyIncomplete` if more bytes can complete the reply, `ReplyMalformed` if none can. For these
/// `told.reply` is 0.
#[unsafe(no_mangle)]
pub extern "C" fn slotroute_reply_len(bytes: &[u8], told: &mut Told) -> u32
    ensures done { result ≡ code outcome.Done → (message : List ℕ) × (rest : List ℕ)
        × (bytes.now ≡ message ++ rest) × IsMessage message
        × (told.new ≡ with_bytes (length message) told.old) }
    ensures fault { result ≢ code outcome.Done → (fault : replies.Fault)
        × (result ≡ code (of_reply fault)) × MessageCause bytes.now fault
        × (told.new ≡ with_reply_number 0 told.old) }
{
    match reply_len(bytes) {
        Ok(len) => {
            told.bytes = len;
            Outcome::Done.code()
        }
        Err(fault) => {
            told.reply = 0;
            code_of_reply(fault)
        }
    }
}

/// Writes the number of bytes of the first request to `told.bytes`. Takes no memory.
///
/// # Errors
///
/// `RequestIncomplete` if more bytes can complete the request. `RequestMalformed` if none can:
/// `told.at` is the index of the first byte that no request can have there.
#[unsafe(no_mangle)]
pub extern "C" fn slotroute_request_len(bytes: &[u8], told: &mut Told) -> u32
    ensures done { result ≡ code outcome.Done → (args : List (List ℕ)) × (form : List ℕ)
        × (rest : List ℕ) × (bytes.now ≡ form ++ rest) × IsRequest args form
        × (told.new ≡ with_bytes (length form) told.old) }
    ensures fault { result ≢ code outcome.Done → (fault : requests.RequestFault)
        × (result ≡ code (of_request fault)) × RequestCause bytes.now fault
        × (told.new ≡ with_request_fault fault told.old) }
{
    match request_len(bytes) {
        Ok(len) => {
            told.bytes = len;
            Outcome::Done.code()
        }
        Err(fault) => code_of_request(fault, told),
    }
}
