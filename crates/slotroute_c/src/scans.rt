ghost use Rattle.std.specs.Prelude.{◌⊎◌, ◌≡◌, ◌≢◌, ◌<◌, ◌≤◌, ◌+◌, ◌++◌, ◌∷◌, [], ℕ, List, IsTrue, drop, length, Err};
ghost use Rattle.resp.specs.Messages.{head_at, IsKnown, IsMessage, IsScanned, MessageCause, unscanned};
ghost use Rattle.resp.specs.Reading.{text_until_line_end};
ghost use Rattle.resp.specs.declared.fault.Fault as replies;
ghost use Rattle.slotroute_c.specs.Outcomes.{code, is_one_of, of_reply};

use crate::faults::code_of_reply;
use crate::outcomes::Outcome;
use resp::{Progress, scan};

/// Looks for the end of the first message in `bytes`, and goes on where the last call with this
/// `progress` stopped. So a message that arrives in pieces is gone over once. A message is a reply of
/// version 2 or 3, a push or a request. For a new message, all fields of `progress` are 0. `bytes`
/// begin with the message's first byte at each call. Takes no memory.
///
/// After `Done`, `progress.bytes` is the message's length, and the other fields are 0.
///
/// # Errors
///
/// `ReplyIncomplete` if more bytes can complete the message: call again with the same `progress`.
/// `ReplyMalformed` if none can, and `progress` stays. If `progress` counts more bytes than there
/// are, the call returns `ReplyIncomplete`, and `progress` stays.
#[unsafe(no_mangle)]
pub extern "C" fn slotroute_scan(bytes: &[u8], progress: &mut Progress) -> u32
    // Zeros are right for each message.
    ensures new { (message : List ℕ) → IsScanned unscanned message }
    ensures done { IsScanned progress.old bytes.now → result ≡ code Outcome.Done
        → (message : List ℕ) × (rest : List ℕ) × (bytes.now ≡ message ++ rest) × IsMessage message
        × (progress.new ≡ record unscanned { bytes = length message }) }
    ensures fault { IsScanned progress.old bytes.now → result ≢ code Outcome.Done
        → (fault : replies.Fault) × (result ≡ code (of_reply fault))
        × MessageCause bytes.now fault }
    // The progress is right for these bytes, and whatever is appended to them.
    ensures kept { IsScanned progress.old bytes.now → result ≡ code Outcome.ReplyIncomplete
        → (more : List ℕ) → IsScanned progress.new (bytes.now ++ more) }
    // No whole head stands after the bytes that were stepped over.
    ensures onward { IsScanned progress.old bytes.now → result ≡ code Outcome.ReplyIncomplete
        → head_at (drop progress.new.bytes bytes.now) ≡ Err replies.Fault.Incomplete }
    // What is known of that head is not searched again.
    ensures searched { IsScanned progress.old bytes.now → result ≡ code Outcome.ReplyIncomplete
        → IsKnown (text_until_line_end (drop progress.new.bytes bytes.now)) progress.new.searched }
    ensures malformed { result ≡ code Outcome.ReplyMalformed → progress.new ≡ progress.old }
    ensures beyond { length bytes.now < progress.old.bytes + progress.old.searched
        → (result ≡ code Outcome.ReplyIncomplete) × (progress.new ≡ progress.old) }
    // These hold for any progress.
    ensures within { result ≡ code Outcome.Done → (progress.new.bytes ≤ length bytes.now)
        × (progress.new ≡ record unscanned { bytes = progress.new.bytes }) }
    ensures some { result ≡ code Outcome.Done → 0 < progress.new.bytes }
    ensures inside { result ≡ code Outcome.ReplyIncomplete → (progress.new ≡ progress.old)
        ⊎ (progress.new.bytes + progress.new.searched ≤ length bytes.now) }
    ensures no_other { IsTrue (is_one_of result (Outcome.Done ∷ Outcome.ReplyIncomplete
        ∷ Outcome.ReplyMalformed ∷ [])) }
{
    match scan(progress, bytes) {
        Ok(len) => {
            progress.bytes = len;
            Outcome::Done.code()
        }
        Err(fault) => code_of_reply(fault),
    }
}
