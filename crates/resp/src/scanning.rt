ghost use Rattle.std.specs.Prelude.{◌⊎◌, ◌≡◌, ◌++◌, ◌+◌, ◌<◌, ◌≤◌, ◌≢◌, ℕ, List, drop, length, Ok, Err, IfOk, IfErr, OnOk};
ghost use Rattle.resp.specs.Forms.{Answer, IsForm};
ghost use Rattle.resp.specs.Messages.{head_at, IsKnown, IsMessage, IsScanned, MessageCause, unscanned};
ghost use Rattle.resp.specs.Reading.{text_until_line_end};

use crate::fault::Fault;
use crate::heads::{head_of, line_from, searched_of};

/// How far a scan of a message has come. A new message begins with `Progress::new()`.
#[repr(C)]
#[derive(Clone, Copy, Debug, PartialEq, Eq)]
pub struct Progress {
    /// How many bytes of the message were stepped over. They are whole heads.
    pub bytes: usize,
    /// How many bytes after those need not be searched for the end of a line again.
    pub searched: usize,
    /// How many items of the message are wanted after the next one.
    pub after: u64,
}

impl Progress {
    /// No byte is scanned.
    pub fn new() -> Progress
        ensures zeros { result ≡ unscanned }
        // It is right for each message.
        ensures right { (bytes : List ℕ) → IsScanned result bytes }
    {
        Progress {
            bytes: 0,
            searched: 0,
            after: 0,
        }
    }
}

/// Looks for the end of the message at the front of some bytes, and goes on where the last call
/// stopped. So a message that arrives in pieces is gone over once. `bytes` begin with the message's
/// first byte at each call. A message is a reply of version 2 or 3, except streamed types such as
/// `$?`, or a push or a request, with items nested to any depth. Attributes belong to the reply
/// after them, as `|1\r\n+ttl\r\n:9\r\n+OK\r\n`.
///
/// The result is the message's length. The progress is then that of a new message. Any bytes and
/// any numbers in `progress` may be passed. Lengths and counts are judged, other texts of lines are
/// not. No memory is taken. All calls together cost O(bytes + calls).
///
/// # Errors
///
/// `Incomplete` if more bytes can complete the message: call again with the same progress.
/// `Malformed` if none can, and the progress stays. It is never `TooDeep`. If `progress` counts
/// more bytes than there are, the result is `Incomplete`, and the progress stays.
pub fn scan(progress: &mut Progress, bytes: &[u8]) -> Result<usize, Fault>
    // A message stands at the front of the bytes, and has this length.
    ensures found { IsScanned progress.old bytes.now → IfOk result (λ len. (message : List ℕ)
        × (rest : List ℕ) × (bytes.now ≡ message ++ rest) × IsMessage message
        × (len ≡ length message)) }
    // Each message at the front is found, whatever follows.
    ensures only { IsScanned progress.old bytes.now → (message rest : List ℕ) → IsMessage message
        → bytes.now ≡ message ++ rest → result ≡ Ok (length message) }
    // Incomplete bytes hold no whole message, and can be completed. Malformed bytes can't.
    ensures cause { IsScanned progress.old bytes.now
        → IfErr result (λ fault. MessageCause bytes.now fault) }
    // After `Incomplete` the progress is right for these bytes, and whatever is appended to them.
    ensures kept { IsScanned progress.old bytes.now → result ≡ Err Fault.Incomplete
        → (more : List ℕ) → IsScanned progress.new (bytes.now ++ more) }
    // After a message the next one can be scanned.
    ensures next { OnOk result (progress.new ≡ unscanned) }
    ensures malformed { IfErr result (λ fault. fault ≢ Fault.Incomplete
        → (fault ≡ Fault.Malformed) × (progress.new ≡ progress.old)) }
    // No whole head stands after the bytes that were stepped over.
    ensures onward { IsScanned progress.old bytes.now → result ≡ Err Fault.Incomplete
        → head_at (drop progress.new.bytes bytes.now) ≡ Err Fault.Incomplete }
    // What is known of that head is not searched again.
    ensures searched { IsScanned progress.old bytes.now → result ≡ Err Fault.Incomplete
        → IsKnown (text_until_line_end (drop progress.new.bytes bytes.now)) progress.new.searched }
    // The rest holds for any progress.
    ensures within { IfOk result (λ len. len ≤ length bytes.now) }
    ensures some { IfOk result (λ len. 0 < len) }
    ensures inside { result ≡ Err Fault.Incomplete → (progress.new ≡ progress.old)
        ⊎ (progress.new.bytes + progress.new.searched ≤ length bytes.now) }
    ensures beyond { length bytes.now < progress.old.bytes + progress.old.searched
        → (result ≡ Err Fault.Incomplete) × (progress.new ≡ progress.old) }
{
    let mut at = *progress;
    if bytes.len() < at.bytes || bytes.len() - at.bytes < at.searched {
        return Err(Fault::Incomplete);
    }
    loop {
        let (_, rest) = bytes.split_at(at.bytes);
        let (line, after) = line_from(rest, at.searched);
        match head_of(at.searched, line, after) {
            Ok((items, left)) => {
                let end = bytes.len() - left.len();
                let wanted = at.after.saturating_add(items);
                if wanted == 0 {
                    *progress = Progress::new();
                    return Ok(end);
                }
                at = Progress {
                    bytes: end,
                    searched: 0,
                    after: wanted - 1,
                };
            }
            Err(fault) => {
                if fault != Fault::Incomplete {
                    return Err(Fault::Malformed);
                }
                at.searched = searched_of(line, at.searched);
                *progress = at;
                return Err(Fault::Incomplete);
            }
        }
    }
}

/// The number of bytes of the message at the front of some bytes: `scan` from the first byte on.
///
/// Any bytes may be passed. No memory is taken, and items may be nested to any depth. The cost is
/// O(bytes). A call after more bytes have come reads all bytes again, which `scan` does not.
///
/// # Errors
///
/// `Incomplete` if more bytes can complete the message, `Malformed` if none can. It is never
/// `TooDeep`.
pub fn reply_len(bytes: &[u8]) -> Result<usize, Fault>
    // A message stands at the front of the bytes, and has this length.
    ensures found { IfOk result (λ len. (message : List ℕ) × (rest : List ℕ)
        × (bytes.now ≡ message ++ rest) × IsMessage message × (len ≡ length message)) }
    // Each message at the front is found, whatever follows.
    ensures only { (message rest : List ℕ) → IsMessage message → bytes.now ≡ message ++ rest
        → result ≡ Ok (length message) }
    // Each reply of version 2 is a message. `read` reads those of `MAX_LEVELS` levels.
    ensures replies { (levels : ℕ) (a : Answer) (form rest : List ℕ) → IsForm levels a form
        → bytes.now ≡ form ++ rest → result ≡ Ok (length form) }
    // Incomplete bytes hold no whole message, and can be completed. Malformed bytes can't.
    ensures cause { IfErr result (λ fault. MessageCause bytes.now fault) }
{
    let mut progress = Progress::new();
    scan(&mut progress, bytes)
}
