ghost use Rattle.std.specs.Prelude.{◌≡◌, ◌==◌, ◌++◌, ◌<◌, ◌≤◌, ◌↔◌, ℕ, List, Some, length, take, slice_index, IsTrue, IfSome};
ghost use Rattle.resp.specs.Messages.{IsMessage};
ghost use Rattle.resp.specs.Versions.{is_mark, IsHeadOfVersion2, IsVersion2};

use crate::heads::{head_of, line_from};

/// Whether a message, as `scan` finds it, is one of version 2: each of its heads, also of nested
/// items, begins with one of `+ - : $ *`. So it is no push and has no map, set or null of version 3.
///
/// No memory is taken. The cost is O(bytes), and O(1) if the message is no array.
pub fn is_version_2(message: &[u8]) -> bool
    requires { IsMessage message.now }
    ensures { IsTrue result ↔ IsVersion2 message.now }
{
    // A message of version 2 that is no array has one head.
    if is_array(message) {
        are_heads(message)
    } else {
        is_mark(message)
    }
}

/// Whether the bytes are heads of version 2, one after the other.
fn are_heads(bytes: &[u8]) -> bool
    ensures { IsTrue result ↔ IsVersion2 bytes.now }
{
    let mut at = 0;
    while at < bytes.len() {
        let (_, rest) = bytes.split_at(at);
        match head_len(rest) {
            Some(len) => at += len,
            None => return false,
        }
    }
    true
}

/// The length of the head of version 2 at the front.
fn head_len(bytes: &[u8]) -> Option<usize>
    ensures found { IfSome result (λ len. IsHeadOfVersion2 (take len bytes.now)) }
    ensures within { IfSome result (λ len. len ≤ length bytes.now) }
    ensures some { IfSome result (λ len. 0 < len) }
    ensures only { (head rest : List ℕ) → IsHeadOfVersion2 head → bytes.now ≡ head ++ rest
        → result ≡ Some (length head) }
{
    if !is_mark(bytes) {
        return None;
    }
    let (line, after) = line_from(bytes, 0);
    match head_of(0, line, after) {
        Ok((_, rest)) => Some(bytes.len() - rest.len()),
        Err(_) => None,
    }
}

fn is_array(message: &[u8]) -> bool
    ensures { result ≡ (slice_index message.now 0 == 42) }
{
    matches!(message, [b'*', ..])
}

fn is_mark(bytes: &[u8]) -> bool
    ensures { result ≡ is_mark bytes.now }
{
    matches!(bytes, [b'+' | b'-' | b':' | b'$' | b'*', ..])
}
