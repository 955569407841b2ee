ghost use Rattle.std.specs.Prelude.{◌≡◌, ◌≢◌, ◌<◌, ◌≤◌, ◌^◌, ◌⊎◌, ◌∷◌, [], IsTrue};
ghost use Rattle.redis_commands.specs.Cursors.{cursor_at, cursor_after, node_of};
ghost use Rattle.slotroute_c.specs.Outcomes.{code, is_one_of};

use crate::outcomes::Outcome;
use redis_commands::{ScanPosition, next_cursor};

/// Writes which of so many nodes a client's cursor of `SCAN` stands at, and the cursor there. `SCAN 0`
/// begins at node 0.
///
/// # Errors
///
/// `NotThere` if the cursor names a node that is not there.
#[unsafe(no_mangle)]
pub extern "C" fn slotroute_cursor_position(
    cursor: u64,
    nodes: u64,
    position: &mut ScanPosition,
) -> u32
    ensures number { result ≡ code Outcome.Done
        → cursor ≡ cursor_at position.new.node position.new.cursor }
    ensures fits { result ≡ code Outcome.Done → position.new.cursor < 2 ^ 48 }
    ensures there { result ≡ code Outcome.Done → position.new.node < nodes }
    ensures none { result ≡ code Outcome.NotThere → nodes ≤ node_of cursor }
    ensures unwritten { result ≢ code Outcome.Done → position.new ≡ position.old }
    ensures no_other { IsTrue (is_one_of result (Outcome.Done ∷ Outcome.NotThere ∷ [])) }
{
    match ScanPosition::new(cursor, nodes) {
        Some(there) => {
            *position = there;
            Outcome::Done.code()
        }
        None => Outcome::NotThere.code(),
    }
}

/// Writes the cursor for the client after one of so many nodes replied `cursor`. After a node's 0 it
/// begins the next node. After the last one's it is 0, and the scan ended.
///
/// # Errors
///
/// `NotThere` if there is no such node, or are more than 2^15 nodes, or if the node's cursor is 2^48 or
/// more.
#[unsafe(no_mangle)]
pub extern "C" fn slotroute_next_cursor(nodes: u64, node: u64, cursor: u64, next: &mut u64) -> u32
    ensures next { result ≡ code Outcome.Done → next.new ≡ cursor_after nodes node cursor }
    ensures none { result ≡ code Outcome.NotThere
        → (2 ^ 48 ≤ cursor) ⊎ ((2 ^ 15 < nodes) ⊎ (nodes ≤ node)) }
    ensures unwritten { result ≢ code Outcome.Done → next.new ≡ next.old }
    ensures no_other { IsTrue (is_one_of result (Outcome.Done ∷ Outcome.NotThere ∷ [])) }
{
    match next_cursor(nodes, node, cursor) {
        Some(number) => {
            *next = number;
            Outcome::Done.code()
        }
        None => Outcome::NotThere.code(),
    }
}
