//! The cursors of `SCAN` over several nodes.

ghost use Rattle.std.specs.Prelude.{◌≡◌, ◌<◌, ◌≤◌, ◌+◌, ◌^◌, ◌⊎◌, ◌++◌, ◌∷◌, ℕ, List, [], IfSome, IfNone};
ghost use Rattle.std.specs.List.{All};
ghost use Rattle.redis_commands.specs.Cursors.{cursor_at, cursor_after, node_of, follow, count_zeros, last_or};

/// Where a `SCAN` over several nodes stands: the next call goes to a node, with a cursor of that node.
#[repr(C)]
#[derive(Clone, Copy, Debug, PartialEq, Eq)]
pub struct ScanPosition {
    /// The index of the node, such as among the primaries of a map.
    pub node: u64,
    /// The cursor that the node is asked with.
    pub cursor: u64,
}

impl ScanPosition {
    /// The position that a client's cursor stands for, over so many nodes. `SCAN 0` begins at the first one. There is
    /// none if the cursor names a node that is not there.
    pub fn new(cursor: u64, nodes: u64) -> Option<ScanPosition>
        ensures number { IfSome result (λ at. cursor ≡ cursor_at at.node at.cursor) }
        ensures fits { IfSome result (λ at. at.cursor < 2 ^ 48) }
        ensures there { IfSome result (λ at. at.node < nodes) }
        ensures none { IfNone result (nodes ≤ node_of cursor) }
    {
        let node = cursor / NODE_CURSORS;
        if node >= nodes {
            return None;
        }
        Some(ScanPosition {
            node,
            cursor: cursor % NODE_CURSORS,
        })
    }
}

/// One more than the largest cursor of a node.
const NODE_CURSORS: u64 = 1 << 48;

/// One more than the largest index of a node, so that a client's cursor is below 2^63.
const MOST_NODES: u64 = 1 << 15;

/// The cursor for the client after a node replied `cursor`. After a node's 0 it begins the next node. After the
/// last one's it is 0, and the scan ended. There is none if a cursor of the node is 2^48 or more, or if there are
/// more than 2^15 nodes.
pub fn next_cursor(nodes: u64, node: u64, cursor: u64) -> Option<u64>
    ensures next { IfSome result (λ next. next ≡ cursor_after nodes node cursor) }
    ensures none { IfNone result ((2 ^ 48 ≤ cursor) ⊎ ((2 ^ 15 < nodes) ⊎ (nodes ≤ node))) }
{
    if cursor >= NODE_CURSORS || nodes > MOST_NODES || node >= nodes {
        return None;
    }
    if cursor != 0 {
        return Some(node * NODE_CURSORS + cursor);
    }
    if node + 1 < nodes {
        return Some((node + 1) * NODE_CURSORS);
    }
    Some(0)
}

/// Over some nodes, a scan asks one after the other, each from 0 on and then with the cursor that it replied, until
/// it replies 0. Once each node replied 0, the client's cursor is 0, and never before. This is a law: a call does
/// nothing.
pub fn each_node_once()
    ensures goes_on { (nodes : ℕ) (cursors : List ℕ) → All (λ c. c < 2 ^ 48) cursors → count_zeros cursors < nodes
        → follow nodes 0 cursors ≡ cursor_at (count_zeros cursors) (last_or 0 cursors) }
    ensures ends { (nodes : ℕ) (cursors : List ℕ) → All (λ c. c < 2 ^ 48) cursors → count_zeros cursors + 1 ≡ nodes
        → follow nodes 0 (cursors ++ 0 ∷ []) ≡ 0 }
{}
