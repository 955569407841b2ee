ghost use Rattle.std.specs.Prelude.{◌≡◌, ◌++◌, ℕ, List, map, IfOk, IfSome, MatchOption, Ok};
ghost use Rattle.std.specs.List.{AllByRecursion};
ghost use Rattle.resp_core.specs.Reply.{Reply, array, replies_of};
ghost use Rattle.resp.specs.Forms.{form, IsForm, IsBulkOrNil, StandIn};

use crate::reading::MAX_LEVELS;
use crate::requests::{bulk_at, line_at};
use std::alloc::AllocError;

/// Appends the items of the array at the front of some bytes, each as the bytes of its own, and
/// returns what follows the array. No item is copied. Of `*2\r\n$1\r\na\r\n$-1\r\n` the items are
/// `$1\r\na\r\n` and `$-1\r\n`.
///
/// `None` if the bytes do not begin with an array as `write` writes it, or an item is no bulk string
/// and no nil. Then some of its items may have been appended. The cost is O(bytes).
///
/// # Errors
///
/// If memory runs out. Then some of the items may have been appended.
pub fn push_items<'a>(
    items: &mut Vec<&'a [u8]>,
    bytes: &'a [u8],
) -> Result<Option<&'a [u8]>, AllocError>
    // An array of bulk strings and nils stands at the front, as `read` reads it, and its items are
    // appended.
    ensures found { IfOk result (λ found. IfSome found (λ rest. (values : List Reply)
        × AllByRecursion IsBulkOrNil values
        × (bytes.now ≡ form (array (replies_of values)) ++ rest.now)
        × IsForm MAX_LEVELS (Ok (array (replies_of values))) (form (array (replies_of values)))
        × (map (λ item. item.now) items.new.items
        ≡ map (λ item. item.now) items.old.items ++ map form values))) }
    // Each array of bulk strings and nils at the front is found, whatever follows.
    ensures only { (values : List Reply) (rest : List ℕ) → AllByRecursion IsBulkOrNil values
        → bytes.now ≡ form (array (replies_of values)) ++ rest
        → IfOk result (λ found. MatchOption found ⊥ (λ after. after.now ≡ rest)) }
    // The items that were there stay, also after an error. What is appended are bulk strings and
    // nils that stand in the bytes, one after another.
    ensures before { (values : List Reply) × AllByRecursion IsBulkOrNil values
        × StandIn bytes.now values × (map (λ item. item.now) items.new.items
        ≡ map (λ item. item.now) items.old.items ++ map form values) }
{
    let Ok((count, first)) = line_at(bytes, b'*') else {
        return Ok(None);
    };
    let mut rest = first;
    for _ in 0..count {
        let Some(after) = after_item(rest) else {
            return Ok(None);
        };
        let (item, _) = rest.split_at(rest.len() - after.len());
        items.push(item)?;
        rest = after;
    }
    Ok(Some(rest))
}

/// What follows the bulk string or the nil at the front, as `write` writes them.
fn after_item(bytes: &[u8]) -> Option<&[u8]>
    ensures found { IfSome result (λ rest. (value : Reply)
        × IsBulkOrNil value × (bytes.now ≡ form value ++ rest.now)) }
    ensures only { (value : Reply) (rest : List ℕ) → IsBulkOrNil value
        → bytes.now ≡ form value ++ rest → MatchOption result ⊥ (λ after. after.now ≡ rest) }
{
    if let Some(rest) = bytes.strip_prefix(b"$-1\r\n".as_slice()) {
        return Some(rest);
    }
    match bulk_at(bytes) {
        Ok((_, rest)) => Some(rest),
        Err(_) => None,
    }
}
