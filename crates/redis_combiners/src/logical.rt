ghost use Rattle.std.specs.Prelude.{◌≡◌, IsTrue, is_some, List, map, length, MatchResult, option_map, option_and_then, None, Some, IsPermutation};
ghost use Rattle.resp_core.specs.Reply.{Reply, array, int_of, replies_of};
ghost use Rattle.resp_core.specs.View.{view};
ghost use Rattle.resp_core.specs.declared.error.ErrorKind.TheVariants.{UnexpectedReturnType};
ghost use Rattle.redis_combiners.specs.Bits.{bit_of, bits_among};
ghost use Rattle.redis_combiners.specs.Logical.{as_int, joined_bit, joined_items, logical_items};

use cluster_slots::LogicalAggregateOp;
use resp_core::{ErrorKind, RedisError, RedisResult, Value};
use std::alloc::Global;

/// Combines replies that are arrays of 0 and 1, all of one length. With `And`, an element is 1 if
/// all replies have 1 there; with `Or`, if one has. So `SCRIPT EXISTS` reports the scripts that
/// each primary has. No replies make an empty array. The order of the replies does not matter.
/// Takes no memory.
///
/// # Errors
///
/// `UnexpectedReturnType` if a reply is not an array of 0 and 1, or has another length than the
/// first.
#[tactic(auto, using(crate::proofs::BitOrders::any_order))]
pub fn logical_aggregate(
    alloc: Global,
    values: Vec<Value>,
    op: LogicalAggregateOp,
) -> RedisResult<Value>
    ensures answer { MatchResult result
        (λ value. option_map (λ items. array (replies_of items))
        (logical_items op (map view values.items))
        ≡ Some (view value))
        (λ fault. (logical_items op (map view values.items) ≡ None)
        × (fault.kind ≡ UnexpectedReturnType)) }
    ensures any_order { (others : List Reply) → IsPermutation (map view values.items) others
        → logical_items op others ≡ logical_items op (map view values.items) }
{
    match items(alloc, values, op) {
        Some(items) => Ok(Value::Array(items)),
        None => Err(RedisError::from((
            ErrorKind::UnexpectedReturnType,
            "the replies are not arrays of 0 and 1 of one length",
        ))),
    }
}

/// The combined items, if all replies are of 0 and 1 and of one length. The first reply's items are
/// reused, so this takes no memory.
fn items(alloc: Global, values: Vec<Value>, op: LogicalAggregateOp) -> Option<Vec<Value>>
    ensures { option_map (λ v. map view v.items) result
        ≡ logical_items op (map view values.items) }
{
    let mut replies = values.into_iter();
    let Some(first) = replies.next() else {
        return Some(Vec::new(alloc));
    };
    let Some(mut row) = first.into_array() else {
        return None;
    };
    if !are_bits(&row) {
        return None;
    }
    for reply in replies {
        let Some(items) = reply.as_array() else {
            return None;
        };
        if items.len() != row.len() {
            return None;
        }
        if !join(&mut row, items, op) {
            return None;
        }
    }
    Some(row)
}

/// Whether each item is 0 or 1.
fn are_bits(items: &[Value]) -> bool
    ensures { result ≡ is_some (bits_among (map view items.now)) }
{
    for item in items {
        if bit(item).is_none() {
            return false;
        }
    }
    true
}

/// Combines each item of the row with the other item, if all are 0 or 1.
fn join(row: &mut [Value], items: &[Value], op: LogicalAggregateOp) -> bool
    requires { length row.old ≡ length items.now }
    ensures bits { result ≡ is_some (joined_items op (map view row.old) (map view items.now)) }
    ensures joined { IsTrue result → bits_among (map view row.new)
        ≡ joined_items op (map view row.old) (map view items.now) }
{
    for i in 0..row.len() {
        let Some(own) = bit(&row[i]) else {
            return false;
        };
        let Some(other) = bit(&items[i]) else {
            return false;
        };
        put_bit(&mut row[i], join_bits(own, other, op));
    }
    true
}

/// Two bits combined.
fn join_bits(own: bool, other: bool, op: LogicalAggregateOp) -> bool
    ensures { result ≡ joined_bit op own other }
{
    match op {
        LogicalAggregateOp::And => own & other,
        LogicalAggregateOp::Or => own | other,
    }
}

/// Whether the item is 1, if it is 0 or 1.
fn bit(item: &Value) -> Option<bool>
    ensures { result ≡ option_and_then bit_of (int_of (view item.now)) }
{
    let Some(n) = item.as_int() else {
        return None;
    };
    match n {
        0 => Some(false),
        1 => Some(true),
        _ => None,
    }
}

/// Replaces an item by a bit. A number is written into, so that no value is dropped.
fn put_bit(item: &mut Value, bit: bool)
    ensures { view item.new ≡ as_int bit }
{
    let number = i64::from(bit);
    if let Value::Int(n) = item {
        *n = number;
    } else {
        *item = Value::Int(number);
    }
}
