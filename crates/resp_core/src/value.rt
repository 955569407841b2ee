ghost use Rattle.std.specs.Prelude.{◌≡◌, ◌<◌, ◌^◌, IfOk, IfSome, IsTrue, ◌↔◌, map, length, option_map, option_copied};
ghost use Rattle.std.specs.Cmp.{on_per, on_equiv, partial_equiv_from_equiv};
ghost use Rattle.resp_core.specs.Copying.{IsFlat};
ghost use Rattle.resp_core.specs.View.{view, view_pair};
ghost use Rattle.resp_core.specs.SameReply.{same_reply};
ghost use Rattle.resp_core.specs.SameReplyLaws.{same_reply-equivalence};
ghost use Rattle.resp_core.specs.Reply.{int_of, bulk_string_of, array_of};

mod comparing;
mod copying;
mod freeing;

use self::comparing::{same_by_list, same_flat};
use self::copying::{copy_flat, copy_in_order};
use std::alloc::{AllocError, Global};

/// A reply of a Redis server, as a tree.
///
/// Dropping, cloning and comparing use a bounded stack, however deep the tree is. Dropping takes no
/// memory. Comparing takes none down to 32 levels, and one list for each array or map of level 33
/// that has others inside. If there is no memory for such a list, `==` recurses. `Debug` always
/// recurses.
///
/// ```
/// let not_a_count = (ErrorKind::UnexpectedReturnType, "the reply is not a count");
/// reply.as_int().ok_or(RedisError::from(not_a_count))
/// ```
#[derive(Debug)]
pub enum Value {
    /// No value.
    Nil,
    /// A whole number.
    Int(i64),
    /// Any bytes, such as the value of a key.
    BulkString(Vec<u8>),
    /// Replies in order.
    Array(Vec<Value>),
    /// A short text, such as the status `PONG`.
    SimpleString(String),
    /// The status `OK`.
    Okay,
    /// Pairs of a key and a value, in the order of the reply.
    Map(Vec<(Value, Value)>),
}

impl Value {
    /// The number, if this is one.
    pub fn as_int(&self) -> Option<i64>
        ensures { result ≡ int_of (view self.now) }
    {
        if let Value::Int(n) = self {
            Some(*n)
        } else {
            None
        }
    }

    /// The bytes, if this is a bulk string.
    pub fn as_bulk_string(&self) -> Option<&[u8]>
        ensures { option_copied result ≡ bulk_string_of (view self.now) }
    {
        if let Value::BulkString(bytes) = self {
            Some(bytes.as_slice())
        } else {
            None
        }
    }

    /// The items, if this is an array.
    pub fn as_array(&self) -> Option<&[Value]>
        ensures items { option_map (λ vs. map view vs.now) result ≡ array_of (view self.now) }
        ensures few { IfSome result (λ vs. length vs.now < 2 ^ 63) }
    {
        if let Value::Array(items) = self {
            Some(items.as_slice())
        } else {
            None
        }
    }

    /// The bytes, if this is a bulk string.
    pub fn into_bulk_string(self) -> Option<Vec<u8>>
        ensures { option_map (λ v. v.items) result ≡ bulk_string_of (view self) }
    {
        if let Value::BulkString(bytes) = self {
            Some(bytes)
        } else {
            None
        }
    }

    /// The items, if this is an array.
    pub fn into_array(self) -> Option<Vec<Value>>
        ensures { option_map (λ v. map view v.items) result ≡ array_of (view self) }
    {
        if let Value::Array(items) = self {
            Some(items)
        } else {
            None
        }
    }

    /// Whether there is no value inside.
    fn is_flat(&self) -> bool
        ensures flat { IsTrue result → IsFlat (view self.now) }
    {
        match self {
            Value::Array(_) | Value::Map(_) => false,
            Value::Nil
            | Value::Int(_)
            | Value::BulkString(_)
            | Value::SimpleString(_)
            | Value::Okay => true,
        }
    }
}

impl Drop for Value {
    #[inline]
    fn drop(self) {
        match self {
            Value::Nil
            | Value::Int(_)
            | Value::BulkString(_)
            | Value::SimpleString(_)
            | Value::Okay => {}
            nested => nested.free(),
        }
    }
}

impl Clone for Value {
    ghost is_clone = { λ value copy. view copy ≡ view value };

    fn clone(&self) -> Result<Self, AllocError> {
        copy_value(self, RECURSED_LEVELS)
    }
}

/// Arrays and maps are copied and compared by recursion down to this level. Deeper ones are visited
/// by lists, so that the stack does not grow with depth.
const RECURSED_LEVELS: usize = 32;

/// A copy of a value. Below this many levels it is made by lists.
#[cycle(copy)]
fn copy_value(value: &Value, levels: usize) -> Result<Value, AllocError>
    ensures { IfOk result (λ copy. view copy ≡ view value.now) }
{
    match value {
        Value::Array(items) if levels == 0 => copy_in_order(*items.allocator(), value),
        Value::Map(items) if levels == 0 => copy_in_order(*items.allocator(), value),
        Value::Array(items) => Ok(Value::Array(copy_items(items, levels - 1)?)),
        Value::Map(items) => Ok(Value::Map(copy_pairs(items, levels - 1)?)),
        Value::Nil | Value::Int(_) | Value::BulkString(_) | Value::SimpleString(_) | Value::Okay =>
            copy_flat(value),
    }
}

/// Copies of the items of an array.
#[cycle(copy)]
fn copy_items(items: &Vec<Value>, levels: usize) -> Result<Vec<Value>, AllocError>
    ensures { IfOk result (λ copies. map view copies.items ≡ map view items.now.items) }
{
    let mut copies = Vec::with_capacity(*items.allocator(), items.len())?;
    for item in items {
        // In line, since most arrays have no array inside.
        let copy = if item.is_flat() {
            copy_flat(item)?
        } else {
            copy_value(item, levels)?
        };
        copies.push(copy)?;
    }
    Ok(copies)
}

#[cycle(copy)]
fn copy_pairs(items: &Vec<(Value, Value)>, levels: usize) -> Result<Vec<(Value, Value)>, AllocError>
    ensures { IfOk result (λ copies. map view_pair copies.items ≡ map view_pair items.now.items) }
{
    let mut copies = Vec::with_capacity(*items.allocator(), items.len())?;
    for (key, value) in items {
        copies.push((copy_value(key, levels)?, copy_value(value, levels)?))?;
    }
    Ok(copies)
}

impl PartialEq for Value {
    ghost eq = { λ a b. same_reply (view a) (view b) };

    ghost laws = { on_per view (partial_equiv_from_equiv same_reply-equivalence) };

    fn eq(&self, other: &Self) -> bool
        ensures value { result ≡ same_reply (view self.now) (view other.now) }
        ensures same { IsTrue result ↔ (view self.now ≡ view other.now) }
    {
        same_value(self, other, RECURSED_LEVELS)
    }
}

impl Eq for Value {
    ghost laws = { on_equiv view same_reply-equivalence };
}

/// Whether two values are equal. If no level is left, arrays and maps are compared by a list.
/// Without memory for the list, recursion goes on with so many levels that no list is tried again.
#[cycle(same)]
#[inline(always)]
fn same_value(a: &Value, b: &Value, levels: usize) -> bool
    ensures { IsTrue result ↔ (view a.now ≡ view b.now) }
{
    match (a, b) {
        (Value::Array(xs), Value::Array(ys)) => {
            match same_if_deep(*xs.allocator(), a, b, levels) {
                Some(same) => same,
                None => same_items(xs, ys, levels.wrapping_sub(1)),
            }
        }
        (Value::Map(xs), Value::Map(ys)) => match same_if_deep(*xs.allocator(), a, b, levels) {
            Some(same) => same,
            None => same_pairs(xs, ys, levels.wrapping_sub(1)),
        },
        _ => same_flat(a, b),
    }
}

/// Whether two values are equal, by a list. `None` if a level is left or memory runs out.
#[inline(always)]
fn same_if_deep(alloc: Global, a: &Value, b: &Value, levels: usize) -> Option<bool>
    ensures { IfSome result (λ same. IsTrue same ↔ (view a.now ≡ view b.now)) }
{
    if levels > 0 {
        return None;
    }
    same_by_list(alloc, a, b).ok()
}

/// Whether two arrays have equal items.
#[cycle(same)]
fn same_items(xs: &[Value], ys: &[Value], levels: usize) -> bool
    ensures { IsTrue result ↔ (map view xs.now ≡ map view ys.now) }
{
    if xs.len() != ys.len() {
        return false;
    }
    for (x, y) in xs.iter().zip(ys) {
        if !same_value(x, y, levels) {
            return false;
        }
    }
    true
}

/// Whether two maps have equal pairs in the same order.
#[cycle(same)]
fn same_pairs(xs: &[(Value, Value)], ys: &[(Value, Value)], levels: usize) -> bool
    ensures { IsTrue result ↔ (map view_pair xs.now ≡ map view_pair ys.now) }
{
    if xs.len() != ys.len() {
        return false;
    }
    for (x, y) in xs.iter().zip(ys) {
        if !same_value(&x.0, &y.0, levels) || !same_value(&x.1, &y.1, levels) {
            return false;
        }
    }
    true
}
