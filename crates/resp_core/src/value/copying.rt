//! Copying values without recursion. The values in a value are listed, each before those inside it,
//! and copied from the last to the first.
ghost use Rattle.std.specs.Prelude.{◌≡◌, ◌++◌, [], IfOk, OnOk, List, map, reverse};
ghost use Rattle.resp_core.specs.View.{view, view_pair};
ghost use Rattle.resp_core.specs.Reply.{Reply, pairs_of};
ghost use Rattle.resp_core.specs.Copying.{inside, inside_pairs, IsFlat, IsWalk, EndsWith};

use super::Value;
use std::alloc::{AllocError, Global};

/// A copy of a value.
pub(super) fn copy_in_order(alloc: Global, value: &Value) -> Result<Value, AllocError>
    ensures { IfOk result (λ copy. view copy ≡ view value.now) }
{
    let mut order = in_order(alloc, value)?;
    let mut copies = Vec::new(alloc);
    while let Some(next) = order.pop() {
        let copy = copy_over(next, &mut copies)?;
        copies.push(copy)?;
    }
    Ok(copies.take_last())
}

/// A copy of a value that has nothing inside.
#[inline]
pub(super) fn copy_flat(value: &Value) -> Result<Value, AllocError>
    requires { IsFlat (view value.now) }
    ensures { IfOk result (λ copy. view copy ≡ view value.now) }
{
    match value {
        Value::Nil => Ok(Value::Nil),
        Value::Int(n) => Ok(Value::Int(*n)),
        Value::BulkString(bytes) => Ok(Value::BulkString(bytes.clone()?)),
        Value::SimpleString(text) => Ok(Value::SimpleString(text.clone()?)),
        Value::Okay => Ok(Value::Okay),
        Value::Array(_) | Value::Map(_) => unreachable!(),
    }
}

/// A value and all values in it, each before those inside it.
fn in_order(alloc: Global, value: &Value) -> Result<Vec<&Value>, AllocError>
    ensures { IfOk result (λ order. IsWalk (view value.now)
        (reverse (map (λ v. view v.now) order.items)) []) }
{
    let mut order = Vec::new(alloc);
    let mut waiting = Vec::new(alloc);
    waiting.push(value)?;
    while let Some(next) = waiting.pop() {
        order.push(next)?;
        add_inside(&mut waiting, next)?;
    }
    Ok(order)
}

/// Adds what is directly inside a value.
fn add_inside<'a>(waiting: &mut Vec<&'a Value>, value: &'a Value) -> Result<(), AllocError>
    ensures { OnOk result (map (λ v. view v.now) waiting.new.items
        ≡ map (λ v. view v.now) waiting.old.items ++ inside (view value.now)) }
{
    match value {
        Value::Array(items) => add_items(waiting, items),
        Value::Map(items) => add_pairs(waiting, items),
        Value::Nil | Value::Int(_) | Value::BulkString(_) | Value::SimpleString(_) | Value::Okay =>
            Ok(()),
    }
}

fn add_items<'a>(waiting: &mut Vec<&'a Value>, items: &'a Vec<Value>) -> Result<(), AllocError>
    ensures { OnOk result (map (λ v. view v.now) waiting.new.items
        ≡ map (λ v. view v.now) waiting.old.items ++ map view items.now.items) }
{
    for item in items {
        waiting.push(item)?;
    }
    Ok(())
}

/// Adds the pairs from the last to the first, each value before its key.
fn add_pairs<'a>(
    waiting: &mut Vec<&'a Value>,
    items: &'a Vec<(Value, Value)>,
) -> Result<(), AllocError>
    ensures { OnOk result (map (λ v. view v.now) waiting.new.items
        ≡ map (λ v. view v.now) waiting.old.items
        ++ inside_pairs (pairs_of (map view_pair items.now.items))) }
{
    let mut left = items.len();
    while left > 0 {
        left -= 1;
        let (key, value) = &items[left];
        waiting.push(value)?;
        waiting.push(key)?;
    }
    Ok(())
}

/// A copy of a value. The copies of what is inside it are taken from the end of `copies`.
fn copy_over(value: &Value, copies: &mut Vec<Value>) -> Result<Value, AllocError>
    requires { EndsWith (inside (view value.now)) (map view copies.old.items) }
    ensures copied { IfOk result (λ copy. view copy ≡ view value.now) }
    ensures rest { OnOk result ((rest : List Reply)
        → map view copies.old.items ≡ rest ++ inside (view value.now)
        → map view copies.new.items ≡ rest) }
{
    match value {
        Value::Array(items) => {
            let start = copies.len() - items.len();
            Ok(Value::Array(copies.split_off(start)?))
        }
        Value::Map(items) => Ok(Value::Map(take_pairs(items, copies)?)),
        Value::Nil | Value::Int(_) | Value::BulkString(_) | Value::SimpleString(_) | Value::Okay =>
            copy_flat(value),
    }
}

/// Takes the copies of pairs from the end of `copies`, the last pair first.
fn take_pairs(
    items: &Vec<(Value, Value)>,
    copies: &mut Vec<Value>,
) -> Result<Vec<(Value, Value)>, AllocError>
    requires { EndsWith (inside_pairs (pairs_of (map view_pair items.now.items)))
        (map view copies.old.items) }
    ensures copied { IfOk result (λ pairs. map view_pair pairs.items
        ≡ map view_pair items.now.items) }
    ensures rest { OnOk result ((rest : List Reply)
        → map view copies.old.items
        ≡ rest ++ inside_pairs (pairs_of (map view_pair items.now.items))
        → map view copies.new.items ≡ rest) }
{
    let mut pairs = Vec::with_capacity(*items.allocator(), items.len())?;
    for _item in items {
        let key = copies.take_last();
        let value = copies.take_last();
        pairs.push((key, value))?;
    }
    Ok(pairs)
}
