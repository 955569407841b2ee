//! Comparing values without recursion. A list has the pairs of arrays and of maps that are still to
//! be compared.
ghost use Rattle.std.specs.Prelude.{◌≡◌, ◌⊎◌, ◌+◌, ◌<◌, ◌≤◌, ◌↔◌, IsTrue, IsFalse, IfOk, map};
ghost use Rattle.resp_core.specs.View.{view, view_pair};
ghost use Rattle.resp_core.specs.Reply.{replies_of, pairs_of};
ghost use Rattle.resp_core.specs.Freeing.{steps_in, steps_in_items, steps_in_pairs, steps_in_value};
ghost use Rattle.resp_core.specs.Copying.{IsFlat};
ghost use Rattle.resp_core.specs.Waiting.{AreSame, steps_waiting};

use super::Value;
use std::alloc::{AllocError, Global};

/// Whether two values are equal, if the first has no value inside or the two differ.
#[inline(always)]
pub(super) fn same_flat(a: &Value, b: &Value) -> bool
    requires { IsFlat (view a.now) ⊎ ¬ (view a.now ≡ view b.now) }
    ensures { IsTrue result ↔ (view a.now ≡ view b.now) }
{
    match (a, b) {
        (Value::Nil, Value::Nil) | (Value::Okay, Value::Okay) => true,
        (Value::Int(m), Value::Int(n)) => m == n,
        (Value::BulkString(x), Value::BulkString(y)) => x == y,
        (Value::SimpleString(x), Value::SimpleString(y)) => x == y,
        _ => false,
    }
}

/// Whether two values are equal, by a list of the pairs still to be compared.
pub(super) fn same_by_list<'a>(
    alloc: Global,
    a: &'a Value,
    b: &'a Value,
) -> Result<bool, AllocError>
    ensures { IfOk result (λ same. IsTrue same ↔ (view a.now ≡ view b.now)) }
{
    let mut waiting = Vec::new(alloc);
    if !add_inside(&mut waiting, a, b)? {
        return Ok(false);
    }
    while let Some((left, right)) = waiting.pop() {
        if !add_inside(&mut waiting, left, right)? {
            return Ok(false);
        }
    }
    Ok(true)
}

/// Adds the pairs inside two values that have to be equal for the two to be. `false` if these
/// already differ.
fn add_inside<'a>(
    waiting: &mut Vec<(&'a Value, &'a Value)>,
    a: &'a Value,
    b: &'a Value,
) -> Result<bool, AllocError>
    ensures same { IfOk result (λ alike. IsTrue alike
        → AreSame waiting.new.items ↔ (AreSame waiting.old.items × (view a.now ≡ view b.now))) }
    ensures different { IfOk result (λ alike. IsFalse alike → ¬ (view a.now ≡ view b.now)) }
    ensures fewer { IfOk result (λ alike. IsTrue alike
        → steps_waiting waiting.new.items
        < steps_waiting waiting.old.items + steps_in (view a.now)) }
{
    match (a, b) {
        (Value::Array(xs), Value::Array(ys)) => add_items(waiting, xs, ys),
        (Value::Map(xs), Value::Map(ys)) => add_pairs(waiting, xs, ys),
        _ => Ok(same_flat(a, b)),
    }
}

/// Adds the items of two arrays, place by place. `false` if the arrays differ.
fn add_items<'a>(
    waiting: &mut Vec<(&'a Value, &'a Value)>,
    xs: &'a [Value],
    ys: &'a [Value],
) -> Result<bool, AllocError>
    ensures same { IfOk result (λ alike. IsTrue alike
        → AreSame waiting.new.items
        ↔ (AreSame waiting.old.items × (map view xs.now ≡ map view ys.now))) }
    ensures different { IfOk result (λ alike. IsFalse alike
        → ¬ (map view xs.now ≡ map view ys.now)) }
    ensures fewer { IfOk result (λ alike. IsTrue alike
        → steps_waiting waiting.new.items
        ≤ steps_waiting waiting.old.items + steps_in_items (replies_of (map view xs.now))) }
{
    if xs.len() != ys.len() {
        return Ok(false);
    }
    for (x, y) in xs.iter().zip(ys) {
        if !add(waiting, x, y)? {
            return Ok(false);
        }
    }
    Ok(true)
}

/// Adds the keys and the values of two maps, place by place. `false` if the maps differ.
fn add_pairs<'a>(
    waiting: &mut Vec<(&'a Value, &'a Value)>,
    xs: &'a [(Value, Value)],
    ys: &'a [(Value, Value)],
) -> Result<bool, AllocError>
    ensures same { IfOk result (λ alike. IsTrue alike
        → AreSame waiting.new.items
        ↔ (AreSame waiting.old.items × (map view_pair xs.now ≡ map view_pair ys.now))) }
    ensures different { IfOk result (λ alike. IsFalse alike
        → ¬ (map view_pair xs.now ≡ map view_pair ys.now)) }
    ensures fewer { IfOk result (λ alike. IsTrue alike
        → steps_waiting waiting.new.items
        ≤ steps_waiting waiting.old.items + steps_in_pairs (pairs_of (map view_pair xs.now))) }
{
    if xs.len() != ys.len() {
        return Ok(false);
    }
    for (x, y) in xs.iter().zip(ys) {
        if !add(waiting, &x.0, &y.0)? || !add(waiting, &x.1, &y.1)? {
            return Ok(false);
        }
    }
    Ok(true)
}

/// Adds a pair of two arrays or of two maps, and compares any other pair at once.
fn add<'a>(
    waiting: &mut Vec<(&'a Value, &'a Value)>,
    a: &'a Value,
    b: &'a Value,
) -> Result<bool, AllocError>
    ensures same { IfOk result (λ alike. IsTrue alike
        → AreSame waiting.new.items ↔ (AreSame waiting.old.items × (view a.now ≡ view b.now))) }
    ensures different { IfOk result (λ alike. IsFalse alike → ¬ (view a.now ≡ view b.now)) }
    ensures fewer { IfOk result (λ alike. IsTrue alike
        → steps_waiting waiting.new.items
        ≤ steps_waiting waiting.old.items + steps_in_value (view a.now)) }
{
    match (a, b) {
        (Value::Array(_), Value::Array(_)) | (Value::Map(_), Value::Map(_)) => {
            waiting.push((a, b))?;
            Ok(true)
        }
        _ => Ok(same_flat(a, b)),
    }
}
