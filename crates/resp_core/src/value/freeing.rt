//! Freeing a value without recursion and without memory. On the way down, what is above replaces
//! the value that was taken out.
ghost use Rattle.std.specs.Prelude.{◌≡◌, ◌+◌, ◌<◌, ◌≤◌, ◌++◌, ◌∷◌, [], map, IfSome, IfNone, vec_len};
ghost use Rattle.std.specs.Vec.{vec_capacity};
ghost use Rattle.resp_core.specs.Reply.{array, pairs, replies_of, pairs_of};
ghost use Rattle.resp_core.specs.View.{view, view_pair};
ghost use Rattle.resp_core.specs.Freeing.{steps_in, steps_above};

use super::Value;
use std::mem;

impl Value {
    /// Frees a value, the innermost first. Never inline, so that `drop` can be: most values have
    /// none inside.
    #[inline(never)]
    pub(super) fn free(mut self) {
        let mut above = Value::Nil;
        loop {
            let (first, rest) = self.into_first(above);
            match first {
                Some(inside) => {
                    self = inside;
                    above = rest;
                }
                None => match rest.into_next() {
                    Some((next, rest)) => {
                        self = next;
                        above = rest;
                    }
                    None => return,
                },
            }
        }
    }

    /// The first value inside, and the rest with `above` in its position. If nothing is inside,
    /// `None` and `above`.
    fn into_first(self, above: Value) -> (Option<Value>, Value)
        ensures smaller { IfSome result.0 (λ first. steps_in (view first)
            + steps_above (view result.1)
            < steps_in (view self) + steps_above (view above)) }
        ensures flat { IfNone result.0 (result.1 ≡ above) }
    {
        match self {
            Value::Array(mut items) => {
                if items.is_empty() {
                    items.destroy_empty();
                    return (None, above);
                }
                let first = mem::replace(&mut items[0], above);
                (Some(first), Value::Array(items))
            }
            Value::Map(mut items) => {
                if items.is_empty() {
                    items.destroy_empty();
                    return (None, above);
                }
                let first = mem::replace(&mut items[0].0, above);
                (Some(first), Value::Map(items))
            }
            Value::Nil
            | Value::Int(_)
            | Value::BulkString(_)
            | Value::SimpleString(_)
            | Value::Okay => (None, above),
        }
    }

    /// The next value of what is above, and what is above that. `None` at the top.
    fn into_next(self) -> Option<(Value, Value)>
        ensures { IfSome result (λ next. steps_in (view next.0) + steps_above (view next.1)
            ≤ steps_above (view self)) }
    {
        match self {
            Value::Array(items) => next_item(items),
            Value::Map(items) => next_in_pairs(items),
            Value::Nil
            | Value::Int(_)
            | Value::BulkString(_)
            | Value::SimpleString(_)
            | Value::Okay => None,
        }
    }

    /// The value, if it is an array or a map.
    fn into_nested(self) -> Option<Value>
        ensures { IfSome result (λ nested. nested ≡ self) }
    {
        match self {
            Value::Nil
            | Value::Int(_)
            | Value::BulkString(_)
            | Value::SimpleString(_)
            | Value::Okay => None,
            nested => Some(nested),
        }
    }

    /// For a value that was popped off `items` with its key: the value, and the items with the key
    /// put back. If the value was taken before, the key and the other items.
    fn or_key(self, key: Value, mut items: Vec<(Value, Value)>) -> (Value, Value)
        requires room { vec_len items < vec_capacity items }
        requires not_empty { 0 < vec_len items }
        ensures { steps_in (view result.0) + steps_above (view result.1)
            ≤ steps_above (pairs (pairs_of (map view_pair (items.items ++ (key, self) ∷ [])))) }
    {
        match self {
            Value::Nil => (key, Value::Map(items)),
            value => {
                items.push_reserved((key, Value::Nil));
                (value, Value::Map(items))
            }
        }
    }
}

/// The last array or map, and the items before it. The first item is returned whatever it is.
fn next_item(mut items: Vec<Value>) -> Option<(Value, Value)>
    ensures { IfSome result (λ next. steps_in (view next.0) + steps_above (view next.1)
        ≤ steps_above (array (replies_of (map view items.items)))) }
{
    while let Some(last) = items.pop() {
        if items.is_empty() {
            items.destroy_empty();
            return Some((Value::Nil, last));
        }
        if let Some(nested) = last.into_nested() {
            return Some((nested, Value::Array(items)));
        }
    }
    items.destroy_empty();
    None
}

/// The last value that is left, and the pairs with its key. The first pair is taken apart.
fn next_in_pairs(mut items: Vec<(Value, Value)>) -> Option<(Value, Value)>
    ensures { IfSome result (λ next. steps_in (view next.0) + steps_above (view next.1)
        ≤ steps_above (pairs (pairs_of (map view_pair items.items)))) }
{
    let Some((key, value)) = items.pop() else {
        items.destroy_empty();
        return None;
    };
    if items.is_empty() {
        items.destroy_empty();
        return Some((value, key));
    }
    Some(value.or_key(key, items))
}
