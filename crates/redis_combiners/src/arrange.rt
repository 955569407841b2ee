ghost use Rattle.std.specs.Prelude.{◌≡◌, length, map, IfOk, option_map, option_and_then, replicate, Some, None, if◌then◌else◌};
ghost use Rattle.std.specs.List.{list_all};
ghost use Rattle.resp_core.specs.Reply.{nil};
ghost use Rattle.resp_core.specs.View.{view};
ghost use Rattle.redis_combiners.specs.AllItems.{all_items};
ghost use Rattle.redis_combiners.specs.ByPlaces.{by_places};
ghost use Rattle.redis_combiners.specs.Spots.{spots_of, filled};

use resp_core::Value;
use std::alloc::{AllocError, Global};

/// `count` values, which later ones replace.
fn nils(alloc: Global, count: usize) -> Result<Vec<Value>, AllocError>
    ensures { IfOk result (λ v. map view v.items ≡ replicate count nil) }
{
    let mut values = Vec::with_capacity(alloc, count)?;
    for i in 0..count {
        values.push(Value::Nil)?;
    }
    Ok(values)
}

/// Puts each item at its index. `false` if an index is too large or taken.
fn put_all(
    taken: &mut [bool],
    sorted: &mut [Value],
    places: &[usize],
    mut items: Vec<Value>,
) -> bool
    requires spots { length taken.old ≡ length sorted.old }
    requires places { length items.items ≡ length places.now }
    ensures { (if result then Some (spots_of taken.new (map view sorted.new)) else None)
        ≡ filled (spots_of taken.old (map view sorted.old)) places.now (map view items.items) }
{
    while let Some(item) = items.pop() {
        let place = places[items.len()];
        if place >= taken.len() {
            return false;
        }
        if taken[place] {
            return false;
        }
        taken[place] = true;
        sorted[place] = item;
    }
    true
}

/// Whether all indices are taken.
fn all_taken(taken: &[bool]) -> bool
    ensures { result ≡ list_all (λ bit. bit) taken.now }
{
    for bit in taken {
        if !*bit {
            return false;
        }
    }
    true
}

/// The items of all replies in the order of their indices, if these are the numbers from 0 on, each
/// once. Each item goes straight to its index.
pub(super) fn arrange(
    alloc: Global,
    mut values: Vec<Value>,
    places: &[usize],
) -> Result<Option<Vec<Value>>, AllocError>
    requires { option_map length (all_items (map view values.items)) ≡ Some (length places.now) }
    ensures { IfOk result (λ o. option_map (λ v. map view v.items) o
        ≡ option_and_then (by_places places.now) (all_items (map view values.items))) }
{
    let mut taken = Vec::from_elem(alloc, false, places.len())?;
    let mut sorted = nils(alloc, places.len())?;
    let mut end = places.len();
    while let Some(value) = values.pop() {
        let Some(items) = value.into_array() else {
            return Ok(None);
        };
        let start = end - items.len();
        if !put_all(&mut taken, &mut sorted, &places[start..end], items) {
            return Ok(None);
        }
        end = start;
    }
    Ok(all_taken(&taken).then_some(sorted))
}
