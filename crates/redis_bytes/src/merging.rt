ghost use Rattle.std.specs.Prelude.{map, IfOk, IfSome};
ghost use Rattle.redis_bytes.specs.Merged.{AreArrays, IsMerged, IsNext, IsOneArray};

use resp::{push_array_line, push_items};
use std::alloc::{AllocError, Global};

/// The items of arrays, each as its own bytes, and where those of each array begin and end.
#[derive(Drop)]
struct Arrays<'a> {
    items: Vec<&'a [u8]>,
    starts: Vec<usize>,
    ends: Vec<usize>,
}

/// One array of the items of `count` arrays, which the bytes are. `places` has for each item of it
/// the number of its array, and no item is read as a value. `None` if the arrays hold more than bulk
/// strings and nils, are not as `write` writes them, or do not have the items that are asked for.
pub(super) fn merge_arrays(
    alloc: Global,
    count: usize,
    places: &[usize],
    replies: &[u8],
) -> Result<Option<Vec<u8>>, AllocError>
    ensures { IfOk result (λ merged. IfSome merged
        (λ bytes. IsOneArray count places.now replies.now bytes.items)) }
{
    let Some(arrays) = arrays_in(alloc, count, places.len(), replies)? else {
        return Ok(None);
    };
    let Arrays {
        items,
        starts,
        ends,
    } = arrays;
    in_order(alloc, &items, starts, &ends, places, replies.len())
}

/// The items of the `count` arrays that the bytes are. Room is made for `room` items.
fn arrays_in(
    alloc: Global,
    count: usize,
    room: usize,
    bytes: &[u8],
) -> Result<Option<Arrays<'_>>, AllocError>
    ensures { IfOk result (λ arrays. IfSome arrays (λ arrays. AreArrays count bytes.now
        (map (λ item. item.now) arrays.items.items) arrays.starts.items arrays.ends.items)) }
{
    let mut items = Vec::with_capacity(alloc, room)?;
    let mut starts = Vec::with_capacity(alloc, count)?;
    let mut ends = Vec::with_capacity(alloc, count)?;
    let mut rest = bytes;
    for _ in 0..count {
        starts.push(items.len())?;
        let Some(after) = push_items(&mut items, rest)? else {
            return Ok(None);
        };
        ends.push(items.len())?;
        rest = after;
    }
    if !rest.is_empty() {
        return Ok(None);
    }
    Ok(Some(Arrays {
        items,
        starts,
        ends,
    }))
}

/// The array of the items whose arrays `places` names, one after another, if these are all items.
/// `nexts` has the index of the next item of each array, and `ends` that after its last one.
fn in_order(
    alloc: Global,
    items: &[&[u8]],
    mut nexts: Vec<usize>,
    ends: &[usize],
    places: &[usize],
    room: usize,
) -> Result<Option<Vec<u8>>, AllocError>
    ensures { IfOk result (λ merged. IfSome merged (λ bytes. IsMerged
        (map (λ item. item.now) items.now) nexts.items ends.now places.now bytes.items)) }
{
    let mut out = Vec::with_capacity(alloc, room)?;
    push_array_line(&mut out, places.len())?;
    for place in places {
        let Some(item) = next_item(items, &mut nexts, ends, *place) else {
            return Ok(None);
        };
        out.extend_from_slice(item)?;
    }
    if nexts.as_slice() != ends {
        return Ok(None);
    }
    Ok(Some(out))
}

/// The next item of an array, which is then passed.
fn next_item<'a>(
    items: &[&'a [u8]],
    nexts: &mut [usize],
    ends: &[usize],
    place: usize,
) -> Option<&'a [u8]>
    ensures { IfSome result (λ item. IsNext (map (λ item. item.now) items.now)
        nexts.old nexts.new ends.now place item.now) }
{
    if place >= nexts.len() || place >= ends.len() {
        return None;
    }
    let next = nexts[place];
    if next >= ends[place] || next >= items.len() {
        return None;
    }
    nexts[place] = next + 1;
    Some(items[next])
}
