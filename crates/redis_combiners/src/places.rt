ghost use Rattle.std.specs.Prelude.{◌≡◌, ◌++◌, IfOk, length, option_map, map};
ghost use Rattle.cluster_slots.specs.Lists.{flatten};
ghost use Rattle.redis_combiners.specs.KeyPlaces.{own_arguments, places, all_places};

use cluster_slots::{MultiSlotArgPattern, Route};
use std::alloc::{AllocError, Global};

/// The indices of the keys of some lists of arguments, list after list, and the number of keys in
/// each.
#[derive(Drop)]
pub(super) struct KeyPlaces {
    pub(super) all: Vec<usize>,
    pub(super) counts: Vec<usize>,
}

/// The indices of the keys in the lists, if all tuples are whole.
pub(super) fn key_places(
    alloc: Global,
    lists: &[(Route, Vec<usize>)],
    pattern: MultiSlotArgPattern,
) -> Result<Option<KeyPlaces>, AllocError>
    ensures all { IfOk result (λ o. option_map (λ p. p.all.items) o
        ≡ option_map flatten (all_places pattern (map (λ l. l.1.items) lists.now))) }
    ensures counts { IfOk result (λ o. option_map (λ p. p.counts.items) o
        ≡ option_map (map length) (all_places pattern (map (λ l. l.1.items) lists.now))) }
{
    let arguments = lists
        .iter()
        .fold(0, |count: usize, list| count.saturating_add(list.1.len()));
    let mut all = Vec::with_capacity(alloc, arguments / pattern.width())?;
    let mut counts = Vec::with_capacity(alloc, lists.len())?;
    for list in lists {
        let Some(count) = add_places(&mut all, &list.1, pattern)? else {
            return Ok(None);
        };
        counts.push(count)?;
    }
    Ok(Some(KeyPlaces { all, counts }))
}

/// Adds the indices of the keys in a list and returns their number, if all tuples are whole.
fn add_places(
    all: &mut Vec<usize>,
    list: &[usize],
    pattern: MultiSlotArgPattern,
) -> Result<Option<usize>, AllocError>
    ensures count { IfOk result (λ count. count ≡ option_map length (places pattern list.now)) }
    ensures added { IfOk result (λ count. option_map (λ _. all.new.items) count
        ≡ option_map (λ found. all.old.items ++ found) (places pattern list.now)) }
{
    let Some(own) = own_part(list, pattern) else {
        return Ok(None);
    };
    let width = pattern.width();
    if own.len() % width != 0 {
        return Ok(None);
    }
    let count = own.len() / width;
    for i in 0..count {
        all.push(own[width * i] / width)?;
    }
    Ok(Some(count))
}

/// The list without the index of the argument that all keys share, if the pattern has one.
fn own_part(list: &[usize], pattern: MultiSlotArgPattern) -> Option<&[usize]>
    ensures { option_map (λ own. own.now) result ≡ own_arguments pattern list.now }
{
    match (pattern, list) {
        (MultiSlotArgPattern::KeysAndLastArg, []) => None,
        (MultiSlotArgPattern::KeysAndLastArg, [own @ .., _]) => Some(own),
        _ => Some(list),
    }
}
