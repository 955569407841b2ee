ghost use Rattle.std.specs.Prelude.{◌≡◌, ◌<◌, ◌^◌, ℕ, List, Some, cond, nat_eq, length, slice_index, IfOk};
ghost use Rattle.std.specs.List.{AllZip, sum_by};
ghost use Rattle.redis_combiners.specs.KeyPlaces.{own_arguments, places};
ghost use Rattle.redis_cluster.specs.Orders.{times};
ghost use Rattle.redis_routing.specs.Split.{IsSplit};
ghost use Rattle.redis_bytes.specs.Merged.{ArePlaces};

use cluster_slots::{MultiSlotArgPattern, Route};
use redis_routing::{Routable, SplitCommand};
use std::alloc::{AllocError, Global};

/// The number of the part of each key, in the order of the keys.
pub(super) fn places_in<R: Routable>(
    alloc: Global,
    split: &SplitCommand<'_, R>,
) -> Result<Vec<usize>, AllocError>
    ensures places { IfOk result (λ found. ArePlaces split.now found.items) }
    ensures split { IsSplit split.now }
{
    let pattern = split.pattern();
    let routes = split.routes();
    let mut found = Vec::from_elem(alloc, 0, keys_in(routes, pattern))?;
    for number in 0..routes.len() {
        put_number(&mut found, &routes[number].1, pattern, number);
    }
    Ok(found)
}

/// How many keys the lists of the routes have.
fn keys_in(routes: &[(Route, Vec<usize>)], pattern: MultiSlotArgPattern) -> usize
    ensures { (keys : List (List ℕ))
        → AllZip (λ route own. places pattern route.1.items ≡ Some own) routes.now keys
        → sum_by (λ own. length own) keys < 2 ^ 63 → result ≡ sum_by (λ own. length own) keys }
{
    let mut count: usize = 0;
    for (_, list) in routes {
        count = count.saturating_add(keys_of(list, pattern));
    }
    count
}

/// How many keys a list has.
fn keys_of(list: &[usize], pattern: MultiSlotArgPattern) -> usize
    ensures { (own : List ℕ) → places pattern list.now ≡ Some own → result ≡ length own }
{
    own_part(list, pattern).len() / pattern.width()
}

/// Puts a number at the index of each key of a list.
fn put_number(found: &mut [usize], list: &[usize], pattern: MultiSlotArgPattern, number: usize)
    ensures { (own : List ℕ) (k : ℕ) → places pattern list.now ≡ Some own → k < length found.old
        → slice_index found.new k ≡ cond (nat_eq (times k own) 0) (slice_index found.old k) number }
{
    let own = own_part(list, pattern);
    let width = pattern.width();
    for i in 0..own.len() / width {
        let key = own[width * i] / width;
        if key < found.len() {
            found[key] = number;
        }
    }
}

/// The list without the index of the argument that all keys share, if the pattern has one.
fn own_part(list: &[usize], pattern: MultiSlotArgPattern) -> &[usize]
    ensures { (own : List ℕ) → own_arguments pattern list.now ≡ Some own → result.now ≡ own }
{
    match (pattern, list) {
        (MultiSlotArgPattern::KeysAndLastArg, [own @ .., _]) => own,
        _ => list,
    }
}
