ghost use Rattle.std.specs.Prelude.{◌≡◌, ◌<◌, ◌≤◌, ◌^◌, ◌+◌, ◌-◌, ◌++◌, [], Some, length, nat_eq, IfOk, OnOk};
ghost use Rattle.std.specs.List.{position_or_len, range_with_len};
ghost use Rattle.cluster_slots.specs.ArgPattern.{tuple_args_count};
ghost use Rattle.indexmap.specs.IndexSet.{insert_key};
ghost use Rattle.redis_routing.specs.Inner.SlotPages.{ArePagesOf};
ghost use Rattle.redis_routing.specs.Groups.{lists_of_tuples, with_places, with_shared};
ghost use Rattle.redis_routing.specs.RoutingInfo.{as_routing, route_lists};
ghost use Rattle.redis_routing.specs.Routing.{routes_of, routing_of_routes};
ghost use Rattle.redis_routing.specs.PresentArguments.{present_arguments_after};
ghost use Rattle.redis_routing.specs.Split.{slots_of};
ghost use Rattle.redis_routing.specs.Tuples.{tuples_in};

use super::info::{MultipleNodeRoutingInfo, RoutingInfo, SingleNodeRoutingInfo, nodes_for};
use crate::policy::ResponsePolicy;
use crate::routable::Routable;
use crate::slot_pages::{SlotPages, new_slot_pages, number_of};
use cluster_slots::{MultiSlotArgPattern, Route, SlotAddr};
use std::alloc::{AllocError, Global};

/// The most routes that there is room for at first.
const FIRST_ROUTES: usize = 40;

/// The routes of a command's `count` arguments after a name of `words` words, which make whole
/// tuples.
pub(super) fn routes_by_slot<R: Routable>(
    alloc: Global,
    command: &R,
    words: usize,
    pattern: MultiSlotArgPattern,
    count: usize,
    reads: bool,
) -> Result<Vec<(Route, Vec<usize>)>, AllocError>
    requires few { count + words < 2 ^ 64 }
    requires count { count ≡ length (present_arguments_after words (R.args command.now)) }
    ensures { IfOk result (λ routes. route_lists routes.items
        ≡ routes_of reads pattern (present_arguments_after words (R.args command.now))) }
{
    let own = pattern.own_len(count);
    let lists = group_by_slot(alloc, command, words, pattern, own, nodes_for(reads))?;
    share(alloc, lists, own, count)
}

/// The number of arguments after a name of `words` words, up to the first gap.
pub(super) fn present_len<R: Routable>(command: &R, words: usize) -> usize
    requires { words < 2 ^ 63 }
    ensures count { result ≡ length (present_arguments_after words (R.args command.now)) }
    ensures few { result < 2 ^ 63 }
    ensures arguments { length (R.args command.now) < 2 ^ 63 }
{
    let mut count = 0;
    while command.arg_idx(count + words).is_some() {
        count += 1;
    }
    count
}

/// A route for each slot with the indices of its tuples, in order of each slot's first tuple. The
/// cost is linear in the number of tuples, whatever their slots are.
fn group_by_slot<R: Routable>(
    alloc: Global,
    command: &R,
    words: usize,
    pattern: MultiSlotArgPattern,
    own: usize,
    nodes: SlotAddr,
) -> Result<Vec<(Route, Vec<usize>)>, AllocError>
    requires few { own + words < 2 ^ 64 }
    requires own { own
        ≡ tuple_args_count pattern (length (present_arguments_after words (R.args command.now))) }
    ensures { IfOk result (λ lists. route_lists lists.items
        ≡ lists_of_tuples nodes
        (tuples_in pattern (present_arguments_after words (R.args command.now)))) }
{
    let width = pattern.width();
    let count = own / width;
    let mut pages = new_slot_pages(alloc, count)?;
    let mut lists = Vec::with_capacity(alloc, count.min(FIRST_ROUTES))?;
    for number in 0..count {
        let place = number * width;
        let Some(key) = command.arg_idx(place + words) else {
            unreachable!()
        };
        let route = Route::with_key(key, nodes);
        add(alloc, &mut lists, &mut pages, route, place, width)?;
    }
    Ok(lists)
}

/// Appends the indices of a tuple to its slot's list, or to a new list if the slot has none.
fn add(
    alloc: Global,
    lists: &mut Vec<(Route, Vec<usize>)>,
    pages: &mut SlotPages,
    route: Route,
    place: usize,
    width: usize,
) -> Result<(), AllocError>
    requires fits { place + width < 2 ^ 64 }
    requires few { length lists.old.items ≤ 16384 }
    requires slots { ArePagesOf pages.old (slots_of (route_lists lists.old.items)) }
    ensures lists { OnOk result (route_lists lists.new.items
        ≡ with_places route (range_with_len place width) (route_lists lists.old.items)) }
    ensures slots { OnOk result (ArePagesOf pages.new (slots_of (route_lists lists.new.items))) }
{
    let index = list_index(lists, pages, route.slot())?;
    if index < lists.len() {
        return push_places(&mut lists[index].1, place, place + width);
    }
    let mut places = Vec::new(alloc);
    push_places(&mut places, place, place + width)?;
    lists.push((route, places))?;
    Ok(())
}

/// The index of a slot's list. A slot without a list gets the index of the next one.
fn list_index(
    lists: &[(Route, Vec<usize>)],
    pages: &mut SlotPages,
    slot: u16,
) -> Result<usize, AllocError>
    requires few { length lists.now ≤ 16384 }
    requires slots { ArePagesOf pages.old (slots_of (route_lists lists.now)) }
    ensures index { IfOk result (λ index. index
        ≡ position_or_len (nat_eq slot) (slots_of (route_lists lists.now))) }
    ensures slots { OnOk result (ArePagesOf pages.new
        (insert_key nat_eq (slots_of (route_lists lists.now)) slot)) }
{
    // There are 16384 slots, and a list for each at most.
    let Ok(next) = u16::try_from(lists.len() + 1) else {
        unreachable!()
    };
    let number = number_of(pages, slot, next)?;
    Ok(usize::from(number) - 1)
}

/// Appends the indices from `start` up to `end`.
fn push_places(places: &mut Vec<usize>, start: usize, end: usize) -> Result<(), AllocError>
    ensures { OnOk result
        (places.new.items ≡ places.old.items ++ range_with_len start (end - start)) }
{
    places.extend(start..end)
}

/// The lists, each with the shared indices from `own` up to `count` at its end.
fn share(
    alloc: Global,
    lists: Vec<(Route, Vec<usize>)>,
    own: usize,
    count: usize,
) -> Result<Vec<(Route, Vec<usize>)>, AllocError>
    ensures { IfOk result (λ routes. route_lists routes.items
        ≡ with_shared (range_with_len own (count - own)) (route_lists lists.items)) }
{
    if own >= count {
        return Ok(lists);
    }
    let mut routes = Vec::with_capacity(alloc, lists.len())?;
    for (route, mut places) in lists {
        push_places(&mut places, own, count)?;
        routes.push((route, places))?;
    }
    Ok(routes)
}

/// The routing to one node if there is one route, and else to the node of each route.
pub(super) fn routing_of_routes(
    routes: Vec<(Route, Vec<usize>)>,
    pattern: MultiSlotArgPattern,
    policy: Option<ResponsePolicy>,
) -> RoutingInfo
    ensures { as_routing result ≡ routing_of_routes pattern policy (route_lists routes.items) }
{
    match routes.as_slice() {
        [only] => RoutingInfo::SingleNode(SingleNodeRoutingInfo::SpecificNode(only.0)),
        _ => RoutingInfo::MultiNode((
            MultipleNodeRoutingInfo::MultiSlot((routes, pattern)),
            policy,
        )),
    }
}
