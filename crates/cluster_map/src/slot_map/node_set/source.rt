ghost use Rattle.std.specs.Prelude.{◌≡◌, List, map};
ghost use Rattle.std.specs.List.{flat_map};
ghost use Rattle.cluster_slots.specs.Address.{Address};
ghost use Rattle.cluster_map.specs.RangeMap.{value_of};
ghost use Rattle.cluster_map.specs.SlotNodes.{nodes_in};
ghost use Rattle.cluster_map.specs.Targets.{addresses_behind};
ghost use Rattle.cluster_map.specs.Inner.NodeSets.{after_addresses};

use crate::slot_map::SlotAddrs;
use crate::slot_range_map::SlotRangeMap;
use cluster_slots::NodeAddress;
use std::hash::{DefaultHasher, Hash};

/// The most nodes that room is made for. Many ranges or parts often have few nodes.
const MOST_ROOM: usize = 2048;

/// What has the nodes of a set.
pub(crate) trait Source: Copy {
    /// The nodes, in order and as often as they are there.
    ghost nodes: { Self → List Address };

    /// For how many nodes room is made at first.
    fn room(&self) -> usize;

    /// Writes all nodes into a hash.
    fn write_to(&self, state: &mut DefaultHasher)
        ensures { state.new ≡ after_addresses state.old (nodes self.now) };
}

impl<'r, 'a> Source for &'r [&'a NodeAddress] {
    ghost nodes = { λ list. addresses_behind list.now };

    fn room(&self) -> usize {
        self.len().min(MOST_ROOM)
    }

    fn write_to(&self, state: &mut DefaultHasher) {
        write_list(*self, state);
    }
}

impl<'r> Source for &'r SlotRangeMap<SlotAddrs> {
    ghost nodes = { λ slots. flat_map nodes_in (map value_of slots.now) };

    fn room(&self) -> usize {
        self.len().saturating_mul(2).min(MOST_ROOM)
    }

    fn write_to(&self, state: &mut DefaultHasher) {
        write_ranges(*self, state);
    }
}

/// Writes the nodes of a list into a hash.
fn write_list(nodes: &[&NodeAddress], state: &mut DefaultHasher)
    ensures { state.new ≡ after_addresses state.old (addresses_behind nodes.now) }
{
    for node in nodes {
        node.hash(state);
    }
}

/// Writes the nodes of all ranges into a hash.
fn write_ranges(slots: &SlotRangeMap<SlotAddrs>, state: &mut DefaultHasher)
    ensures { state.new ≡ after_addresses state.old (flat_map nodes_in (map value_of slots.now)) }
{
    for addrs in slots.values() {
        write_range(addrs, state);
    }
}

/// Writes the nodes of a range into a hash.
fn write_range(addrs: &SlotAddrs, state: &mut DefaultHasher)
    ensures { state.new ≡ after_addresses state.old (nodes_in addrs.now) }
{
    for node in addrs {
        node.hash(state);
    }
}
