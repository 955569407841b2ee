//! Which node serves each slot.

ghost use Rattle.std.specs.Prelude.{◌≡◌, ◌≢◌, ℕ, true, false, [], ◌↔◌, IsTrue, Some, None, IfOk, OnOk, OnErr, option_copied};
ghost use Rattle.cluster_map.specs.Targets.{addresses_behind};
ghost use Rattle.redis_session.specs.Learned.{LearnsReply};
ghost use Rattle.redis_session.specs.Table.{AreCounted, IsNodeAt, KeepsNode, LearnsMoved, IsUsable, HasUsableMap, group_in};

use cluster_map::{NodeAddress, Route, SlotAddr, SlotMap};
use redis_bytes::{BytesFault, slot_map};
use redis_routing::NodeGroup;
use std::alloc::{AllocError, Global};
use std::collections::BTreeMap;
use std::marker::Model;

/// How many nodes a map has at most.
const MOST_NODES: usize = 65534;

/// The node of a slot that a `MOVED` named, and how many `MOVED` were learned with it.
#[derive(Drop)]
struct Moved {
    node: NodeAddress,
    count: u64,
}

/// Which node serves each slot: by the last usable reply to `CLUSTER SLOTS`, and by each `MOVED` that was not
/// learned before that was asked.
#[derive(Drop)]
pub struct SlotTable {
    map: SlotMap,
    moved: BTreeMap<u16, Moved>,
    count: u64,
}

impl Model for SlotTable {
    ghost use Rattle.redis_session.specs.Table.{Table, AreCounted};

    ghost Value = { Table };

    ghost view = { λ t. record { map = t.map; moved = t.moved.entries; count = t.count } };

    ghost invariant = { λ t. AreCounted t.moved.entries t.count };
}

impl SlotTable {
    /// No slot has a node. Takes no memory.
    pub fn new(alloc: Global) -> SlotTable
        ensures nothing { result ≡ record { map = []; moved = []; count = 0 } }
        ensures none { (slot : ℕ) → IsNodeAt slot result None }
    {
        SlotTable {
            map: SlotMap::new(alloc),
            moved: BTreeMap::new(alloc),
            count: 0,
        }
    }

    /// The node of a slot, if one serves it. O(log n).
    pub fn node(&self, slot: u16) -> Option<&NodeAddress>
        ensures { IsNodeAt slot self.now (option_copied result) }
    {
        if let Some(moved) = self.moved.get(&slot) {
            return Some(&moved.node);
        }
        self.map
            .slot_addr_for_route(Route::new(slot, SlotAddr::Master), None, 0)
    }

    /// The nodes of a group, by the last usable reply to `CLUSTER SLOTS`, in order of their first ranges.
    ///
    /// # Errors
    ///
    /// If memory runs out.
    pub fn group(&self, alloc: Global, group: NodeGroup) -> Result<Vec<&NodeAddress>, AllocError>
        ensures { IfOk result (λ nodes. addresses_behind nodes.items ≡ group_in group self.now) }
    {
        match group {
            NodeGroup::AllNodes => self.map.addresses_for_all_nodes(alloc),
            NodeGroup::AllMasters => self.map.addresses_for_all_primaries(alloc),
        }
    }

    /// How many `MOVED` were learned. Pass it to [`SlotTable::fill`] with the reply to a `CLUSTER SLOTS` that is asked
    /// now.
    pub fn count(&self) -> u64
        ensures count { result ≡ self.now.count }
        // So a map that is asked for now replaces what each `MOVED` said so far.
        ensures all { AreCounted self.now.moved result }
    {
        self.count
    }

    /// Learns a `MOVED`: this node serves the slot. No other slot changes.
    ///
    /// # Errors
    ///
    /// If memory runs out, or 2^64 - 1 `MOVED` were learned. Nothing changes then.
    pub fn note_moved(&mut self, slot: u16, node: NodeAddress) -> Result<(), AllocError>
        ensures learns { OnOk result (LearnsMoved slot node self.old self.new) }
        ensures node { OnOk result (IsNodeAt slot self.new (Some node)) }
        ensures others { OnOk result ((other : ℕ) → other ≢ slot → KeepsNode other self.old self.new) }
        ensures unchanged { OnErr result (self.new ≡ self.old) }
    {
        let Some(count) = self.count.checked_add(1) else {
            return Err(AllocError);
        };
        self.moved.insert(slot, Moved { node, count })?;
        self.count = count;
        Ok(())
    }

    /// Learns the reply to a `CLUSTER SLOTS` that was asked after `asked` `MOVED` were learned. `answering` is the
    /// host of the node that replied. What `MOVED` said later stays. Returns whether the table was set: it stays
    /// as it was unless the reply names a node, and at most 65534 of them.
    ///
    /// # Errors
    ///
    /// If memory runs out. Nothing changes then.
    pub fn fill(
        &mut self,
        alloc: Global,
        reply: &[u8],
        answering: &str,
        asked: u64,
    ) -> Result<bool, AllocError>
        ensures usable { IfOk result (λ fills. IsTrue fills ↔ HasUsableMap answering.now reply.now) }
        ensures learns { IfOk result (λ fills. fills ≡ true
            → LearnsReply asked answering.now reply.now self.old self.new) }
        ensures stays { IfOk result (λ fills. fills ≡ false → self.new ≡ self.old) }
        ensures unchanged { OnErr result (self.new ≡ self.old) }
    {
        let map = match slot_map(alloc, reply, answering) {
            Ok(map) => map,
            Err(BytesFault::Memory) => return Err(AllocError),
            Err(_) => return Ok(false),
        };
        if !is_usable(alloc, &map)? {
            return Ok(false);
        }
        self.map = map;
        self.moved.retain(|_, moved| moved.count > asked);
        Ok(true)
    }
}

/// Whether a map names a node, and at most 65534 of them.
///
/// # Errors
///
/// If memory runs out.
fn is_usable(alloc: Global, map: &SlotMap) -> Result<bool, AllocError>
    ensures { IfOk result (λ is. IsTrue is ↔ IsUsable map.now) }
{
    let count = map.addresses_for_all_nodes(alloc)?.len();
    Ok(0 < count && count <= MOST_NODES)
}
