//! The nodes that a session knows, and which of them serves each slot.
#![tactic(auto, using(crate::proofs::SlotNumbers::kept_grow, crate::proofs::SlotNumbers::kept_number, crate::proofs::SlotNumbers::kept_moved, crate::proofs::SlotNumbers::kept_primaries, crate::proofs::SlotNumbers::sets_first))]

ghost use Rattle.std.specs.Prelude.{◌≡◌, ◌≢◌, ◌≤◌, ◌++◌, ◌∷◌, [], true, false, IfOk, IfSome, IfNone, OnOk, OnErr, All, length, slice_get, Some};
ghost use Rattle.cluster_map.specs.Targets.{addresses_behind};
ghost use Rattle.redis_session.specs.Directory.{AreNumbersOf, IsKnownAmong, IsNodeOf, IsPrimary};
ghost use Rattle.redis_session.specs.Inner.SlotNumbers.{SetsNumber};
ghost use Rattle.redis_session.specs.Learned.{IsInMap, LearnsReply, host_in};
ghost use Rattle.redis_session.specs.Table.{LearnsMoved, group_in};

use crate::table::SlotTable;
use cluster_map::NodeAddress;
use redis_routing::NodeGroup;
use std::alloc::{AllocError, Global};
use std::collections::BTreeMap;
use std::marker::Model;

/// How many nodes a session knows at most.
const MOST_NODES: usize = 65534;

/// The number of slots.
const SLOT_COUNT: usize = 16384;

/// Stands in the place of a node's number if that was not looked up. It is above each number.
const NO_NODE: u16 = 65535;

/// The nodes that a session knows, by numbers that stay, and which of them serves each slot.
///
/// The number of the node of a slot is found in constant time once it was looked up.
#[derive(Drop)]
pub(crate) struct Directory {
    table: SlotTable,
    addresses: Vec<NodeAddress>,
    numbers: BTreeMap<NodeAddress, usize>,
    /// The number of the node of each slot, as far as it was looked up since the last change. It may be empty.
    by_slot: Vec<u16>,
    /// The numbers of the primaries of the map that are known. It is empty if they were not looked up since the map was
    /// learned.
    primaries: Vec<usize>,
}

impl Model for Directory {
    ghost use Rattle.redis_session.specs.Directory.{Directory};
    ghost use Rattle.redis_session.specs.Inner.SlotNumbers.{AreKept};

    ghost Value = { Directory };

    ghost view = { λ d. record { nodes = d.addresses.items; table = d.table } };

    ghost invariant = { λ d. AreKept d.by_slot.items d.primaries.items
        (record { nodes = d.addresses.items; table = d.table }) };
}

impl Directory {
    /// No node is known. Takes no memory.
    pub(crate) fn new(alloc: Global) -> Directory
        ensures { result ≡ record { nodes = []; table = record { map = []; moved = []; count = 0 } } }
    {
        Directory {
            table: SlotTable::new(alloc),
            addresses: Vec::new(alloc),
            numbers: BTreeMap::new(alloc),
            by_slot: Vec::new(alloc),
            primaries: Vec::new(alloc),
        }
    }

    /// How many nodes are known. Their numbers are below this.
    pub(crate) fn len(&self) -> usize
        ensures { result ≡ length self.now.nodes }
    {
        self.addresses.len()
    }

    /// How many `MOVED` were learned.
    pub(crate) fn moved_count(&self) -> u64
        ensures { result ≡ self.now.table.count }
    {
        self.table.count()
    }

    /// The address of a node.
    pub(crate) fn address(&self, node: usize) -> Option<&NodeAddress>
        ensures some { IfSome result (λ address. slice_get self.now.nodes node ≡ Some address.now) }
        ensures none { IfNone result (slice_get self.now.nodes node ≡ None) }
    {
        self.addresses.get(node)
    }

    /// The number of a node, if it is known. O(log n).
    pub(crate) fn number(&self, address: &NodeAddress) -> Option<usize>
        ensures { IfSome result (λ node. slice_get self.now.nodes node ≡ Some address.now) }
    {
        let node = *self.numbers.get(address)?;
        // A number whose address found no memory is no node.
        let known = self.address(node)?;
        if known == address { Some(node) } else { None }
    }

    /// Adds a node that is not known. Returns its number, or `None` if there are too many.
    ///
    /// # Errors
    ///
    /// If memory runs out. Nothing changes then.
    pub(crate) fn add(&mut self, address: NodeAddress) -> Result<Option<usize>, AllocError>
        ensures some { IfOk result (λ number. IfSome number (λ node. (node ≡ length self.old.nodes)
            × (self.new ≡ record self.old { nodes = self.old.nodes ++ address ∷ [] }))) }
        ensures none { IfOk result (λ number. IfNone number ((self.new ≡ self.old)
            × (65534 ≤ length self.old.nodes))) }
        ensures err { OnErr result (self.new ≡ self.old) }
    {
        let number = self.addresses.len();
        if number >= MOST_NODES {
            return Ok(None);
        }
        self.addresses.reserve(1)?;
        self.numbers.insert(address.clone()?, number)?;
        self.addresses.push(address)?;
        Ok(Some(number))
    }

    /// The number of the primary of a slot, if one serves it that is known.
    pub(crate) fn node_of(&mut self, slot: u16) -> Option<usize>
        ensures node { IfSome result (λ node. IsNodeOf slot node self.old) }
        ensures state { self.new ≡ self.old }
    {
        if let Some(node) = self.kept_number(slot) {
            return Some(node);
        }
        let node = self.number(self.table.node(slot)?)?;
        self.keep_number(slot, node);
        Some(node)
    }

    /// The number of the node of a slot, if it was looked up.
    fn kept_number(&self, slot: u16) -> Option<usize>
        ensures { IfSome result (λ node. IsNodeOf slot node self.now) }
    {
        let node = *self.by_slot.get(slot as usize)?;
        if node == NO_NODE {
            return None;
        }
        Some(node as usize)
    }

    /// Keeps the number of the node of a slot, if there is memory for that.
    fn keep_number(&mut self, slot: u16, node: usize)
        requires { IsNodeOf slot node self.old }
        ensures { self.new ≡ self.old }
    {
        if let Ok(number) = u16::try_from(node) {
            put_number(&mut self.by_slot, slot, number);
        }
    }

    /// The numbers of the nodes of a group, by the last usable map.
    ///
    /// # Errors
    ///
    /// If memory runs out, or one of them has no number, since memory ran out then or there are too many nodes.
    pub(crate) fn numbers(&self, alloc: Global, group: NodeGroup) -> Result<Vec<usize>, AllocError>
        ensures { IfOk result (λ numbers. AreNumbersOf numbers.items (group_in group self.now.table) self.now.nodes) }
    {
        let addresses = self.table.group(alloc, group)?;
        let mut numbers = Vec::with_capacity(alloc, addresses.len())?;
        for address in &addresses {
            let Some(number) = self.number(address) else {
                return Err(AllocError);
            };
            numbers.push(number)?;
        }
        Ok(numbers)
    }

    /// The numbers of those nodes of a group that are known, by the last usable map.
    ///
    /// # Errors
    ///
    /// If memory runs out.
    pub(crate) fn known_nodes(
        &self,
        alloc: Global,
        group: NodeGroup,
    ) -> Result<Vec<usize>, AllocError>
        ensures { IfOk result (λ known. All (IsKnownAmong (group_in group self.now.table) self.now.nodes) known.items) }
    {
        let addresses = self.table.group(alloc, group)?;
        let mut known = Vec::new(alloc);
        for address in &addresses {
            if let Some(number) = self.number(address) {
                known.push(number)?;
            }
        }
        Ok(known)
    }

    /// The nodes of the last usable map that are not known.
    ///
    /// # Errors
    ///
    /// If memory runs out.
    pub(crate) fn unknown_nodes(&self, alloc: Global) -> Result<Vec<NodeAddress>, AllocError>
        ensures { IfOk result (λ unknown. All (IsInMap self.now.table) unknown.items) }
    {
        let addresses = self.table.group(alloc, NodeGroup::AllNodes)?;
        let mut unknown = Vec::new(alloc);
        for address in &addresses {
            if self.number(address).is_none() {
                unknown.push((*address).clone()?)?;
            }
        }
        Ok(unknown)
    }

    /// Looks up the numbers of the primaries of the last usable map.
    ///
    /// # Errors
    ///
    /// If memory runs out. Nothing changes then.
    pub(crate) fn look_up_primaries(&mut self, alloc: Global) -> Result<(), AllocError>
        ensures { self.new ≡ self.old }
    {
        self.primaries = self.known_nodes(alloc, NodeGroup::AllMasters)?;
        Ok(())
    }

    /// The numbers of the primaries of the last usable map, as far as they were looked up.
    pub(crate) fn primaries(&self) -> &[usize] {
        &self.primaries
    }

    /// The number of a primary of the last usable map, by its place among [`Directory::primaries`].
    pub(crate) fn primary(&self, place: usize) -> Option<usize>
        ensures { IfSome result (λ node. IsPrimary node self.now) }
    {
        let node = *self.primaries.get(place)?;
        Some(node)
    }

    /// Learns a `MOVED`: this node serves the slot. No other slot changes.
    ///
    /// # Errors
    ///
    /// If memory runs out, or 2^64 - 1 `MOVED` were learned. Nothing changes then.
    pub(crate) fn note_moved(&mut self, slot: u16, node: NodeAddress) -> Result<(), AllocError>
        ensures learns { OnOk result (LearnsMoved slot node self.old.table self.new.table) }
        ensures others { self.new ≡ record self.old { table = self.new.table } }
        ensures err { OnErr result (self.new ≡ self.old) }
    {
        self.table.note_moved(slot, node)?;
        set_number(&mut self.by_slot, slot, NO_NODE);
        Ok(())
    }

    /// Learns the reply of a node to a `CLUSTER SLOTS` that was asked after `asked` `MOVED` were learned. Returns whether
    /// the table was set.
    ///
    /// # Errors
    ///
    /// If memory runs out. Nothing changes then.
    pub(crate) fn fill(
        &mut self,
        alloc: Global,
        reply: &[u8],
        node: usize,
        asked: u64,
    ) -> Result<bool, AllocError>
        ensures learns { IfOk result (λ fills. fills ≡ true
            → LearnsReply asked (host_in (slice_get self.old.nodes node)) reply.now self.old.table self.new.table) }
        ensures stays { IfOk result (λ fills. fills ≡ false → self.new ≡ self.old) }
        ensures others { self.new ≡ record self.old { table = self.new.table } }
        ensures err { OnErr result (self.new ≡ self.old) }
    {
        let Some(host) = host_in(&self.addresses, node) else {
            return Ok(false);
        };
        if !self.table.fill(alloc, reply, host, asked)? {
            return Ok(false);
        }
        self.by_slot.clear();
        self.primaries.clear();
        Ok(true)
    }
}

/// The host of a node, if the node is known.
fn host_in(nodes: &[NodeAddress], node: usize) -> Option<&str>
    ensures { IfSome result (λ host. host.now ≡ host_in (slice_get nodes.now node)) }
{
    match nodes.get(node) {
        Some(address) => Some(address.host()),
        None => None,
    }
}

/// Keeps the number of a slot, if there is memory for a place of it.
fn put_number(numbers: &mut Vec<u16>, slot: u16, number: u16)
    ensures { SetsNumber slot number numbers.old.items numbers.new.items }
{
    if numbers.is_empty() {
        put_first(numbers, slot, number);
        return;
    }
    set_number(numbers, slot, number);
}

/// Keeps the first number, if there is memory for a place of each slot.
fn put_first(numbers: &mut Vec<u16>, slot: u16, number: u16)
    requires { length numbers.old.items ≡ 0 }
    ensures { SetsNumber slot number numbers.old.items numbers.new.items }
{
    let Ok(()) = numbers.resize(SLOT_COUNT, NO_NODE) else {
        return;
    };
    set_number(numbers, slot, number);
}

/// Sets the number of a slot, if there is a place for it.
fn set_number(numbers: &mut Vec<u16>, slot: u16, number: u16)
    ensures { SetsNumber slot number numbers.old.items numbers.new.items }
{
    let index = slot as usize;
    if index < numbers.len() {
        numbers[index] = number;
    }
}
