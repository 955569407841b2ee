ghost use Rattle.std.specs.Prelude.{◌≡◌, ℕ, List, [], map, Option, IfOk, IfErr, ◌↔◌, MatchOption, Contains, IsPermutation, ◌<◌, ◌≤◌, ◌^◌, length, take, OnOk, OnErr};
ghost use Rattle.std.specs.List.{AllZip};
ghost use Rattle.resp_core.specs.ErrorParts.{out_of_memory};
ghost use Rattle.resp_core.specs.Reply.{Reply};
ghost use Rattle.resp_core.specs.View.{view};
ghost use Rattle.cluster_slots.specs.Address.{Address};
ghost use Rattle.cluster_slots.specs.SlotRoute.{SlotRoute};
ghost use Rattle.cluster_map.specs.SlotNodes.{SlotNodes, RangeNodes, nodes_of, range_entry, insert_ranges};
ghost use Rattle.cluster_map.specs.RangeMap.{RangeEntry, Ascends, AreDisjoint, IsUncovered, value_of};
ghost use Rattle.cluster_map.specs.EachOnce.{all_nodes_in, primaries_in};
ghost use Rattle.cluster_map.specs.Fallback.{fallback, IsFallback};
ghost use Rattle.cluster_map.specs.Targets.{addresses_behind};
ghost use Rattle.cluster_map.specs.RouteNode.{IsNodeFor, IsPicked, IsRouteNode};
ghost use Rattle.cluster_map.specs.ReplyNode.{IsFound, IsFoundByReply, entries_in};
ghost use Rattle.cluster_map.specs.Shards.{ShardNodes};
ghost use Rattle.cluster_map.specs.Topology.{shards_of, shards_left, topology_of, Agrees, IsShardAt};

use crate::read_routing::{ClusterTopology, ReadCandidates, ReadRoutingStrategy, Replicas};
use crate::slot_range_map::{SlotRangeMap, Values};
use crate::topology::parse_slots;
use addresses::insert_all;
use cluster_slots::{NodeAddress, Route, SlotAddr};
use grouping::shards_of;
use node_set::NodeSet;
use primaries::{primaries_of_few, primaries_of_many};
use resp_core::{RedisResult, Value};
use std::alloc::{AllocError, Global};
use std::cell::Cell;
use std::marker::Model;

mod addresses;
mod grouping;
mod node_set;
mod primaries;

pub use crate::slot_range::SlotRange;
pub use addresses::NodeAddresses;
pub use node_set::number_nodes_counting;

/// The most ranges whose primaries are compared one by one. More are found by a set.
const FEW_RANGES: usize = 16;

/// The nodes that serve a range of slots: a primary and its replicas.
#[derive(Debug, Drop)]
pub struct SlotAddrs {
    primary: NodeAddress,
    replicas: Vec<NodeAddress>,
}

impl Model for SlotAddrs {
    ghost use Rattle.cluster_map.specs.SlotNodes.{SlotNodes};

    ghost Value = { SlotNodes };

    ghost view = { λ s. record { primary = s.primary; replicas = s.replicas.items } };
}

impl SlotAddrs {
    /// The nodes of a range: its primary, and its replicas in order.
    pub fn new(primary: NodeAddress, replicas: Vec<NodeAddress>) -> Self
        ensures { result ≡ record { primary = primary; replicas = replicas.items } }
    {
        SlotAddrs { primary, replicas }
    }

    /// The nodes of a range.
    pub fn from_slot(slot: SlotRange) -> Self
        ensures { result ≡ nodes_of slot }
    {
        let SlotRange {
            start: _,
            end: _,
            master,
            replicas,
        } = slot;
        SlotAddrs::new(master, replicas)
    }

    fn primary(&self) -> &NodeAddress
        ensures { result.now ≡ self.now.primary }
    {
        &self.primary
    }

    fn replicas(&self) -> &Vec<NodeAddress>
        ensures { result.now.items ≡ self.now.replicas }
    {
        &self.replicas
    }

    /// The nodes that may serve a read: the replicas, then the primary unless a replica is
    /// required. None for a route to the primary.
    fn fallback(&self, alloc: Global, slot_addr: SlotAddr) -> Result<Vec<NodeAddress>, AllocError>
        ensures { IfOk result (λ addresses. addresses.items ≡ fallback self.now slot_addr) }
    {
        match slot_addr {
            SlotAddr::Master => Ok(Vec::new(alloc)),
            SlotAddr::ReplicaOptional => {
                let mut addresses = Vec::with_capacity(alloc, self.replicas.len() + 1)?;
                for replica in &self.replicas {
                    addresses.push(replica.clone()?)?;
                }
                addresses.push(self.primary.clone()?)?;
                Ok(addresses)
            }
            SlotAddr::ReplicaRequired => self.replicas.clone(),
        }
    }

    /// The node for a route to the slot.
    ///
    /// A route to the primary goes to the primary, and so does each route if there is no replica.
    /// Otherwise the strategy picks, if one is passed. Without a strategy a read goes to the
    /// primary, or, if a replica is required, to the replica at `pick` modulo their number.
    pub fn slot_addr(
        &self,
        slot: u16,
        slot_addr: SlotAddr,
        strategy: Option<&dyn ReadRoutingStrategy>,
        pick: usize,
    ) -> &NodeAddress
        ensures node { MatchOption strategy.entry
            (IsNodeFor self.now slot_addr pick result.now)
            (λ s. IsPicked (picks s.now) self.now slot slot_addr result.now) }
    {
        let Some(replicas) = Replicas::new(self.replicas.as_slice()) else {
            return &self.primary;
        };
        match (slot_addr, strategy) {
            (SlotAddr::Master, _) | (SlotAddr::ReplicaOptional, None) => &self.primary,
            (SlotAddr::ReplicaRequired, None) => replicas.choose_random(pick),
            (SlotAddr::ReplicaOptional, Some(strategy)) => {
                strategy.route_read(&ReadCandidates::any_node(slot, &self.primary, replicas))
            }
            (SlotAddr::ReplicaRequired, Some(strategy)) => {
                strategy.route_read(&ReadCandidates::replicas_only(slot, replicas))
            }
        }
    }
}

/// The ranges as (start, end, nodes), in order, in a list that has room for all at once.
fn range_entries(slots: Vec<SlotRange>) -> Result<Vec<(u16, u16, SlotAddrs)>, AllocError>
    ensures { IfOk result (λ entries. entries.items ≡ map range_entry slots.items) }
{
    let mut entries = Vec::with_capacity(*slots.allocator(), slots.len())?;
    for slot in slots {
        let (start, end) = (slot.start, slot.end);
        entries.push((start, end, SlotAddrs::from_slot(slot)))?;
    }
    Ok(entries)
}

/// Which nodes serve which slots of a cluster.
///
/// ```
/// let slots = vec![in alloc;
///     SlotRange::new(0, 8191, low, Vec::new(alloc)),
///     SlotRange::new(8192, 16383, high, Vec::new(alloc)),
/// ]?;
/// Ok(SlotMap::from_slots(alloc, slots)?)
/// ```
#[derive(Debug, Drop)]
pub struct SlotMap {
    slots: SlotRangeMap<SlotAddrs>,
}

impl Model for SlotMap {
    ghost use Rattle.std.specs.Prelude.{List};
    ghost use Rattle.cluster_map.specs.RangeMap.{RangeEntry};
    ghost use Rattle.cluster_map.specs.SlotNodes.{SlotNodes};

    ghost Value = { List (RangeEntry SlotNodes) };

    ghost view = { λ m. m.slots };
}

impl SlotMap {
    /// An empty map. Takes no memory.
    pub fn new(alloc: Global) -> Self
        ensures { result ≡ [] }
    {
        SlotMap {
            slots: SlotRangeMap::new(alloc),
        }
    }

    /// The same as `new`.
    pub fn default(alloc: Global) -> Self
        ensures { result ≡ [] }
    {
        SlotMap::new(alloc)
    }

    /// Inserts the ranges in order. Each replaces an earlier one with the same end.
    ///
    /// # Errors
    ///
    /// If memory runs out, the map stays as it was.
    pub fn fill_slots(&mut self, slots: Vec<SlotRange>) -> Result<(), AllocError>
        ensures put { OnOk result (self.new ≡ insert_ranges self.old slots.items) }
        ensures before { OnErr result ((count : ℕ) × (count < length slots.items)
            × (self.new ≡ insert_ranges self.old (take count slots.items))) }
        ensures unchanged { OnErr result (self.new ≡ self.old) }
    {
        if slots.is_empty() {
            return Ok(());
        }
        self.slots.extend(range_entries(slots)?)
    }

    /// The map of these ranges, inserted in order. A later range replaces an earlier one with the
    /// same end.
    ///
    /// # Errors
    ///
    /// If memory runs out.
    #[tactic(auto, using(crate::proofs::Disjoint::any_order))]
    pub fn from_slots(alloc: Global, slots: Vec<SlotRange>) -> Result<Self, AllocError>
        ensures put { IfOk result (λ map. map ≡ insert_ranges [] slots.items) }
        // If no two of the ranges overlap and none is reversed, each has its entry.
        ensures kept { AreDisjoint (map range_entry slots.items)
            → IfOk result (λ m. (e : RangeEntry SlotNodes)
            → Contains m e ↔ Contains (map range_entry slots.items) e) }
        // Then their order does not matter.
        ensures any_order { (others : List RangeNodes) → IsPermutation slots.items others
            → AreDisjoint (map range_entry slots.items)
            → IfOk result (λ m. m ≡ insert_ranges [] others) }
    {
        let mut map = SlotMap::new(alloc);
        map.fill_slots(slots)?;
        Ok(map)
    }

    /// The map of a reply to `CLUSTER SLOTS`, with the ranges that `parse_slots` reads.
    ///
    /// # Errors
    ///
    /// Kind `OutOfMemory` if memory runs out.
    pub fn from_reply(alloc: Global, reply: &Value, answering: &str) -> RedisResult<Self>
        ensures entries { IfOk result (λ map. map ≡ entries_in answering.now (view reply.now)) }
        // So a route finds the node that the reply says.
        ensures node { IfOk result (λ map. (route : SlotRoute) (pick : ℕ) (found : Option Address)
            → IsFound map route pick found
            → IsFoundByReply answering.now (view reply.now) route pick found) }
        ensures memory { IfErr result (λ e. e ≡ out_of_memory) }
    {
        let slots = parse_slots(alloc, reply, answering)?;
        Ok(SlotMap::from_slots(alloc, slots)?)
    }

    /// The node for a route, as `SlotAddrs::slot_addr` chooses it. `None` if no range covers its
    /// slot.
    pub fn slot_addr_for_route(
        &self,
        route: Route,
        strategy: Option<&dyn ReadRoutingStrategy>,
        pick: usize,
    ) -> Option<&NodeAddress>
        ensures node { MatchOption result (IsUncovered self.now route.slot)
            (λ address. IsRouteNode strategy.entry (λ s. picks s.now)
            self.now pick route address.now) }
        // In the map of a reply, the node is the one that the reply says.
        ensures reply { (answering : List ℕ) (reply : Reply) → self.now ≡ entries_in answering reply
            → MatchOption result (IsUncovered (entries_in answering reply) route.slot)
            (λ address. IsRouteNode strategy.entry (λ s. picks s.now)
            (entries_in answering reply) pick route address.now) }
        // So one range at most answers for a slot.
        ensures order { Ascends self.now }
    {
        let addrs = self.slots.get(route.slot())?;
        Some(addrs.slot_addr(route.slot(), route.slot_addr(), strategy, pick))
    }

    /// The node of each route, in order, or `None` if no range covers its slot. The strategy is
    /// asked in this order, and `pick` is the same for all.
    ///
    /// # Errors
    ///
    /// If memory runs out.
    pub fn addresses_for_multi_slot(
        &self,
        alloc: Global,
        routes: &[(Route, Vec<usize>)],
        strategy: Option<&dyn ReadRoutingStrategy>,
        pick: usize,
    ) -> Result<Vec<Option<&NodeAddress>>, AllocError>
        ensures each { IfOk result (λ found. AllZip
            (λ route node. MatchOption node (IsUncovered self.now route.0.slot)
            (λ address. IsRouteNode strategy.entry (λ s. picks s.now) self.now pick route.0
            address.now))
            routes.now found.items) }
    {
        let mut found = Vec::with_capacity(alloc, routes.len())?;
        for (route, _) in routes {
            found.push(self.slot_addr_for_route(*route, strategy, pick))?;
        }
        Ok(found)
    }

    /// The nodes to try if the node of a read's route fails: the replicas, and then the primary
    /// unless a replica is required. Empty for a route to the primary, or if no range covers the
    /// slot.
    ///
    /// # Errors
    ///
    /// If memory runs out.
    pub fn shard_fallback_addrs(
        &self,
        alloc: Global,
        route: Route,
    ) -> Result<Vec<NodeAddress>, AllocError>
        ensures fallback { IfOk result (λ addresses. IsFallback self.now route addresses.items) }
        ensures order { Ascends self.now }
    {
        match self.slots.get(route.slot()) {
            Some(addrs) => addrs.fallback(alloc, route.slot_addr()),
            None => Ok(Vec::new(alloc)),
        }
    }

    /// Removes all ranges.
    pub fn clear(&mut self)
        ensures empty { self.new ≡ [] }
    {
        self.slots.clear();
    }

    /// The nodes of each range, by ascending end.
    pub fn values(&self) -> Values<'_, SlotAddrs>
        ensures all { result ≡ map value_of self.now }
        ensures order { Ascends self.now }
    {
        self.slots.values()
    }

    /// Each primary once, in order of its first range.
    ///
    /// # Errors
    ///
    /// If memory runs out.
    pub fn addresses_for_all_primaries(
        &self,
        alloc: Global,
    ) -> Result<Vec<&NodeAddress>, AllocError>
        ensures all { IfOk result (λ found. addresses_behind found.items ≡ primaries_in self.now) }
        ensures order { Ascends self.now }
    {
        if self.slots.len() <= FEW_RANGES {
            primaries_of_few(alloc, &self.slots)
        } else {
            primaries_of_many(alloc, &self.slots)
        }
    }

    /// Each node once, in order of its first range. Within a range the primary comes first.
    ///
    /// # Errors
    ///
    /// If memory runs out.
    pub fn addresses_for_all_nodes(&self, alloc: Global) -> Result<Vec<&NodeAddress>, AllocError>
        ensures all { IfOk result (λ found. addresses_behind found.items ≡ all_nodes_in self.now) }
        ensures order { Ascends self.now }
    {
        let ranges = self.values();
        let misses = Cell::new(0);
        let mut seen = NodeSet::new(alloc, &self.slots, &misses)?;
        for addrs in ranges {
            insert_all(&mut seen, addrs)?;
        }
        seen.into_nodes()
    }

    /// The shards of this map: one for each primary, in order of its first range. A shard has all
    /// ranges of its primary, and the replicas of the first range.
    ///
    /// # Errors
    ///
    /// If memory runs out.
    pub fn topology(&self, alloc: Global) -> Result<ClusterTopology, AllocError>
        ensures shards { IfOk result (λ topology. topology ≡ topology_of (shards_of self.now)) }
        // So its `shards` lists just these.
        ensures listed { IfOk result (λ topology. shards_left topology ≡ shards_of self.now) }
        // The topology agrees with the map on every slot.
        ensures agrees { IfOk result (λ topology. Agrees self.now topology) }
        // Neither covers a number above 65535.
        ensures past { IfOk result (λ topology. (slot : ℕ) → 2 ^ 16 ≤ slot
            → IsUncovered self.now slot × ((s : ShardNodes) → ¬ (IsShardAt topology slot s))) }
        ensures order { Ascends self.now }
    {
        let shards = shards_of(alloc, &self.slots)?;
        let topology = ClusterTopology::from_shards(alloc, shards)?;
        Ok(topology)
    }
}
