ghost use Rattle.std.specs.Prelude.{◌≡◌, ◌↔◌, ◌<◌, ◌+◌, ◌/◌, ◌++◌, ◌∷◌, [], not, if◌then◌else◌, IfOk, OnOk, IsTrue};
ghost use Rattle.std.specs.List.{list_any, position_or_len};
ghost use Rattle.cluster_slots.specs.Address.{same_address};
ghost use Rattle.cluster_map.specs.Targets.{addresses_behind};
ghost use Rattle.cluster_map.specs.Inner.NodeSets.{addresses_counted, begun_with};
ghost use Rattle.indexmap.specs.IndexSet.{hasher_of};

use crate::slot_map::node_set::counted::Counted;
use crate::slot_map::node_set::node_hasher::NodeHasher;
use cluster_slots::NodeAddress;
use indexmap::IndexSet;
use std::alloc::{AllocError, Global};
use std::cell::Cell;
use std::marker::Model;
use std::mem::replace;

mod counted;
mod node_hasher;
mod numbering;
mod source;

pub(crate) use numbering::index_in;
pub use numbering::number_nodes_counting;
pub(crate) use source::Source;

/// How often look-ups may compare nodes in vain before the quick hash counts as slow.
const FIRST_MISSES: usize = 16;

/// For how many look-ups they may do so once more. Mostly one look-up of forty does.
const LOOK_UPS_A_MISS: usize = 16;

/// Addresses of nodes, each once, in order of first appearance.
///
/// Nodes are found by a quick hash. Hosts can be chosen so that it is equal, and then look-ups
/// compare many nodes. After too many, another hash finds them. It depends on all nodes of the
/// source.
#[derive(Drop)]
pub(crate) struct NodeSet<'a, 'c, S> {
    source: S,
    nodes: IndexSet<Counted<'a, 'c>, NodeHasher>,
    look_ups: usize,
    misses: &'c Cell<usize>,
}

impl<'a, 'c, S> Model for NodeSet<'a, 'c, S> {
    ghost use Rattle.std.specs.Prelude.{List};
    ghost use Rattle.cluster_slots.specs.Address.{Address};
    ghost use Rattle.cluster_map.specs.Inner.NodeSets.{addresses_counted};

    ghost Value = { List Address };

    ghost view = { λ s. addresses_counted s.nodes.keys };
}

impl<'a, 'c, S: Source> NodeSet<'a, 'c, S> {
    /// An empty set for nodes of a source. `misses` counts the nodes that look-ups compare in
    /// vain.
    pub(crate) fn new(alloc: Global, source: S, misses: &'c Cell<usize>) -> Result<Self, AllocError>
        ensures { IfOk result (λ nodes. nodes ≡ []) }
    {
        let nodes = IndexSet::with_capacity_and_hasher(alloc, source.room(), NodeHasher::quick())?;
        Ok(NodeSet {
            source,
            nodes,
            look_ups: 0,
            misses,
        })
    }

    /// Inserts a node unless it is there. Returns its index and whether it is new.
    #[tactic(auto, using(crate::proofs::NodeSets::nodes_counted, crate::proofs::NodeSets::index_counted, crate::proofs::NodeSets::new_counted))]
    pub(crate) fn insert_full(&mut self, node: &'a NodeAddress) -> Result<(usize, bool), AllocError>
        ensures nodes { OnOk result (self.new ≡ (if list_any (same_address node.now) self.old
            then self.old else self.old ++ node.now ∷ [])) }
        ensures index { IfOk result (λ r. r.0 ≡ position_or_len (same_address node.now) self.old) }
        ensures is_new { IfOk result (λ r. r.1 ≡ not (list_any (same_address node.now) self.old)) }
    {
        self.look_ups = self.look_ups.saturating_add(1);
        let (index, is_new) = self.nodes.insert_full(Counted::new(node, self.misses))?;
        if are_too_many(self.misses.get(), self.look_ups) && self.nodes.hasher().is_quick() {
            rehash(&self.source, &mut self.nodes)?;
        }
        Ok((index, is_new))
    }

    /// The nodes, in order of first appearance.
    pub(crate) fn into_nodes(self) -> Result<Vec<&'a NodeAddress>, AllocError>
        ensures { IfOk result (λ nodes. addresses_behind nodes.items ≡ self.entry) }
    {
        nodes_counted(&self.nodes)
    }
}

/// Whether so many nodes that look-ups compared in vain are too many for the quick hash.
fn are_too_many(misses: usize, look_ups: usize) -> bool
    ensures { IsTrue result ↔ (16 + look_ups / 16 < misses) }
{
    misses > FIRST_MISSES + look_ups / LOOK_UPS_A_MISS
}

/// Finds the nodes by the hash that begins with all nodes of their source from now on.
fn rehash<'a, 'c, S: Source>(
    source: &S,
    nodes: &mut IndexSet<Counted<'a, 'c>, NodeHasher>,
) -> Result<(), AllocError>
    ensures nodes { OnOk result (nodes.new.keys ≡ nodes.old.keys) }
    ensures hash { OnOk result (hasher_of nodes.new ≡ begun_with (S.nodes source.now)) }
{
    let (alloc, len) = (*nodes.allocator(), nodes.len());
    let hasher = NodeHasher::after_all(source);
    let found = IndexSet::with_capacity_and_hasher(alloc, len, hasher)?;
    let mut quick = replace(nodes, found);
    nodes.append(&mut quick)
}

/// The nodes that are counted.
fn nodes_counted<'a>(
    counted_nodes: &IndexSet<Counted<'a, '_>, NodeHasher>,
) -> Result<Vec<&'a NodeAddress>, AllocError>
    ensures { IfOk result (λ nodes. addresses_behind nodes.items
        ≡ addresses_counted counted_nodes.now.keys) }
{
    let mut nodes = Vec::with_capacity(*counted_nodes.allocator(), counted_nodes.len())?;
    for counted in counted_nodes.as_slice() {
        nodes.push(counted.node())?;
    }
    Ok(nodes)
}
