ghost use Rattle.std.specs.Prelude.{◌≡◌, [], IfOk, IfSome};
ghost use Rattle.cluster_map.specs.Targets.{addresses_behind};
ghost use Rattle.cluster_map.specs.Numbered.{AreNumbered, index_of};

use crate::slot_map::node_set::NodeSet;
use cluster_slots::NodeAddress;
use std::alloc::{AllocError, Global};
use std::cell::Cell;

/// The most nodes that are found by comparing each in a list of any length.
const MOST_COMPARED: usize = 8;

/// The length of a list up to which all nodes are found so.
const SHORT: usize = 32;

/// These nodes, each once by first appearance, and for each given node its number among them. Of
/// the nodes `n2`, `n1`, `n2` these are `n2` and `n1`, and 0, 1, 0.
///
/// Adds to `misses` how many nodes it compares in vain when more than a few nodes of a long list
/// differ: at most some 16 and one for each 16 nodes, also if the hosts are picked, as far as SipHash
/// spreads them.
///
/// # Errors
///
/// If memory runs out.
pub fn number_nodes_counting<'a>(
    alloc: Global,
    nodes: &[&'a NodeAddress],
    misses: &Cell<usize>,
) -> Result<(Vec<&'a NodeAddress>, Vec<usize>), AllocError>
    ensures numbered { IfOk result (λ found. AreNumbered (addresses_behind nodes.now)
        (addresses_behind found.0.items) found.1.items) }
{
    let mut numbers = Vec::with_capacity(alloc, nodes.len())?;
    let found = match number_few(alloc, nodes, &mut numbers)? {
        Some(few) => few,
        None => number_many(alloc, nodes, &mut numbers, misses)?,
    };
    Ok((found, numbers))
}

/// The same, unless more than a few nodes of a long list differ. Appends the numbers to the empty
/// list.
fn number_few<'a>(
    alloc: Global,
    nodes: &[&'a NodeAddress],
    numbers: &mut Vec<usize>,
) -> Result<Option<Vec<&'a NodeAddress>>, AllocError>
    requires { numbers.old.items ≡ [] }
    ensures { IfOk result (λ few. IfSome few (λ found. AreNumbered (addresses_behind nodes.now)
        (addresses_behind found.items) numbers.new.items)) }
{
    let mut found: Vec<&'a NodeAddress> = Vec::with_capacity(alloc, nodes.len().min(SHORT))?;
    for node in nodes {
        let number = index_in(&found, *node);
        if number == found.len() {
            if number == MOST_COMPARED && nodes.len() > SHORT {
                return Ok(None);
            }
            found.push(*node)?;
        }
        numbers.push(number)?;
    }
    Ok(Some(found))
}

/// The index of a node among others, or how many they are.
pub(crate) fn index_in(found: &[&NodeAddress], node: &NodeAddress) -> usize
    ensures { result ≡ index_of node.now (addresses_behind found.now) }
{
    let mut index = 0;
    while index < found.len() && *node != *found[index] {
        index += 1;
    }
    index
}

/// The same for any number of nodes. Puts the numbers in place of those in the list.
fn number_many<'a>(
    alloc: Global,
    nodes: &[&'a NodeAddress],
    numbers: &mut Vec<usize>,
    misses: &Cell<usize>,
) -> Result<Vec<&'a NodeAddress>, AllocError>
    ensures numbered { IfOk result (λ found. AreNumbered (addresses_behind nodes.now)
        (addresses_behind found.items) numbers.new.items) }
{
    let mut seen = NodeSet::new(alloc, nodes, misses)?;
    numbers.clear();
    for node in nodes {
        let (number, _) = seen.insert_full(*node)?;
        numbers.push(number)?;
    }
    seen.into_nodes()
}
