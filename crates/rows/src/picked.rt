//! Nodes whose hosts are picked so that a quick hash does not tell them apart.
use cluster_map::{NodeAddress, number_nodes_counting};
use fixtures::{number, shown, two};
use resp_core::RedisResult;
use std::alloc::{AllocError, Global};
use std::cell::Cell;

/// Nodes whose hosts are this text with eight digits.
fn nodes(alloc: Global, count: usize, text: &str) -> Result<Vec<NodeAddress>, AllocError> {
    let mut nodes = Vec::with_capacity(alloc, count)?;
    for number in 0..count {
        let host = format!(in alloc; "{text}{number:08}")?;
        nodes.push(NodeAddress::new(alloc, &host, 6379)?)?;
    }
    Ok(nodes)
}

/// Whether this many such nodes are numbered with some comparisons in vain, and fewer than there are
/// nodes. A number of 0 says that they are not counted.
pub fn are_few_in_vain(alloc: Global, words: &str) -> RedisResult<String> {
    let (count, text) = two(words);
    let nodes = nodes(alloc, number(count)?, text)?;
    let mut list = Vec::with_capacity(alloc, nodes.len())?;
    for node in &nodes {
        list.push(node)?;
    }
    let in_vain = Cell::new(0);
    let (found, _) = number_nodes_counting(alloc, &list, &in_vain)?;
    let is_few = 0 < in_vain.get() && in_vain.get() < nodes.len();
    shown(alloc, &(found.len() == nodes.len() && is_few))
}
