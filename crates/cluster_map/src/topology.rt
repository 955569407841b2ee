//! The reply to `CLUSTER SLOTS`: which nodes serve which slots.
ghost use Rattle.std.specs.Prelude.{◌≡◌, ◌∷◌, [], IfOk, IfErr, Some, codes, filter_map, map, option_copied};
ghost use Rattle.resp_core.specs.ErrorParts.{out_of_memory};
ghost use Rattle.resp_core.specs.View.{view};
ghost use Rattle.cluster_map.specs.SlotsReply.{u16_of, host_bytes as bytes_in, text_of, host_for, address_from, is_unspecified as unspecified, node_in, range_from, range_in, leading_arrays, ranges_in};

use crate::slot_range::SlotRange;
use bstr::ByteSlice;
use cluster_slots::NodeAddress;
use resp_core::{Cmd, RedisResult, Value};
use std::alloc::{AllocError, Global};

/// The command that asks a node for the slot map: `CLUSTER SLOTS`.
///
/// # Errors
///
/// Kind `OutOfMemory` if memory runs out.
pub fn slot_cmd(alloc: Global) -> RedisResult<Cmd>
    ensures words { IfOk result (λ cmd. cmd ≡ codes "CLUSTER" ∷ codes "SLOTS" ∷ []) }
    ensures memory { IfErr result (λ e. e ≡ out_of_memory) }
{
    let mut cmd = Cmd::new(alloc);
    cmd.arg(b"CLUSTER")?.arg(b"SLOTS")?;
    Ok(cmd)
}

/// The ranges of a reply to `CLUSTER SLOTS`, in its order. `answering` is the host of the node that
/// replied, and replaces a host that is nil, empty, `0.0.0.0` or `::`.
///
/// A node is dropped if it has no host or port, or if its host is `?` or still empty. A range is
/// dropped if no node is left or an end does not fit in a `u16`. Reading ends at the first item
/// that is not an array. So no reply is refused.
///
/// # Errors
///
/// Kind `OutOfMemory` if memory runs out.
pub fn parse_slots(alloc: Global, reply: &Value, answering: &str) -> RedisResult<Vec<SlotRange>>
    ensures read { IfOk result (λ ranges. ranges.items ≡ ranges_in answering.now (view reply.now)) }
    ensures memory { IfErr result (λ e. e ≡ out_of_memory) }
{
    let ranges = match reply.as_array() {
        Some(items) => read_ranges(alloc, items, answering)?,
        None => Vec::new(alloc),
    };
    Ok(ranges)
}

/// The ranges of the leading arrays of a reply. Those without a node are left out.
fn read_ranges(
    alloc: Global,
    items: &[Value],
    answering: &str,
) -> Result<Vec<SlotRange>, AllocError>
    ensures { IfOk result (λ ranges. ranges.items
        ≡ filter_map (range_in answering.now) (leading_arrays (map view items.now))) }
{
    let mut ranges = Vec::new(alloc);
    for item in items {
        let Some(elements) = item.as_array() else {
            return Ok(ranges);
        };
        if let Some(range) = read_range(alloc, elements, answering)? {
            ranges.push(range)?;
        }
    }
    Ok(ranges)
}

/// The range of one array: its first and last slot, its primary, its replicas.
fn read_range(
    alloc: Global,
    elements: &[Value],
    answering: &str,
) -> Result<Option<SlotRange>, AllocError>
    ensures { IfOk result (λ range. range ≡ range_in answering.now (map view elements.now)) }
{
    let [start, end, nodes @ ..] = elements else {
        return Ok(None);
    };
    let (Some(start), Some(end)) = (read_u16(start), read_u16(end)) else {
        return Ok(None);
    };
    let nodes = read_nodes(alloc, nodes, answering)?;
    Ok(with_nodes(start, end, nodes))
}

/// The first node is the primary, and the others are its replicas.
fn with_nodes(start: u16, end: u16, mut nodes: Vec<NodeAddress>) -> Option<SlotRange>
    ensures { result ≡ range_from (Some start) (Some end) nodes.items }
{
    if nodes.is_empty() {
        return None;
    }
    let primary = nodes.remove(0);
    Some(SlotRange::new(start, end, primary, nodes))
}

/// The nodes that can be used.
fn read_nodes(
    alloc: Global,
    nodes: &[Value],
    answering: &str,
) -> Result<Vec<NodeAddress>, AllocError>
    ensures { IfOk result (λ found. found.items
        ≡ filter_map (node_in answering.now) (map view nodes.now)) }
{
    let mut found = Vec::new(alloc);
    for node in nodes {
        if let Some(address) = read_node(alloc, node, answering)? {
            found.push(address)?;
        }
    }
    Ok(found)
}

/// The address of one node. `answering` is its host if the reply has none.
fn read_node(
    alloc: Global,
    node: &Value,
    answering: &str,
) -> Result<Option<NodeAddress>, AllocError>
    ensures { IfOk result (λ address. address ≡ node_in answering.now (view node.now)) }
{
    let Some([host, port, ..]) = node.as_array() else {
        return Ok(None);
    };
    let (Some(host), Some(port)) = (host_bytes(host), read_u16(port)) else {
        return Ok(None);
    };
    address_of(alloc, host, port, answering)
}

/// The bytes of a host, none for nil.
fn host_bytes(host: &Value) -> Option<&[u8]>
    ensures { option_copied result ≡ bytes_in (view host.now) }
{
    match host {
        Value::Nil => Some(b""),
        Value::BulkString(bytes) => Some(bytes),
        _ => None,
    }
}

/// The address of a host and a port, if the host can be used. The text of the host takes no memory
/// if it is UTF-8.
fn address_of(
    alloc: Global,
    host: &[u8],
    port: u16,
    answering: &str,
) -> Result<Option<NodeAddress>, AllocError>
    ensures { IfOk result (λ address. address
        ≡ address_from (host_for answering.now (text_of host.now)) (Some port)) }
{
    let text = host.to_str_lossy(alloc)?;
    match usable_host(&text, answering) {
        Some(host) => Ok(Some(NodeAddress::new(alloc, host, port)?)),
        None => Ok(None),
    }
}

/// The host that a text stands for, if it can be used.
fn usable_host<'a>(text: &'a str, answering: &'a str) -> Option<&'a str>
    ensures { option_copied result ≡ host_for answering.now text.now }
{
    if is_unspecified(text) {
        return if answering.is_empty() {
            None
        } else {
            Some(answering)
        };
    }
    if text == "?" { None } else { Some(text) }
}

/// Whether the name of the node that replied replaces the text.
fn is_unspecified(text: &str) -> bool
    ensures { result ≡ unspecified text.now }
{
    text.is_empty() || text == "0.0.0.0" || text == "::"
}

/// A number from 0 to 65535.
fn read_u16(number: &Value) -> Option<u16>
    ensures { result ≡ u16_of (view number.now) }
{
    u16::try_from(number.as_int()?).ok()
}
