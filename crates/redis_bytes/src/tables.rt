ghost use Rattle.std.specs.Prelude.{◌≡◌, ◌≤◌, ◌<◌, ◌++◌, ℕ, Contains, Some, ◌⊎◌, map, length, slice_get, slice_index, IfOk, OnOk, IfErr, MatchResult};
ghost use Rattle.std.specs.List.{flat_map};
ghost use Rattle.resp_core.specs.Reply.{Reply};
ghost use Rattle.cluster_map.specs.ReplyNode.{entries_in};
ghost use Rattle.redis_bytes.specs.Replies.{IsReply, AreUnread};
ghost use Rattle.redis_bytes.specs.Table.{IsTable, IsNoTable, IsNodeNumber, IsUnprinted, AreUsed, AreDistinct, AreNumbersOf, ArePlain, Grows, node_line, addresses};

use crate::fault::BytesFault;
use crate::replies::reply_in;
use cluster_map::{NodeAddress, Route, SlotAddr, SlotMap};
use std::alloc::{AllocError, Global};
use std::collections::BTreeMap;

/// How many slots a table has.
pub const SLOTS: u16 = 16384;

/// The number that stands for no node.
pub const NO_NODE: u16 = 65535;

/// A map from slots to nodes, flat: the number of a node for each slot, and one line of host, colon
/// and port for each node.
#[derive(Drop)]
pub struct Table {
    /// For each slot the number of its node, or `NO_NODE`.
    pub numbers: Vec<u16>,
    /// A line for each node, as `10.0.0.1:6379`, by ascending number.
    pub nodes: Vec<u8>,
}

/// The map of a reply to `CLUSTER SLOTS`, as bytes. `answering` is the host of the node that
/// replied, for hosts that the reply leaves out.
///
/// # Errors
///
/// `Reply` with 0 if the reply cannot be read, `Error` with 0 if it is an error, `AfterReplies`
/// if bytes follow it. `Memory` if memory runs out.
pub fn slot_map(alloc: Global, reply: &[u8], answering: &str) -> Result<SlotMap, BytesFault>
    ensures entries { IfOk result (λ map. (said : Reply) × IsReply said reply.now
        × (map ≡ entries_in answering.now said)) }
    // Each reply gives its map, unless memory runs out.
    ensures only { (said : Reply) → IsReply said reply.now
        → MatchResult result (λ map. map ≡ entries_in answering.now said)
        (λ fault. fault ≡ BytesFault.Memory) }
    // Each fault has its cause.
    ensures fault { IfErr result (λ fault. AreUnread 1 reply.now fault) }
{
    let said = reply_in(alloc, reply)?;
    match SlotMap::from_reply(alloc, &said, answering) {
        Ok(map) => Ok(map),
        Err(_) => Err(BytesFault::Memory),
    }
}

/// The table of a reply to `CLUSTER SLOTS`, as bytes. Each slot has the number of the node of a
/// route there, by `addr` and `pick`, or `NO_NODE` if no range covers it. Each node is listed once.
///
/// # Errors
///
/// As `slot_map`, and `LineFeedInHost` if a slot's node has a line feed in its host.
pub fn slot_table(
    alloc: Global,
    reply: &[u8],
    answering: &str,
    addr: SlotAddr,
    pick: usize,
) -> Result<Table, BytesFault>
    ensures table { IfOk result (λ table. (said : Reply) × IsReply said reply.now
        × IsTable (entries_in answering.now said) addr pick table) }
    ensures fault { IfErr result (λ fault. IsNoTable answering.now reply.now addr pick fault) }
{
    let map = slot_map(alloc, reply, answering)?;
    let (numbers, nodes) = numbers_in(alloc, &map, addr, pick)?;
    let nodes = lines_of(alloc, &nodes)?;
    Ok(Table { numbers, nodes })
}

/// For each slot the number of the node of a route there, and the nodes.
fn numbers_in(
    alloc: Global,
    map: &SlotMap,
    addr: SlotAddr,
    pick: usize,
) -> Result<(Vec<u16>, Vec<&NodeAddress>), AllocError>
    ensures all { IfOk result (λ found. length found.0.items ≡ 16384) }
    ensures few { IfOk result (λ found. length found.1.items ≤ 16384) }
    ensures each { IfOk result (λ found. (slot : ℕ) → slot < 16384
        → IsNodeNumber map.now (addresses found.1.items) (record { slot = slot; addr = addr }) pick
        (slice_index found.0.items slot)) }
    ensures used { IfOk result (λ found. AreUsed found.0.items (addresses found.1.items)) }
    ensures once { IfOk result (λ found. AreDistinct (addresses found.1.items)) }
{
    let mut numbers = Vec::with_capacity(alloc, usize::from(SLOTS))?;
    let mut nodes = Vec::new(alloc);
    let mut places = BTreeMap::new(alloc);
    for slot in 0..SLOTS {
        let route = Route::new(slot, addr);
        let number = number_at(map, route, pick, &mut nodes, &mut places)?;
        numbers.push(number)?;
    }
    Ok((numbers, nodes))
}

/// The number of the node of a route.
fn number_at<'a>(
    map: &'a SlotMap,
    route: Route,
    pick: usize,
    nodes: &mut Vec<&'a NodeAddress>,
    places: &mut BTreeMap<&'a NodeAddress, u16>,
) -> Result<u16, AllocError>
    requires few { length nodes.old.items < 16384 }
    requires placed { AreNumbersOf nodes.old.items places.old }
    ensures found { IfOk result
        (λ number. IsNodeNumber map.entry.now (addresses nodes.new.items) route pick number) }
    ensures grown { IfOk result (Grows nodes.old.items nodes.new.items) }
    ensures placed { OnOk result (AreNumbersOf nodes.new.items places.new) }
{
    match map.slot_addr_for_route(route, None, pick) {
        Some(node) => number_of(nodes, places, node),
        None => Ok(NO_NODE),
    }
}

/// The number of a node, which is appended if it is new.
fn number_of<'a>(
    nodes: &mut Vec<&'a NodeAddress>,
    places: &mut BTreeMap<&'a NodeAddress, u16>,
    node: &'a NodeAddress,
) -> Result<u16, AllocError>
    requires few { length nodes.old.items < 16384 }
    requires placed { AreNumbersOf nodes.old.items places.old }
    ensures found { IfOk result (λ number.
        slice_get (addresses nodes.new.items) number ≡ Some node.entry.now) }
    ensures grown { IfOk result (Grows nodes.old.items nodes.new.items) }
    ensures placed { OnOk result (AreNumbersOf nodes.new.items places.new) }
{
    if let Some(number) = places.get(&node) {
        return Ok(*number);
    }
    let number = nodes.len() as u16;
    places.insert(node, number)?;
    nodes.push(node)?;
    Ok(number)
}

/// A line for each node. No host has a line feed.
fn lines_of(alloc: Global, nodes: &[&NodeAddress]) -> Result<Vec<u8>, BytesFault>
    ensures lines { IfOk result (λ lines. lines.items ≡ flat_map node_line (addresses nodes.now)) }
    ensures plain { OnOk result (ArePlain (addresses nodes.now)) }
    ensures fault { IfErr result (λ fault. IsUnprinted (addresses nodes.now) fault) }
{
    let mut lines = Vec::new(alloc);
    for node in nodes {
        push_line(alloc, &mut lines, node)?;
    }
    Ok(lines)
}

/// Appends a node's address and a line feed.
///
/// # Errors
///
/// `LineFeedInHost` if the host has a line feed, `Memory` if memory runs out.
fn push_line(alloc: Global, lines: &mut Vec<u8>, node: &NodeAddress) -> Result<(), BytesFault>
    ensures line { OnOk result (lines.new.items ≡ lines.old.items ++ node_line node.now) }
    ensures plain { OnOk result (¬ (Contains node.now.host 10)) }
    ensures fault { IfErr result (λ fault. (fault ≡ BytesFault.Memory)
        ⊎ ((fault ≡ BytesFault.LineFeedInHost) × Contains node.now.host 10)) }
{
    if node.host().contains('\n') {
        return Err(BytesFault::LineFeedInHost);
    }
    let text = format!(in alloc; "{node}")?;
    lines.extend_from_slice(text.as_bytes())?;
    lines.push(b'\n')?;
    Ok(())
}
