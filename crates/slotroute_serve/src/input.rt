ghost use Rattle.std.specs.Prelude.{◌≡◌, List, length, nat_lt, map, true, false, OnOk, OnErr, IfOk, IfErr, IfSome, MatchOption, MatchResult};
ghost use Rattle.std.specs.List.{AllZip};
ghost use Rattle.std.specs.Io.BufRead.{DropsThrough, strip_last};
ghost use Rattle.cluster_map.specs.Address.{Address};
ghost use Rattle.cluster_map.specs.SlotNodes.{RangeNodes};
ghost use Rattle.slotroute_serve.specs.Lines.{line_of, leading_lines, after_map, StopsInLine};
ghost use Rattle.slotroute_serve.specs.MapLines.{Made, made_in, IsNodeField, IsRangeLine, IsMapLine, IsMap};
ghost use Rattle.slotroute_serve.specs.Output.{first_after_map};
ghost use Rattle.slotroute_serve.specs.Faults.{WhyNoMap, IsInputLeft};
ghost use Rattle.slotroute_serve.specs.Streams.{MayFailToRead, Leaves};

use crate::fault::{MapFault, ReadFault};
use crate::streams::Source;
use cluster_map::node_address::split_node_address;
use cluster_map::{NodeAddress, SlotRange};
use cluster_slots::parse_u16;
use redis_bytes::{fields_in, register_line};
use redis_cluster::routing::Registry;
use std::alloc::{AllocError, Global};

/// What the leading lines make.
#[derive(Drop)]
pub(super) struct LeadingLines {
    /// The ranges of the map, in the order of their lines.
    pub(super) ranges: Vec<SlotRange>,
    /// The names that lines registered.
    pub(super) registry: Registry,
}

/// Reads the leading lines, and the line with no field that ends them. Returns what they make, and
/// the number of the next line.
pub(super) fn read_map<S: Source>(
    alloc: Global,
    source: &mut S,
) -> Result<(LeadingLines, u64), MapFault>
    ensures map { IfSome (S.remaining source.old) (λ input. MatchResult result
        (λ read. IsMap (leading_lines input) (made_in read.0))
        (WhyNoMap (leading_lines input))) }
    ensures next { IfSome (S.remaining source.old) (λ input. IfOk result
        (λ read. read.1 ≡ first_after_map input)) }
    ensures cause { IfErr result (λ fault. fault ≡ MapFault.Input → MayFailToRead S.fails) }
    ensures rest { Leaves (S.remaining source.old) (S.remaining source.new) (λ input left.
        MatchResult result (λ _. left ≡ after_map input) (IsInputLeft input left)) }
{
    let mut made = LeadingLines {
        ranges: Vec::new(alloc),
        registry: Registry::new(alloc),
    };
    let mut line = Vec::new(alloc);
    for number in 1..u64::MAX {
        if !next_line(source, &mut line)? {
            return Ok((made, number + 1));
        }
        let fields = fields_in(alloc, &line)?;
        if fields.is_empty() {
            return Ok((made, number + 1));
        }
        if !add_line(alloc, &fields, &mut made)? {
            return Err(MapFault::BadLine(number));
        }
    }
    // There is no number left for a further line.
    Err(MapFault::Memory)
}

/// Replaces `line` by the next line. Returns `false` at the end of the input.
pub(super) fn next_line<S: Source>(source: &mut S, line: &mut Vec<u8>) -> Result<bool, ReadFault>
    ensures text { OnOk result
        (IfSome (S.remaining source.old) (λ input. line.new.items ≡ line_of input)) }
    ensures there { IfOk result (λ there. IfSome (S.remaining source.old)
        (λ input. there ≡ nat_lt 0 (length input))) }
    ensures rest { OnOk result (DropsThrough (S.remaining source.old) (S.remaining source.new) 10) }
    ensures stops { OnErr result
        (Leaves (S.remaining source.old) (S.remaining source.new) StopsInLine) }
    ensures failed { IfErr result (λ fault. fault ≡ ReadFault.Input → MayFailToRead S.fails) }
{
    line.clear();
    if source.read_line(line)? == 0 {
        return Ok(false);
    }
    strip(line, b'\n');
    strip(line, b'\r');
    Ok(true)
}

/// Removes the byte at the end of a line, if it is there.
fn strip(line: &mut Vec<u8>, byte: u8)
    ensures { line.new.items ≡ strip_last byte line.old.items }
{
    if line.last() == Some(&byte) {
        line.pop();
    }
}

/// Adds what a line with these fields makes, and returns whether it is a map line.
fn add_line(alloc: Global, fields: &[&[u8]], made: &mut LeadingLines) -> Result<bool, AllocError>
    ensures good { IfOk result (λ good. good ≡ true
        → IsMapLine (map (λ field. field.now) fields.now) (made_in made.old) (made_in made.new)) }
    ensures bad { IfOk result (λ good. good ≡ false → (next : Made)
        → ¬ (IsMapLine (map (λ field. field.now) fields.now) (made_in made.old) next)) }
{
    match range_line(alloc, fields)? {
        Some(range) => {
            made.ranges.push(range)?;
            Ok(true)
        }
        None => register_line(alloc, fields, &mut made.registry),
    }
}

/// The range of a line with these fields, if it is a range line.
fn range_line(alloc: Global, fields: &[&[u8]]) -> Result<Option<SlotRange>, AllocError>
    ensures { IfOk result (λ range. MatchOption range
        ((range : RangeNodes) → ¬ (IsRangeLine (map (λ field. field.now) fields.now) range))
        (IsRangeLine (map (λ field. field.now) fields.now))) }
{
    let [start, end, primary, replicas @ ..] = fields else {
        return Ok(None);
    };
    let (Some(start), Some(end)) = (parse_u16(start), parse_u16(end)) else {
        return Ok(None);
    };
    let Some(primary) = node_of(alloc, primary)? else {
        return Ok(None);
    };
    let Some(replicas) = nodes_of(alloc, replicas)? else {
        return Ok(None);
    };
    Ok(Some(SlotRange::new(start, end, primary, replicas)))
}

fn node_of(alloc: Global, field: &[u8]) -> Result<Option<NodeAddress>, AllocError>
    ensures { IfOk result (λ node. MatchOption node
        ((address : Address) → ¬ (IsNodeField field.now address))
        (IsNodeField field.now)) }
{
    let Ok(text) = str::from_utf8(field) else {
        return Ok(None);
    };
    let Ok((host, port)) = split_node_address(text) else {
        return Ok(None);
    };
    Ok(Some(NodeAddress::new(alloc, host, port)?))
}

fn nodes_of(alloc: Global, fields: &[&[u8]]) -> Result<Option<Vec<NodeAddress>>, AllocError>
    ensures { IfOk result (λ nodes. MatchOption nodes
        ((addresses : List Address)
        → ¬ (AllZip IsNodeField (map (λ field. field.now) fields.now) addresses))
        (λ nodes. AllZip IsNodeField (map (λ field. field.now) fields.now) nodes.items)) }
{
    let mut nodes = Vec::with_capacity(alloc, fields.len())?;
    for field in fields {
        let Some(node) = node_of(alloc, field)? else {
            return Ok(None);
        };
        nodes.push(node)?;
    }
    Ok(Some(nodes))
}
