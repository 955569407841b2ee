ghost use Rattle.std.specs.Prelude.{ℕ, List, ◌≡◌, ◌+◌, ◌<◌, ◌≤◌, ◌++◌, [], Some, length, map, option_copied, IfOk, IfErr, IfSome, OnOk, MatchResult};
ghost use Rattle.std.specs.List.{flat_map, range_with_len};
ghost use Rattle.resp.specs.Forms.{bulk_form, request};
ghost use Rattle.cluster_slots.specs.Lists.{all_some};
ghost use Rattle.redis_routing.specs.Command.{argument};
ghost use Rattle.redis_routing.specs.SubCommand.{sub_command_after};
ghost use Rattle.redis_routing.specs.Names.{names_in};
ghost use Rattle.redis_routing.specs.RoutingInfo.{route_lists};
ghost use Rattle.redis_routing.specs.Split.{Split, route_part, slots_of, split_part};
ghost use Rattle.redis_bytes.specs.Requests.{IsSplitRequest, AreParts, AreWritten, IsUnsplit, Words};

use crate::fault::BytesFault;
use crate::requests::{Request, request_in};
use cluster_slots::Route;
use redis_routing::{Names, Routable, SplitCommand};
use resp::{push_array_line, push_bulk};
use std::alloc::{AllocError, Global};

/// The parts of a request: for each its route, and where its bytes end among those of all parts.
#[derive(Drop)]
pub struct Parts {
    /// The route of each part.
    pub routes: Vec<Route>,
    /// Where the bytes of each part end.
    pub ends: Vec<usize>,
    /// The bytes of all parts, one after the other.
    pub bytes: Vec<u8>,
}

/// Splits a request by slot. `DEL foo bar baz {bar}vaz` has three parts, `DEL foo`,
/// `DEL bar {bar}vaz` and `DEL baz`, each a request of its own. `names` says which commands only
/// read, so that replicas may serve them, and which names are registered.
///
/// # Errors
///
/// In this order: `Request` if the bytes begin no whole request. `AfterRequest` if bytes follow it.
/// `NotMultiKey` if the command is not split by slot, or is not complete. `Memory` if memory runs
/// out.
pub fn split(alloc: Global, request: &[u8], names: Names<'_>) -> Result<Parts, BytesFault>
    // The bytes are one request, and the parts are those of its split.
    ensures parts { IfOk result (λ parts. (split : Split)
        × IsSplitRequest (names_in names.entry) request.now split × AreParts split parts) }
    // Each request that has a split is split, unless memory runs out.
    ensures only { (split : Split) → IsSplitRequest (names_in names.entry) request.now split
        → MatchResult result (λ parts. AreParts split parts) (λ fault. fault ≡ BytesFault.Memory) }
    // Each fault has its cause.
    ensures fault { IfErr result (λ fault. IsUnsplit (names_in names.entry) request.now fault) }
{
    let command = request_in(alloc, request)?;
    let Some(split) = SplitCommand::new(alloc, &command, names)? else {
        return Err(BytesFault::NotMultiKey);
    };
    Ok(parts_of(alloc, &split, &command, request.len())?)
}

/// The parts of a split command, which have about `room` bytes.
fn parts_of(
    alloc: Global,
    split: &SplitCommand<'_, Request<'_>>,
    command: &Request<'_>,
    room: usize,
) -> Result<Parts, AllocError>
    requires { split.now.arguments ≡ map Some command.now }
    ensures { IfOk result (λ parts. AreParts split.now parts) }
{
    let mut routes = Vec::with_capacity(alloc, split.len())?;
    let mut ends = Vec::with_capacity(alloc, split.len())?;
    let mut bytes = Vec::with_capacity(alloc, room)?;
    for number in 0..split.len() {
        push_part(&mut bytes, split, command, number)?;
        routes.push(split.routes()[number].0)?;
        ends.push(bytes.len())?;
    }
    Ok(Parts {
        routes,
        ends,
        bytes,
    })
}

/// Appends the request of a part of a split command, by the number of its route. Of `DEL foo bar`
/// part 1 is `DEL bar`.
///
/// # Errors
///
/// If memory runs out. Then the buffer may end with a beginning of the request.
pub fn push_part(
    out: &mut Vec<u8>,
    split: &SplitCommand<'_, Request<'_>>,
    command: &Request<'_>,
    number: usize,
) -> Result<(), AllocError>
    requires command { split.now.arguments ≡ map Some command.now }
    requires within { number < length split.now.routes }
    ensures part { OnOk result ((part : Words)
        × (Some (map Some part) ≡ route_part split.now number)
        × (out.new.items ≡ out.old.items ++ request part)) }
    // What was there stays, also after an error.
    ensures before { (more : List ℕ) × (out.new.items ≡ out.old.items ++ more) }
{
    push_args(out, command, split.words(), &split.routes()[number].1)
}

/// Appends the request of the words of a name and the arguments at these indices after them.
fn push_args(
    out: &mut Vec<u8>,
    command: &Request<'_>,
    words: usize,
    indices: &[usize],
) -> Result<(), AllocError>
    requires few { words ≤ 2 }
    ensures part { OnOk result ((part : Words)
        → sub_command_after words (map Some command.now) indices.now ≡ Some part
        → out.new.items ≡ out.old.items ++ request part) }
    ensures before { (more : List ℕ) × (out.new.items ≡ out.old.items ++ more) }
{
    push_array_line(out, words + indices.len())?;
    push_name(out, command, words)?;
    for index in indices {
        push_arg(out, arg_after(command, words, *index))?;
    }
    Ok(())
}

/// The argument at this index after the words of the name.
fn arg_after<'a>(command: &'a Request<'_>, words: usize, index: usize) -> Option<&'a [u8]>
    ensures { option_copied result ≡ argument (map Some command.now) (index + words) }
{
    Routable::arg_idx(command, index.saturating_add(words))
}

/// Appends the words of a command's name.
fn push_name(out: &mut Vec<u8>, command: &Request<'_>, words: usize) -> Result<(), AllocError>
    ensures name { OnOk result ((name : Words)
        → all_some (map (argument (map Some command.now)) (range_with_len 0 words)) ≡ Some name
        → out.new.items ≡ out.old.items ++ flat_map bulk_form name) }
    ensures before { (more : List ℕ) × (out.new.items ≡ out.old.items ++ more) }
{
    for place in 0..words {
        push_arg(out, Routable::arg_idx(command, place))?;
    }
    Ok(())
}

/// Appends an argument as a bulk string, if it is there.
fn push_arg(out: &mut Vec<u8>, arg: Option<&[u8]>) -> Result<(), AllocError>
    ensures text { OnOk result (IfSome (option_copied arg.entry)
        (λ text. out.new.items ≡ out.old.items ++ bulk_form text)) }
    ensures before { (more : List ℕ) × (out.new.items ≡ out.old.items ++ more) }
{
    if let Some(text) = arg {
        push_bulk(out, text)?;
    }
    Ok(())
}
