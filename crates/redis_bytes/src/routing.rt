ghost use Rattle.std.specs.Prelude.{◌≡◌, Some, map, option_map, IfOk, IfErr, MatchResult};
ghost use Rattle.resp.specs.Forms.{IsRequest};
ghost use Rattle.redis_routing.specs.Names.{names_in};
ghost use Rattle.redis_routing.specs.Routing.{routing};
ghost use Rattle.redis_routing.specs.RoutingInfo.{as_routing};
ghost use Rattle.redis_bytes.specs.Requests.{Words, IsUnread};

use crate::fault::BytesFault;
use crate::requests::request_in;
use redis_routing::{Names, RoutingInfo};
use std::alloc::Global;

/// Where a request goes. `*2\r\n$3\r\nGET\r\n$3\r\nfoo\r\n` goes to a node of slot 12182, and a
/// multi-key request to a node of each slot. Others go to any node or to all. `None` if the layer
/// does not route the request. `names` says which commands only read, and which names are
/// registered.
///
/// # Errors
///
/// `Request` if the bytes begin no whole request, `AfterRequest` if bytes follow it. `Memory`
/// if memory runs out.
pub fn route(
    alloc: Global,
    request: &[u8],
    names: Names<'_>,
) -> Result<Option<RoutingInfo>, BytesFault>
    // The bytes are one request, and the routing is that of its words.
    ensures routed { IfOk result (λ info. (words : Words) × IsRequest words request.now
        × (option_map as_routing info ≡ routing (names_in names.entry) (map Some words))) }
    // Each request is routed, unless memory runs out.
    ensures only { (words : Words) → IsRequest words request.now
        → MatchResult result
        (λ info. option_map as_routing info ≡ routing (names_in names.entry) (map Some words))
        (λ fault. fault ≡ BytesFault.Memory) }
    // Each fault has its cause.
    ensures fault { IfErr result (λ fault. IsUnread request.now fault) }
{
    let command = request_in(alloc, request)?;
    Ok(RoutingInfo::for_routable_with(alloc, &command, names.read_only, names.registry)?)
}
