//! A request of many keys, split and combined, in bytes.
ghost use Rattle.std.specs.Prelude.{IfErr, IfOk};
ghost use Rattle.redis_routing.specs.Names.{names_in};
ghost use Rattle.redis_routing.specs.Split.{Split};
ghost use Rattle.redis_bytes.specs.Requests.{IsSplitRequest, IsUnsplit};
ghost use Rattle.redis_bytes.specs.Replies.{AreCombined};

use cluster_map::Route;
use redis_bytes::{BytesFault, Parts, combine, split};
use redis_cluster::routing::Names;
use std::alloc::{AllocError, Global};

/// Connections to the nodes: each takes a request, and adds the reply's bytes to those before.
pub trait Connections {
    /// Sends a request to a node of its route, and adds the bytes of the reply.
    fn answer(
        &mut self,
        route: Route,
        request: &[u8],
        replies: &mut Vec<u8>,
    ) -> Result<(), AllocError>;
}

/// The parts of a request, or `None` if it is sent as it is.
pub fn parts_of(
    alloc: Global,
    request: &[u8],
    names: Names<'_>,
) -> Result<Option<Parts>, BytesFault>
    ensures fault { IfErr result (λ fault. IsUnsplit (names_in names.entry) request.now fault) }
{
    match split(alloc, request, names) {
        Ok(parts) => Ok(Some(parts)),
        Err(BytesFault::NotMultiKey) => Ok(None),
        Err(fault) => Err(fault),
    }
}

/// Sends each part, and adds the replies one after another, in the order of the parts.
pub fn send_parts<C: Connections>(
    connections: &mut C,
    parts: &Parts,
    replies: &mut Vec<u8>,
) -> Result<(), AllocError> {
    let mut start = 0;
    for (route, end) in parts.routes.iter().zip(parts.ends.iter()) {
        if let Some(request) = parts.bytes.get(start..*end) {
            connections.answer(*route, request, replies)?;
        }
        start = *end;
    }
    Ok(())
}

/// What the client gets: the one reply, or the first error among the replies as it came.
pub fn reply_of(
    alloc: Global,
    request: &[u8],
    names: Names<'_>,
    replies: &[u8],
) -> Result<Result<Vec<u8>, Vec<u8>>, BytesFault>
    ensures combined { IfOk result (λ reply. IfOk reply (λ bytes. (split : Split)
        × IsSplitRequest (names_in names.entry) request.now split
        × AreCombined split replies.now bytes.items)) }
{
    match combine(alloc, request, names, replies) {
        Ok(reply) => Ok(Ok(reply)),
        Err(BytesFault::Error(_, text)) => Ok(Err(text)),
        Err(fault) => Err(fault),
    }
}
