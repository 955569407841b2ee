ghost use Rattle.std.specs.Prelude.{◌≡◌, IfOk};
ghost use Rattle.redis_routing.specs.Routing.{nodes_for};
ghost use Rattle.redis_routing.specs.RoutingInfo.{route_lists};

use crate::policy::ResponsePolicy;
use cluster_slots::{MultiSlotArgPattern, NodeAddress, Route, SlotAddr};
use std::alloc::AllocError;

/// Where a node sent the client on to.
#[derive(Clone, Debug, PartialEq, Eq, Drop)]
pub enum Redirect {
    /// The slot is served there from now on.
    Moved(NodeAddress),
    /// This command alone is to be sent there, after `ASKING`.
    Ask(NodeAddress),
}

/// Where a command goes.
///
/// ```
/// let mut read_only = ReadOnlyNames::new(alloc);
/// read_only.insert(alloc, b"MGET")?;
/// let mut command = Cmd::new(alloc);
/// command.arg(b"MGET")?.arg(key1)?.arg(key2)?;
/// RoutingInfo::for_routable(alloc, &command, &read_only)
/// ```
#[derive(Debug, PartialEq, Eq, Drop)]
pub enum RoutingInfo {
    /// To one node.
    SingleNode(SingleNodeRoutingInfo),
    /// To several nodes; the policy says how their replies make one, if the layer knows.
    MultiNode((MultipleNodeRoutingInfo, Option<ResponsePolicy>)),
}

/// The one node that a command goes to.
#[derive(Debug, PartialEq, Eq, Drop)]
pub enum SingleNodeRoutingInfo {
    /// Any node will do: `ECHO hello`, or `EVAL 'return 1' 0`.
    Random,
    /// Any primary will do. No rule of this layer gives it; a caller may.
    RandomPrimary,
    /// A node of the route's slot: `GET foo`, slot 12182.
    SpecificNode(Route),
    /// The node at this address, as after a redirect.
    ByAddress { host: String, port: u16 },
}

/// The nodes that a command goes to.
#[derive(Debug, PartialEq, Eq, Drop)]
pub enum MultipleNodeRoutingInfo {
    /// Each node: `CONFIG SET maxmemory 100mb`.
    AllNodes,
    /// Each primary: `DBSIZE`.
    AllMasters,
    /// Each route gets the part of the command that these indices make, counted from 0 after the
    /// name, under the pattern. `MSET foo bar foo2 bar2 {foo}foo3 bar3` has the routes 12182 with
    /// indices 0, 1, 4, 5, and 1044 with indices 2, 3.
    MultiSlot((Vec<(Route, Vec<usize>)>, MultiSlotArgPattern)),
}

/// A command with no route goes to any node.
impl From<Option<Route>> for SingleNodeRoutingInfo {
    ghost use Rattle.redis_routing.specs.RoutingInfo.{as_single_node, specific_or_random};

    ghost from_gives = { λ route info. as_single_node info ≡ specific_or_random route };

    fn from(route: Option<Route>) -> Self {
        match route {
            Some(route) => SingleNodeRoutingInfo::SpecificNode(route),
            None => SingleNodeRoutingInfo::Random,
        }
    }
}

impl Clone for SingleNodeRoutingInfo {
    ghost use Rattle.redis_routing.specs.RoutingInfo.{as_single_node};

    ghost is_clone = { λ info copy. as_single_node copy ≡ as_single_node info };

    fn clone(&self) -> Result<Self, AllocError> {
        match self {
            SingleNodeRoutingInfo::Random => Ok(SingleNodeRoutingInfo::Random),
            SingleNodeRoutingInfo::RandomPrimary => Ok(SingleNodeRoutingInfo::RandomPrimary),
            SingleNodeRoutingInfo::SpecificNode(route) => {
                Ok(SingleNodeRoutingInfo::SpecificNode(*route))
            }
            SingleNodeRoutingInfo::ByAddress { host, port } => {
                let host = host.clone()?;
                Ok(SingleNodeRoutingInfo::ByAddress { host, port: *port })
            }
        }
    }
}

impl Clone for MultipleNodeRoutingInfo {
    ghost use Rattle.redis_routing.specs.RoutingInfo.{as_multiple_nodes};

    ghost is_clone = { λ info copy. as_multiple_nodes copy ≡ as_multiple_nodes info };

    fn clone(&self) -> Result<Self, AllocError> {
        match self {
            MultipleNodeRoutingInfo::AllNodes => Ok(MultipleNodeRoutingInfo::AllNodes),
            MultipleNodeRoutingInfo::AllMasters => Ok(MultipleNodeRoutingInfo::AllMasters),
            MultipleNodeRoutingInfo::MultiSlot((routes, pattern)) => {
                let routes = copy_routes(routes)?;
                Ok(MultipleNodeRoutingInfo::MultiSlot((routes, *pattern)))
            }
        }
    }
}

/// A copy of routes and their lists of indices.
fn copy_routes(routes: &Vec<(Route, Vec<usize>)>) -> Result<Vec<(Route, Vec<usize>)>, AllocError>
    ensures { IfOk result (λ copies. route_lists copies.items ≡ route_lists routes.now.items) }
{
    let mut copies = Vec::with_capacity(*routes.allocator(), routes.len())?;
    for (route, places) in routes {
        copies.push((*route, places.clone()?))?;
    }
    Ok(copies)
}

impl Clone for RoutingInfo {
    ghost use Rattle.redis_routing.specs.RoutingInfo.{as_routing};

    ghost is_clone = { λ info copy. as_routing copy ≡ as_routing info };

    fn clone(&self) -> Result<Self, AllocError> {
        match self {
            RoutingInfo::SingleNode(single) => Ok(RoutingInfo::SingleNode(single.clone()?)),
            RoutingInfo::MultiNode((multiple, policy)) => {
                Ok(RoutingInfo::MultiNode((multiple.clone()?, *policy)))
            }
        }
    }
}

/// A replica too may serve a command that only reads.
pub(super) fn nodes_for(reads: bool) -> SlotAddr
    ensures { result ≡ nodes_for reads }
{
    if reads {
        SlotAddr::ReplicaOptional
    } else {
        SlotAddr::Master
    }
}
