//! Where a command goes.
use redis_cluster::routing::{ReadOnlyNames, RoutingInfo};
use resp_core::Cmd;
use std::alloc::{AllocError, Global};

/// Where `MGET key1 key2` goes, if replicas may serve it.
pub fn where_to_read(
    alloc: Global,
    key1: &[u8],
    key2: &[u8],
) -> Result<Option<RoutingInfo>, AllocError> {
    let mut read_only = ReadOnlyNames::new(alloc);
    read_only.insert(alloc, b"MGET")?;
    let mut command = Cmd::new(alloc);
    command.arg(b"MGET")?.arg(key1)?.arg(key2)?;
    RoutingInfo::for_routable(alloc, &command, &read_only)
}
