//! A pipeline, and whether a cluster takes it.
use redis_cluster::pipeline::{ClusterPipeline, cluster_pipe};
use resp_core::RedisResult;
use std::alloc::Global;

/// `SET key value`, whose reply is left out, and `GET key`.
pub fn set_and_get(alloc: Global, key: &[u8], value: &[u8]) -> RedisResult<ClusterPipeline> {
    let mut pipeline = cluster_pipe(alloc);
    pipeline.cmd(alloc, b"SET")?.arg(key)?.arg(value)?.ignore()?;
    pipeline.cmd(alloc, b"GET")?.arg(key)?;
    pipeline.check(alloc)?;
    Ok(pipeline)
}
