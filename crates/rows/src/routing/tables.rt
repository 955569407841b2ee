//! What the tables say of names, and the redirects in texts.
use cluster_map::Slot;
use fixtures::{bad_row, debug_or_none, equality, plain};
use redis_cluster::routing::{Redirect, ResponsePolicy, SingleNodeRoutingInfo};
use redis_routing::base_routing;
use resp_core::RedisResult;
use std::alloc::{AllocError, Global};

/// What a call of this name returns.
pub fn call(alloc: Global, name: &str, text: &str) -> RedisResult<String> {
    match name {
        "routing" => debug_or_none(alloc, base_routing(text.as_bytes()).as_ref()),
        "policy" => debug_or_none(alloc, ResponsePolicy::for_command(text.as_bytes()).as_ref()),
        "redirect" => debug_or_none(alloc, told(alloc, text)?.as_ref()),
        "copied_redirect" => copied_redirect(alloc, text),
        "copied_address" => copied_address(alloc, text),
        _ => Err(bad_row("no call of this name")),
    }
}

/// The redirect in a text from the node `n1`.
fn told(alloc: Global, text: &str) -> Result<Option<(Slot, Redirect)>, AllocError> {
    Redirect::from_error_text(alloc, text, "n1")
}

fn copied_redirect(alloc: Global, text: &str) -> RedisResult<String> {
    match told(alloc, text)? {
        Some((_, redirect)) => equality(alloc, &redirect),
        None => plain(alloc, "none"),
    }
}

fn copied_address(alloc: Global, host: &str) -> RedisResult<String> {
    let host = plain(alloc, host)?;
    equality(alloc, &SingleNodeRoutingInfo::ByAddress { host, port: 1 })
}
