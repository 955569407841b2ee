//! A command that follows redirects, over connections of one's own.
ghost use Rattle.std.specs.Prelude.{◌<◌, OnOk};

use cluster_map::{NodeAddress, Route, Slot, SlotMap};
use redis_cluster::driver::Retry;
use redis_cluster::routing::Redirect;
use resp_core::{Cmd, RedisError, Value};
use std::alloc::{AllocError, Global};

/// Why a node gave no answer.
#[derive(Drop)]
pub enum Unanswered {
    /// The node redirected the client; nothing took effect.
    Redirected(Redirect),
    /// The node refused, or can't be reached; nothing took effect.
    Refused(RedisError),
    /// `TRYAGAIN`: nothing took effect.
    TryAgain,
    /// The command was written and no reply came: it may have taken effect.
    Lost,
}

/// Connections to nodes.
pub trait Connections {
    /// Sends the command to the node, after an `ASKING` if that is asked for.
    fn ask(&mut self, node: &NodeAddress, command: &Cmd, asking: bool) -> Result<Value, Unanswered>;
}

/// What a node of this cluster says of a slot that has moved.
pub fn example_redirect(alloc: Global) -> Result<Option<(Slot, Redirect)>, AllocError> {
    Redirect::from_error_text(alloc, "MOVED 3999 127.0.0.1:6381", "127.0.0.1")
}

/// A retry for a route, with three retries. `None` if the map has no node of its slot.
pub fn three_retries(
    alloc: Global,
    map: &SlotMap,
    route: Route,
) -> Result<Option<Retry>, AllocError> {
    Retry::new(alloc, map, route, None, 0, 3)
}

/// Sends a command until a node answers it, its reply is lost, or no target is left. Sends again
/// only after an outcome that says that nothing took effect.
pub fn send_on<C: Connections>(
    retry: &mut Retry,
    command: &Cmd,
    connections: &mut C,
) -> Result<Option<Value>, Unanswered> {
    let mut asking = false;
    while let Some(node) = retry.target() {
        match connections.ask(node, command, asking) {
            Ok(reply) => return Ok(Some(reply)),
            Err(unanswered) => asking = next_target(retry, unanswered, asking)?,
        }
    }
    Ok(None)
}

/// Passes the outcome to the retry. Returns whether `ASKING` goes before the next send.
fn next_target(retry: &mut Retry, unanswered: Unanswered, asking: bool) -> Result<bool, Unanswered>
    ensures counted { OnOk result (retry.new.left < retry.old.left) }
{
    match unanswered {
        Unanswered::Redirected(redirect) => {
            let asks = matches!(redirect, Redirect::Ask(_));
            match retry.on_redirect(redirect) {
                Ok(()) => Ok(asks),
                Err(back) => Err(Unanswered::Redirected(back)),
            }
        }
        Unanswered::Refused(error) => {
            if retry.on_failure() {
                Ok(false)
            } else {
                Err(Unanswered::Refused(error))
            }
        }
        Unanswered::TryAgain => {
            if retry.on_try_again() {
                Ok(asking)
            } else {
                Err(Unanswered::TryAgain)
            }
        }
        Unanswered::Lost => Err(Unanswered::Lost),
    }
}
