ghost use Rattle.std.specs.Prelude.{Some, map, IsSome, IfOk, IfErr};
ghost use Rattle.redis_cluster.specs.Retry.{AreAllowed};
ghost use Rattle.redis_cluster.specs.Frame.{SameNodes};
ghost use Rattle.redis_cluster.specs.MultiKey.{IsPart};
ghost use Rattle.redis_cluster.specs.Ended.{IsPartAnswered, IsPartUnanswered};
ghost use Rattle.redis_cluster.specs.Ready.{try_by, try_once};

use crate::nodes::{Nodes, SendError};
use crate::retry::Retry;
use cluster_slots::NodeAddress;
use resp_core::{Cmd, Value};

/// Sends a part once, to a node.
pub(super) fn send_once<N: Nodes>(
    part: &Cmd,
    node: &NodeAddress,
    nodes: &mut N,
) -> Result<Value, SendError>
    requires part { IsPart (N.registered nodes.old) (map Some part.now) }
    ensures answered { IfOk result (IsPartAnswered ⟦<N as Nodes>⟧ (try_once node.now part.now) nodes.old nodes.new) }
    ensures unanswered { IfErr result (IsPartUnanswered ⟦<N as Nodes>⟧ (try_once node.now part.now) nodes.old nodes.new) }
    ensures allowed { AreAllowed (N.may_refuse nodes.old) (N.state nodes.old).trace (N.state nodes.new).trace }
    ensures frame { SameNodes ⟦<N as Nodes>⟧ nodes.old nodes.new }
{
    nodes.send(node, part)
}

/// Sends a part until a node answers it, its reply is lost, or its retry names no target.
pub(super) fn send_with_retries<N: Nodes>(
    part: &Cmd,
    retry: &mut Retry,
    nodes: &mut N,
) -> Result<Value, SendError>
    requires part { IsPart (N.registered nodes.old) (map Some part.now) }
    requires named { IsSome retry.old.target }
    ensures answered { IfOk result (IsPartAnswered ⟦<N as Nodes>⟧ (try_by part.now retry.old) nodes.old nodes.new) }
    ensures unanswered { IfErr result (IsPartUnanswered ⟦<N as Nodes>⟧ (try_by part.now retry.old) nodes.old nodes.new) }
    ensures allowed { AreAllowed (N.may_refuse nodes.old) (N.state nodes.old).trace (N.state nodes.new).trace }
    ensures frame { SameNodes ⟦<N as Nodes>⟧ nodes.old nodes.new }
{
    while let Some(node) = retry.target() {
        match nodes.send(node, part) {
            Ok(reply) => return Ok(reply),
            Err(error) => match error {
                SendError::Refused(refusal) => {
                    if !retry.on_failure() {
                        return Err(SendError::Refused(refusal));
                    }
                }
                SendError::Redirected(redirect) => {
                    if let Err(back) = retry.on_redirect(redirect) {
                        return Err(SendError::Redirected(back));
                    }
                }
                SendError::Lost(loss) => return Err(SendError::Lost(loss)),
                SendError::Memory => return Err(SendError::Memory),
            },
        }
    }
    unreachable!()
}
