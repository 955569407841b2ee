ghost use Rattle.std.specs.Prelude.{◌≡◌, ◌<◌, ℕ, Some, None, Ok, false, nat_eq, map, length, slice_get, slice_set, IsSome, IfOk, OnOk, IfErr};
ghost use Rattle.std.specs.List.{All};
ghost use Rattle.redis_cluster.specs.Frame.{SameNodes};
ghost use Rattle.redis_cluster.specs.MultiKey.{MultiKey, IsPart};
ghost use Rattle.redis_cluster.specs.Orders.{NamesOnce, in_order};
ghost use Rattle.redis_cluster.specs.Unsplit.{keyspace_after, results_of};
ghost use Rattle.redis_cluster.specs.Ended.{AreStopped, IsPartAnswered, IsPartUnanswered};
ghost use Rattle.redis_cluster.specs.Faults.{fault_of_send};
ghost use Rattle.redis_cluster.specs.Plan.{ArePartReplies, AreGiven, HaveGiven};
ghost use Rattle.redis_cluster.specs.Retry.{AreAllowed, RetryState, SentInTurn};
ghost use Rattle.redis_cluster.specs.Ready.{Target, targets, IsPlanOf, tries_with, try_with};
ghost use Rattle.redis_cluster.specs.Sends.{ending_of};

use crate::attempts::{send_once, send_with_retries};
use crate::fault::{DriveError, DriveFault};
use crate::nodes::{Nodes, SendError};
use crate::plan::SplitPlan;
use crate::retry::Retry;
use redis_routing::Routable;
use resp_core::Value;

/// Sends the parts of a plan in an order, each by its retry, and gives it the replies. A route
/// that has no retry is sent once.
pub(super) fn send_all<R: Routable, N: Nodes>(
    plan: &mut SplitPlan<'_, R>,
    retries: &mut [Retry],
    order: &[usize],
    nodes: &mut N,
) -> Result<(), DriveError>
    requires command { (command : MultiKey) × IsPlanOf (N.registered nodes.old) command plan.old }
    requires untold { plan.old.answers ≡ map (λ route. None) plan.old.split.routes }
    requires order { NamesOnce (length plan.old.split.routes) order.now }
    requires named { All (λ retry. IsSome retry.target) retries.old }
    ensures plan { OnOk result (plan.new.split ≡ plan.old.split) }
    ensures told { OnOk result (AreGiven (N.gave nodes.old) (N.gave nodes.new)
        plan.old.split.routes plan.new.answers order.now) }
    ensures replies { OnOk result ((command : MultiKey)
        → IsPlanOf (N.registered nodes.old) command plan.old
        → N.kept nodes.new
        → ArePartReplies plan.new command.form (results_of N.step command (N.state nodes.old).keyspace)) }
    ensures trace { OnOk result
        (SentInTurn (in_order (tries_with (targets plan.old) retries.old) order.now)
        (N.state nodes.old).trace (N.state nodes.new).trace) }
    ensures allowed { AreAllowed (N.may_refuse nodes.old) (N.state nodes.old).trace (N.state nodes.new).trace }
    ensures keyspace { OnOk result ((command : MultiKey) → IsPlanOf (N.registered nodes.old) command plan.old
        → N.kept nodes.new
        → (N.state nodes.new).keyspace ≡ keyspace_after N.step command (N.state nodes.old).keyspace) }
    ensures within { IfErr result (λ stop. stop.answered < length order.now) }
    ensures given { IfErr result
        (λ stop. HaveGiven (N.gave nodes.old) (N.gave nodes.new) stop.answered) }
    ensures stopped { IfErr result
        (λ stop. (error : SendError) × (stop.fault ≡ fault_of_send error)
        × ((command : MultiKey) → IsPlanOf (N.registered nodes.old) command plan.old
        → AreStopped (N.kept nodes.new) N.step (N.may_refuse nodes.old) command plan.old
        (tries_with (targets plan.old) retries.old) order.now stop.answered (N.state nodes.old).keyspace (N.state nodes.new).keyspace (N.state nodes.old).trace (N.state nodes.new).trace
        (N.state nodes.new).mark (ending_of error))) }
    ensures frame { SameNodes ⟦<N as Nodes>⟧ nodes.old nodes.new }
{
    let mut answered = 0;
    for number in order {
        match send_part(plan, retries, *number, nodes) {
            Ok(reply) => tell_first(plan, *number, reply),
            Err(error) => {
                return Err(DriveError {
                    fault: DriveFault::from(error),
                    answered,
                });
            }
        }
        answered += 1;
    }
    Ok(())
}

/// Sends the part of one route, by its retry, or once if it has none.
fn send_part<R: Routable, N: Nodes>(
    plan: &SplitPlan<'_, R>,
    retries: &mut [Retry],
    number: usize,
    nodes: &mut N,
) -> Result<Value, SendError>
    requires there { (target : Target) × (slice_get (targets plan.now) number ≡ Some target)
        × IsPart (N.registered nodes.old) (map Some target.1) }
    requires named { (retry : RetryState) → slice_get retries.old number ≡ Some retry
        → IsSome retry.target }
    ensures answered { IfOk result (λ value. (target : Target) → slice_get (targets plan.now) number ≡ Some target
        → IsPartAnswered ⟦<N as Nodes>⟧ (try_with target (slice_get retries.old number)) nodes.old nodes.new value) }
    ensures unanswered { IfErr result (λ error. (target : Target) → slice_get (targets plan.now) number ≡ Some target
        → IsPartUnanswered ⟦<N as Nodes>⟧ (try_with target (slice_get retries.old number)) nodes.old nodes.new error) }
    ensures allowed { AreAllowed (N.may_refuse nodes.old) (N.state nodes.old).trace (N.state nodes.new).trace }
    ensures others { (other : ℕ) → nat_eq other number ≡ false
        → slice_get retries.new other ≡ slice_get retries.old other }
    ensures many { length retries.new ≡ length retries.old }
    ensures frame { SameNodes ⟦<N as Nodes>⟧ nodes.old nodes.new }
{
    let Some(part) = plan.part(number) else {
        unreachable!()
    };
    if number < retries.len() {
        return send_with_retries(part, &mut retries[number], nodes);
    }
    let Some(node) = plan.node(number) else {
        unreachable!()
    };
    send_once(part, node, nodes)
}

/// Tells the reply to a part that has no answer yet.
fn tell_first<R: Routable>(plan: &mut SplitPlan<'_, R>, number: usize, reply: Value)
    requires { slice_get plan.old.answers number ≡ Some None }
    ensures { plan.new ≡ record {
      split = plan.old.split;
      nodes = plan.old.nodes;
      parts = plan.old.parts;
      answers = slice_set plan.old.answers number (Some (Ok reply));
    } }
{
    match plan.tell(number, Ok(reply)) {
        Ok(()) => {}
        Err(_) => unreachable!(),
    }
}
