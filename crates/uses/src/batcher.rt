//! A client that sends the parts of a command side by side.
ghost use Rattle.std.specs.Prelude.{◌≡◌, ◌++◌, ◌∷◌, [], List, Some, Ok, map, option_map, slice_get, IfOk, OnOk, OnErr, IfErr, ◌⊎◌};
ghost use Rattle.resp_core.specs.View.{view};
ghost use Rattle.redis_cluster.specs.Ready.{Target, targets};
ghost use Rattle.uses.specs.Batch.{Answers, AreAdded, AreHanded, AreHandedOrNone, IsBatchedAmid, IsSame, IsClientRefusal, IsGathered, IsUngathered, WhyNoReplies, HasNoBatchPlan};

use cluster_map::{NodeAddress, SlotMap};
use redis_cluster::driver::{PlanFault, SplitPlan};
use redis_cluster::routing::{Names, ReadOnlyNames, Registry};
use resp_core::{Cmd, ErrorKind, RedisError, Value};
use std::alloc::{AllocError, AllocFailed, Global};

/// Why there is no reply to a part.
#[derive(Debug, Drop)]
pub enum NoReply {
    /// The node answered with an error, and did nothing.
    Refused(RedisError),
    /// Nothing came in time. Whether the part took effect is not known.
    TimedOut,
}

/// What came back for a part.
pub type Answer = Result<Value, NoReply>;

/// Connections to the nodes of a cluster.
pub trait Connections {
    /// Whether these may be the parts that were handed over so far, each with its node: a list for
    /// each call.
    ghost handed: { Self → List (List Target) → Type 0 };

    /// Whether these may be the answers so far: a list for each call.
    ghost gave: { Self → List Answers → Type 0 };

    /// Sends each part to its node without waiting in between. Returns an answer for each, in
    /// order.
    fn exchange(&mut self, parts: &[(&NodeAddress, &Cmd)]) -> Result<Vec<Answer>, AllocError>
        ensures handed { (before : List (List Target)) → handed self.old before
            → handed self.new (before ++ map (λ part. (part.0.now, part.1.now)) parts.now ∷ []) }
        ensures gave { IfOk result (λ answers. (before : List Answers) → gave self.old before
            → gave self.new (before ++ answers.items ∷ [])) };
}

/// Why there is no reply to a command.
#[derive(Debug, Drop)]
pub enum BatchError {
    /// The command has no plan. Nothing was sent.
    NotPlanned(PlanFault),
    /// There is no reply to this part. Other parts may have taken effect.
    NotAnswered(usize, NoReply),
    /// The answers make no reply, or memory ran out for it. All parts took effect.
    NotCombined(RedisError),
    /// Memory ran out. Parts may have taken effect.
    Memory,
}

impl From<AllocError> for BatchError {
    ghost use Rattle.uses.specs.declared.batcher.BatchError.TheVariants as batch;

    ghost from_gives = { λ _ error. error ≡ batch.Memory };

    fn from(_: AllocError) -> Self {
        BatchError::Memory
    }
}

impl<T: Drop> From<AllocFailed<T>> for BatchError {
    ghost use Rattle.uses.specs.declared.batcher.BatchError.TheVariants as batch;

    ghost from_gives = { λ _ error. error ≡ batch.Memory };

    fn from(_: AllocFailed<T>) -> Self {
        BatchError::Memory
    }
}

/// Sends the parts of a command side by side, and makes one reply of the answers.
pub fn batch<C: Connections>(
    alloc: Global,
    command: &Cmd,
    slot_map: &SlotMap,
    connections: &mut C,
) -> Result<Value, BatchError>
    // The part of each slot was handed over once, to the primary of the slot.
    ensures handed { OnOk result (AreHanded slot_map.now (map Some command.now)
        (C.handed connections.old) (C.handed connections.new)) }
    ensures handed_once { IfErr result (λ error. AreHandedOrNone slot_map.now (map Some command.now)
        (C.handed connections.old) (C.handed connections.new) error) }
    ensures unplanned { IfErr result (λ error.
        HasNoBatchPlan slot_map.now (map Some command.now) (connections.new ≡ connections.old) error) }
    // Others may write the same keys during the call. If each node replied by what it held, the
    // reply is the unsplit command's on any keyspace that has, at each key, what the key's node
    // held.
    ensures amid { IfOk result (λ reply. IsBatchedAmid (map Some command.now)
        (C.gave connections.old) (C.gave connections.new) (view reply)) }
{
    let (none_only_reads, none_registered) = (ReadOnlyNames::new(alloc), Registry::new(alloc));
    let names = Names {
        read_only: &none_only_reads,
        registry: &none_registered,
    };
    let plan = match SplitPlan::new(alloc, command, names, slot_map, None, 0) {
        Ok(plan) => plan,
        Err(fault) => return Err(BatchError::NotPlanned(fault)),
    };
    let answers = send_parts(alloc, &plan, connections)?;
    gather(alloc, plan, answers)
}

/// Sends each part to its node, and returns what came back for each.
fn send_parts<C: Connections>(
    alloc: Global,
    plan: &SplitPlan<'_, Cmd>,
    connections: &mut C,
) -> Result<Vec<Answer>, AllocError>
    ensures handed { OnOk result
        (AreAdded (C.handed connections.old) (C.handed connections.new) (targets plan.now)) }
    ensures handed_or_none { OnErr result
        (IsSame (C.handed connections.old) (C.handed connections.new)
        ⊎ AreAdded (C.handed connections.old) (C.handed connections.new) (targets plan.now)) }
    ensures gave { IfOk result (λ answers. (before : List Answers) → C.gave connections.old before
        → C.gave connections.new (before ++ answers.items ∷ [])) }
{
    let mut parts = Vec::with_capacity(alloc, plan.len())?;
    for number in 0..plan.len() {
        if let Some(target) = target_of(plan, number) {
            parts.push(target)?;
        }
    }
    connections.exchange(&parts)
}

/// The node and the part of a route, if the route exists.
fn target_of<'a>(plan: &'a SplitPlan<'_, Cmd>, number: usize) -> Option<(&'a NodeAddress, &'a Cmd)>
    ensures { option_map (λ target. (target.0.now, target.1.now)) result
        ≡ slice_get (targets plan.now) number }
{
    let node = plan.node(number)?;
    let part = plan.part(number)?;
    Some((node, part))
}

/// The one reply to a command, by the answers to its parts, in the order of the routes.
///
/// On success each answer is a reply, and none is an error. If the plan had no reply before, the
/// command's policy makes the one reply of them. So it is the reply to the unsplit command, amid
/// what others write.
pub fn gather(
    alloc: Global,
    mut plan: SplitPlan<'_, Cmd>,
    answers: Vec<Answer>,
) -> Result<Value, BatchError>
    ensures gathered { IfOk result (λ reply. IsGathered plan.entry answers.items (view reply)) }
    ensures cause { IfErr result (λ error. IsUngathered plan.entry answers.items error) }
{
    let replies = replies_in(alloc, answers)?;
    for (number, reply) in replies.into_iter().enumerate() {
        if plan.tell(number, Ok(reply)).is_err() {
            return Err(not_combined("an answer to no part"));
        }
    }
    plan.combine(alloc).map_err(BatchError::NotCombined)
}

fn not_combined(text: &'static str) -> BatchError
    ensures { IsClientRefusal result }
{
    BatchError::NotCombined(RedisError::from((ErrorKind::Client, text)))
}

/// The replies, if each answer is a reply.
fn replies_in(alloc: Global, answers: Vec<Answer>) -> Result<Vec<Value>, BatchError>
    ensures replies { IfOk result (λ replies. answers.items ≡ map Ok replies.items) }
    ensures cause { IfErr result (λ error. WhyNoReplies answers.items error) }
{
    let mut replies = Vec::with_capacity(alloc, answers.len())?;
    for answer in answers {
        match answer {
            Ok(reply) => replies.push(reply)?,
            Err(cause) => return Err(BatchError::NotAnswered(replies.len(), cause)),
        }
    }
    Ok(replies)
}
