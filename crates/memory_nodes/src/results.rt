ghost use Rattle.std.specs.Prelude.{◌≡◌, ◌<◌, ◌^◌, ◌+◌, ◌++◌, ◌∷◌, ℕ, [], List, false, IfOk, IfSome};
ghost use Rattle.resp_core.specs.Reply.{nil};
ghost use Rattle.resp_core.specs.View.{view};
ghost use Rattle.redis_cluster.specs.MultiKey.{form_by_policy};
ghost use Rattle.redis_cluster.specs.Unsplit.{TupleResult, reply_by};
ghost use Rattle.memory_nodes.specs.Results.{result_of, HoldResults, HaveRoom, FitPolicy};

use redis_routing::{AggregateOp, ResponsePolicy};
use resp_core::Value;
use std::alloc::{AllocError, Global};

/// What a tuple adds to the reply.
#[derive(Drop)]
pub(super) struct KeyResult {
    /// The value of the tuple, if the reply is a list.
    pub(super) value: Value,
    /// Whether the tuple counts, if the reply is a count.
    pub(super) counts: bool,
}

impl KeyResult {
    /// A value.
    pub(super) fn value(value: Value) -> KeyResult
        ensures { result_of result ≡ record { value = view value; counts = false } }
    {
        KeyResult {
            value,
            counts: false,
        }
    }

    /// Whether a key counts.
    pub(super) fn counted(counts: bool) -> KeyResult
        ensures { result_of result ≡ record { value = nil; counts = counts } }
    {
        KeyResult {
            value: Value::Nil,
            counts,
        }
    }
}

/// What tuples add to the reply.
#[derive(Drop)]
pub(super) enum Results {
    /// The value of each tuple, in order, if the reply is a list.
    Values(Vec<Value>),
    /// How many tuples count, if the reply is no list.
    Count(usize),
}

impl Results {
    /// No results yet, with room for those of `tuples` tuples, for a reply by this policy.
    #[tactic(auto, unfolding(crate::specs::Results::HoldResults, crate::specs::Results::HaveRoom, crate::specs::Results::FitPolicy))]
    pub(super) fn with_room(
        alloc: Global,
        policy: ResponsePolicy,
        tuples: usize,
    ) -> Result<Results, AllocError>
        requires few { tuples < 2 ^ 63 }
        ensures empty { IfOk result (λ results. HoldResults results []) }
        ensures room { IfOk result (λ results. HaveRoom results tuples) }
        ensures fit { IfOk result (λ results. FitPolicy results policy) }
    {
        match policy {
            ResponsePolicy::CombineArrays => {
                Ok(Results::Values(Vec::with_capacity(alloc, tuples)?))
            }
            _ => Ok(Results::Count(0)),
        }
    }

    /// Adds the result of the next tuple. Takes no memory.
    #[tactic(auto, unfolding(crate::specs::Results::HoldResults, crate::specs::Results::HaveRoom, crate::specs::Results::FitPolicy))]
    pub(super) fn add(&mut self, added: KeyResult)
        requires room { HaveRoom self.old 1 }
        ensures results { (results : List TupleResult) → HoldResults self.old results
            → HoldResults self.new (results ++ result_of added ∷ []) }
        ensures room { (tuples : ℕ) → HaveRoom self.old (tuples + 1) → HaveRoom self.new tuples }
        ensures fit { (policy : ResponsePolicy) → FitPolicy self.old policy
            → FitPolicy self.new policy }
    {
        match self {
            Results::Values(values) => values.push_reserved(added.value),
            Results::Count(count) => *count += usize::from(added.counts),
        }
    }

    /// The reply that a policy makes of the results.
    #[tactic(auto, unfolding(crate::specs::Results::HoldResults, crate::specs::Results::HaveRoom, crate::specs::Results::FitPolicy))]
    pub(super) fn into_reply(self, policy: ResponsePolicy) -> Value
        requires few { HaveRoom self 0 }
        requires fit { FitPolicy self policy }
        ensures { (results : List TupleResult) → HoldResults self results
            → IfSome (form_by_policy policy) (λ form. view result ≡ reply_by form results) }
    {
        match (self, policy) {
            (Results::Values(values), _) => Value::Array(values),
            (Results::Count(count), ResponsePolicy::Aggregate(AggregateOp::Sum)) => {
                Value::Int(count as i64)
            }
            (Results::Count(_), _) => Value::Okay,
        }
    }
}
