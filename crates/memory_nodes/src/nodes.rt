ghost use Rattle.std.specs.Prelude.{◌≡◌, ◌⊎◌, ◌<◌, ◌≤◌, ◌+◌, ◌++◌, ◌∷◌, ◌↔◌, ℕ, [], None, Some, false, IfOk, OnOk, IfErr, OnErr, IfSome, IsSome, IsTrue, option_copied, length, map};
ghost use Rattle.std.specs.Vec.{vec_len, vec_capacity};
ghost use Rattle.resp_core.specs.View.{view};
ghost use Rattle.redis_cluster.specs.MultiKey.{multi_key};
ghost use Rattle.redis_cluster.specs.Sends.{IsLeft, IsUnanswered, ending_of};
ghost use Rattle.redis_cluster.specs.Trace.{Ending, answered, refused, redirected, entry};
ghost use Rattle.redis_cluster.specs.Unsplit.{keyspace_after, reply_to};
ghost use Rattle.memory_nodes.specs.Cells.{Cell, value_at};
ghost use Rattle.memory_nodes.specs.Nodes.{registered_in, keyspace_in, trace_in, mark_in, state_in, fuse_in, planned_in, planned_for, replies_in, EndsSo, MayRefuse, IsFused, entry_of, node_refused};
ghost use Rattle.memory_nodes.specs.Steps.{step};

use crate::cells::{Cells, value_at};
use crate::planned::{Planned, next_planned};
use crate::trace_entry::TraceEntry;
use crate::tuples::run;
use cluster_slots::NodeAddress;
use redis_cluster::driver::{Nodes, SendError};
use redis_routing::{Redirect, Registry};
use resp_core::{Cmd, ErrorKind, RedisError, Value};
use std::alloc::{AllocError, Global};

/// Nodes that share one keyspace in memory and keep a trace of what they are sent. A fuse refuses
/// each send from a given one on, and a plan refuses or redirects single sends. A send looks each
/// of its keys up in a tree, and touches no other key.
#[derive(Drop)]
pub struct MemoryNodes {
    alloc: Global,
    registry: Registry,
    cells: Cells,
    trace: Vec<TraceEntry>,
    fuse: Option<usize>,
    plan: Vec<Planned>,
    /// How many entries the trace had when the plan was made.
    base: usize,
    mark: bool,
}

impl MemoryNodes {
    /// Nodes with no key, no entry in the trace, no fuse, no plan and no registered name. Takes no
    /// memory.
    pub fn new(alloc: Global) -> MemoryNodes
        ensures registered { registered_in result ≡ [] }
        ensures keyspace { keyspace_in result ≡ (λ key. None) }
        ensures trace { trace_in result ≡ [] }
        ensures mark { mark_in result ≡ false }
        ensures fuse { fuse_in result ≡ None }
        ensures planned { (count : ℕ) → planned_in result count ≡ Planned.Answer }
        ensures may_refuse { (count : ℕ) (ending : Ending) → ¬ (MayRefuse result count ending) }
    {
        MemoryNodes::with_registry(alloc, Registry::new(alloc))
    }

    /// `new` for nodes that know registered names, too. The policy of a name says what it does.
    /// `CombineArrays` reads, at the path that the keys share, if any. `Aggregate(Sum)` counts the
    /// keys that exist. `AllSucceeded` writes as `MSET` or `JSON.MSET` does, if each key has a
    /// value, or a path and a value. Takes no memory.
    pub fn with_registry(alloc: Global, registry: Registry) -> MemoryNodes
        ensures registered { registered_in result ≡ registry }
        ensures keyspace { keyspace_in result ≡ (λ key. None) }
        ensures trace { trace_in result ≡ [] }
        ensures mark { mark_in result ≡ false }
        ensures fuse { fuse_in result ≡ None }
        ensures planned { (count : ℕ) → planned_in result count ≡ Planned.Answer }
        ensures may_refuse { (count : ℕ) (ending : Ending) → ¬ (MayRefuse result count ending) }
    {
        MemoryNodes {
            alloc,
            registry,
            cells: Cells::new(alloc),
            trace: Vec::new(alloc),
            fuse: None,
            plan: Vec::new(alloc),
            base: 0,
            mark: false,
        }
    }

    /// Refuses from now on each send that finds `limit - 1` or more entries in the trace. A limit
    /// of 3 lets two sends through; 1 or 0 lets none. The fuse goes before the plan.
    pub fn fuse(&mut self, limit: usize)
        ensures registered { registered_in self.new ≡ registered_in self.old }
        ensures keyspace { keyspace_in self.new ≡ keyspace_in self.old }
        ensures trace { trace_in self.new ≡ trace_in self.old }
        ensures mark { mark_in self.new ≡ mark_in self.old }
        ensures fuse { fuse_in self.new ≡ Some limit }
        ensures planned { (count : ℕ) → planned_in self.new count ≡ planned_in self.old count }
        ensures may_refuse { (count : ℕ) (ending : Ending) → MayRefuse self.new count ending
            ↔ (((limit ≤ count + 1) × (ending ≡ refused node_refused))
            ⊎ ((count + 1 < limit) × EndsSo (planned_in self.old count) ending)) }
    {
        self.fuse = Some(limit);
    }

    /// Replaces the plan. Each send from now on follows the next entry, and after the last one it
    /// is answered: `[Refuse, Answer]` refuses one send. The fuse goes before the plan.
    pub fn plan(&mut self, plan: Vec<Planned>)
        ensures registered { registered_in self.new ≡ registered_in self.old }
        ensures keyspace { keyspace_in self.new ≡ keyspace_in self.old }
        ensures trace { trace_in self.new ≡ trace_in self.old }
        ensures mark { mark_in self.new ≡ mark_in self.old }
        ensures fuse { fuse_in self.new ≡ fuse_in self.old }
        ensures planned { (count : ℕ)
            → planned_in self.new count ≡ planned_for plan.items (length (trace_in self.old)) count }
        ensures may_refuse { (count : ℕ) (ending : Ending) → MayRefuse self.new count ending
            ↔ ((IsFused (fuse_in self.old) count × (ending ≡ refused node_refused))
            ⊎ ((IsFused (fuse_in self.old) count → ⊥)
            × EndsSo (planned_for plan.items (length (trace_in self.old)) count) ending)) }
    {
        self.base = self.trace.len();
        self.plan = plan;
    }

    /// The value at a path of a key. A value written without a path is at the empty path.
    pub fn get(&self, key: &[u8], path: &[u8]) -> Option<&[u8]>
        ensures { option_copied result ≡ value_at (keyspace_in self.now key.now) path.now }
    {
        value_at(&self.cells, key, path)
    }

    /// The sends so far, in order.
    pub fn trace(&self) -> &[TraceEntry]
        ensures { map entry_of result.now ≡ trace_in self.now }
    {
        self.trace.as_slice()
    }

    /// Drops the trace, and the fuse and the plan, which count by it. Keeps the keys and the registered
    /// names. Takes no memory.
    pub fn clear_trace(&mut self)
        ensures registered { registered_in self.new ≡ registered_in self.old }
        ensures keyspace { keyspace_in self.new ≡ keyspace_in self.old }
        ensures trace { trace_in self.new ≡ [] }
        ensures mark { mark_in self.new ≡ false }
        ensures fuse { fuse_in self.new ≡ None }
        ensures planned { (count : ℕ) → planned_in self.new count ≡ Planned.Answer }
        ensures may_refuse { (count : ℕ) (ending : Ending) → ¬ (MayRefuse self.new count ending) }
    {
        self.trace.clear();
        self.fuse = None;
        self.plan.clear();
        self.base = 0;
        self.mark = false;
    }

    /// Whether the fuse refuses the next send.
    fn is_fused(&self) -> bool
        ensures { IsTrue result ↔ IsFused (fuse_in self.now) (length (trace_in self.now)) }
    {
        match self.fuse {
            Some(limit) => limit <= self.trace.len() + 1,
            None => false,
        }
    }

    /// Answers a command. If memory runs out, what it changed is undone.
    fn answer(&mut self, node: &NodeAddress, cmd: &Cmd) -> Result<Value, AllocError>
        requires whole { IsSome (multi_key (registered_in self.old) (map Some cmd.now)) }
        ensures reply { IfOk result
            (λ value. IfSome (multi_key (registered_in self.old) (map Some cmd.now))
            (λ command. view value ≡ reply_to step command (keyspace_in self.old))) }
        ensures keyspace { OnOk result
            (IfSome (multi_key (registered_in self.old) (map Some cmd.now))
            (λ command. keyspace_in self.new ≡ keyspace_after step command
            (keyspace_in self.old))) }
        ensures trace { OnOk result
            (trace_in self.new ≡ trace_in self.old ++ entry node.now cmd.now answered ∷ []) }
        ensures memory { OnErr result ((keyspace_in self.new ≡ keyspace_in self.old)
            × (trace_in self.new ≡ trace_in self.old)) }
        ensures replied { IfOk result
            (λ value. replies_in self.new ≡ replies_in self.old ++ view value ∷ []) }
        ensures unreplied { OnErr result (replies_in self.new ≡ replies_in self.old) }
        ensures fuse { self.new.fuse ≡ self.old.fuse }
        ensures plan { self.new.plan ≡ self.old.plan }
        ensures base { self.new.base ≡ self.old.base }
        ensures registered { registered_in self.new ≡ registered_in self.old }
    {
        let mut entry = TraceEntry::with_answer(self.alloc, node, cmd)?;
        reserve_entry(&mut self.trace)?;
        let reply = run(
            self.alloc,
            &self.registry,
            &mut self.cells,
            cmd,
            &entry.args,
        )?;
        entry.reply = entry.reply.and(&(), &[], &reply);
        self.trace.push_reserved(entry);
        Ok(reply)
    }

    /// Refuses a command, with the one error of a refusal.
    fn refuse(&mut self, node: &NodeAddress, cmd: &Cmd) -> Result<RedisError, AllocError>
        ensures error { IfOk result (λ error. error ≡ node_refused) }
        ensures trace { OnOk result
            (trace_in self.new ≡ trace_in self.old ++ entry node.now cmd.now
            (refused node_refused) ∷ []) }
        ensures memory { OnErr result (trace_in self.new ≡ trace_in self.old) }
        ensures unreplied { replies_in self.new ≡ replies_in self.old }
        ensures keyspace { keyspace_in self.new ≡ keyspace_in self.old }
        ensures fuse { self.new.fuse ≡ self.old.fuse }
        ensures plan { self.new.plan ≡ self.old.plan }
        ensures base { self.new.base ≡ self.old.base }
        ensures registered { registered_in self.new ≡ registered_in self.old }
    {
        let entry = TraceEntry::without_answer(self.alloc, node, cmd, None)?;
        self.trace.push(entry)?;
        Ok(RedisError::from((ErrorKind::Client, "node refused")))
    }

    /// Adds a redirected send to the trace, and returns the redirect.
    fn redirect(
        &mut self,
        node: &NodeAddress,
        cmd: &Cmd,
        redirect: Redirect,
    ) -> Result<Redirect, AllocError>
        ensures redirect { IfOk result (λ told. told ≡ redirect) }
        ensures trace { OnOk result
            (trace_in self.new ≡ trace_in self.old ++ entry node.now cmd.now
            (redirected redirect) ∷ []) }
        ensures memory { OnErr result (trace_in self.new ≡ trace_in self.old) }
        ensures unreplied { replies_in self.new ≡ replies_in self.old }
        ensures keyspace { keyspace_in self.new ≡ keyspace_in self.old }
        ensures fuse { self.new.fuse ≡ self.old.fuse }
        ensures plan { self.new.plan ≡ self.old.plan }
        ensures base { self.new.base ≡ self.old.base }
        ensures registered { registered_in self.new ≡ registered_in self.old }
    {
        let noted = redirect.clone()?;
        let entry = TraceEntry::without_answer(self.alloc, node, cmd, Some(noted))?;
        self.trace.push(entry)?;
        Ok(redirect)
    }

    /// What the next send does. The fuse goes before the plan.
    fn next(&self) -> Result<Planned, AllocError>
        ensures { IfOk result (λ next. (ending : Ending)
            → MayRefuse self.now (length (trace_in self.now)) ending ↔ EndsSo next ending) }
    {
        if self.is_fused() {
            return Ok(Planned::Refuse);
        }
        next_planned(&self.plan, self.base, self.trace.len())
    }
}

impl Nodes for MemoryNodes {
    ghost Cell = { Cell };

    ghost step = { step };

    ghost registered = { registered_in };

    ghost state = { state_in };

    ghost may_refuse = { MayRefuse };

    ghost gave = { λ nodes replies. replies ≡ replies_in nodes };

    fn registry(&self) -> &Registry {
        &self.registry
    }

    /// Refuses if the fuse says so, and else does what was planned.
    fn send(&mut self, node: &NodeAddress, cmd: &Cmd) -> Result<Value, SendError>
        requires whole { IsSome (multi_key (registered_in self.old) (map Some cmd.now)) }
        ensures reply { IfOk result
            (λ value. IfSome (multi_key (registered_in self.old) (map Some cmd.now))
            (λ command. view value ≡ reply_to step command (keyspace_in self.old))) }
        ensures keyspace { OnOk result
            (IfSome (multi_key (registered_in self.old) (map Some cmd.now))
            (λ command. keyspace_in self.new ≡ keyspace_after step command
            (keyspace_in self.old))) }
        ensures trace { OnOk result
            (trace_in self.new ≡ trace_in self.old ++ entry node.now cmd.now answered ∷ []) }
        ensures mark { OnOk result (mark_in self.new ≡ false) }
        // A reply is the next of those so far.
        ensures replied { IfOk result
            (λ value. replies_in self.new ≡ replies_in self.old ++ view value ∷ []) }
        ensures unreplied { OnErr result (replies_in self.new ≡ replies_in self.old) }
        ensures unanswered { IfErr result
            (λ error. IsUnanswered (MayRefuse self.old) (trace_in self.old) (trace_in self.new)
            (mark_in self.new) node.now cmd.now (ending_of error)) }
        ensures stays { OnErr result (keyspace_in self.new ≡ keyspace_in self.old) }
        ensures left { IfErr result
            (λ error. IfSome (multi_key (registered_in self.old) (map Some cmd.now))
            (λ command. IsLeft step command (keyspace_in self.old) (keyspace_in self.new)
            (ending_of error))) }
        // The fuse and the plan are as they were, also if the fuse hides the plan.
        ensures fuse { fuse_in self.new ≡ fuse_in self.old }
        ensures planned { (count : ℕ) → planned_in self.new count ≡ planned_in self.old count }
        ensures may_refuse { (count : ℕ) (ending : Ending) → MayRefuse self.new count ending
            ↔ MayRefuse self.old count ending }
        ensures registered { registered_in self.new ≡ registered_in self.old }
        ensures willing { OnOk result ((ending : Ending)
            → ¬ (MayRefuse self.old (length (trace_in self.old)) ending)) }
    {
        let Ok(next) = self.next() else {
            self.mark = true;
            return Err(SendError::Memory);
        };
        match next {
            Planned::Answer => {
                let Ok(reply) = self.answer(node, cmd) else {
                    self.mark = true;
                    return Err(SendError::Memory);
                };
                self.mark = false;
                Ok(reply)
            }
            Planned::Refuse => {
                let Ok(error) = self.refuse(node, cmd) else {
                    self.mark = true;
                    return Err(SendError::Memory);
                };
                self.mark = false;
                Err(SendError::Refused(error))
            }
            Planned::Redirect(redirect) => {
                let Ok(told) = self.redirect(node, cmd, redirect) else {
                    self.mark = true;
                    return Err(SendError::Memory);
                };
                self.mark = false;
                Err(SendError::Redirected(told))
            }
        }
    }
}

/// Makes room for one more entry, at first for six. So a trace of up to six answered sends never
/// moves.
fn reserve_entry(trace: &mut Vec<TraceEntry>) -> Result<(), AllocError>
    ensures items { trace.new.items ≡ trace.old.items }
    ensures room { OnOk result (vec_len trace.new < vec_capacity trace.new) }
{
    let entries = if trace.is_empty() { 6 } else { 1 };
    trace.reserve(entries)
}
