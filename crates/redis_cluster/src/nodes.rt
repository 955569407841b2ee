ghost use Rattle.std.specs.Prelude.{◌≡◌, ℕ, List, Result, [], ◌∷◌, ◌++◌, false, Some, map, IfOk, OnOk, OnErr, IfErr, IfSome, ◌↔◌};
ghost use Rattle.resp_core.specs.Reply.{Reply};
ghost use Rattle.resp_core.specs.declared.value.Value.{Value as Held};
ghost use Rattle.cluster_slots.specs.Address.{Address};
ghost use Rattle.resp_core.specs.View.{view};
ghost use Rattle.redis_routing.specs.Registry.{Registrations};
ghost use Rattle.redis_cluster.specs.MultiKey.{multi_key, IsPart};
ghost use Rattle.redis_cluster.specs.Unsplit.{Step, keyspace_after, reply_to};
ghost use Rattle.redis_cluster.specs.State.{State};
ghost use Rattle.redis_cluster.specs.Trace.{Ending, answered, entry};
ghost use Rattle.redis_cluster.specs.declared.nodes.SendError.{SendError as Unsent};
ghost use Rattle.redis_cluster.specs.Sends.{IsIdleIfRefused, IsLeft, IsUnanswered, ending_of};

use cluster_slots::NodeAddress;
use redis_routing::{Redirect, Registry};
use resp_core::{Cmd, RedisError, Value};
use std::error::Error;
use std::fmt;

/// Why a node did not answer.
#[derive(Debug, Drop)]
pub enum SendError {
    /// The node refused the command. Nodes that keep to their meaning did nothing then.
    Refused(RedisError),
    /// The node sent the client on to another address, as by `MOVED` or `ASK`. Nodes that keep to
    /// their meaning did nothing then.
    Redirected(Redirect),
    /// No reply came, as if time ran out after the command was written. Nobody knows whether it
    /// took effect.
    Lost(RedisError),
    /// Memory ran out before anything was sent.
    Memory,
}

impl fmt::Display for SendError {
    ghost use Rattle.redis_cluster.specs.SendErrorText.{send_error_text};

    ghost output = { λ error. Some (send_error_text error) };

    fn fmt<W: fmt::Write>(&self, f: &mut fmt::Formatter<W>) -> fmt::Result {
        match self {
            SendError::Refused(error) => write!(f, "node refused: {error}"),
            SendError::Redirected(Redirect::Moved(address)) => {
                write!(f, "node redirected: MOVED {address}")
            }
            SendError::Redirected(Redirect::Ask(address)) => {
                write!(f, "node redirected: ASK {address}")
            }
            SendError::Lost(error) => write!(f, "reply lost: {error}"),
            SendError::Memory => write!(f, "out of memory"),
        }
    }
}

impl Error for SendError {}

/// Nodes of one cluster, to which multi-key commands are sent.
///
/// `send` is all that a client writes. Contracts alone name the rest: what commands mean, what the
/// nodes hold, what was sent, and what nodes may refuse. If nodes keep to their meaning, all share
/// one keyspace. A command then has the same effect and reply at each node.
pub trait Nodes {
    /// What stands at a key.
    ghost Cell: { Type 0 };

    /// What one key of a command does to its cell and adds to the reply.
    ghost step: { Step Cell };

    /// Which names are registered, besides those of the tables. No send changes them.
    ghost registered: { Self → Registrations };

    /// What the nodes hold, what was sent so far, and whether the last send ran out of memory.
    ghost state: { Self → State Cell };

    /// Whether a send may end without an answer, by this refusal, redirect or loss. The number is
    /// how many entries the trace has before it.
    ghost may_refuse: { Self → ℕ → Ending → Type 0 };

    /// So far the nodes answered by that meaning, over one keyspace, and what they refused or
    /// redirected did nothing. Nobody can prove that of a connection, so for a real client it is a
    /// premise. If an `impl` does not write it, its `send` ensures it always. It holds before the
    /// first send. It ends only with a value of another meaning, or with a refusal or redirect that
    /// changed the keyspace.
    ghost kept: { Self → Type 0 } = { λ _. Unit {0} };

    /// Whether these may be the replies so far, in the order in which they came.
    ghost gave: { Self → List Reply → Type 0 };

    /// What one send may do: the nodes before, the address, the command, the outcome, and the nodes
    /// after. No nodes have to say it.
    ghost went: { Self → Address → List (List ℕ) → Result Held Unsent → Self → Type 0 } = { λ _ _ _ _ _. Unit {0} };

    /// The registered names. A command of such a name is split and sent, too.
    fn registry(&self) -> &Registry
        ensures { result.now ≡ registered self.now };

    /// Sends the part of one slot to a node: a multi-key command whose keys have that slot,
    /// complete and without gaps.
    ///
    /// # Errors
    ///
    /// `Refused` if the node refused the command, and `Redirected` if it sent the client on: the
    /// keyspace stays. `Lost` if no reply came: the keyspace is as it was, or as the command leaves
    /// it. `Memory` if memory ran out: nothing was sent.
    fn send(&mut self, node: &NodeAddress, cmd: &Cmd) -> Result<Value, SendError>
        requires part { IsPart (registered self.old) (map Some cmd.now) }
        ensures reply { IfOk result
            (λ value. IfSome (multi_key (registered self.old) (map Some cmd.now))
            (λ command. kept self.new → view value ≡ reply_to step command (state self.old).keyspace)) }
        ensures keyspace { OnOk result (IfSome (multi_key (registered self.old) (map Some cmd.now))
            (λ command. kept self.new
            → (state self.new).keyspace ≡ keyspace_after step command (state self.old).keyspace)) }
        ensures kept { kept self.new → kept self.old }
        // Nodes to which nothing was sent kept to the meaning.
        ensures kept_at_first { (state self.old).trace ≡ [] → kept self.old }
        // They still do after a value that is the one by it,
        ensures stays_kept { IfOk result (λ value.
            IfSome (multi_key (registered self.old) (map Some cmd.now))
            (λ command. kept self.old → view value ≡ reply_to step command (state self.old).keyspace
            → kept self.new)) }
        // and if no value came, unless a refused or redirected command did something.
        ensures kept_unanswered { IfErr result (λ error. kept self.old
            → IsIdleIfRefused (state self.old).keyspace (state self.new).keyspace error → kept self.new) }
        // If nothing was sent, it may be that no reply came.
        ensures gave_at_first { (state self.old).trace ≡ [] → gave self.old [] }
        // There are replies that may be those so far.
        ensures gave_so_far { (replies : List Reply) × gave self.old replies }
        // No other list may be.
        ensures gave_one { (these others : List Reply) → gave self.old these → gave self.old others
            → these ≡ others }
        ensures gave { IfOk result (λ value. (replies : List Reply) → gave self.old replies
            → gave self.new (replies ++ view value ∷ [])) }
        ensures gave_none { OnErr result ((replies : List Reply) → gave self.old replies
            → gave self.new replies) }
        ensures trace { OnOk result
            ((state self.new).trace ≡ (state self.old).trace ++ entry node.now cmd.now answered ∷ []) }
        ensures mark { OnOk result ((state self.new).mark ≡ false) }
        ensures unanswered { IfErr result
            (λ error. IsUnanswered (may_refuse self.old) (state self.old).trace (state self.new).trace
            (state self.new).mark node.now cmd.now (ending_of error)) }
        ensures memory { IfErr result (λ error. error ≡ SendError.Memory
            → (state self.new).keyspace ≡ (state self.old).keyspace) }
        ensures left { IfErr result (λ error.
            IfSome (multi_key (registered self.old) (map Some cmd.now))
            (λ command. kept self.new
            → IsLeft step command (state self.old).keyspace (state self.new).keyspace (ending_of error))) }
        ensures went { went self.old node.now cmd.now result self.new }
        ensures may_refuse { (count : ℕ) (ending : Ending) → may_refuse self.new count ending
            ↔ may_refuse self.old count ending }
        ensures registered { registered self.new ≡ registered self.old };
}
