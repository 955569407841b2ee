ghost use Rattle.std.specs.Prelude.{◌≡◌, ◌++◌, ◌∷◌, [], ℕ, List, Result, IfOk, IfErr};
ghost use Rattle.cluster_slots.specs.Address.{Address};
ghost use Rattle.resp_core.specs.declared.value.Value.{Value as Held};
ghost use Rattle.redis_cluster.specs.declared.nodes.SendError.{SendError as Unsent};
ghost use Rattle.resp_core.specs.View.{view};
ghost use Rattle.wire.specs.Said.{said, answer, IsUnsaid};
ghost use Rattle.wire.specs.Commands.{SaidCommand};

use cluster_slots::NodeAddress;
use redis_cluster::driver::SendError;
use resp_core::{Cmd, Value};

/// Connections to nodes. They may give any values.
pub trait Wire {
    /// What was sent so far, and what came back.
    ghost log: { Self → List SaidCommand };

    /// What one exchange may do: the connections before, the node, the command, what came back, and
    /// the connections after. No connections have to say it.
    ghost went: { Self → Address → List (List ℕ) → Result Held Unsent → Self → Type 0 } = { λ _ _ _ _ _. Unit {0} };

    /// Sends a command to a node, and waits for what comes back.
    ///
    /// # Errors
    ///
    /// `Refused` if the node refused the command. `Redirected` if it named another node. `Lost`
    /// if no reply came. `Memory` if memory ran out before anything was sent.
    fn exchange(&mut self, node: &NodeAddress, cmd: &Cmd) -> Result<Value, SendError>
        ensures answered { IfOk result (λ value.
            log self.new ≡ log self.old ++ said node.now cmd.now (answer (view value)) ∷ []) }
        ensures unanswered { IfErr result
            (λ error. IsUnsaid (log self.old) (log self.new) node.now cmd.now error) }
        ensures went { went self.old node.now cmd.now result self.new };
}
