ghost use Rattle.std.specs.Prelude.{ℕ, List, Result};
ghost use Rattle.cluster_slots.specs.Address.{Address};
ghost use Rattle.resp_core.specs.declared.value.Value.{Value as Held};
ghost use Rattle.redis_cluster.specs.declared.nodes.SendError.{SendError as Unsent};

use cluster_slots::NodeAddress;
use redis_cluster::driver::SendError;
use resp_core::{Cmd, Value};

/// What moves a command to a node and a value back. Nothing has to be said of it.
pub trait Transport {
    /// What one exchange may do: the transport before, the node, the command, what came back, and
    /// the transport after. No transport has to say it.
    ghost went: { Self → Address → List (List ℕ) → Result Held Unsent → Self → Type 0 } = { λ _ _ _ _ _. Unit {0} };

    /// Sends a command to a node once, and waits for what comes back.
    ///
    /// # Errors
    ///
    /// `Refused` if the node answered with an error. `Redirected` if that error is a redirect,
    /// as `Redirect::from_error_text` reads it. `Lost` if no reply came, as if time ran out: the
    /// command may have run. `Memory` if nothing was sent.
    fn exchange(&mut self, node: &NodeAddress, cmd: &Cmd) -> Result<Value, SendError>
        ensures went { went self.old node.now cmd.now result self.new };
}

impl<T: Transport> Transport for &mut T {
    // what the borrowed transport says of itself
    ghost went = { λ old node args outcome new. T.went old.now node args outcome new.now };

    fn exchange(&mut self, node: &NodeAddress, cmd: &Cmd) -> Result<Value, SendError> {
        (**self).exchange(node, cmd)
    }
}
