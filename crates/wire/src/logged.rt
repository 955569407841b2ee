ghost use Rattle.std.specs.Prelude.{◌≡◌, [], map};
ghost use Rattle.wire.specs.Logged.{command_logged};
ghost use Rattle.wire.specs.Held.{transport_in};

use crate::connections::Wire;
use crate::transport::Transport;
use cluster_slots::NodeAddress;
use redis_cluster::driver::{Log, SendError};
use resp_core::{Cmd, Value};

/// Connections over a transport, with a log that only proofs read: it takes no memory, and does
/// nothing.
#[derive(Drop)]
pub struct Logged<T> {
    transport: T,
    sends: Log<NodeAddress, Cmd, Result<Value, SendError>>,
}

impl<T: Transport> Logged<T> {
    /// Nothing was sent yet.
    pub fn new(transport: T) -> Self
        ensures transport { transport_in result ≡ transport }
        ensures unsent { ⟦<Logged<T> as Wire>⟧.log result ≡ [] }
    {
        Logged {
            transport,
            sends: Log::new(),
        }
    }

    /// What moves the commands.
    pub fn into_transport(self) -> T
        ensures { result ≡ transport_in self }
    {
        let Logged {
            transport,
            sends: _,
        } = self;
        transport
    }
}

impl<T: Transport> Wire for Logged<T> {
    ghost log = { λ wire. map command_logged wire.sends.items };

    // each exchange is one of the transport, whose outcome it gives
    ghost went = { λ old node args outcome new. T.went old.transport node args outcome new.transport };

    fn exchange(&mut self, node: &NodeAddress, cmd: &Cmd) -> Result<Value, SendError> {
        let outcome = self.transport.exchange(node, cmd);
        if !matches!(outcome, Err(SendError::Memory)) {
            self.sends = self.sends.and(node, std::slice::from_ref(&cmd), &outcome);
        }
        outcome
    }
}
