ghost use Rattle.std.specs.Prelude.{◌≡◌, ◌↔◌, ℕ, List, [], Bool, false, map, ⊤};
ghost use Rattle.std.specs.List.{All};
ghost use Rattle.resp_core.specs.Reply.{Reply};
ghost use Rattle.redis_cluster.specs.Amid.{IsServedAmid};
ghost use Rattle.redis_cluster.specs.Driven.{Request, IsDelivered};
ghost use Rattle.redis_cluster.specs.Retried.{AreAllTried, IsTryOf};
ghost use Rattle.redis_cluster.specs.State.{state};
ghost use Rattle.wire.specs.Said.{replies_in};
ghost use Rattle.wire.specs.Commands.{SaidCommand, entry_by, replay_commands, AreCommandsKept};
ghost use Rattle.wire.specs.Held.{registry_in, wire_in, transport_in};
ghost use Rattle.wire.specs.Amid.{IsServedAt};
ghost use Rattle.wire.specs.Beside.{IsAmong, AreKeptBeside};

use crate::connections::Wire;
use crate::logged::Logged;
use crate::meaning::{Any, Meaning};
use crate::transport::Transport;
use cluster_slots::NodeAddress;
use redis_cluster::driver::{Nodes, SendError};
use redis_routing::Registry;
use resp_core::{Cmd, Value};
use std::marker::PhantomData;

/// A client over a transport, of any meaning. A transport that borrows is a struct with one lifetime.
///
/// ```
/// let mut client = Client::over(Connections { sockets }, Registry::new(alloc));
/// ```
pub type Client<T> = WireNodes<Logged<T>, Any>;

/// Nodes behind connections. They keep to a meaning exactly if each value that the connections gave
/// is the one that the commands so far give by it, and no refused or redirected command took effect.
#[derive(Drop)]
pub struct WireNodes<W, M> {
    wire: W,
    registry: Registry,
    mark: bool,
    meaning: PhantomData<M>,
}

impl<W: Wire, M: Meaning> WireNodes<W, M> {
    /// Nodes behind these connections, which may have sent something before. A command of a name of
    /// the registry is split and sent as the nine are.
    pub fn new(wire: W, registry: Registry) -> Self
        ensures wire { wire_in result ≡ wire }
        ensures registered { ⟦<WireNodes<W, M> as Nodes>⟧.registered result ≡ registry }
        ensures trace { (⟦<WireNodes<W, M> as Nodes>⟧.state result).trace ≡ map entry_by (W.log wire) }
        ensures keyspace { (⟦<WireNodes<W, M> as Nodes>⟧.state result).keyspace
            ≡ replay_commands registry M.step M.took (W.log wire) M.initial }
        ensures kept { AreCommandsKept registry M.step M.took (W.log wire) M.initial
            ↔ ⟦<WireNodes<W, M> as Nodes>⟧.kept result }
        ensures gave { (replies : List Reply) → ⟦<WireNodes<W, M> as Nodes>⟧.gave result replies
            ↔ (replies ≡ replies_in (W.log wire)) }
        ensures mark { (⟦<WireNodes<W, M> as Nodes>⟧.state result).mark ≡ false }
    {
        WireNodes {
            wire,
            registry,
            mark: false,
            meaning: PhantomData,
        }
    }

    /// The connections.
    pub fn into_wire(self) -> W
        ensures wire { result ≡ wire_in self }
        // What contracts say of a client is said of the log of these connections, at any time.
        ensures trace { (⟦<WireNodes<W, M> as Nodes>⟧.state self).trace ≡ map entry_by (W.log result) }
        ensures keyspace { (⟦<WireNodes<W, M> as Nodes>⟧.state self).keyspace
            ≡ replay_commands (registry_in self) M.step M.took (W.log result) M.initial }
        ensures kept { AreCommandsKept (registry_in self) M.step M.took (W.log result) M.initial
            ↔ ⟦<WireNodes<W, M> as Nodes>⟧.kept self }
        ensures gave { (replies : List Reply) → ⟦<WireNodes<W, M> as Nodes>⟧.gave self replies
            ↔ (replies ≡ replies_in (W.log result)) }
        // Others may write any other key meanwhile: that the nodes kept to the meaning with such
        // writes before each send is enough.
        ensures beside { (own : List ℕ → Bool) → All (IsAmong (registry_in self) own) (W.log (wire_in self))
            → AreKeptBeside (registry_in self) own M.step M.took (W.log (wire_in self)) M.initial
            → ⟦<WireNodes<W, M> as Nodes>⟧.kept self }
        // Or they may write these keys, too. What `delivered` and `amid` say of a command that was
        // driven since the log was `before` is said of the log alone, as by `drive_over`.
        ensures amid { (asked : Request) (before : List SaidCommand) (value : Reply)
            → asked.names.registered ≡ registry_in self
            → IsDelivered (λ route address. ⊤) asked (map entry_by before) (map entry_by (W.log (wire_in self)))
            → IsServedAmid M.Cell (registry_in self) asked.arguments asked.order
            (λ replies. replies ≡ replies_in before)
            (λ replies. replies ≡ replies_in (W.log (wire_in self))) value
            → IsServedAt M.Cell (registry_in self) asked.arguments before (W.log (wire_in self)) value }
        // So it is with what `tried` and `amid` say of a command that was driven with retries. The sends
        // that were not answered count for nothing.
        ensures amid_retried { (asked : Request) (retries : ℕ) (before : List SaidCommand) (value : Reply)
            → asked.names.registered ≡ registry_in self
            → AreAllTried (IsTryOf (λ route address. ⊤) retries) asked (map entry_by before)
            (map entry_by (W.log (wire_in self)))
            → IsServedAmid M.Cell (registry_in self) asked.arguments asked.order
            (λ replies. replies ≡ replies_in before)
            (λ replies. replies ≡ replies_in (W.log (wire_in self))) value
            → IsServedAt M.Cell (registry_in self) asked.arguments before (W.log (wire_in self)) value }
    {
        let WireNodes {
            wire,
            registry: _,
            mark: _,
            meaning: _,
        } = self;
        wire
    }
}

impl<T: Transport, M: Meaning> WireNodes<Logged<T>, M> {
    /// Nodes behind a transport, to which nothing was sent yet. A command of a name of the registry
    /// is split and sent as the nine are.
    pub fn over(transport: T, registry: Registry) -> Self
        ensures transport { transport_in (wire_in result) ≡ transport }
        ensures registered { ⟦<WireNodes<Logged<T>, M> as Nodes>⟧.registered result ≡ registry }
        ensures trace { (⟦<WireNodes<Logged<T>, M> as Nodes>⟧.state result).trace ≡ [] }
        ensures keyspace { (⟦<WireNodes<Logged<T>, M> as Nodes>⟧.state result).keyspace ≡ M.initial }
        ensures kept { ⟦<WireNodes<Logged<T>, M> as Nodes>⟧.kept result }
        ensures gave { (replies : List Reply)
            → ⟦<WireNodes<Logged<T>, M> as Nodes>⟧.gave result replies ↔ (replies ≡ []) }
        ensures mark { (⟦<WireNodes<Logged<T>, M> as Nodes>⟧.state result).mark ≡ false }
    {
        WireNodes::new(Logged::new(transport), registry)
    }
}

impl<W: Wire, M: Meaning> Nodes for WireNodes<W, M> {
    ghost Cell = { M.Cell };

    ghost step = { M.step };

    ghost registered = { λ nodes. nodes.registry };

    ghost state = { λ nodes. state
        (replay_commands nodes.registry M.step M.took (W.log nodes.wire) M.initial)
        (map entry_by (W.log nodes.wire)) nodes.mark };

    ghost may_refuse = { λ nodes count ending. ⊤ };

    ghost kept = { λ nodes. AreCommandsKept nodes.registry M.step M.took (W.log nodes.wire) M.initial };

    ghost gave = { λ nodes replies. replies ≡ replies_in (W.log nodes.wire) };

    // each send is one exchange of the connections, whose outcome it gives
    ghost went = { λ old node args outcome new. W.went old.wire node args outcome new.wire };

    fn registry(&self) -> &Registry {
        &self.registry
    }

    fn send(&mut self, node: &NodeAddress, cmd: &Cmd) -> Result<Value, SendError> {
        let outcome = self.wire.exchange(node, cmd);
        self.mark = matches!(outcome, Err(SendError::Memory));
        outcome
    }
}
