//! A multi-key command over connections of one's own, whose parts follow redirects.
use cluster_map::{NodeAddress, SlotMap};
use redis_cluster::driver::{DriveError, SendError, drive_retrying};
use redis_cluster::routing::{ReadOnlyNames, Redirect};
use resp_core::{Cmd, Value};
use std::alloc::Global;
use wire::{Meaning, Transport, Wire, WireNodes};

/// Connections to nodes.
pub trait Sockets {
    /// Sends a command to a node, after an `ASKING` on the same connection if that is asked for,
    /// and reads what comes back.
    fn ask(&mut self, node: &NodeAddress, cmd: &Cmd, asking: bool) -> Result<Value, SendError>;
}

/// A transport that remembers the node that an `ASK` named.
#[derive(Drop)]
pub struct Asking<S: Drop> {
    sockets: S,
    asked: Option<NodeAddress>,
}

impl<S: Sockets + Drop> Asking<S> {
    /// A transport over these connections. No `ASK` has come yet.
    pub fn over(sockets: S) -> Self {
        Asking {
            sockets,
            asked: None,
        }
    }
}

impl<S: Sockets + Drop> Transport for Asking<S> {
    /// Sends `ASKING` first to the node that the last `ASK` named. If there was no memory to
    /// remember it, the node redirects the client back, and nothing takes effect.
    fn exchange(&mut self, node: &NodeAddress, cmd: &Cmd) -> Result<Value, SendError> {
        let asking = match &self.asked {
            Some(address) => address == node,
            None => false,
        };
        let given = self.sockets.ask(node, cmd, asking);
        self.asked = match &given {
            Err(SendError::Redirected(Redirect::Ask(address))) => address.clone().ok(),
            _ => None,
        };
        given
    }
}

/// Drives a command. Each part is sent again after a redirect or a refusal, at most five times.
pub fn drive_on<W: Wire, M: Meaning>(
    alloc: Global,
    command: &Cmd,
    slot_map: &SlotMap,
    order: &[usize],
    client: &mut WireNodes<W, M>,
) -> Result<Value, DriveError> {
    let none_only_reads = ReadOnlyNames::new(alloc);
    drive_retrying(
        alloc,
        command,
        &none_only_reads,
        slot_map,
        None,
        0,
        5,
        order,
        client,
    )
}
