//! A multi-key command over sockets of one's own.
use cluster_map::{NodeAddress, SlotMap};
use redis_cluster::driver::{DriveError, SendError};
use redis_cluster::routing::{ReadOnlyNames, Redirect, Registry};
use resp_core::{Cmd, ErrorKind, RedisError, Value};
use std::alloc::Global;
use wire::{Client, Transport, drive_over};

/// What comes back from a node.
#[derive(Drop)]
pub enum Answer {
    /// The reply to the command.
    Reply(Value),
    /// An error that sends the client to another node.
    Redirect(Redirect),
    /// Any other error.
    Error(RedisError),
    /// No reply came in time.
    TimeOut(RedisError),
}

/// Sockets of the user's own. These return the answers that they hold, the last one first. Others
/// write the command to a socket of the node, and read.
#[derive(Drop)]
pub struct Sockets {
    /// The answers that are returned, the last one first.
    pub answers: Vec<Answer>,
}

impl Sockets {
    /// Sends a command to a node, and waits for what comes back.
    fn ask(&mut self, _node: &NodeAddress, _cmd: &Cmd) -> Answer {
        match self.answers.pop() {
            Some(answer) => answer,
            None => Answer::TimeOut(RedisError::from((ErrorKind::Client, "no reply"))),
        }
    }
}

/// Borrows the sockets for one command.
#[derive(Drop)]
pub struct Connections<'a> {
    /// The sockets.
    pub sockets: &'a mut Sockets,
}

impl Transport for Connections<'_> {
    fn exchange(&mut self, node: &NodeAddress, cmd: &Cmd) -> Result<Value, SendError> {
        match self.sockets.ask(node, cmd) {
            Answer::Reply(value) => Ok(value),
            Answer::Redirect(redirect) => Err(SendError::Redirected(redirect)),
            Answer::Error(error) => Err(SendError::Refused(error)),
            Answer::TimeOut(error) => Err(SendError::Lost(error)),
        }
    }
}

/// Sends the parts of a multi-key command in this order, and returns the one reply.
pub fn send(
    alloc: Global,
    command: &Cmd,
    slot_map: &SlotMap,
    order: &[usize],
    sockets: &mut Sockets,
) -> Result<Value, DriveError> {
    let none_only_reads = ReadOnlyNames::new(alloc);
    let mut client = Client::over(Connections { sockets }, Registry::new(alloc));
    drive_over(
        alloc,
        command,
        &none_only_reads,
        slot_map,
        None,
        0,
        order,
        &mut client,
    )
}
