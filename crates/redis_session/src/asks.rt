//! Where parts were sent by `ASK`.
#![tactic(auto, using(crate::proofs::SentParts::others_on))]

ghost use Rattle.std.specs.Prelude.{◌≡◌, [], OnOk, OnErr, None, Some};
ghost use Rattle.redis_session.specs.Asks.{KeepsOtherAsks, SetsAsk, asked_node};

use session_core::Seat;
use std::alloc::{AllocError, Global};
use std::collections::BTreeMap;
use std::marker::Model;

/// The node of the last `ASK` of each part that got one, by the numbers of its call and of the part. Each function takes
/// logarithmic time.
#[derive(Drop)]
pub(crate) struct Asks {
    nodes: BTreeMap<(u64, usize), usize>,
}

impl Model for Asks {
    ghost use Rattle.redis_session.specs.Asks.{Asks};

    ghost Value = { Asks };

    ghost view = { λ asks. asks.nodes.entries };
}

impl Asks {
    /// No part got an `ASK`. Takes no memory.
    pub(crate) fn new(alloc: Global) -> Asks
        ensures { result ≡ [] }
    {
        Asks {
            nodes: BTreeMap::new(alloc),
        }
    }

    /// The node of the last `ASK` of a part, if it got one.
    pub(crate) fn node(&self, seat: Seat) -> Option<usize>
        ensures { result ≡ asked_node seat.call seat.part self.now }
    {
        self.nodes.get(&(seat.call, seat.part)).copied()
    }

    /// Notes that a part got an `ASK` that names this node.
    ///
    /// # Errors
    ///
    /// If memory runs out. Nothing changes then.
    pub(crate) fn add(&mut self, seat: Seat, node: usize) -> Result<(), AllocError>
        ensures sent { OnOk result (SetsAsk seat.call seat.part (Some node) self.old self.new) }
        ensures err { OnErr result (self.new ≡ self.old) }
    {
        self.nodes.insert((seat.call, seat.part), node)?;
        Ok(())
    }

    /// Forgets the nodes of the first parts of a call, so many.
    pub(crate) fn forget_call(&mut self, call: u64, count: usize)
        ensures { KeepsOtherAsks call self.old self.new }
    {
        if self.nodes.is_empty() {
            return;
        }
        for part in 0..count {
            self.forget(Seat { call, part });
        }
    }

    /// Forgets the node of a part.
    pub(crate) fn forget(&mut self, seat: Seat)
        ensures { SetsAsk seat.call seat.part None self.old self.new }
    {
        self.nodes.remove(&(seat.call, seat.part));
    }
}
