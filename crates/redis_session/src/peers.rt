//! The nodes at the other ends of links.

ghost use Rattle.std.specs.Prelude.{◌≡◌, [], None, Some, OnOk, OnErr};
ghost use Rattle.redis_session.specs.Peers.{SetsPeer, made_ready, peer_at};

use std::alloc::{AllocError, Global};
use std::marker::Model;

/// The node at the other end of a link.
#[derive(Debug, Clone, Copy)]
pub(crate) struct Peer {
    /// The number of the node.
    pub(crate) node: usize,
    /// Whether parts may be asked there. Else the login of the link was not answered, or only by an error.
    pub(crate) is_ready: bool,
}

/// The nodes at the other ends of links, by the numbers of the links. Each function takes constant time.
#[derive(Drop)]
pub(crate) struct Peers {
    rows: Vec<Option<Peer>>,
}

impl Model for Peers {
    ghost use Rattle.redis_session.specs.Peers.{Peers};

    ghost Value = { Peers };

    ghost view = { λ peers. peers.rows.items };
}

impl Peers {
    /// No links.
    pub(crate) fn new(alloc: Global) -> Peers
        ensures { result ≡ [] }
    {
        Peers {
            rows: Vec::new(alloc),
        }
    }

    /// The node at the other end of a link, if the link has one.
    pub(crate) fn get(&self, link: usize) -> Option<Peer>
        ensures { result ≡ peer_at link self.now }
    {
        match self.rows.get(link) {
            Some(peer) => *peer,
            None => None,
        }
    }

    /// Notes which node is at the other end of a link.
    ///
    /// # Errors
    ///
    /// If memory runs out. Nothing changes then.
    pub(crate) fn join(&mut self, link: usize, peer: Peer) -> Result<(), AllocError>
        ensures joined { OnOk result (SetsPeer link (Some peer) self.old self.new) }
        ensures err { OnErr result (self.new ≡ self.old) }
    {
        if link >= self.rows.len() {
            self.rows.resize(link.saturating_add(1), None)?;
        }
        self.rows[link] = Some(peer);
        Ok(())
    }

    /// Notes that parts may be asked on a link, if a node is at its other end.
    pub(crate) fn note_ready(&mut self, link: usize)
        ensures ready { SetsPeer link (made_ready (peer_at link self.old)) self.old self.new }
        ensures none { peer_at link self.old ≡ None → self.new ≡ self.old }
    {
        if let Some(peer) = self.get(link) {
            self.rows[link] = Some(Peer {
                node: peer.node,
                is_ready: true,
            });
        }
    }

    /// Forgets the node of a link.
    pub(crate) fn leave(&mut self, link: usize)
        ensures { SetsPeer link None self.old self.new }
    {
        if link < self.rows.len() {
            self.rows[link] = None;
        }
    }
}
