//! The nodes that a session knows, and its links to them.

use crate::number_queue::NumberQueue;
use std::alloc::{AllocError, Global};

/// The link to a node, as far as there is one.
#[derive(Clone, Copy, Debug, PartialEq, Eq)]
pub(crate) enum NodeLink {
    /// There is none.
    Missing,
    /// The link of this number was opened, and its login is not answered.
    Opening(usize),
    /// Parts may be asked on the link of this number.
    Ready(usize),
}

/// What is known of a link.
#[derive(Clone, Copy, Debug)]
struct LinkRecord {
    /// Whether a reply came, other than that to the login.
    has_replied: bool,
    /// If it owes a reply and is not fresh: when its silence began.
    silent_since: u64,
}

const NO_LINK: LinkRecord = LinkRecord {
    has_replied: false,
    silent_since: 0,
};

/// A node that the session knows.
#[derive(Clone, Copy, Debug)]
struct Node {
    link: NodeLink,
    /// The number of the last map that had it.
    last_map: u64,
    /// Its place among the primaries of the last map, if it is one.
    primary: Option<usize>,
}

/// How the nodes stand that a session knows, and its links. Each function takes constant time, but
/// [`Nodes::begin_silences`] takes a step for each link that is fresh.
#[derive(Drop)]
pub(crate) struct Nodes {
    nodes: Vec<Node>,
    /// How many maps were learned.
    map_count: u64,
    /// The nodes that need a link and were not named to the shell yet.
    wanted: NumberQueue,
    /// The nodes that have a link or need one.
    busy: NumberQueue,
    /// The nodes whose link is ready. The first one is asked for the map next.
    ready: NumberQueue,
    /// Those of them that are primaries of the last map.
    ready_primaries: NumberQueue,
    /// The place of the primary that gets a link if a part without a slot is to be asked, and no primary's link is ready.
    primary_turn: usize,
    /// How many primaries the last map has.
    primary_count: usize,
    /// What is known of each link.
    links: Vec<LinkRecord>,
    /// The links that are to be closed.
    closing: NumberQueue,
    /// The links that owe a reply, and on which something was asked or heard since the time was noted last.
    fresh: NumberQueue,
    /// The other links that owe a reply and are not to be closed, in the order in which their silence began.
    owing: NumberQueue,
    /// The links on which something was asked since they were named to the shell.
    to_write: NumberQueue,
    /// The node whose turn it was last to get a link if none is ready.
    last_turn: usize,
    /// Whether its turn is over, as the link to it failed.
    is_turn_over: bool,
}

impl Nodes {
    /// No nodes.
    pub(crate) fn new(alloc: Global) -> Nodes {
        Nodes {
            nodes: Vec::new(alloc),
            map_count: 0,
            wanted: NumberQueue::new(alloc),
            busy: NumberQueue::new(alloc),
            ready: NumberQueue::new(alloc),
            ready_primaries: NumberQueue::new(alloc),
            primary_turn: 0,
            primary_count: 0,
            links: Vec::new(alloc),
            closing: NumberQueue::new(alloc),
            fresh: NumberQueue::new(alloc),
            owing: NumberQueue::new(alloc),
            to_write: NumberQueue::new(alloc),
            last_turn: 0,
            is_turn_over: true,
        }
    }

    /// How many nodes are known. Their numbers are below this.
    pub(crate) fn len(&self) -> usize {
        self.nodes.len()
    }

    /// Makes room for a node of this number, the next one.
    ///
    /// # Errors
    ///
    /// If memory runs out. Nothing changes then.
    pub(crate) fn make_room_for_node(&mut self, number: usize) -> Result<(), AllocError> {
        self.wanted.make_room(number)?;
        self.busy.make_room(number)?;
        self.ready.make_room(number)?;
        self.ready_primaries.make_room(number)?;
        self.nodes.reserve(1)?;
        Ok(())
    }

    /// Adds the next node, which has no link. There is room for it.
    pub(crate) fn add(&mut self) {
        let _ = self.nodes.push(Node {
            link: NodeLink::Missing,
            last_map: 0,
            primary: None,
        });
    }

    /// Notes that a map was learned, which has these nodes, and these primaries among them.
    pub(crate) fn note_map(&mut self, nodes: &[usize], primaries: &[usize]) {
        self.map_count = self.map_count.saturating_add(1);
        self.note_in_map(nodes);
        self.forget_primaries();
        self.note_primaries(primaries);
    }

    /// Forgets which nodes are primaries.
    fn forget_primaries(&mut self) {
        for number in 0..self.nodes.len() {
            self.ready_primaries.remove(number);
            self.nodes[number].primary = None;
        }
    }

    /// Notes the primaries of the last map.
    fn note_primaries(&mut self, primaries: &[usize]) {
        self.primary_count = primaries.len();
        if self.primary_turn >= self.primary_count {
            self.primary_turn = 0;
        }
        for place in 0..primaries.len() {
            self.note_primary(primaries[place], place);
        }
    }

    /// Notes that a node has this place among the primaries of the last map.
    fn note_primary(&mut self, node: usize, place: usize) {
        let Some(at) = self.nodes.get_mut(node) else {
            return;
        };
        at.primary = Some(place);
        if let NodeLink::Ready(_) = at.link {
            self.ready_primaries.push_back(node);
        }
    }

    /// Notes that the last map has these nodes.
    pub(crate) fn note_in_map(&mut self, nodes: &[usize]) {
        for node in nodes {
            if let Some(at) = self.nodes.get_mut(*node) {
                at.last_map = self.map_count;
            }
        }
    }

    /// Whether the last map has a node.
    pub(crate) fn is_in_map(&self, node: usize) -> bool {
        match self.nodes.get(node) {
            Some(at) => at.last_map == self.map_count,
            None => false,
        }
    }

    /// The link to a node.
    pub(crate) fn link(&self, node: usize) -> NodeLink {
        match self.nodes.get(node) {
            Some(node) => node.link,
            None => NodeLink::Missing,
        }
    }

    /// Notes that a reply came on a link, other than that to the login.
    pub(crate) fn note_reply(&mut self, link: usize) {
        if let Some(at) = self.links.get_mut(link) {
            at.has_replied = true;
        }
    }

    /// Whether a reply came on a link, other than that to the login.
    pub(crate) fn has_replied(&self, link: usize) -> bool {
        match self.links.get(link) {
            Some(at) => at.has_replied,
            None => false,
        }
    }

    /// Whether a link is the one to a node.
    pub(crate) fn is_link_to(&self, link: usize, node: usize) -> bool {
        match self.link(node) {
            NodeLink::Missing => false,
            NodeLink::Opening(own) | NodeLink::Ready(own) => own == link,
        }
    }

    /// Makes room for a link of this number.
    ///
    /// # Errors
    ///
    /// If memory runs out. Nothing changes then.
    pub(crate) fn make_room(&mut self, link: usize) -> Result<(), AllocError> {
        self.closing.make_room(link)?;
        self.fresh.make_room(link)?;
        self.owing.make_room(link)?;
        self.to_write.make_room(link)?;
        if self.links.len() <= link {
            self.links.resize(link.saturating_add(1), NO_LINK)?;
        }
        Ok(())
    }

    /// Notes how the link to a node stands.
    pub(crate) fn set_link(&mut self, node: usize, link: NodeLink) {
        let Some(at) = self.nodes.get_mut(node) else {
            return;
        };
        at.link = link;
        let is_primary = at.primary.is_some();
        self.wanted.remove(node);
        self.ready.remove(node);
        self.ready_primaries.remove(node);
        match link {
            NodeLink::Missing => self.leave(node),
            NodeLink::Opening(_) => self.busy.push_back(node),
            NodeLink::Ready(_) => {
                self.busy.push_back(node);
                self.ready.push_back(node);
                if is_primary {
                    self.ready_primaries.push_back(node);
                }
            }
        }
    }

    /// Notes that a node has no link and needs none.
    fn leave(&mut self, node: usize) {
        self.busy.remove(node);
        if node == self.last_turn {
            self.is_turn_over = true;
        }
        if self.is_turn_of(node) {
            self.end_primary_turn();
        }
    }

    /// Notes that it is the turn of the next primary.
    fn end_primary_turn(&mut self) {
        self.primary_turn = self.primary_turn.saturating_add(1);
        if self.primary_turn >= self.primary_count {
            self.primary_turn = 0;
        }
    }

    /// Whether a node is a primary of the last map.
    pub(crate) fn is_primary(&self, node: usize) -> bool {
        self.primary_place(node).is_some()
    }

    /// Whether a node is the primary that gets a link if no primary's link is ready.
    pub(crate) fn is_turn_of(&self, node: usize) -> bool {
        self.primary_place(node) == Some(self.primary_turn)
    }

    /// The place of a node among the primaries of the last map, if it is one.
    fn primary_place(&self, node: usize) -> Option<usize> {
        self.nodes.get(node)?.primary
    }

    /// Notes that a link to a node is to be closed. The node has no link then.
    pub(crate) fn note_closing(&mut self, link: usize, node: Option<usize>) {
        if self.closing.contains(link) {
            return;
        }
        self.closing.push_back(link);
        self.fresh.remove(link);
        self.owing.remove(link);
        self.to_write.remove(link);
        self.forget_link_of(node, link);
    }

    /// The first link that is to be closed.
    pub(crate) fn first_closing(&self) -> Option<usize> {
        self.closing.first()
    }

    /// Notes that a link to a node ended.
    pub(crate) fn drop_link(&mut self, link: usize, node: Option<usize>) {
        self.closing.remove(link);
        self.fresh.remove(link);
        self.owing.remove(link);
        self.to_write.remove(link);
        if let Some(at) = self.links.get_mut(link) {
            *at = NO_LINK;
        }
        self.forget_link_of(node, link);
    }

    /// Names a link on which something was asked, each once after that.
    pub(crate) fn pop_to_write(&mut self) -> Option<usize> {
        let link = self.to_write.first()?;
        self.to_write.remove(link);
        Some(link)
    }

    /// Notes that something was asked on a link. If the link owed nothing, it is fresh.
    pub(crate) fn note_asked(&mut self, link: usize) {
        self.to_write.push_back(link);
        if !self.owing.contains(link) {
            self.note_fresh(link);
        }
    }

    /// Notes that bytes came on a link. If it owes a reply still, it is fresh.
    pub(crate) fn note_heard(&mut self, link: usize, owes: bool) {
        self.fresh.remove(link);
        self.owing.remove(link);
        if owes {
            self.note_fresh(link);
        }
    }

    /// Notes that the silence of a link begins when the time is noted next, unless the link is to be closed.
    fn note_fresh(&mut self, link: usize) {
        if !self.closing.contains(link) {
            self.fresh.push_back(link);
        }
    }

    /// Notes that the silence of each fresh link begins now.
    pub(crate) fn begin_silences(&mut self, now: u64) {
        for _ in 0..self.links.len() {
            let Some(link) = self.fresh.first() else {
                return;
            };
            self.fresh.remove(link);
            if let Some(at) = self.links.get_mut(link) {
                at.silent_since = now;
            }
            self.owing.push_back(link);
        }
    }

    /// Whether the silence of a link begins when the time is noted next.
    pub(crate) fn has_fresh(&self) -> bool {
        self.fresh.first().is_some()
    }

    /// The link whose silence lasts longest, and when that began.
    pub(crate) fn longest_silence(&self) -> Option<(usize, u64)> {
        let link = self.owing.first()?;
        Some((link, self.links.get(link)?.silent_since))
    }

    /// Notes that a node has no link, if this was its link.
    fn forget_link_of(&mut self, node: Option<usize>, link: usize) {
        let Some(number) = node else {
            return;
        };
        if self.is_link_to(link, number) {
            self.set_link(number, NodeLink::Missing);
        }
    }

    /// Notes that a node needs a link, if it has none.
    pub(crate) fn want(&mut self, node: usize) {
        if self.busy.contains(node) {
            return;
        }
        self.busy.push_back(node);
        self.wanted.push_back(node);
    }

    /// Names a node that needs a link, each once.
    pub(crate) fn pop_wanted(&mut self) -> Option<usize> {
        let node = self.wanted.first()?;
        self.wanted.remove(node);
        Some(node)
    }

    /// The place of a primary of the last map at which parts without a slot are asked: one whose link is ready, or else
    /// the one whose turn it is to get a link.
    pub(crate) fn serving_primary(&self) -> Option<usize> {
        match self.ready_primaries.first() {
            Some(node) => self.primary_place(node),
            None => Some(self.primary_turn),
        }
    }

    /// Whether the link to some node is ready.
    pub(crate) fn has_ready(&self) -> bool {
        self.ready.first().is_some()
    }

    /// The node whose turn it is to be asked for the map, and its link, if a link is ready.
    pub(crate) fn next_ready(&mut self) -> Option<(usize, usize)> {
        let node = self.ready.first()?;
        self.ready.push_back(node);
        match self.link(node) {
            NodeLink::Ready(link) => Some((node, link)),
            NodeLink::Opening(_) | NodeLink::Missing => None,
        }
    }

    /// Notes that some node needs a link, since none is ready. The nodes take turns: the next one has its turn if the
    /// link to the last one failed.
    pub(crate) fn want_next(&mut self) {
        if !self.is_turn_over {
            return;
        }
        self.is_turn_over = false;
        self.last_turn = self.last_turn.saturating_add(1);
        if self.last_turn >= self.nodes.len() {
            self.last_turn = 0;
        }
        self.want(self.last_turn);
    }
}
