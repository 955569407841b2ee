//! What becomes of the parts of calls: replies, links that end, and calls whose time is over.

ghost use Rattle.std.specs.Prelude.{IfOk, IfSome};
ghost use Rattle.redis_session.specs.Learned.{IsRedirectIn, SendsOn};

use crate::nodes::NodeLink;
use crate::reply::is_error;
use crate::schedule::{Room, Target};
use crate::session::Session;
use cluster_slots::Slot;
use redis_routing::{NodeGroup, Redirect};
use session_core::{PartOrder, Seat, Standing, Ticket};
use session_machine::{Part, Phase, Took};
use std::alloc::{AllocError, Global};

/// How many redirects a part may get before it pauses after each.
const MOST_REDIRECTS_AT_ONCE: u32 = 4;

/// How many bytes the host of a redirect may have, as a name of the domain name system.
const LONGEST_HOST: usize = 255;

impl Session {
    ghost use Rattle.std.specs.Prelude.{◌≡◌, Some, false, IfNone, OnOk, OnErr};
    ghost use Rattle.session_core.specs.Part.{PartState};
    ghost use Rattle.session_core.specs.declared.part.PartOrder.TheVariants.{OfSlot};
    ghost use Rattle.redis_session.specs.Begins.{has_slot};
    ghost use Rattle.redis_session.specs.Peers.{peer_at};
    ghost use Rattle.redis_session.specs.declared.peers.Peer.{Peer};
    ghost use Rattle.session_core.specs.declared.link.Standing.TheVariants.{Open};
    ghost use Rattle.session_core.specs.Channel.{Channel};
    ghost use Rattle.session_core.specs.LinkEvents as events;
    ghost use Rattle.session_core.specs.State.{On, Happens, IsLink, part_at};
    ghost use Rattle.session_machine.specs.declared.took.Took.TheVariants.{Kept};
    ghost use Rattle.session_core.specs.declared.part.Cause.TheVariants.{NoNode};
    ghost use Rattle.redis_session.specs.Learned.{ForgetsAsk, IsInMap, IsSentOn, JoinsKept, JoinsRedirect, JoinsTold, Learns, LearnsKept, LearnsRedirect, LearnsReply, LearnsTold, NoPeers, SendsKept, SendsOrForgets, SendsTold, Sets, host_at};
    ghost use Rattle.redis_session.specs.Leads.{Does, Ends, Hails, IsConnected, Knows, Leads, LearnsThen, Notes, TakesAll, may_end};

    /// Takes the replies that came on a link, and notes whether it owes more. If no byte came now, its silence goes on.
    pub(crate) fn take_all(
        &mut self,
        alloc: Global,
        link: usize,
        is_heard: bool,
    ) -> Result<(), AllocError>
        ensures { TakesAll link self.old self.new }
    {
        let taken = self.take_replies(alloc, link);
        let owes = self.machine.count_waits(link) > 0;
        if is_heard || !owes {
            self.nodes.note_heard(link, owes);
        }
        taken
    }

    /// Takes the replies that came on a link.
    fn take_replies(&mut self, alloc: Global, link: usize) -> Result<(), AllocError>
        ensures { TakesAll link self.old self.new }
    {
        for _ in 0..self.machine.count_waits(link).saturating_add(1) {
            let Some(Standing::Open) = self.machine.standing(link) else {
                return Ok(());
            };
            match self.machine.take(alloc, link)? {
                Took::Nothing => return Ok(()),
                Took::Broken(_) => {
                    self.break_link(link);
                    return Ok(());
                }
                took => self.note_took(alloc, link, took)?,
            }
        }
        Ok(())
    }

    /// Notes what was taken on a link.
    fn note_took(&mut self, alloc: Global, link: usize, took: Took) -> Result<(), AllocError>
        ensures { Notes link took self.old self.new }
    {
        match took {
            Took::Nothing | Took::Broken(_) => Ok(()),
            Took::Asking(_) => {
                self.nodes.note_reply(link);
                Ok(())
            }
            Took::Kept(seat) => self.note_kept(alloc, link, seat),
            Took::Back(seat, reply) => self.note_back(alloc, link, seat, &reply),
            Took::Login(reply) => {
                self.note_login(link, &reply);
                Ok(())
            }
            Took::Map(count, reply) => self.note_map(alloc, link, count, &reply),
        }
    }

    /// Notes the reply to the login of a link.
    fn note_login(&mut self, link: usize, reply: &[u8])
        ensures { Hails link reply.now self.old self.new }
    {
        if is_error(reply) {
            self.break_link(link);
            return;
        }
        let Some(node) = self.opening_node(link) else {
            return;
        };
        self.peers.note_ready(link);
        self.note_ready(node, link);
    }

    /// The node of a link.
    pub(crate) fn node_of_link(&self, link: usize) -> Option<usize>
        ensures { IfSome result (λ node. (peer : Peer)
            × (peer_at link self.entry.now.peers ≡ Some peer) × (peer.node ≡ node)) }
    {
        match self.peers.get(link) {
            Some(peer) => Some(peer.node),
            None => None,
        }
    }

    /// The node to which a link is opening, whose login is not answered.
    fn opening_node(&self, link: usize) -> Option<usize> {
        let node = self.node_of_link(link)?;
        if self.nodes.link(node) == NodeLink::Opening(link) {
            Some(node)
        } else {
            None
        }
    }

    /// Notes the reply to a `CLUSTER SLOTS` that was asked after `count` `MOVED` were learned.
    fn note_map(
        &mut self,
        alloc: Global,
        link: usize,
        count: u64,
        reply: &[u8],
    ) -> Result<(), AllocError>
        ensures { Sets (LearnsReply count (host_at link self.old) reply.now) self.old self.new }
    {
        self.nodes.note_reply(link);
        self.is_map_asked = false;
        self.map_time = self.pause_end();
        match self.fill_table(alloc, link, count, reply) {
            Ok(true) => {
                self.schedule.release_unserved();
                self.schedule.release_nodes();
                self.schedule.release_any_primary();
                self.note_nodes(alloc)
            }
            Ok(false) => {
                self.map_faults = self.map_faults.saturating_add(1);
                self.want_map();
                Ok(())
            }
            Err(error) => {
                self.want_map();
                Err(error)
            }
        }
    }

    /// Fills the table by the reply to a `CLUSTER SLOTS` on a link. Returns whether it did.
    fn fill_table(
        &mut self,
        alloc: Global,
        link: usize,
        count: u64,
        reply: &[u8],
    ) -> Result<bool, AllocError>
        ensures { Sets (LearnsReply count (host_at link self.old) reply.now) self.old self.new }
    {
        let Some(node) = self.node_of_link(link) else {
            return Ok(false);
        };
        self.directory.fill(alloc, reply, node, count)
    }

    /// Notes which nodes the map has. Parts for other named nodes end when they are to be asked next.
    fn note_nodes(&mut self, alloc: Global) -> Result<(), AllocError>
        ensures { Knows (IsInMap self.old.directory.table) self.old self.new }
    {
        let noted = self.number_nodes(alloc);
        if noted.is_err() {
            self.is_map_wanted = true;
        }
        noted
    }

    /// Gives each node of the map a number, and notes that the map has it.
    fn number_nodes(&mut self, alloc: Global) -> Result<(), AllocError>
        ensures { Knows (IsInMap self.old.directory.table) self.old self.new }
    {
        let unknown = self.directory.unknown_nodes(alloc)?;
        for address in &unknown {
            self.number_of(address)?;
        }
        self.directory.look_up_primaries(alloc)?;
        let nodes = self.directory.known_nodes(alloc, NodeGroup::AllNodes)?;
        self.nodes.note_map(&nodes, self.directory.primaries());
        Ok(())
    }

    /// Notes that a part keeps its reply.
    fn note_kept(&mut self, alloc: Global, link: usize, seat: Seat) -> Result<(), AllocError>
        ensures { Notes link (Kept seat) self.old self.new }
    {
        self.nodes.note_reply(link);
        if !self.keeps_error(seat) {
            self.note_done(alloc, seat);
            return Ok(());
        }
        self.note_error(alloc, link, seat)
    }

    /// Notes that a part keeps an error.
    fn note_error(&mut self, alloc: Global, link: usize, seat: Seat) -> Result<(), AllocError>
        ensures { Notes link (Kept seat) self.old self.new }
    {
        self.want_map_if(self.keeps_change(seat));
        let learned = self.learn_kept(alloc, link, seat);
        self.note_done(alloc, seat);
        match learned {
            Ok(_) => Ok(()),
            Err(error) => Err(error),
        }
    }

    /// Learns the last refusal of a part, if it keeps one.
    fn learn_kept(
        &mut self,
        alloc: Global,
        link: usize,
        seat: Seat,
    ) -> Result<Option<Target>, AllocError>
        ensures { Learns (JoinsKept (host_at link self.old) seat self.old.machine)
            (LearnsKept (host_at link self.old) seat self.old.machine) NoPeers
            (SendsKept (host_at link self.old) seat self.old.machine) self.old self.new }
    {
        let Some(part) = self.machine.part(seat.call, seat.part) else {
            return Ok(None);
        };
        let Phase::Refused(reply) = part.phase() else {
            return Ok(None);
        };
        let told = redirect_of(alloc, part, reply, self.host_of(link));
        self.learn(seat, told)
    }

    /// Whether a part keeps an error of its node.
    fn keeps_error(&self, seat: Seat) -> bool {
        match self.machine.part(seat.call, seat.part) {
            Some(part) => match part.phase() {
                Phase::Answered(reply) => reply.starts_with(b"-"),
                Phase::Refused(_) => true,
                _ => false,
            },
            None => false,
        }
    }

    /// Whether the reply that a part keeps says that the map changed.
    fn keeps_change(&self, seat: Seat) -> bool {
        match self.machine.part(seat.call, seat.part) {
            Some(part) => match part.phase() {
                Phase::Answered(reply) => wants_map(reply),
                Phase::Refused(reply) => wants_map(reply),
                _ => false,
            },
            None => false,
        }
    }

    /// Notes a refusal of a part, which waits again or is wanted by nobody.
    fn note_back(
        &mut self,
        alloc: Global,
        link: usize,
        seat: Seat,
        reply: &[u8],
    ) -> Result<(), AllocError>
        ensures { LearnsThen (JoinsRedirect (host_at link self.old) seat.call seat.part reply.now self.old.machine)
            (LearnsRedirect (host_at link self.old) seat.call seat.part reply.now self.old.machine) NoPeers
            (SendsOrForgets (host_at link self.old) seat.call seat.part reply.now self.old.machine) self.old self.new }
    {
        self.nodes.note_reply(link);
        self.want_map_if(wants_map(reply));
        let learned = self.learn_from(alloc, link, seat, reply);
        self.forget_ask(seat, reply);
        self.end_if_late(seat);
        self.go_on(alloc, seat, reply, learned)
    }

    /// Forgets where an `ASK` sent a part, if this refusal of it is a `MOVED`.
    fn forget_ask(&mut self, seat: Seat, refusal: &[u8])
        ensures { ForgetsAsk seat.call seat.part refusal.now self.old self.new }
    {
        if refusal.starts_with(b"-MOVED ") {
            self.schedule.forget_ask(seat);
            self.asks.forget(seat);
        }
    }

    /// Has a part asked again that was refused, if it still waits, where it was learned that it is to be asked.
    fn go_on(
        &mut self,
        alloc: Global,
        seat: Seat,
        refusal: &[u8],
        learned: Result<Option<Target>, AllocError>,
    ) -> Result<(), AllocError>
        ensures { Leads self.old self.new }
    {
        if !self.waits(seat) {
            self.note_done(alloc, seat);
            return match learned {
                Ok(_) => Ok(()),
                Err(error) => Err(error),
            };
        }
        match learned {
            Ok(Some(target)) => self.follow(seat, target),
            Ok(None) => self.wait_again(seat, refusal),
            Err(error) => {
                self.schedule.push_back(seat, Room::Ready);
                self.release_next(seat);
                return Err(error);
            }
        }
        self.release_next(seat);
        Ok(())
    }

    /// Has a redirected part asked at its new target: in this step, or after a pause if it got many redirects.
    fn follow(&mut self, seat: Seat, target: Target)
        ensures { self.new ≡ self.old }
    {
        if self.schedule.redirect(seat, target) <= MOST_REDIRECTS_AT_ONCE {
            self.schedule.push_back(seat, Room::Ready);
            return;
        }
        let end = self.pause_end();
        self.schedule.pause(seat, end);
    }

    /// Lets a part that was refused wait: for the map if its redirect names no node, or else for a pause.
    fn wait_again(&mut self, seat: Seat, refusal: &[u8])
        ensures { self.new ≡ self.old }
    {
        if refusal.starts_with(b"-MOVED ") || refusal.starts_with(b"-ASK ") {
            self.schedule.push_back(seat, Room::Unserved);
            self.want_map();
            return;
        }
        let end = self.pause_end();
        self.schedule.pause(seat, end);
    }

    /// Learns what a refusal of a part says. Returns where the part is asked next, if that is known.
    fn learn_from(
        &mut self,
        alloc: Global,
        link: usize,
        seat: Seat,
        refusal: &[u8],
    ) -> Result<Option<Target>, AllocError>
        ensures { IsSentOn link seat.call seat.part refusal.now self.old self.new }
    {
        let Some(part) = self.machine.part(seat.call, seat.part) else {
            return Ok(None);
        };
        let told = redirect_of(alloc, part, refusal, self.host_of(link));
        self.learn(seat, told)
    }

    /// Learns where a part is sent on. Returns where it is asked next, if that is known.
    fn learn(
        &mut self,
        seat: Seat,
        told: Result<Option<(u16, Redirect)>, AllocError>,
    ) -> Result<Option<Target>, AllocError>
        ensures { Learns (JoinsTold told) (LearnsTold told) NoPeers (SendsTold seat told) self.old self.new }
    {
        let Some((slot, redirect)) = told? else {
            return Ok(None);
        };
        match redirect {
            Redirect::Ask(address) => match self.number_of(&address)? {
                Some(node) => {
                    self.asks.add(seat, node)?;
                    Ok(Some(Target::Asking))
                }
                None => Ok(None),
            },
            Redirect::Moved(address) => {
                if self.number_of(&address)?.is_none() {
                    return Ok(None);
                }
                self.directory.note_moved(slot, address)?;
                Ok(Some(Target::Serving))
            }
        }
    }

    /// The slot of a part, if it has one.
    pub(crate) fn slot_of(&self, seat: Seat) -> Option<u16>
        ensures some { IfSome result (λ slot. (p : PartState)
            → part_at seat.call seat.part self.entry.now.machine ≡ Some p → p.order ≡ OfSlot slot) }
        ensures none { IfNone result ((p : PartState)
            → part_at seat.call seat.part self.entry.now.machine ≡ Some p → has_slot p.order ≡ false) }
    {
        match self.machine.part(seat.call, seat.part)?.order() {
            PartOrder::OfSlot(slot) => Some(slot),
            PartOrder::Whole | PartOrder::Free => None,
        }
    }

    /// The host of the node of a link. It is empty if the link has no node.
    fn host_of(&self, link: usize) -> &str
        ensures { result.now ≡ host_at link self.entry.now }
    {
        let Some(peer) = self.peers.get(link) else {
            return "";
        };
        match self.directory.address(peer.node) {
            Some(address) => address.host(),
            None => "",
        }
    }

    /// Notes that a part is done: those that waited for it may be asked.
    pub(crate) fn note_done(&mut self, alloc: Global, seat: Seat)
        ensures { Leads self.old self.new }
    {
        let Some(place) = self.schedule.place_of(seat.call) else {
            return;
        };
        self.release_behind(seat);
        self.note_settled(alloc, place);
    }

    /// Has what waited for a part asked in this step that is done.
    fn release_behind(&mut self, seat: Seat)
        ensures { Leads self.old self.new }
    {
        if self.schedule.is_alone(seat.call) {
            return;
        }
        let Some(caller) = self.caller_of(seat.call) else {
            return;
        };
        self.end_overtaken(caller, seat);
        self.release_next(seat);
    }

    /// Notes that parts are done of the caller at a place.
    fn note_settled(&mut self, alloc: Global, place: usize)
        ensures { Leads self.old self.new }
    {
        self.release_barred(place);
        self.leave_calls(alloc, place);
    }

    /// Ends the parts of a caller that a part overtook which is done.
    fn end_overtaken(&mut self, caller: u64, seat: Seat)
        ensures { Leads self.old self.new }
    {
        let Some(slot) = self.slot_of(seat) else {
            return;
        };
        for _ in 0..self.schedule.most_steps() {
            let Some(overtaken) = self.machine.end_overtaken(caller, slot) else {
                return;
            };
            self.schedule.remove(overtaken);
        }
    }

    /// Notes that a link is to be closed. Nothing is asked on it any more.
    pub(crate) fn break_link(&mut self, link: usize)
        ensures { self.new ≡ self.old }
    {
        self.note_unreached(link);
        let node = self.node_of_link(link);
        self.nodes.note_closing(link, node);
    }

    /// Notes that the node of a link could not be reached, if the link ends without a reply.
    fn note_unreached(&mut self, link: usize)
        ensures { self.new ≡ self.old }
    {
        if self.nodes.has_replied(link) {
            return;
        }
        let Some(node) = self.node_of_link(link) else {
            return;
        };
        if self.nodes.is_link_to(link, node) {
            self.unreachable(node);
        }
    }

    /// Notes bytes that came on a link that is open.
    pub(crate) fn hear(&mut self, link: usize, bytes: &[u8]) -> Result<(), AllocError>
        requires { (c : Channel) × IsLink self.old.machine link c × (c.standing ≡ Open) }
        ensures ok { OnOk result (Does (On link (events.Hear bytes.now)) self.old self.new) }
        ensures err { OnErr result (Does (On link events.Miss) self.old self.new) }
    {
        match self.machine.hear(link, bytes) {
            Ok(()) => Ok(()),
            Err(error) => {
                let node = self.node_of_link(link);
                self.nodes.note_closing(link, node);
                Err(error)
            }
        }
    }

    /// Ends a link: what was asked there and is not answered is lost, or is asked elsewhere if no byte of it was
    /// written. If the link ends without a reply, it is asked after a pause.
    pub(crate) fn end_link(&mut self, alloc: Global, link: usize)
        ensures { Ends link self.old self.new }
    {
        self.end_connection(link);
        self.note_unreached(link);
        let has_replied = self.nodes.has_replied(link);
        let node = self.node_of_link(link);
        self.nodes.drop_link(link, node);
        self.peers.leave(link);
        self.want_map();
        self.lose_all(alloc, link, has_replied);
        self.want_again(node);
    }

    /// Ends the connection of a link, if it has not ended.
    fn end_connection(&mut self, link: usize)
        ensures ended { IsConnected self.old link → Happens self.old.machine (On link events.End) self.new.machine }
        ensures not { (IsConnected self.old link → ⊥) → self.new.machine ≡ self.old.machine }
        ensures others { self.new ≡ record self.old { machine = self.new.machine } }
    {
        let (Some(Standing::Open) | Some(Standing::Broken)) = self.machine.standing(link) else {
            return;
        };
        self.machine.end(link);
    }

    /// Gives up what waits on a link that ended, and frees its number.
    fn lose_all(&mut self, alloc: Global, link: usize, has_replied: bool)
        ensures { Leads self.old self.new }
    {
        for _ in 0..self.machine.count_waits(link) {
            let Some(Standing::Ended) = self.machine.standing(link) else {
                return;
            };
            let Some((ticket, _)) = self.machine.lose(link) else {
                return;
            };
            self.note_lost(alloc, ticket, has_replied);
        }
        self.machine.forget(link);
    }

    /// Notes that a node needs a link again, if parts wait for it.
    fn want_again(&mut self, node: Option<usize>)
        ensures { self.new ≡ self.old }
    {
        let Some(number) = node else {
            return;
        };
        if self.schedule.first_at(number).is_some() {
            self.nodes.want(number);
        }
    }

    /// Notes that the link ended on which this was asked, and whether a reply came on the link.
    fn note_lost(&mut self, alloc: Global, ticket: Ticket, has_replied: bool)
        ensures { Leads self.old self.new }
    {
        match ticket {
            Ticket::Login | Ticket::Asking => {}
            Ticket::Map(_) => {
                self.is_map_asked = false;
                self.map_time = self.pause_end();
            }
            Ticket::Part(call, part) => {
                let seat = Seat { call, part };
                self.end_if_late(seat);
                if self.waits(seat) {
                    self.ask_again(seat, has_replied);
                    self.release_next(seat);
                } else {
                    self.note_done(alloc, seat);
                }
            }
        }
    }

    /// Has a part asked in this step whose link ended, or after a pause if no reply came on the link.
    fn ask_again(&mut self, seat: Seat, has_replied: bool)
        ensures { self.new ≡ self.old }
    {
        if has_replied {
            self.schedule.push_back(seat, Room::Ready);
            return;
        }
        let end = self.pause_end();
        self.pause_unreached(seat, end);
    }

    /// Ends the calls whose time is over.
    pub(crate) fn end_late(&mut self, alloc: Global)
        ensures { Leads self.old self.new }
    {
        for _ in 0..self.schedule.most_calls() {
            let Some((deadline, call)) = self.schedule.first_deadline() else {
                return;
            };
            if deadline > self.now {
                return;
            }
            self.schedule.note_late(call);
            self.end_waiting(call);
            self.note_over(alloc, call);
        }
    }

    /// Ends the parts of a call that wait.
    fn end_waiting(&mut self, call: u64)
        ensures { Leads self.old self.new }
    {
        let Some(record) = self.schedule.call(call) else {
            return;
        };
        for part in 0..record.part_count() {
            self.end_part(Seat { call, part });
        }
    }

    /// Ends a part that waits again, if the time of its call is over.
    fn end_if_late(&mut self, seat: Seat)
        ensures { Leads self.old self.new }
    {
        if self.schedule.is_late(seat.call) {
            self.end_part(seat);
        }
    }

    /// Ends a part whose time is over, if it waits.
    fn end_part(&mut self, seat: Seat)
        ensures { Leads self.old self.new }
    {
        if !self.deadlines.is_over(seat.call, self.now) {
            return;
        }
        let is_unserved = self.schedule.is_unserved(seat);
        self.schedule.remove(seat);
        if is_unserved {
            self.end_without_node(seat);
            return;
        }
        self.machine.end_late(seat.call, seat.part);
    }

    /// Ends a part for which there is no node, if it waits.
    pub(crate) fn end_without_node(&mut self, seat: Seat)
        ensures { Leads self.old self.new }
    {
        if self.may_lack_node(seat.call) {
            self.machine.end_without_node(seat.call, seat.part);
        }
    }

    /// Whether a part of a call may end for want of a node: the time of the call is over, or it goes to several nodes.
    fn may_lack_node(&self, call: u64) -> bool
        ensures { result ≡ may_end self.entry.now call NoNode }
    {
        self.deadlines.is_over(call, self.now) || self.rules.is_several(call)
    }

    /// Notes that no part of a call waits any more: its time is over, or nobody waits for its reply.
    pub(crate) fn note_over(&mut self, alloc: Global, call: u64)
        ensures { Leads self.old self.new }
    {
        let (Some(place), Some(record)) = (self.schedule.place_of(call), self.schedule.call(call))
        else {
            return;
        };
        let caller = record.caller();
        for part in 0..record.part_count() {
            self.release_behind(Seat { call, part });
        }
        self.note_overdue(caller);
        self.note_settled(alloc, place);
    }

    /// Forgets the first calls that are owed no reply and whose parts are done, of the caller at a place.
    pub(crate) fn leave_calls(&mut self, alloc: Global, place: usize)
        ensures { Leads self.old self.new }
    {
        for _ in 0..self.schedule.most_calls() {
            let Some(call) = self.schedule.first_call(place) else {
                return;
            };
            if self.reply.is_of(call) {
                return;
            }
            if !self.machine.leave(alloc, call) {
                return;
            }
            let count = self.schedule.part_count(call);
            self.asks.forget_call(call, count);
            let bytes = self.schedule.note_left(place);
            self.load = self.load.without_call(bytes);
            self.trim();
        }
    }

    /// Forgets the places of the first calls, if these left.
    fn trim(&mut self)
        ensures { Leads self.old self.new }
    {
        for _ in 0..self.schedule.most_calls() {
            if !self.machine.trim() {
                return;
            }
            self.schedule.trim();
        }
    }
}

/// Whether an answer says that the map changed.
fn wants_map(reply: &[u8]) -> bool {
    reply.starts_with(b"-MOVED ")
        || reply.starts_with(b"-READONLY")
        || reply.starts_with(b"-CLUSTERDOWN")
}

/// Where a refusal sends a part on, and the slot of the part. `host` is that of the node that refused.
fn redirect_of(
    alloc: Global,
    part: &Part,
    refusal: &[u8],
    host: &str,
) -> Result<Option<(u16, Redirect)>, AllocError>
    ensures { IfOk result (λ told. IfSome told (λ to. SendsOn host.now part.now refusal.now to.0 to.1)) }
{
    let PartOrder::OfSlot(slot) = part.order() else {
        return Ok(None);
    };
    if !part.is_refusal(refusal) {
        return Ok(None);
    }
    match redirect_in(alloc, refusal, host)? {
        Some((told, redirect)) if told.number() == slot && has_short_host(&redirect) => {
            Ok(Some((slot, redirect)))
        }
        _ => Ok(None),
    }
}

/// Whether the host that a redirect names has at most [`LONGEST_HOST`] bytes.
fn has_short_host(redirect: &Redirect) -> bool {
    match redirect {
        Redirect::Moved(address) | Redirect::Ask(address) => address.host().len() <= LONGEST_HOST,
    }
}

/// The redirect that an error is, by the host of the node that sent it.
fn redirect_in(
    alloc: Global,
    reply: &[u8],
    host: &str,
) -> Result<Option<(Slot, Redirect)>, AllocError>
    ensures { IfOk result (λ told. IfSome told (λ to. IsRedirectIn host.now reply.now to.0 to.1)) }
{
    let Some(rest) = reply.strip_prefix(b"-") else {
        return Ok(None);
    };
    let Some(text) = rest.strip_suffix(b"\r\n") else {
        return Ok(None);
    };
    let Ok(text) = str::from_utf8(text) else {
        return Ok(None);
    };
    Redirect::from_error_text(alloc, text, host)
}
