//! The session, as its shell calls it.
#![tactic(auto, using(crate::proofs::Leads::leads_nowhere, crate::proofs::Leads::leads_by, crate::proofs::Leads::leads_on, crate::proofs::Leads::leads_if, crate::proofs::Leads::leads_ok, crate::proofs::Leads::knows_on, crate::proofs::Leads::ends_on))]

ghost use Rattle.std.specs.Prelude.{◌≡◌, ◌≢◌, ◌<◌, ◌≤◌, ◌⊎◌, [], ℕ, true, false, length, Ok, Some, None, IfOk, IfErr, IfSome, IfNone, OnOk, OnErr, slice_get};

mod asking;
mod replying;
mod taking;

use crate::asks::Asks;
use crate::call_deadlines::CallDeadlines;
use crate::directory::Directory;
use crate::due_machine::DueMachine;
use crate::load::Load;
use crate::nodes::{NodeLink, Nodes};
use crate::peers::Peers;
use crate::refusal::CallRefusal;
use crate::rules::Rules;
use crate::schedule::Schedule;
use crate::session::replying::LastReply;
use crate::settings::Settings;
use cluster_map::NodeAddress;
use session_core::{Seat, Standing};
use std::alloc::{AllocError, Global};
use std::marker::Model;

/// A session: it asks the parts of requests of many callers at the nodes that serve them, and puts their replies
/// together.
#[derive(Drop)]
pub struct Session {
    pub(crate) machine: DueMachine,
    pub(crate) rules: Rules,
    pub(crate) directory: Directory,
    pub(crate) peers: Peers,
    pub(crate) asks: Asks,
    pub(crate) load: Load,
    pub(crate) deadlines: CallDeadlines,
    pub(crate) nodes: Nodes,
    pub(crate) schedule: Schedule,
    pub(crate) settings: Settings,
    /// The time that was noted last.
    pub(crate) now: u64,
    /// The time that was noted before.
    pub(crate) time_before: u64,
    pub(crate) is_map_wanted: bool,
    pub(crate) is_map_asked: bool,
    /// When the map may be asked for again.
    pub(crate) map_time: u64,
    /// How many replies to `CLUSTER SLOTS` could not be used.
    pub(crate) map_faults: u64,
    pub(crate) reply: LastReply,
    /// Whether a reply is there that could not be made, since memory ran out.
    pub(crate) is_reply_behind: bool,
}

impl Model for Session {
    ghost use Rattle.redis_session.specs.SessionStates.{SessionState};

    ghost Value = { SessionState };

    ghost use Rattle.redis_session.specs.SessionView.{view_of};

    ghost view = { view_of };
}

impl Session {
    ghost use Rattle.session_core.specs.State.{CallState, On, IsLink, call_at};
    ghost use Rattle.session_core.specs.declared.link.Standing.TheVariants as Standing;
    ghost use Rattle.session_core.specs.LinkEvents as events;
    ghost use Rattle.session_core.specs.Channel.{Channel, to_write};
    ghost use Rattle.redis_session.specs.SessionStates.{new_session, settings_of};
    ghost use Rattle.redis_session.specs.Leads.{Advances, Does, Knows, Leads, Opens, Hears, HearsNot, Ends, ConnectsNot, BeginsCall, GivesUp, IsOpen, IsRefused};

    /// No links, no calls, and no slot has a node. Takes no memory.
    pub fn new(alloc: Global, settings: Settings) -> Session
        ensures { result ≡ new_session (settings_of settings) }
    {
        Session {
            machine: DueMachine::new(alloc),
            rules: Rules::new(alloc),
            directory: Directory::new(alloc),
            peers: Peers::new(alloc),
            asks: Asks::new(alloc),
            load: Load::new(),
            deadlines: CallDeadlines::new(alloc),
            nodes: Nodes::new(alloc),
            schedule: Schedule::new(alloc),
            settings,
            now: 0,
            time_before: 0,
            is_map_wanted: true,
            is_map_asked: false,
            map_time: 0,
            map_faults: 0,
            reply: LastReply::Nothing,
            is_reply_behind: false,
        }
    }

    /// Adds a node by its address, such as one that the shell was configured with. The node needs a link then. Returns
    /// its number, or `None` if there are 65534 nodes.
    ///
    /// # Errors
    ///
    /// If memory runs out. Nothing changes then.
    pub fn add_node(&mut self, address: &NodeAddress) -> Result<Option<usize>, AllocError>
        ensures known { IfOk result (λ node. IfSome node (λ number.
            slice_get self.new.directory.nodes number ≡ Some address.now)) }
        ensures none { IfOk result (λ node. IfNone node ((self.new ≡ self.old)
            × (65534 ≤ length self.old.directory.nodes))) }
        ensures state { Knows (λ node. node ≡ address.now) self.old self.new }
        ensures err { OnErr result (self.new ≡ self.old) }
    {
        let number = self.number_of(address)?;
        if let Some(node) = number {
            self.nodes.want(node);
        }
        Ok(number)
    }

    /// A node that needs a link. Each is named once; then the shell calls [`Session::connected`] or
    /// [`Session::unreachable`] for it. After that, and after its link ended, it is named again once something is to
    /// be asked there.
    ///
    /// Call `connected` when the connection is made, and not when it begins. One that takes too long is `unreachable`:
    /// parts wait for it up to their deadline.
    pub fn wanted_node(&mut self) -> Option<usize>
        ensures { self.new ≡ self.old }
    {
        self.nodes.pop_wanted()
    }

    /// The address of a node.
    pub fn address(&self, node: usize) -> Option<&NodeAddress>
        ensures some { IfSome result (λ address. slice_get self.entry.now.directory.nodes node ≡ Some address.now) }
        ensures none { IfNone result (slice_get self.entry.now.directory.nodes node ≡ None) }
    {
        self.directory.address(node)
    }

    /// Notes a new connection to a node. Returns the number of its link.
    ///
    /// # Errors
    ///
    /// If memory runs out. There is no link then, and the connection is to be closed. The node is as one that is
    /// unreachable.
    pub fn connected(&mut self, alloc: Global, node: usize) -> Result<usize, AllocError>
        ensures ok { IfOk result (λ link. Opens link node self.old self.new) }
        ensures err { OnErr result (ConnectsNot self.old self.new) }
    {
        let Ok(opened) = self.machine.open(alloc, self.settings.most_reply_bytes) else {
            self.unreachable(node);
            return Err(AllocError);
        };
        if let Err(error) = self.begin_link(node, opened) {
            self.end_link(alloc, opened);
            self.unreachable(node);
            return Err(error);
        }
        // What finds no memory now is asked in a later step.
        let _ = self.step(alloc);
        Ok(opened)
    }

    /// Notes that no connection to a node could be made. The parts that wait for it pause. The map is wanted. A part
    /// that an `ASK` sent there is asked at the primary of its slot then.
    pub fn unreachable(&mut self, node: usize)
        ensures { self.new ≡ self.old }
    {
        let is_turn = self.nodes.is_turn_of(node);
        self.nodes.set_link(node, NodeLink::Missing);
        self.want_map();
        let end = self.pause_end();
        if self.map_time <= self.now {
            self.map_time = end;
        }
        if is_turn {
            self.schedule.pause_any_primary(end);
        }
        for _ in 0..self.schedule.most_steps() {
            let Some(seat) = self.schedule.first_at(node) else {
                return;
            };
            self.schedule.remove(seat);
            self.pause_unreached(seat, end);
        }
    }

    /// Lets a part pause whose node can't be reached. If an `ASK` sent it there, it is asked at the primary of its slot
    /// then.
    pub(crate) fn pause_unreached(&mut self, seat: Seat, end: u64)
        ensures { self.new ≡ self.old }
    {
        self.schedule.forget_ask(seat);
        self.schedule.pause(seat, end);
    }

    /// A link on which something was asked. It is named once after that, and has bytes to be written.
    pub fn link_to_write(&mut self) -> Option<usize>
        ensures { self.new ≡ self.old }
    {
        self.nodes.pop_to_write()
    }

    /// What is to be written on a link.
    pub fn unwritten(&self, link: usize) -> &[u8]
        ensures link { (c : Channel) → IsLink self.entry.now.machine link c → result.now ≡ to_write c.standing c.unwritten }
        ensures none { ((c : Channel) → IsLink self.entry.now.machine link c → ⊥) → result.now ≡ [] }
    {
        self.machine.unwritten(link)
    }

    /// Notes that `count` bytes more were written on a link. Returns whether so many were to be written.
    pub fn wrote(&mut self, link: usize, count: usize) -> bool
        ensures written { result ≡ true → Does (On link (events.Write count)) self.old self.new }
        ensures not { result ≡ false → self.new ≡ self.old }
        ensures why { result ≡ false → (c : Channel) → IsLink self.old.machine link c → c.standing ≢ Standing.Ended
            → length c.unwritten < count }
    {
        let (Some(Standing::Open) | Some(Standing::Broken)) = self.machine.standing(link) else {
            return false;
        };
        if count > self.machine.count_unwritten(link) {
            return false;
        }
        self.machine.wrote(link, count);
        true
    }

    /// Takes what was read on a link. Parts that are refused are asked again, and others that may be asked now
    /// are asked.
    ///
    /// # Errors
    ///
    /// If memory runs out. If the bytes were not kept, [`Session::link_to_close`] names the link. Else a call without
    /// bytes goes on.
    pub fn read(&mut self, alloc: Global, link: usize, bytes: &[u8]) -> Result<(), AllocError>
        ensures ok { IsOpen self.old link → OnOk result (Hears link bytes.now self.old self.new) }
        ensures err { IsOpen self.old link → OnErr result (HearsNot link bytes.now self.old self.new) }
        ensures not { (IsOpen self.old link → ⊥) → (result ≡ Ok tt) × (self.new ≡ self.old) }
    {
        let Some(Standing::Open) = self.machine.standing(link) else {
            return Ok(());
        };
        self.hear(link, bytes)?;
        self.take_all(alloc, link, !bytes.is_empty())?;
        self.step(alloc)
    }

    /// Notes that the connection of a link ended, or was closed. Its number may be given to another link.
    ///
    /// What was asked there and not begun is asked again. If no reply came on the link, except to its login, it pauses
    /// first.
    ///
    /// # Errors
    ///
    /// If memory runs out for requests that are asked now. A later step asks them.
    pub fn ended(&mut self, alloc: Global, link: usize) -> Result<(), AllocError>
        ensures { Ends link self.old self.new }
    {
        self.end_link(alloc, link);
        self.step(alloc)
    }

    /// A link that is to be closed: its login was answered by an error, what came on it is no reply that is awaited, it
    /// was silent too long, or memory ran out for what came. The shell closes it and calls [`Session::ended`].
    ///
    /// The node of a link whose login failed is named by [`Session::wanted_node`] again after the pause. So is one whose
    /// link ended without a reply.
    pub fn link_to_close(&self) -> Option<usize> {
        if let Some(link) = self.nodes.first_closing() {
            return Some(link);
        }
        self.silent_link()
    }

    /// A link that was silent too long when the time was noted before the last time.
    fn silent_link(&self) -> Option<usize> {
        let silence = self.settings.silence?;
        let (link, since) = self.nodes.longest_silence()?;
        if since.saturating_add(silence) <= self.time_before {
            Some(link)
        } else {
            None
        }
    }

    /// Begins a call: a request of a caller, as the bytes of one command. If its reply is not there when it is
    /// `deadline`, the caller is told so. If it is `deadline` already, nothing is asked. Returns the number of the call.
    ///
    /// A command that goes to each primary, as `DBSIZE`, goes to those of the map at this call. Before the first map
    /// there are none: it waits to its deadline, and ends with `CLUSTERDOWN`.
    ///
    /// # Errors
    ///
    /// Why the request is refused. Nothing of it is asked then. [`CallRefusal::reply`] is the reply that says so.
    /// The shell holds it back until the replies to the caller's earlier calls went out: [`Session::next_reply`] does
    /// not name it.
    pub fn begin(
        &mut self,
        alloc: Global,
        caller: u64,
        request: &[u8],
        deadline: u64,
    ) -> Result<u64, CallRefusal>
        ensures begun { IfOk result (λ call. BeginsCall caller request.now deadline call self.old self.new) }
        ensures refused { OnErr result (self.new ≡ self.old) }
        ensures why { IfErr result (IsRefused self.old request.now) }
    {
        let call = self.begin_call(alloc, caller, request, deadline)?;
        // Its time may be over.
        self.end_late(alloc);
        self.ask_call(alloc, call);
        // What finds no memory now is asked in a later step.
        let _ = self.step(alloc);
        Ok(call)
    }

    /// Notes that the caller waits no more for the reply to a call. It gets none, and nothing of the call is asked any
    /// more. Returns whether it waited.
    pub fn give_up(&mut self, alloc: Global, call: u64) -> bool
        ensures gave_up { result ≡ true → GivesUp call self.old self.new }
        ensures not { result ≡ false → self.new ≡ self.old }
        ensures why { result ≡ false → (state : CallState) → call_at call self.old.machine ≡ Some state
            → state.is_wanted ≡ true → ⊥ }
    {
        self.unlist(call);
        if !self.machine.give_up(call) {
            return false;
        }
        self.rules.remove(call);
        self.schedule.drop_deadline(call);
        self.note_over(alloc, call);
        // What finds no memory now is asked in a later step.
        let _ = self.step(alloc);
        true
    }

    /// Notes what time it is. Pauses and calls whose time is over end. Call it with the time of what happens before you
    /// tell of that: pauses begin at the last time that was noted. [`Settings::silence`] says how silences are counted.
    ///
    /// # Errors
    ///
    /// If memory runs out for requests that are asked now. A later step asks them.
    pub fn advance(&mut self, alloc: Global, now: u64) -> Result<(), AllocError>
        ensures { Advances now self.old self.new }
    {
        self.time_before = self.now;
        self.now = self.now.max(now);
        self.nodes.begin_silences(self.now);
        self.schedule.release_paused(self.now);
        self.end_late(alloc);
        self.step(alloc)
    }

    /// When [`Session::advance`] is to be called next: at once if the time is not after the last one that was noted.
    /// What could not be asked or given, since memory ran out, is tried again after a pause.
    pub fn next_time(&self) -> Option<u64> {
        let pause = self.schedule.first_pause_end();
        let deadline = match self.schedule.first_deadline() {
            Some((deadline, _)) => Some(deadline),
            None => None,
        };
        let map = if self.is_map_wanted && self.map_time > self.now {
            Some(self.map_time)
        } else {
            None
        };
        let behind = if self.is_behind() {
            Some(self.pause_end())
        } else {
            None
        };
        earlier(
            behind,
            earlier(self.silence_end(), earlier(map, earlier(pause, deadline))),
        )
    }

    /// Whether something may be asked now that no step asked, or a reply is there that was not given, since memory
    /// ran out.
    fn is_behind(&self) -> bool {
        self.is_reply_behind
            || self.schedule.has_ready()
            || self.is_map_due() && self.nodes.has_ready()
    }

    /// Whether the map is to be asked for now.
    pub(crate) fn is_map_due(&self) -> bool {
        self.is_map_wanted && !self.is_map_asked && self.map_time <= self.now
    }

    /// When the first link was silent too long, or at once if a silence is to begin.
    fn silence_end(&self) -> Option<u64> {
        let silence = self.settings.silence?;
        if self.nodes.has_fresh() {
            return Some(self.now);
        }
        let (_, since) = self.nodes.longest_silence()?;
        Some(since.saturating_add(silence))
    }

    /// How many replies to `CLUSTER SLOTS` were errors, or named no node.
    pub fn map_faults(&self) -> u64 {
        self.map_faults
    }

    /// Asks what may be asked now, and the map if it is wanted.
    pub(crate) fn step(&mut self, alloc: Global) -> Result<(), AllocError>
        ensures { Leads self.old self.new }
    {
        let asked = self.ask_ready(alloc);
        self.ask_map(alloc)?;
        asked
    }

    /// When a pause ends that begins now.
    pub(crate) fn pause_end(&self) -> u64 {
        self.now.saturating_add(self.settings.pause)
    }

    /// Notes that the map is wanted.
    pub(crate) fn want_map(&mut self)
        ensures { self.new ≡ self.old }
    {
        self.is_map_wanted = true;
    }

    /// Notes that the map is wanted, if so.
    pub(crate) fn want_map_if(&mut self, is_wanted: bool)
        ensures { self.new ≡ self.old }
    {
        self.is_map_wanted |= is_wanted;
    }

    /// The number of a node, which is added if it is not known. There is none if there are too many.
    ///
    /// # Errors
    ///
    /// If memory runs out. Nothing changes then.
    pub(crate) fn number_of(&mut self, address: &NodeAddress) -> Result<Option<usize>, AllocError>
        ensures known { IfOk result (λ node. IfSome node (λ number.
            slice_get self.new.directory.nodes number ≡ Some address.now)) }
        ensures none { IfOk result (λ node. IfNone node ((self.new ≡ self.old)
            × (65534 ≤ length self.old.directory.nodes))) }
        ensures state { Knows (λ node. node ≡ address.now) self.old self.new }
        ensures err { OnErr result (self.new ≡ self.old) }
    {
        if let Some(number) = self.directory.number(address) {
            return Ok(Some(number));
        }
        let next = self.directory.len();
        self.schedule.make_room(next)?;
        self.nodes.make_room_for_node(next)?;
        let added = self.directory.add(address.clone()?)?;
        if added.is_some() {
            self.nodes.add();
        }
        Ok(added)
    }

    /// Takes the parts of a call out of the lists that they are in.
    fn unlist(&mut self, call: u64)
        ensures { self.new ≡ self.old }
    {
        let Some(record) = self.schedule.call(call) else {
            return;
        };
        for part in 0..record.part_count() {
            self.schedule.remove(Seat { call, part });
        }
    }
}

/// The earlier of two times, if there are two.
fn earlier(a: Option<u64>, b: Option<u64>) -> Option<u64> {
    match (a, b) {
        (Some(a), Some(b)) => Some(a.min(b)),
        (Some(a), None) => Some(a),
        (None, b) => b,
    }
}
