//! Which parts are asked, and where.

ghost use Rattle.std.specs.Prelude.{◌≡◌, ◌<◌, true, false, length, IfOk, OnOk};
ghost use Rattle.redis_session.specs.Plans.{HaveOwnSlots};
ghost use Rattle.redis_session.specs.Table.{group_in};
ghost use Rattle.redis_session.specs.Begins.{AreNewParts, CanBegin, IsErrandBy, IsNewPart, has_slot};
ghost use Rattle.redis_session.specs.declared.plan.CallParts.TheVariants as plans;

use crate::nodes::NodeLink;
use crate::peers::Peer;
use crate::plan::{CallParts, CallPlan, SlotPart};
use crate::refusal::CallRefusal;
use crate::rules::ReplyRule;
use crate::schedule::{NewCall, Room, Target};
use crate::session::Session;
use redis_routing::NodeGroup;
use session_core::{PartOrder, Seat, Standing};
use session_machine::Part;
use std::alloc::{AllocError, Global};

/// How many parts may find no memory in a step before the others wait for a later one.
const MOST_FAILURES: usize = 8;

/// The request for the map.
const CLUSTER_SLOTS: &[u8] = b"*2\r\n$7\r\nCLUSTER\r\n$5\r\nSLOTS\r\n";

/// What a call asks of nodes.
#[derive(Drop)]
struct Errand {
    rule: ReplyRule,
    parts: Vec<Part>,
}

impl Session {
    ghost use Rattle.std.specs.Prelude.{IfErr, IfSome, List, OnErr};
    ghost use Rattle.session_core.specs.Part.{PartState};
    ghost use Rattle.session_core.specs.declared.link.Standing.TheVariants.{Open};
    ghost use Rattle.session_core.specs.Channel.{Channel};
    ghost use Rattle.session_core.specs.State.{IsLink};
    ghost use Rattle.redis_session.specs.Begins.{IsErrand};
    ghost use Rattle.redis_session.specs.Deadlines.{Forgets};
    ghost use Rattle.redis_session.specs.Directory.{AreNumbersOf, IsPrimary};
    ghost use Rattle.redis_session.specs.Leads.{AddsCall, AsksLogin, BeginsLink, ChangesPeer, IsRefused, Leads, Serves};
    ghost use Rattle.redis_session.specs.Peers.{IsReadyTo};
    ghost use Rattle.redis_session.specs.Targets.{IsFor};
    ghost use Rattle.redis_session.specs.Refusals.{IsCallRefused};
    ghost use Rattle.redis_session.specs.Rules.{rule_in};
    ghost use Rattle.redis_session.specs.SessionStates.{names};
    ghost use Rattle.redis_session.specs.Loads.{HasRoom, heavier};

    /// Begins a call. Its parts wait for nothing that is known.
    pub(crate) fn begin_call(
        &mut self,
        alloc: Global,
        caller: u64,
        request: &[u8],
        deadline: u64,
    ) -> Result<u64, CallRefusal>
        ensures room { OnOk result (HasRoom self.old.settings.most_calls self.old.settings.most_bytes
            (length request.now) self.old.load) }
        ensures load { OnOk result (self.new.load ≡ heavier (length request.now) self.old.load) }
        ensures begun { IfOk result (λ call. (parts : List PartState)
            × AddsCall call caller deadline parts self.old self.new
            × IsErrand self.old.directory self.old.settings request.now (rule_in self.new.rules call) parts) }
        ensures refused { OnErr result (self.new ≡ self.old) }
        ensures why { IfErr result (IsRefused self.old request.now) }
    {
        let Some(load) = self.load.with_call(request.len(), &self.settings) else {
            return Err(CallRefusal::Limit);
        };
        let errand = self.errand(alloc, request)?;
        self.schedule.add_call(NewCall {
            caller,
            deadline,
            bytes: request.len(),
            part_count: errand.parts.len(),
        })?;
        match self.begin_parts(alloc, caller, errand.rule, errand.parts, deadline) {
            Ok(call) => {
                self.schedule.note_begun();
                self.load = load;
                Ok(call)
            }
            Err(_) => {
                self.schedule.take_back();
                Err(CallRefusal::Memory)
            }
        }
    }

    /// Begins a call of these parts, whose reply is made by this rule.
    fn begin_parts(
        &mut self,
        alloc: Global,
        caller: u64,
        rule: ReplyRule,
        parts: Vec<Part>,
        deadline: u64,
    ) -> Result<u64, AllocError>
        requires { CanBegin parts.items }
        ensures begun { IfOk result (λ call. AddsCall call caller deadline parts.items self.old self.new
            × (rule_in self.new.rules call ≡ rule)) }
        ensures err { OnErr result (self.new ≡ self.old) }
    {
        let next = self.machine.count_begun();
        self.deadlines.add(next, deadline)?;
        if let Err(error) = self.rules.add(next, rule) {
            self.deadlines.take_back();
            return Err(error);
        }
        match self.machine.begin(alloc, caller, parts) {
            Ok(call) => {
                self.forget_deadlines();
                Ok(call)
            }
            Err(error) => {
                self.rules.remove(next);
                self.deadlines.take_back();
                Err(error)
            }
        }
    }

    /// Forgets the first deadlines, if they are those of calls that were forgotten.
    fn forget_deadlines(&mut self)
        ensures forgets { Forgets self.old.machine self.old.deadlines self.new.deadlines }
        ensures others { self.new ≡ record self.old { deadlines = self.new.deadlines } }
    {
        for _ in 0..self.deadlines.len() {
            let Some(first) = self.deadlines.first() else {
                return;
            };
            let None = self.machine.call(first) else {
                return;
            };
            self.deadlines.forget_first();
        }
    }

    /// What a request asks of nodes.
    fn errand(&mut self, alloc: Global, request: &[u8]) -> Result<Errand, CallRefusal>
        ensures parts { IfOk result (λ errand. CanBegin errand.parts.items) }
        ensures errand { IfOk result (λ errand.
            IsErrand self.old.directory self.old.settings request.now errand.rule errand.parts.items) }
        ensures refused { IfErr result (IsCallRefused (names self.old) self.old.settings.added request.now) }
        ensures state { self.new ≡ self.old }
    {
        let plan = CallPlan::new(alloc, request, self.names(), &self.settings.added)?;
        let may_refuse = plan.may_refuse;
        match plan.parts {
            CallParts::One(order) => Ok(self.one_part(alloc, request, order, may_refuse)?),
            CallParts::Split(slots) => Ok(self.slot_parts(alloc, request, slots, may_refuse)?),
            CallParts::Several(group, policy, order) => {
                let nodes = self.group(alloc, group)?;
                let count = nodes.len().max(1);
                let parts = self.several_parts(alloc, request, count, order, may_refuse)?;
                let rule = ReplyRule::Several(policy, nodes);
                Ok(Errand { rule, parts })
            }
        }
    }

    /// The request as it came.
    fn one_part(
        &self,
        alloc: Global,
        request: &[u8],
        order: PartOrder,
        may_refuse: bool,
    ) -> Result<Errand, AllocError>
        requires { 0 < length request.now }
        ensures begins { IfOk result (λ errand. CanBegin errand.parts.items) }
        ensures errand { IfOk result (λ errand.
            IsErrandBy self.entry.now.directory self.entry.now.settings.retries request.now may_refuse (plans.One order) errand.rule errand.parts.items) }
    {
        let rule = ReplyRule::One;
        let mut parts = Vec::with_capacity(alloc, 1)?;
        parts.push(self.part(alloc, request, order, may_refuse)?)?;
        Ok(Errand { rule, parts })
    }

    /// The part of each slot.
    fn slot_parts(
        &self,
        alloc: Global,
        request: &[u8],
        slots: Vec<SlotPart>,
        may_refuse: bool,
    ) -> Result<Errand, AllocError>
        requires { HaveOwnSlots slots.items }
        ensures begins { IfOk result (λ errand. CanBegin errand.parts.items) }
        ensures errand { IfOk result (λ errand.
            IsErrandBy self.entry.now.directory self.entry.now.settings.retries request.now may_refuse (plans.Split slots) errand.rule errand.parts.items) }
    {
        let retries = self.settings.retries;
        let mut parts = Vec::with_capacity(alloc, slots.len())?;
        for part in slots {
            let order = PartOrder::OfSlot(part.slot);
            parts.push(Part::new(part.request, order, may_refuse, retries))?;
        }
        let rule = ReplyRule::Split(request.to_vec(alloc)?);
        Ok(Errand { rule, parts })
    }

    /// So many parts that ask the request as it came.
    fn several_parts(
        &self,
        alloc: Global,
        request: &[u8],
        count: usize,
        order: PartOrder,
        may_refuse: bool,
    ) -> Result<Vec<Part>, AllocError>
        requires some { 0 < length request.now }
        requires order { has_slot order ≡ false }
        ensures begins { IfOk result (λ parts. CanBegin parts.items) }
        ensures count { IfOk result (λ parts. length parts.items ≡ count) }
        ensures each { IfOk result (λ parts.
            AreNewParts self.entry.now.settings.retries request.now order may_refuse parts.items) }
    {
        let mut parts = Vec::with_capacity(alloc, count)?;
        for _ in 0..count {
            parts.push(self.part(alloc, request, order, may_refuse)?)?;
        }
        Ok(parts)
    }

    /// A part that asks the request as it came.
    fn part(
        &self,
        alloc: Global,
        request: &[u8],
        order: PartOrder,
        may_refuse: bool,
    ) -> Result<Part, AllocError>
        ensures { IfOk result (IsNewPart self.entry.now.settings.retries request.now order may_refuse) }
    {
        let request = request.to_vec(alloc)?;
        Ok(Part::new(request, order, may_refuse, self.settings.retries))
    }

    /// The numbers of the nodes of a group, which the map has.
    fn group(&mut self, alloc: Global, group: NodeGroup) -> Result<Vec<usize>, AllocError>
        ensures numbers { IfOk result (λ nodes. AreNumbersOf nodes.items
            (group_in group self.old.directory.table) self.old.directory.nodes) }
        ensures state { self.new ≡ self.old }
    {
        let nodes = self.directory.numbers(alloc, group)?;
        self.nodes.note_in_map(&nodes);
        Ok(nodes)
    }

    /// Asks the parts of a call that has just begun. Those that find no memory are to be asked in this step.
    pub(crate) fn ask_call(&mut self, alloc: Global, call: u64)
        ensures { Leads self.old self.new }
    {
        for part in 0..self.schedule.part_count(call) {
            let seat = Seat { call, part };
            if self.place(alloc, seat).is_err() {
                self.schedule.push_back(seat, Room::Ready);
            }
        }
    }

    /// Asks the parts that are to be asked in this step.
    ///
    /// # Errors
    ///
    /// If memory runs out for some of them. Others may be asked. A later step asks the rest.
    pub(crate) fn ask_ready(&mut self, alloc: Global) -> Result<(), AllocError>
        ensures { Leads self.old self.new }
    {
        let mut left = MOST_FAILURES;
        for _ in 0..self.schedule.most_steps() {
            let Some(seat) = self.schedule.pop_ready() else {
                break;
            };
            if self.place(alloc, seat).is_ok() {
                continue;
            }
            self.schedule.push_back(seat, Room::Ready);
            left = left.saturating_sub(1);
            if left == 0 {
                break;
            }
        }
        if left < MOST_FAILURES {
            return Err(AllocError);
        }
        Ok(())
    }

    /// Asks a part, or has it wait for what it needs. If its node left the map, it ends.
    fn place(&mut self, alloc: Global, seat: Seat) -> Result<(), AllocError>
        ensures { Leads self.old self.new }
    {
        if !self.waits(seat) {
            return Ok(());
        }
        if self.is_barred(seat) {
            self.schedule.push_back(seat, Room::Barred);
            return Ok(());
        }
        if self.has_left(seat) {
            self.end_without_node(seat);
            self.note_done(alloc, seat);
            return Ok(());
        }
        self.place_at(seat)
    }

    /// Whether a part waits for earlier calls of its caller.
    fn is_barred(&self, seat: Seat) -> bool {
        !self.schedule.is_alone(seat.call) && self.machine.is_held_back(seat.call, seat.part)
    }

    /// Asks a part where it is to be asked, or has it wait for a node or for a link to it.
    fn place_at(&mut self, seat: Seat) -> Result<(), AllocError>
        ensures { Leads self.old self.new }
    {
        let target = self.schedule.target(seat);
        let Some(node) = self.node_for(seat, target) else {
            self.schedule.push_back(seat, Room::Unserved);
            self.want_map();
            return Ok(());
        };
        let NodeLink::Ready(link) = self.nodes.link(node) else {
            let room = self.room_for_link(seat, target, node);
            self.schedule.push_back(seat, room);
            self.nodes.want(node);
            return Ok(());
        };
        if self.ask_at(seat, target, node, link)? {
            self.nodes.note_asked(link);
            self.release_next(seat);
        }
        Ok(())
    }

    /// What a part waits for that is to be asked at a node whose link is not ready. If any primary serves it, it waits for
    /// the first link to one of them.
    fn room_for_link(&self, seat: Seat, target: Target, node: usize) -> Room {
        let Target::Serving = target else {
            return Room::Node(node);
        };
        if self.slot_of(seat).is_some() || self.rules.node_of(seat.call, seat.part).is_some() {
            return Room::Node(node);
        }
        Room::AnyPrimary
    }

    /// Asks a part on a link to a node, if the link is ready and the order of its caller allows it now. Returns whether
    /// it did.
    fn ask_at(
        &mut self,
        seat: Seat,
        target: Target,
        node: usize,
        link: usize,
    ) -> Result<bool, AllocError>
        requires { IsFor target self.old seat.call seat.part node }
        ensures { Leads self.old self.new }
    {
        if !self.is_ready_to(node, link) {
            return Ok(false);
        }
        let Some(Standing::Open) = self.machine.standing(link) else {
            return Ok(false);
        };
        match target {
            Target::Asking => self.machine.ask_asking(link, seat.call, seat.part),
            Target::Serving => self.machine.ask(link, seat.call, seat.part),
        }
    }

    /// Whether parts may be asked on a link, and it is one to this node.
    fn is_ready_to(&self, node: usize, link: usize) -> bool
        ensures { result ≡ true → IsReadyTo node link self.entry.now.peers }
    {
        match self.peers.get(link) {
            Some(peer) => peer.is_ready && peer.node == node,
            None => false,
        }
    }

    /// Has the next part of the slot and caller of a part asked in this step, if the order allows it.
    pub(crate) fn release_next(&mut self, seat: Seat)
        ensures { self.new ≡ self.old }
    {
        if self.schedule.is_alone(seat.call) {
            return;
        }
        let Some(caller) = self.caller_of(seat.call) else {
            return;
        };
        let Some(part) = self.machine.part(seat.call, seat.part) else {
            return;
        };
        let PartOrder::OfSlot(slot) = part.order() else {
            return;
        };
        if let Some(next) = self.machine.next_part(caller, slot) {
            self.schedule.push_back(next, Room::Ready);
        }
    }

    /// Has the parts asked in this step that wait for earlier calls no more, of the caller at a place.
    pub(crate) fn release_barred(&mut self, place: usize)
        ensures { self.new ≡ self.old }
    {
        for _ in 0..self.schedule.most_steps() {
            let Some(seat) = self.schedule.first_barred(place) else {
                return;
            };
            if self.machine.is_held_back(seat.call, seat.part) {
                return;
            }
            self.schedule.remove(seat);
            self.schedule.push_back(seat, Room::Ready);
        }
    }

    /// Whether a part waits to be asked.
    pub(crate) fn waits(&self, seat: Seat) -> bool {
        match self.machine.part(seat.call, seat.part) {
            Some(part) => part.is_waiting(),
            None => false,
        }
    }

    /// The caller of a call.
    pub(crate) fn caller_of(&self, call: u64) -> Option<u64> {
        Some(self.schedule.call(call)?.caller())
    }

    /// The node at which a part is asked.
    fn node_for(&mut self, seat: Seat, target: Target) -> Option<usize>
        ensures node { IfSome result (IsFor target self.old seat.call seat.part) }
        ensures state { self.new ≡ self.old }
    {
        match target {
            Target::Asking => self.asks.node(seat),
            Target::Serving => self.serving_node(seat),
        }
    }

    /// A node that serves a part: the primary of its slot, the one of several nodes that it is for, or a primary.
    fn serving_node(&mut self, seat: Seat) -> Option<usize>
        ensures serves { IfSome result (Serves self.old seat.call seat.part) }
        ensures state { self.new ≡ self.old }
    {
        if let Some(slot) = self.slot_of(seat) {
            return self.directory.node_of(slot);
        }
        match self.rules.node_of(seat.call, seat.part) {
            Some(node) => node,
            None => self.any_primary(),
        }
    }

    /// A primary of the map.
    fn any_primary(&self) -> Option<usize>
        ensures { IfSome result (λ node. IsPrimary node self.entry.now.directory) }
    {
        self.directory.primary(self.nodes.serving_primary()?)
    }

    /// Whether a part is for one of several nodes, which left the map.
    fn has_left(&self, seat: Seat) -> bool {
        match self.rules.node_of(seat.call, seat.part) {
            Some(Some(node)) => !self.nodes.is_in_map(node),
            _ => false,
        }
    }

    /// Asks for the map on a link that is ready, if the map is wanted.
    pub(crate) fn ask_map(&mut self, alloc: Global) -> Result<(), AllocError>
        ensures { Leads self.old self.new }
    {
        if !self.is_map_due() {
            return Ok(());
        }
        let Some((node, link)) = self.nodes.next_ready() else {
            self.nodes.want_next();
            return Ok(());
        };
        if !self.is_ready_to(node, link) {
            return Ok(());
        }
        let Some(Standing::Open) = self.machine.standing(link) else {
            return Ok(());
        };
        self.machine
            .ask_map(link, self.directory.moved_count(), CLUSTER_SLOTS)?;
        self.nodes.note_asked(link);
        self.is_map_asked = true;
        self.is_map_wanted = false;
        Ok(())
    }

    /// Begins a link to a node: with its login, or ready at once.
    pub(crate) fn begin_link(&mut self, node: usize, link: usize) -> Result<(), AllocError>
        ensures ok { OnOk result (BeginsLink link node self.old self.new) }
        ensures err { OnErr result (ChangesPeer link self.old self.new) }
    {
        self.nodes.make_room(link)?;
        let is_ready = self.settings.needs_no_login();
        self.peers.join(link, Peer { node, is_ready })?;
        if is_ready {
            self.note_ready(node, link);
            return Ok(());
        }
        self.ask_login(link)?;
        self.nodes.set_link(node, NodeLink::Opening(link));
        Ok(())
    }

    /// Notes that parts may be asked on a link to a node.
    pub(crate) fn note_ready(&mut self, node: usize, link: usize)
        ensures { self.new ≡ self.old }
    {
        self.nodes.set_link(node, NodeLink::Ready(link));
        self.schedule.release_node(node);
        if self.nodes.is_primary(node) {
            self.schedule.release_any_primary();
        }
    }

    /// Asks the login of a link.
    ///
    /// # Errors
    ///
    /// If memory runs out, there is no login, or the link is not open. Nothing is asked then.
    fn ask_login(&mut self, link: usize) -> Result<(), AllocError>
        ensures ok { OnOk result (AsksLogin link self.old self.new) }
        ensures err { OnErr result (self.new ≡ self.old) }
    {
        let Some(Standing::Open) = self.machine.standing(link) else {
            return Err(AllocError);
        };
        if self.settings.login.is_empty() {
            return Err(AllocError);
        }
        self.machine.ask_login(link, &self.settings.login)?;
        self.nodes.note_asked(link);
        Ok(())
    }
}
