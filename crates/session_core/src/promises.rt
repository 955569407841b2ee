ghost use Rattle.std.specs.Prelude.{◌≡◌, ◌<◌, ◌++◌, [], ◌∷◌, not, ℕ, true, false, Some, if◌then◌else◌, List, Contains, slice_get};
ghost use Rattle.std.specs.List.{count_by, list_all};
ghost use Rattle.session_core.specs.declared.part.Cause.{Cause};
ghost use Rattle.session_core.specs.State.{CallState, State, Event, On, Begin, End, Finish, start, part_at, waits_at, is_part, asks, unwants, nothing_done, IsLink, Happens, Run, RunBy};
ghost use Rattle.session_core.specs.Channel.{Ask, Channel, fresh};
ghost use Rattle.session_core.specs.LinkEvents as link;
ghost use Rattle.session_core.specs.LinkRuns.{IsAccounted};
ghost use Rattle.session_core.specs.Part.{PartState, Phase, Waits, Answered, is_waiting, have_slot, have_order};
ghost use Rattle.session_core.specs.History.{AsQueue, CallPart, Began, steps, AreTries, takes_effect, InOrder, WasPassed, HasEnded, WasTaken, WasAsked, is_there, on_link};

/// What happens to a session, event by event, is a run of the machine. It is also a run if links are
/// seen as queues, without the rules of their bytes. The laws below are for all such runs. What
/// happened on a link since it was opened is a run of this link, and `mine` is the law of that.
pub fn each_run()
    ensures begins { Run start [] start }
    ensures grows { (events : List Event) (event : Event) (old new : State) → Run start events old
        → Happens old event new → Run start (events ++ event ∷ []) new }
    ensures queues { (events : List Event) (s : State) → Run start events s
        → RunBy AsQueue start events s }
    ensures links { (events : List Event) (s : State) (number : ℕ) (c : Channel)
        → Run start events s → IsLink s number c
        → (most : ℕ) × link.Run (fresh most) (on_link number events) c }
{}

/// A part that is on its way waits on its link, once, and on none else. Any other part waits on
/// none. So what is told of a part is for the last time that it was asked.
pub fn single()
    ensures { (events : List Event) (s : State) (number call part : ℕ)
        → RunBy AsQueue start events s
        → count_by (λ wait. is_part call part wait.ticket) (waits_at number s)
        ≡ (if is_there number (part_at call part s) then 1 else 0) }
{}

/// A part of which `left` refusals are forgiven is asked at most `left + 1` times, and once more for
/// each time that its link ended before a byte of it was written. It is asked again only if the
/// last time it was refused, or no byte of it was written. Once it is settled, nothing more happens
/// to it.
pub fn once()
    ensures { (events : List Event) (s : State) (seat : CallPart) (left : ℕ)
        → RunBy AsQueue start events s → Began events seat → seat.began.phase ≡ Waits left
        → AreTries left (steps seat events) }
{}

/// Two parts of one caller have an order, and each ran, may have run or may yet. Then the part of
/// the earlier call was asked for the last time before the other was. When the other was asked, the
/// earlier one was on its way on the same link for the same slot, or it was settled.
///
/// So nodes run them in order, if each runs what comes on a link in its order, and nothing of a link
/// that ended. A node may still run what came on a link that ended. No rule about asking prevents
/// it. Two parts of one call have two slots, if they have any.
pub fn in_order()
    ensures order { (events : List Event) (s : State) (first second : CallPart)
        → RunBy AsQueue start events s → Began events first → Began events second
        → first.caller ≡ second.caller → first.call < second.call
        → have_order first.began.order second.began.order ≡ true
        → takes_effect first events ≡ true → takes_effect second events ≡ true
        → InOrder first second events }
    ensures apart { (events : List Event) (s : State) (first second : CallPart)
        → RunBy AsQueue start events s → Began events first → Began events second
        → first.call ≡ second.call → first.part < second.part
        → have_slot first.began.order second.began.order ≡ false }
{}

/// Of two calls of one caller that have their replies, the one that began first has it first. When a
/// call gets its reply, each earlier call of its caller has its reply or was given up.
pub fn in_turn()
    ensures order { (before mid more : List Event) (s : State) (first second : ℕ) (a b : CallState)
        → RunBy AsQueue start (before ++ Finish first a ∷ (mid ++ Finish second b ∷ more)) s
        → a.caller ≡ b.caller → first < second }
    ensures ended { (before more : List Event) (s : State) (first second : ℕ)
        (parts : List PartState) (b : CallState)
        → RunBy AsQueue start (before ++ Finish second b ∷ more) s
        → Contains before (Begin first b.caller parts) → first < second → HasEnded first before }
{}

/// A part that waits is ended as overtaken only if a later part of its caller and slot was settled. It
/// is ended as given up only with its whole call.
pub fn ended()
    ensures overtaken { (before more : List Event) (s : State) (seat : CallPart)
        → RunBy AsQueue start (before ++ End seat.call seat.part Cause.Overtaken ∷ more) s
        → Began before seat → WasPassed seat before }
    ensures given_up { (before more : List Event) (s : State) (call part : ℕ)
        → RunBy AsQueue start (before ++ End call part Cause.GivenUp ∷ more) s → ⊥ }
{}

/// A call that gets its reply has no part that waits. Each part is as it began, but for its phase, and
/// the reply of an answered one was taken for it. If nothing was done for the call by then, none of
/// its parts has an effect later.
pub fn told()
    ensures none_waits { (before more : List Event) (s : State) (call : ℕ) (state : CallState)
        → RunBy AsQueue start (before ++ Finish call state ∷ more) s
        → list_all (λ p. not (is_waiting p.phase)) state.parts ≡ true }
    ensures parts { (before more : List Event) (s : State) (seat : CallPart) (state : CallState)
        → RunBy AsQueue start (before ++ Finish seat.call state ∷ more) s → Began before seat
        → (phase : Phase) × (slice_get state.parts seat.part
        ≡ Some (record seat.began { phase = phase })) }
    ensures answered { (before more : List Event) (s : State) (seat : CallPart) (state : CallState)
        (p : PartState) (reply : List ℕ)
        → RunBy AsQueue start (before ++ Finish seat.call state ∷ more) s → Began before seat
        → slice_get state.parts seat.part ≡ Some p → p.phase ≡ Answered reply
        → WasTaken seat reply before }
    ensures nothing_done { (before more : List Event) (s : State) (seat : CallPart)
        (state : CallState) → RunBy AsQueue start (before ++ Finish seat.call state ∷ more) s
        → Began before seat → nothing_done state ≡ true
        → takes_effect seat (before ++ Finish seat.call state ∷ more) ≡ false }
{}

/// Once a call is given up or has its reply, none of its parts is asked, and it gets no reply.
pub fn given_up()
    ensures asks { (before mid more : List Event) (s : State) (event : Event)
        (call part number : ℕ) (requests : List Ask)
        → RunBy AsQueue start (before ++ event ∷ (mid ++ On number (link.Put requests) ∷ more)) s
        → unwants call event ≡ true → asks call part requests ≡ false }
    ensures finishes { (before mid more : List Event) (s : State) (event : Event) (call : ℕ)
        (state : CallState)
        → RunBy AsQueue start (before ++ event ∷ (mid ++ Finish call state ∷ more)) s
        → unwants call event ≡ true → ⊥ }
{}

/// The reply of an answered part was taken for this part, and is no refusal. What was asked for it is
/// the request with which it began.
pub fn answered()
    ensures taken { (events : List Event) (s : State) (seat : CallPart) (p : PartState)
        (reply : List ℕ) → RunBy AsQueue start events s → Began events seat
        → part_at seat.call seat.part s ≡ Some p → p.phase ≡ Answered reply
        → WasTaken seat reply events }
    ensures asked { (events : List Event) (s : State) (seat : CallPart) (request : List ℕ)
        → RunBy AsQueue start events s → Began events seat → WasAsked seat request events
        → request ≡ seat.began.request }
{}

/// On a link, reply number i is taken for request number i. That request was written to its end
/// before a byte of the reply came. After the link breaks or ends, nothing is asked or taken on it.
pub fn mine()
    ensures { (events : List link.Event) (most : ℕ) (c : Channel) → link.Run (fresh most) events c
        → IsAccounted events c }
{}
