ghost use Rattle.std.specs.Prelude.{ℕ, List};
ghost use Rattle.session_core.specs.Channel.{Channel};
ghost use Rattle.session_core.specs.declared.link.BreakCause.{BreakCause};
ghost use Rattle.session_core.specs.declared.link.Ticket.{Ticket};
ghost use Rattle.session_core.specs.LinkEvents.{Take, Break, May};

/// A link breaks only if no reply can be taken. This is a law: a call does nothing.
pub fn take_or_break()
    ensures { (c : Channel) (cause : BreakCause) (ticket : Ticket) (reply : List ℕ)
        → May (Break cause) c → May (Take ticket reply) c → ⊥ }
{}
