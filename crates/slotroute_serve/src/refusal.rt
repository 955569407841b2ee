ghost use Rattle.std.specs.Prelude.{◌≡◌, Some};

use redis_cluster::driver::PlanFault;
use std::alloc::{AllocError, AllocFailed};
use std::error::Error;
use std::fmt;

/// Why a command is refused.
#[derive(Debug, Drop)]
pub enum Refusal {
    /// The command is not a multi-key command, or not a complete one.
    NotMultiKey,
    /// No node serves this slot of a key.
    NotCovered(u16),
    /// A node refused a part.
    NodeRefused,
    /// The reply to a part was lost.
    ReplyLost,
    /// The replies to the parts do not make one.
    BadReply,
}

impl fmt::Display for Refusal {
    ghost use Rattle.slotroute_serve.specs.RefusalText.{run_refusal_text};

    ghost output = { λ refusal. Some (run_refusal_text refusal) };

    fn fmt<W: fmt::Write>(&self, f: &mut fmt::Formatter<W>) -> fmt::Result {
        match self {
            Refusal::NotMultiKey => write!(f, "not a multi-key command"),
            Refusal::NotCovered(slot) => write!(f, "slot {slot} not covered"),
            Refusal::NodeRefused => write!(f, "node refused"),
            Refusal::ReplyLost => write!(f, "reply lost"),
            Refusal::BadReply => write!(f, "bad reply"),
        }
    }
}

impl Error for Refusal {}

/// Why a command was not run.
#[derive(Debug, Drop)]
pub enum CommandFault {
    /// The command was refused.
    Refused(Refusal),
    /// Memory ran out.
    Memory,
}

impl fmt::Display for CommandFault {
    ghost use Rattle.slotroute_serve.specs.RefusalText.{command_fault_text};

    ghost output = { λ fault. Some (command_fault_text fault) };

    fn fmt<W: fmt::Write>(&self, f: &mut fmt::Formatter<W>) -> fmt::Result {
        match self {
            CommandFault::Refused(refusal) => write!(f, "{refusal}"),
            CommandFault::Memory => write!(f, "out of memory"),
        }
    }
}

impl Error for CommandFault {}

impl From<AllocError> for CommandFault {
    ghost use Rattle.slotroute_serve.specs.declared.refusal.CommandFault.TheVariants.{Memory};

    ghost from_gives = { λ _ fault. fault ≡ Memory };

    fn from(_error: AllocError) -> Self {
        CommandFault::Memory
    }
}

impl<T: Drop> From<AllocFailed<T>> for CommandFault {
    ghost use Rattle.slotroute_serve.specs.declared.refusal.CommandFault.TheVariants.{Memory};

    ghost from_gives = { λ _ fault. fault ≡ Memory };

    fn from(_error: AllocFailed<T>) -> Self {
        CommandFault::Memory
    }
}

impl From<PlanFault> for CommandFault {
    ghost use Rattle.slotroute_serve.specs.Commands.{command_fault};

    ghost from_gives = { λ plan fault. fault ≡ command_fault plan };

    fn from(plan: PlanFault) -> Self {
        match plan {
            PlanFault::NotMultiKey => CommandFault::Refused(Refusal::NotMultiKey),
            PlanFault::NotCovered(slot) => CommandFault::Refused(Refusal::NotCovered(slot)),
            PlanFault::Memory => CommandFault::Memory,
        }
    }
}
