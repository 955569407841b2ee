ghost use Rattle.std.specs.Prelude.{◌≡◌, Some};

use redis_cluster::driver::PlanFault;
use std::alloc::{AllocError, AllocFailed};
use std::error::Error;
use std::fmt;

/// Why a command has no plan.
#[derive(Debug, Drop)]
pub enum CommandPlanFault {
    /// It goes nowhere: it has no name, or commands of its name go nowhere, such as `SCAN`. Or the
    /// keys, the count or the slot number that it is routed by are missing or wrong, such as in
    /// `MSET a` and `CLUSTER ADDSLOTS 16384`.
    NotRoutable,
    /// No node serves this slot: that of the first route that has none.
    NotCovered(u16),
    /// It goes to nodes whatever their slots, such as `PING`, and the map has no node.
    NoNode,
    /// Memory ran out.
    Memory,
}

impl From<AllocError> for CommandPlanFault {
    ghost use Rattle.redis_commands.specs.declared.fault.CommandPlanFault.TheVariants as fault;

    ghost from_gives = { λ _ result. result ≡ fault.Memory };

    fn from(_: AllocError) -> Self {
        CommandPlanFault::Memory
    }
}

impl<T: Drop> From<AllocFailed<T>> for CommandPlanFault {
    ghost use Rattle.redis_commands.specs.declared.fault.CommandPlanFault.TheVariants as fault;

    ghost from_gives = { λ _ result. result ≡ fault.Memory };

    fn from(_: AllocFailed<T>) -> Self {
        CommandPlanFault::Memory
    }
}

impl From<PlanFault> for CommandPlanFault {
    ghost use Rattle.redis_commands.specs.SplitFault.{fault_of_split};

    ghost from_gives = { λ fault result. result ≡ fault_of_split fault };

    fn from(fault: PlanFault) -> Self {
        match fault {
            PlanFault::NotMultiKey => CommandPlanFault::NotRoutable,
            PlanFault::NotCovered(slot) => CommandPlanFault::NotCovered(slot),
            PlanFault::Memory => CommandPlanFault::Memory,
        }
    }
}

impl fmt::Display for CommandPlanFault {
    ghost use Rattle.redis_commands.specs.FaultText.{command_plan_fault_text};

    ghost output = { λ fault. Some (command_plan_fault_text fault) };

    fn fmt<W: fmt::Write>(&self, f: &mut fmt::Formatter<W>) -> fmt::Result {
        match self {
            CommandPlanFault::NotRoutable => write!(f, "the command goes nowhere"),
            CommandPlanFault::NotCovered(slot) => write!(f, "slot {slot} not covered"),
            CommandPlanFault::NoNode => write!(f, "the map has no node"),
            CommandPlanFault::Memory => write!(f, "out of memory"),
        }
    }
}

impl Error for CommandPlanFault {}
