ghost use Rattle.std.specs.Prelude.{◌≡◌, Some};

use crate::nodes::SendError;
use redis_routing::Redirect;
use resp_core::RedisError;
use std::alloc::{AllocError, AllocFailed};
use std::error::Error;
use std::fmt;

/// Why a command has no plan.
#[derive(Debug, Drop)]
pub enum PlanFault {
    /// The command is not one of those that are split by slot, or is not complete.
    NotMultiKey,
    /// No node serves this slot: that of the first route that has none.
    NotCovered(u16),
    /// Memory ran out.
    Memory,
}

impl From<AllocError> for PlanFault {
    ghost use Rattle.redis_cluster.specs.declared.fault.PlanFault.TheVariants as plan;

    ghost from_gives = { λ _ fault. fault ≡ plan.Memory };

    fn from(_: AllocError) -> Self {
        PlanFault::Memory
    }
}

impl<T: Drop> From<AllocFailed<T>> for PlanFault {
    ghost use Rattle.redis_cluster.specs.declared.fault.PlanFault.TheVariants as plan;

    ghost from_gives = { λ _ fault. fault ≡ plan.Memory };

    fn from(_: AllocFailed<T>) -> Self {
        PlanFault::Memory
    }
}

impl fmt::Display for PlanFault {
    ghost use Rattle.redis_cluster.specs.FaultText.{plan_fault_text};

    ghost output = { λ fault. Some (plan_fault_text fault) };

    fn fmt<W: fmt::Write>(&self, f: &mut fmt::Formatter<W>) -> fmt::Result {
        match self {
            PlanFault::NotMultiKey => write!(f, "not a multi-key command"),
            PlanFault::NotCovered(slot) => write!(f, "slot {slot} not covered"),
            PlanFault::Memory => write!(f, "out of memory"),
        }
    }
}

impl Error for PlanFault {}

/// Why a command was not driven to its end.
#[derive(Debug, Drop)]
pub enum DriveFault {
    /// The command is not one of those that are split by slot, or is not complete. Nothing was
    /// sent.
    NotMultiKey,
    /// No node serves this slot: that of the first route that has none. Nothing was sent.
    NotCovered(u16),
    /// The order does not name each route once. Nothing was sent.
    BadOrder,
    /// Memory ran out. The first `answered` parts of the order were answered.
    Memory,
    /// A node refused a part. The parts before it in the order were answered.
    Node(RedisError),
    /// A node sent the client on to another address. It did nothing, and the parts before it in the
    /// order were answered.
    Redirected(Redirect),
    /// The reply to a part was lost, so whether it took effect is not known. The parts before it in
    /// the order were answered, and no later one was sent.
    Lost(RedisError),
    /// The replies could not be combined. All parts were answered.
    Reply(RedisError),
}

/// Why a command was not driven to its end, and how many of its parts were answered: exactly the
/// first ones of the order. These took effect if the nodes kept to their meaning. After `Lost` the
/// next one may have taken effect, too.
#[derive(Debug, Drop)]
pub struct DriveError {
    /// Why it was not driven to its end.
    pub fault: DriveFault,
    /// How many parts were answered.
    pub answered: usize,
}

impl From<AllocError> for DriveError {
    ghost use Rattle.redis_cluster.specs.declared.fault.DriveFault.TheVariants as drive;

    ghost from_gives = { λ _ error. error ≡ record { fault = drive.Memory; answered = 0 } };

    fn from(_error: AllocError) -> Self {
        DriveError {
            fault: DriveFault::Memory,
            answered: 0,
        }
    }
}

impl fmt::Display for DriveFault {
    ghost use Rattle.redis_cluster.specs.FaultText.{drive_fault_text};

    ghost output = { λ fault. Some (drive_fault_text fault) };

    fn fmt<W: fmt::Write>(&self, f: &mut fmt::Formatter<W>) -> fmt::Result {
        match self {
            DriveFault::NotMultiKey => write!(f, "not a multi-key command"),
            DriveFault::NotCovered(slot) => write!(f, "slot {slot} not covered"),
            DriveFault::BadOrder => write!(f, "the order does not name each route once"),
            DriveFault::Memory => write!(f, "out of memory"),
            DriveFault::Node(error) => write!(f, "node refused: {error}"),
            DriveFault::Redirected(Redirect::Moved(address)) => {
                write!(f, "node redirected: MOVED {address}")
            }
            DriveFault::Redirected(Redirect::Ask(address)) => {
                write!(f, "node redirected: ASK {address}")
            }
            DriveFault::Lost(error) => write!(f, "reply lost: {error}"),
            DriveFault::Reply(error) => write!(f, "bad reply: {error}"),
        }
    }
}

impl Error for DriveFault {}

impl fmt::Display for DriveError {
    ghost use Rattle.redis_cluster.specs.FaultText.{drive_error_text};

    ghost output = { λ error. Some (drive_error_text error) };

    fn fmt<W: fmt::Write>(&self, f: &mut fmt::Formatter<W>) -> fmt::Result {
        let fault = &self.fault;
        let answered = self.answered;
        write!(f, "{fault} (parts answered: {answered})")
    }
}

impl Error for DriveError {}

impl From<PlanFault> for DriveFault {
    ghost use Rattle.redis_cluster.specs.Faults.{fault_of_plan};

    fn from(fault: PlanFault) -> Self
        ensures { result ≡ fault_of_plan fault }
    {
        match fault {
            PlanFault::NotMultiKey => DriveFault::NotMultiKey,
            PlanFault::NotCovered(slot) => DriveFault::NotCovered(slot),
            PlanFault::Memory => DriveFault::Memory,
        }
    }
}

impl From<PlanFault> for DriveError {
    ghost use Rattle.redis_cluster.specs.Faults.{fault_of_plan};

    fn from(fault: PlanFault) -> Self
        ensures { result ≡ record { fault = fault_of_plan fault; answered = 0 } }
    {
        DriveError {
            fault: DriveFault::from(fault),
            answered: 0,
        }
    }
}

impl From<SendError> for DriveFault {
    ghost use Rattle.redis_cluster.specs.Faults.{fault_of_send};

    fn from(error: SendError) -> Self
        ensures { result ≡ fault_of_send error }
    {
        match error {
            SendError::Refused(error) => DriveFault::Node(error),
            SendError::Redirected(redirect) => DriveFault::Redirected(redirect),
            SendError::Lost(error) => DriveFault::Lost(error),
            SendError::Memory => DriveFault::Memory,
        }
    }
}
