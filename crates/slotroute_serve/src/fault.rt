ghost use Rattle.std.specs.Prelude.{◌≡◌};
ghost use Rattle.slotroute_serve.specs.Faults.{fault_at_line};

use crate::refusal::{CommandFault, Refusal};
use std::alloc::{AllocError, AllocFailed};
use std::io;

/// Why the program ends with status 2.
#[derive(Debug, Drop)]
pub enum Fault {
    /// The program does not know these words.
    Usage,
    /// This line, counted from 1, is not a map line.
    BadMapLine(u64),
    /// The command of `split` is no multi-key command, or not a complete one.
    NotMultiKey,
    /// The command of this line of `run`, counted from 1, is refused.
    Command(u64, Refusal),
    /// Memory ran out.
    Memory,
    /// The input could not be read.
    Input,
    /// The output could not be written.
    Output,
}

/// Why a line could not be read.
#[derive(Debug, Drop)]
pub enum ReadFault {
    /// Memory ran out.
    Memory,
    /// The input could not be read.
    Input,
}

/// A text could not be written.
#[derive(Debug, Drop)]
pub struct WriteFault;

/// Why there is no map.
#[derive(Debug, Drop)]
pub enum MapFault {
    /// This line, counted from 1, is not a map line.
    BadLine(u64),
    /// Memory ran out.
    Memory,
    /// The input could not be read.
    Input,
}

/// Why `node` or `split` has no lines.
#[derive(Debug, Drop)]
pub enum AnswerFault {
    /// The command is not a complete multi-key command.
    NotMultiKey,
    /// Memory ran out.
    Memory,
}

/// Why a run of commands is not done to the end.
#[derive(Debug, Drop)]
pub enum RunFault {
    /// The command of this line, counted from 1, is refused.
    Command(u64, Refusal),
    /// Memory ran out.
    Memory,
    /// The input could not be read.
    Input,
    /// The output could not be written.
    Output,
}

impl RunFault {
    /// The fault of a run if the command of the line with this number is not run.
    pub fn at_line(number: u64, fault: CommandFault) -> RunFault
        ensures { result ≡ fault_at_line number fault }
    {
        match fault {
            CommandFault::Refused(refusal) => RunFault::Command(number, refusal),
            CommandFault::Memory => RunFault::Memory,
        }
    }
}

impl From<io::Error> for ReadFault {
    ghost use Rattle.std.specs.IoError.{error_kind};
    ghost use Rattle.slotroute_serve.specs.Faults.{IsReaderFault};

    ghost from_gives = { λ error fault. IsReaderFault (error_kind error) fault };

    fn from(error: io::Error) -> Self {
        if error.kind() == io::ErrorKind::OutOfMemory {
            ReadFault::Memory
        } else {
            ReadFault::Input
        }
    }
}

impl From<AllocError> for ReadFault {
    ghost use Rattle.slotroute_serve.specs.declared.fault.ReadFault.TheVariants.{Memory};

    ghost from_gives = { λ _ fault. fault ≡ Memory };

    fn from(_error: AllocError) -> Self {
        ReadFault::Memory
    }
}

impl From<AllocError> for MapFault {
    ghost use Rattle.slotroute_serve.specs.declared.fault.MapFault.TheVariants.{Memory};

    ghost from_gives = { λ _ fault. fault ≡ Memory };

    fn from(_error: AllocError) -> Self {
        MapFault::Memory
    }
}

impl<T: Drop> From<AllocFailed<T>> for MapFault {
    ghost use Rattle.slotroute_serve.specs.declared.fault.MapFault.TheVariants.{Memory};

    ghost from_gives = { λ _ fault. fault ≡ Memory };

    fn from(_error: AllocFailed<T>) -> Self {
        MapFault::Memory
    }
}

impl From<ReadFault> for MapFault {
    ghost use Rattle.slotroute_serve.specs.Faults.{map_unread};

    ghost from_gives = { λ read fault. fault ≡ map_unread read };

    fn from(read: ReadFault) -> Self {
        match read {
            ReadFault::Memory => MapFault::Memory,
            ReadFault::Input => MapFault::Input,
        }
    }
}

impl From<AllocError> for AnswerFault {
    ghost use Rattle.slotroute_serve.specs.declared.fault.AnswerFault.TheVariants.{Memory};

    ghost from_gives = { λ _ fault. fault ≡ Memory };

    fn from(_error: AllocError) -> Self {
        AnswerFault::Memory
    }
}

impl From<AllocError> for RunFault {
    ghost use Rattle.slotroute_serve.specs.declared.fault.RunFault.TheVariants.{Memory};

    ghost from_gives = { λ _ fault. fault ≡ Memory };

    fn from(_error: AllocError) -> Self {
        RunFault::Memory
    }
}

impl From<ReadFault> for RunFault {
    ghost use Rattle.slotroute_serve.specs.Faults.{run_unread};

    ghost from_gives = { λ read fault. fault ≡ run_unread read };

    fn from(read: ReadFault) -> Self {
        match read {
            ReadFault::Memory => RunFault::Memory,
            ReadFault::Input => RunFault::Input,
        }
    }
}

impl From<WriteFault> for RunFault {
    ghost use Rattle.slotroute_serve.specs.declared.fault.RunFault.TheVariants.{Output};

    ghost from_gives = { λ _ fault. fault ≡ Output };

    fn from(_unwritten: WriteFault) -> Self {
        RunFault::Output
    }
}

impl From<AllocError> for Fault {
    ghost use Rattle.slotroute_serve.specs.declared.fault.Fault.TheVariants.{Memory};

    ghost from_gives = { λ _ fault. fault ≡ Memory };

    fn from(_error: AllocError) -> Self {
        Fault::Memory
    }
}

impl From<WriteFault> for Fault {
    ghost use Rattle.slotroute_serve.specs.declared.fault.Fault.TheVariants.{Output};

    ghost from_gives = { λ _ fault. fault ≡ Output };

    fn from(_unwritten: WriteFault) -> Self {
        Fault::Output
    }
}

impl From<MapFault> for Fault {
    ghost use Rattle.slotroute_serve.specs.Faults.{fault_of_map};

    ghost from_gives = { λ stage fault. fault ≡ fault_of_map stage };

    fn from(stage: MapFault) -> Self {
        match stage {
            MapFault::BadLine(number) => Fault::BadMapLine(number),
            MapFault::Memory => Fault::Memory,
            MapFault::Input => Fault::Input,
        }
    }
}

impl From<AnswerFault> for Fault {
    ghost use Rattle.slotroute_serve.specs.Faults.{fault_of_answer};

    ghost from_gives = { λ stage fault. fault ≡ fault_of_answer stage };

    fn from(stage: AnswerFault) -> Self {
        match stage {
            AnswerFault::NotMultiKey => Fault::NotMultiKey,
            AnswerFault::Memory => Fault::Memory,
        }
    }
}

impl From<RunFault> for Fault {
    ghost use Rattle.slotroute_serve.specs.Faults.{fault_of_run};

    ghost from_gives = { λ stage fault. fault ≡ fault_of_run stage };

    fn from(stage: RunFault) -> Self {
        match stage {
            RunFault::Command(number, refusal) => Fault::Command(number, refusal),
            RunFault::Memory => Fault::Memory,
            RunFault::Input => Fault::Input,
            RunFault::Output => Fault::Output,
        }
    }
}
