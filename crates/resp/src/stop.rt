ghost use Rattle.std.specs.Prelude.{◌≡◌};
ghost use Rattle.resp.specs.declared.stop.Unread.TheVariants as unread;

use std::alloc::{AllocError, AllocFailed};

/// Where the reading of a request stopped.
#[derive(Clone, Copy)]
pub(super) enum Stop {
    /// At the end of the bytes: more can complete the request.
    WantsMore,
    /// At a byte that no request can have there. The number counts this byte and all after it.
    StopsAt(usize),
}

/// Why a request was not read.
#[derive(Drop)]
pub(super) enum Unread {
    Memory,
    Stopped(Stop),
}

impl From<AllocError> for Unread {
    ghost from_gives = { λ _ e. e ≡ unread.Memory };

    fn from(_e: AllocError) -> Unread {
        Unread::Memory
    }
}

impl<T: Drop> From<AllocFailed<T>> for Unread {
    ghost from_gives = { λ _ e. e ≡ unread.Memory };

    fn from(_e: AllocFailed<T>) -> Unread {
        Unread::Memory
    }
}

impl From<Stop> for Unread {
    ghost from_gives = { λ stop e. e ≡ unread.Stopped stop };

    fn from(stop: Stop) -> Unread {
        Unread::Stopped(stop)
    }
}
