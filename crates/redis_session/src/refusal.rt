ghost use Rattle.std.specs.Prelude.{◌≡◌};
ghost use Rattle.redis_session.specs.Refusals.{refusal_reply};
ghost use Rattle.redis_session.specs.declared.refusal.CallRefusal.TheVariants.{Memory};

use resp::RequestFault;
use std::alloc::{AllocError, AllocFailed};

/// Why a request is refused at once. Nothing of it is asked.
#[derive(Clone, Copy, Debug, PartialEq, Eq)]
pub enum CallRefusal {
    /// Memory ran out.
    Memory,
    /// No whole request stands at the front of the bytes.
    Unread(RequestFault),
    /// Bytes follow the request, which ends at this index.
    AfterRequest(usize),
    /// Shared links take no command of its name: `SUBSCRIBE`, `MULTI`, `INFO`, a name that nobody added.
    NotTaken,
    /// It has the word `BLOCK`, with which it waits: `XREAD BLOCK 0 STREAMS key $`.
    Blocking,
    /// It goes to no node: `DEL` without a key.
    NoRoute,
    /// It goes to several nodes, and their replies make no one reply.
    NoOneReply,
    /// The session keeps as many calls, or as many bytes of requests, as it may.
    Limit,
}

impl CallRefusal {
    /// The reply that says so, in version 2 of the protocol. It begins `-ERR ` and takes no memory.
    pub fn reply(&self) -> &'static [u8]
        ensures { result.now ≡ refusal_reply self.now }
    {
        match self {
            CallRefusal::Memory => b"-ERR out of memory; the command did not take effect\r\n",
            CallRefusal::Unread(_) => b"-ERR this request cannot be read\r\n",
            CallRefusal::AfterRequest(_) => b"-ERR bytes follow the request\r\n",
            CallRefusal::NotTaken => b"-ERR shared links do not take this command\r\n",
            CallRefusal::Blocking => b"-ERR shared links do not take a command that waits\r\n",
            CallRefusal::NoRoute => b"-ERR this request goes to no node: is its key missing?\r\n",
            CallRefusal::NoOneReply => {
                b"-ERR the replies of several nodes to this command make no one reply\r\n"
            }
            CallRefusal::Limit =>
                b"-ERR too many commands wait; the command did not take effect\r\n",
        }
    }
}

impl From<AllocError> for CallRefusal {
    ghost from_gives = { λ _ refusal. refusal ≡ Memory };

    fn from(_: AllocError) -> CallRefusal {
        CallRefusal::Memory
    }
}

impl<T: Drop> From<AllocFailed<T>> for CallRefusal {
    ghost from_gives = { λ _ refusal. refusal ≡ Memory };

    fn from(_: AllocFailed<T>) -> CallRefusal {
        CallRefusal::Memory
    }
}
