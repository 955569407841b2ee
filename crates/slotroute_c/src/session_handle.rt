//! The handle by which C holds a session.
ghost use Rattle.std.specs.Prelude.{◌≡◌};
ghost use Rattle.std.specs.Borrow.{sem};
ghost use Rattle.redis_session.specs.SessionStates.{SessionState};
ghost use Rattle.slotroute_c.specs.SessionBlocks.{block_owns, session_coded};

use redis_session::Session;
use std::alloc::Global;
use std::marker::{Model, Send};

/// A session in a block of its own. C sees a struct of one pointer.
#[repr(C)]
pub struct SessionHandle {
    at: *mut u8,
    alloc: Global,
    pub ghost value: { SessionState } by { session_coded },
}

impl Model for SessionHandle {
    ghost also_owns = { λ handle. block_owns handle.alloc handle.at handle.value };
}

impl SessionHandle {
    ghost use Rattle.slotroute_c.specs.SessionHandles.{writes_back};

    /// Takes the session and its block back.
    pub fn into_box(self) -> Box<Session, Global>
        ensures { result.value ≡ self.value }
    {
        let SessionHandle { at, alloc } = self;
        unsafe { Box::from_raw(alloc, at as *mut Session) }
    }

    /// The session, to read and to write.
    pub fn get_mut(&mut self) -> &mut Session
        ensures* written { sem 𝓛 (writes_back self.entry result) }
        ensures value { result.now ≡ self.old.value }
    {
        unsafe { &mut *(self.at as *mut Session) }
    }
}

// A handle owns its session, and shares nothing.
unsafe impl Send for SessionHandle {}

/// Moves a handle as another thread takes it, so that the law of `Send` is checked.
pub fn sent(handle: SessionHandle) -> SessionHandle
    ensures { result ≡ handle }
{
    moved(handle)
}

fn moved<T: Send>(value: T) -> T
    ensures { result ≡ value }
{
    value
}
