ghost use Rattle.std.specs.Prelude.{◌≡◌, ◌<◌, IfOk};
ghost use Rattle.std.specs.Borrow.{sem};
ghost use Rattle.slotroute_c.specs.SessionHandles.{opened, opens};

use crate::block::Block;
use crate::session_handle::SessionHandle;
use redis_routing::{ReadOnlyNames, Registry};
use redis_session::{AddedNames, Session, Settings};
use std::alloc::{AllocError, Global};

/// How a session asks.
#[repr(C)]
#[derive(Clone, Copy)]
pub struct SessionSettings {
    /// How many bytes a reply may have.
    pub most_reply_bytes: usize,
    /// How many calls may be kept, of all callers together.
    pub most_calls: usize,
    /// How many bytes the requests of the kept calls may have together.
    pub most_bytes: usize,
    /// How long a link may owe a reply without a byte coming, in the unit of the shell's times. 0: as long
    /// as it likes.
    pub silence: u64,
    /// How long a part pauses that a node cannot run yet, in the unit of the shell's times.
    pub pause: u64,
    /// How often nodes may refuse a part before it is given up.
    pub retries: u32,
}

/// Opens a session without links and calls, and writes a pointer to it to `session`. `login` has the
/// bytes of the one request that a link begins with; it may be empty.
///
/// # Errors
///
/// 1 if memory runs out. `session` stays then.
#[unsafe(no_mangle)]
pub extern "C" fn slotroute_session_open(
    alloc: Global,
    settings: &SessionSettings,
    login: &[u8],
    session: &mut *mut u8,
) -> u32
    ensures* opened { sem 𝓛 (opens alloc settings.now login.now result session.old session.new) }
    // The result is 0, of `Done`, or 1, of `NoMemory`.
    ensures no_other { result < 2 }
{
    match on_heap(alloc, settings, login) {
        Ok(block) => {
            let Block { ptr, alloc: _ } = block;
            *session = ptr as *mut u8;
            0
        }
        Err(_) => 1,
    }
}

/// Closes a session, and frees what it has. Its links and calls end without a word.
#[unsafe(no_mangle)]
pub extern "C" fn slotroute_session_close(session: SessionHandle) {
    drop(session.into_box());
}

/// A session in a block of its own.
fn on_heap(
    alloc: Global,
    settings: &SessionSettings,
    login: &[u8],
) -> Result<Block<Session, Global>, AllocError>
    ensures { IfOk result (λ block. block.value ≡ opened settings.now login.now) }
{
    let session = Session::new(
        alloc,
        Settings {
            login: login.to_vec(alloc)?,
            most_reply_bytes: settings.most_reply_bytes,
            most_calls: settings.most_calls,
            most_bytes: settings.most_bytes,
            silence: match settings.silence {
                0 => None,
                time => Some(time),
            },
            retries: settings.retries,
            pause: settings.pause,
            registry: Registry::new(alloc),
            added: AddedNames::new(alloc),
            read_only: ReadOnlyNames::new(alloc),
        },
    );
    Ok(Block::of(Box::new(alloc, session)?))
}
