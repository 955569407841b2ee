ghost use Rattle.std.specs.Prelude.{◌≡◌, ◌≢◌, ◌<◌, ◌∷◌, [], None, IsTrue, length, slice_get, take};
ghost use Rattle.session_core.specs.State.{IsLink, On};
ghost use Rattle.session_core.specs.LinkEvents as events;
ghost use Rattle.session_core.specs.declared.link.Standing.TheVariants as Standing;
ghost use Rattle.session_core.specs.Channel.{Channel, to_write};
ghost use Rattle.redis_session.specs.Leads.{ConnectsNot, Does, Ends, Hears, HearsNot, IsOpen, Opens};
ghost use Rattle.slotroute_c.specs.Buffers.{IsWritten};
ghost use Rattle.slotroute_c.specs.Outcomes.{code, is_one_of};

use crate::buffers::put;
use crate::outcomes::Outcome;
use crate::session_handle::SessionHandle;
use std::alloc::Global;

/// Notes a new connection to a node, and writes the number of its link to `link`.
///
/// # Errors
///
/// `NotThere` if no node has this number. `NoMemory` if memory runs out: there is no link, and the
/// connection is to be closed.
#[unsafe(no_mangle)]
pub extern "C" fn slotroute_session_connected(
    alloc: Global,
    session: &mut SessionHandle,
    node: usize,
    link: &mut usize,
) -> u32
    ensures done { result ≡ code Outcome.Done
        → Opens link.new node session.old.value session.new.value }
    ensures no_memory { result ≡ code Outcome.NoMemory
        → ConnectsNot session.old.value session.new.value }
    ensures not_there { result ≡ code Outcome.NotThere → session.new.value ≡ session.old.value }
    ensures unknown { result ≡ code Outcome.NotThere
        → slice_get session.old.value.directory.nodes node ≡ None }
    ensures unwritten { result ≢ code Outcome.Done → link.new ≡ link.old }
    ensures no_other { IsTrue (is_one_of result (Outcome.Done ∷ Outcome.NoMemory
        ∷ Outcome.NotThere ∷ [])) }
{
    let session = session.get_mut();
    if session.address(node).is_none() {
        return Outcome::NotThere.code();
    }
    match session.connected(alloc, node) {
        Ok(number) => {
            *link = number;
            Outcome::Done.code()
        }
        Err(_) => Outcome::NoMemory.code(),
    }
}

/// Notes that no connection to a node could be made. The parts that wait for it pause.
///
/// # Errors
///
/// `NotThere` if no node has this number.
#[unsafe(no_mangle)]
pub extern "C" fn slotroute_session_unreachable(session: &mut SessionHandle, node: usize) -> u32
    ensures unchanged { session.new.value ≡ session.old.value }
    ensures no_other { IsTrue (is_one_of result (Outcome.Done ∷ Outcome.NotThere ∷ [])) }
{
    let session = session.get_mut();
    if session.address(node).is_none() {
        return Outcome::NotThere.code();
    }
    session.unreachable(node);
    Outcome::Done.code()
}

/// Writes the number of a link on which something was asked to `link`. It has bytes to be written, and is
/// named once after that.
///
/// # Errors
///
/// `NotThere` if nothing was asked.
#[unsafe(no_mangle)]
pub extern "C" fn slotroute_session_link_to_write(
    session: &mut SessionHandle,
    link: &mut usize,
) -> u32
    ensures unchanged { session.new.value ≡ session.old.value }
    ensures unwritten { result ≢ code Outcome.Done → link.new ≡ link.old }
    ensures no_other { IsTrue (is_one_of result (Outcome.Done ∷ Outcome.NotThere ∷ [])) }
{
    match session.get_mut().link_to_write() {
        Some(number) => {
            *link = number;
            Outcome::Done.code()
        }
        None => Outcome::NotThere.code(),
    }
}

/// How many bytes are to be written on a link. The first of them are written to `bytes`, as many as
/// fit.
#[unsafe(no_mangle)]
pub extern "C" fn slotroute_session_unwritten(
    session: &mut SessionHandle,
    link: usize,
    bytes: &mut [u8],
) -> usize
    ensures unchanged { session.new.value ≡ session.old.value }
    ensures len { (c : Channel) → IsLink session.old.value.machine link c
        → result ≡ length (to_write c.standing c.unwritten) }
    ensures written { (c : Channel) → IsLink session.old.value.machine link c
        → IsWritten (take (length bytes.old) (to_write c.standing c.unwritten)) bytes.old bytes.new }
    ensures none { ((c : Channel) → IsLink session.old.value.machine link c → ⊥)
        → (result ≡ 0) × (bytes.new ≡ bytes.old) }
{
    copied(session.get_mut().unwritten(link), bytes)
}

/// Writes the first of some items to a buffer, as many as fit. Returns how many there are.
fn copied(found: &[u8], buffer: &mut [u8]) -> usize
    ensures len { result ≡ length found.now }
    ensures written { IsWritten (take (length buffer.old) found.now) buffer.old buffer.new }
{
    let count = found.len().min(buffer.len());
    put(buffer, &found[..count]);
    found.len()
}

/// Notes that `count` bytes more were written on a link.
///
/// # Errors
///
/// `NotThere` if not so many were to be written.
#[unsafe(no_mangle)]
pub extern "C" fn slotroute_session_wrote(
    session: &mut SessionHandle,
    link: usize,
    count: usize,
) -> u32
    ensures done { result ≡ code Outcome.Done
        → Does (On link (events.Write count)) session.old.value session.new.value }
    ensures not_there { result ≡ code Outcome.NotThere → session.new.value ≡ session.old.value }
    ensures too_many { result ≡ code Outcome.NotThere → (c : Channel)
        → IsLink session.old.value.machine link c → c.standing ≢ Standing.Ended
        → length c.unwritten < count }
    ensures no_other { IsTrue (is_one_of result (Outcome.Done ∷ Outcome.NotThere ∷ [])) }
{
    if session.get_mut().wrote(link, count) {
        Outcome::Done.code()
    } else {
        Outcome::NotThere.code()
    }
}

/// Takes what was read on a link. Nothing changes if the link is not open.
///
/// # Errors
///
/// `NoMemory` if memory runs out. If the bytes were not kept, the link is to be closed. Else a call
/// without bytes goes on.
#[unsafe(no_mangle)]
pub extern "C" fn slotroute_session_read(
    alloc: Global,
    session: &mut SessionHandle,
    link: usize,
    bytes: &[u8],
) -> u32
    ensures done { result ≡ code Outcome.Done → IsOpen session.old.value link
        → Hears link bytes.now session.old.value session.new.value }
    ensures no_memory { result ≡ code Outcome.NoMemory → IsOpen session.old.value link
        → HearsNot link bytes.now session.old.value session.new.value }
    ensures not_open { (IsOpen session.old.value link → ⊥)
        → (result ≡ code Outcome.Done) × (session.new.value ≡ session.old.value) }
    ensures no_other { IsTrue (is_one_of result (Outcome.Done ∷ Outcome.NoMemory ∷ [])) }
{
    match session.get_mut().read(alloc, link, bytes) {
        Ok(()) => Outcome::Done.code(),
        Err(_) => Outcome::NoMemory.code(),
    }
}

/// Notes that the connection of a link ended, or was closed. Its number may be given to another link.
///
/// # Errors
///
/// `NoMemory` if memory runs out for requests that are asked now. A later call asks them.
#[unsafe(no_mangle)]
pub extern "C" fn slotroute_session_ended(
    alloc: Global,
    session: &mut SessionHandle,
    link: usize,
) -> u32
    ensures ends { Ends link session.old.value session.new.value }
    ensures no_other { IsTrue (is_one_of result (Outcome.Done ∷ Outcome.NoMemory ∷ [])) }
{
    match session.get_mut().ended(alloc, link) {
        Ok(()) => Outcome::Done.code(),
        Err(_) => Outcome::NoMemory.code(),
    }
}

/// Writes the number of a link that is to be closed to `link`.
///
/// # Errors
///
/// `NotThere` if none is.
#[unsafe(no_mangle)]
pub extern "C" fn slotroute_session_link_to_close(
    session: &mut SessionHandle,
    link: &mut usize,
) -> u32
    ensures unchanged { session.new.value ≡ session.old.value }
    ensures unwritten { result ≢ code Outcome.Done → link.new ≡ link.old }
    ensures no_other { IsTrue (is_one_of result (Outcome.Done ∷ Outcome.NotThere ∷ [])) }
{
    match session.get_mut().link_to_close() {
        Some(number) => {
            *link = number;
            Outcome::Done.code()
        }
        None => Outcome::NotThere.code(),
    }
}
