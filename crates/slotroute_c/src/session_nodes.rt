ghost use Rattle.std.specs.Prelude.{◌≡◌, ◌≢◌, ◌≤◌, ◌∷◌, [], None, Some, IsTrue, length, slice_get};
ghost use Rattle.std.specs.Str.{IsUtf8};
ghost use Rattle.redis_session.specs.Leads.{Knows};
ghost use Rattle.slotroute_c.specs.Buffers.{IsWritten};
ghost use Rattle.slotroute_c.specs.Outcomes.{code, is_one_of};
ghost use Rattle.slotroute_c.specs.SessionAddresses.{IsAddressOf};

use crate::buffers::put;
use crate::outcomes::Outcome;
use crate::session_handle::SessionHandle;
use cluster_map::NodeAddress;
use std::alloc::Global;

/// The port of a node, and the length of its host.
#[repr(C)]
#[derive(Clone, Copy)]
pub struct SessionAddress {
    /// How many bytes the host has.
    pub host_len: usize,
    /// The port of the node.
    pub port: u32,
}

/// Adds a node by its host and its port, and writes its number to `node`. The node needs a link then.
/// A node that is known keeps its number.
///
/// # Errors
///
/// `NotText` if the host is not UTF-8. `NotThere` if all numbers are taken. `NoMemory` if memory runs
/// out.
#[unsafe(no_mangle)]
pub extern "C" fn slotroute_session_add_node(
    alloc: Global,
    session: &mut SessionHandle,
    host: &[u8],
    port: u16,
    node: &mut usize,
) -> u32
    // Links and calls stay.
    ensures knows { Knows (λ known. known ≡ record { host = host.now; port = port }) session.old.value session.new.value }
    ensures known { result ≡ code Outcome.Done
        → slice_get session.new.value.directory.nodes node.new ≡ Some (record { host = host.now; port = port }) }
    ensures unchanged { result ≢ code Outcome.Done → session.new.value ≡ session.old.value }
    ensures taken { result ≡ code Outcome.NotThere → 65534 ≤ length session.old.value.directory.nodes }
    ensures utf8 { ¬ (IsUtf8 host.now) → result ≡ code Outcome.NotText }
    ensures unwritten { result ≢ code Outcome.Done → node.new ≡ node.old }
    ensures no_other { IsTrue (is_one_of result (Outcome.Done ∷ Outcome.NoMemory ∷ Outcome.NotText
        ∷ Outcome.NotThere ∷ [])) }
{
    let Ok(host) = str::from_utf8(host) else {
        return Outcome::NotText.code();
    };
    let Ok(address) = NodeAddress::new(alloc, host, port) else {
        return Outcome::NoMemory.code();
    };
    match session.get_mut().add_node(&address) {
        Ok(Some(number)) => {
            *node = number;
            Outcome::Done.code()
        }
        Ok(None) => Outcome::NotThere.code(),
        Err(_) => Outcome::NoMemory.code(),
    }
}

/// Writes the number of a node that needs a link to `node`. Each is named once.
///
/// # Errors
///
/// `NotThere` if no node needs one.
#[unsafe(no_mangle)]
pub extern "C" fn slotroute_session_wanted_node(
    session: &mut SessionHandle,
    node: &mut usize,
) -> u32
    ensures unchanged { session.new.value ≡ session.old.value }
    ensures unwritten { result ≢ code Outcome.Done → node.new ≡ node.old }
    ensures no_other { IsTrue (is_one_of result (Outcome.Done ∷ Outcome.NotThere ∷ [])) }
{
    match session.get_mut().wanted_node() {
        Some(number) => {
            *node = number;
            Outcome::Done.code()
        }
        None => Outcome::NotThere.code(),
    }
}

/// Writes the host of a node to `host`, and the rest of its address to `address`.
///
/// # Errors
///
/// `NotThere` if no node has this number. `TooSmall` if the host does not fit: `address.host_len` is
/// its length.
#[unsafe(no_mangle)]
pub extern "C" fn slotroute_session_address(
    session: &mut SessionHandle,
    node: usize,
    host: &mut [u8],
    address: &mut SessionAddress,
) -> u32
    ensures unchanged { session.new.value ≡ session.old.value }
    ensures told { result ≡ code Outcome.Done
        → IsAddressOf node session.old.value.directory.nodes host.old host.new address.new }
    ensures unknown { result ≡ code Outcome.NotThere
        → slice_get session.old.value.directory.nodes node ≡ None }
    ensures unwritten { result ≢ code Outcome.Done → host.new ≡ host.old }
    ensures untold { result ≡ code Outcome.NotThere → address.new ≡ address.old }
    ensures no_other { IsTrue (is_one_of result (Outcome.Done ∷ Outcome.TooSmall ∷ Outcome.NotThere
        ∷ [])) }
{
    match session.get_mut().address(node) {
        Some(found) => tell(found, host, address).code(),
        None => Outcome::NotThere.code(),
    }
}

/// Writes an address to `told`, and its host to `host` if it fits.
fn tell(address: &NodeAddress, host: &mut [u8], told: &mut SessionAddress) -> Outcome
    ensures told { told.new ≡ record { host_len = length address.now.host; port = address.now.port } }
    ensures host { result ≡ Outcome.Done → IsWritten address.now.host host.old host.new }
    ensures unwritten { result ≢ Outcome.Done → (result ≡ Outcome.TooSmall)
        × (host.new ≡ host.old) }
{
    let named = address.host().as_bytes();
    *told = SessionAddress {
        host_len: named.len(),
        port: u32::from(address.port()),
    };
    if host.len() < named.len() {
        return Outcome::TooSmall;
    }
    put(host, named);
    Outcome::Done
}
