ghost use Rattle.std.specs.Prelude.{◌≡◌, ◌≢◌, ◌<◌, ◌⊎◌, ◌∷◌, [], ℕ, IsTrue, length};
ghost use Rattle.std.specs.Str.{IsUtf8};
ghost use Rattle.redis_routing.specs.RedirectText.{IsRedirectText, IsNoRedirect, redirect_address};
ghost use Rattle.redis_routing.specs.declared.info.Redirect as declared;
ghost use Rattle.slotroute_c.specs.Outcomes.{code, is_one_of};
ghost use Rattle.slotroute_c.specs.Buffers.{IsWritten};
ghost use Rattle.slotroute_c.specs.Redirected.{redirect_numbers};

use crate::buffers::put;
use crate::outcomes::Outcome;
use cluster_slots::Slot;
use redis_routing::Redirect;
use std::alloc::Global;

/// A redirect without its host.
#[repr(C)]
#[derive(Clone, Copy)]
pub struct RedirectNumbers {
    /// 1: the slot has moved. 2: this command alone goes there, after `ASKING`.
    pub kind: u32,
    /// The slot that the text names.
    pub slot: u32,
    /// The port of the node that the text names.
    pub port: u32,
    /// How many bytes the host has.
    pub host_len: usize,
}

/// Reads the text of an error, as `MOVED 3999 127.0.0.1:6381`. Writes its host to `host`, and the
/// rest to `redirected`. `answering` is the host of the node that sent the error, for a text without
/// a host.
///
/// # Errors
///
/// `NotText` if the text or `answering` is not UTF-8. `NoRedirect` if the text is no redirect.
/// `TooSmall` if the host does not fit: `redirected.host_len` is its length. `NoMemory` if memory
/// runs out.
#[unsafe(no_mangle)]
pub extern "C" fn slotroute_redirect(
    alloc: Global,
    text: &[u8],
    answering: &[u8],
    host: &mut [u8],
    redirected: &mut RedirectNumbers,
) -> u32
    ensures done { result ≡ code Outcome.Done → (slot : ℕ) × (redirect : declared.Redirect)
        × IsRedirectText answering.now text.now slot redirect
        × (redirected.new ≡ redirect_numbers slot redirect)
        × IsWritten (redirect_address redirect).host host.old host.new }
    ensures too_small { result ≡ code Outcome.TooSmall → (slot : ℕ) × (redirect : declared.Redirect)
        × IsRedirectText answering.now text.now slot redirect
        × (redirected.new ≡ redirect_numbers slot redirect)
        × (length host.old < length (redirect_address redirect).host) }
    ensures no_redirect { result ≡ code Outcome.NoRedirect → IsNoRedirect answering.now text.now }
    ensures not_text { result ≡ code Outcome.NotText
        → ¬ (IsUtf8 text.now) ⊎ ¬ (IsUtf8 answering.now) }
    ensures utf8 { ¬ (IsUtf8 text.now) ⊎ ¬ (IsUtf8 answering.now)
        → result ≡ code Outcome.NotText }
    ensures no_other { IsTrue (is_one_of result (Outcome.Done ∷ Outcome.NoMemory ∷ Outcome.TooSmall
        ∷ Outcome.NotText ∷ Outcome.NoRedirect ∷ [])) }
    ensures unwritten { result ≢ code Outcome.Done → host.new ≡ host.old }
    ensures untold { result ≢ code Outcome.Done → result ≢ code Outcome.TooSmall
        → redirected.new ≡ redirected.old }
{
    let Ok(text) = str::from_utf8(text) else {
        return Outcome::NotText.code();
    };
    let Ok(answering) = str::from_utf8(answering) else {
        return Outcome::NotText.code();
    };
    match Redirect::from_error_text(alloc, text, answering) {
        Ok(Some((slot, redirect))) => tell(slot, &redirect, host, redirected).code(),
        Ok(None) => Outcome::NoRedirect.code(),
        Err(_) => Outcome::NoMemory.code(),
    }
}

/// Writes a redirect to `told`, and its host to `host` if it fits.
fn tell(slot: Slot, redirect: &Redirect, host: &mut [u8], told: &mut RedirectNumbers) -> Outcome
    ensures told { told.new ≡ redirect_numbers slot redirect.now }
    ensures done { result ≡ Outcome.Done
        → IsWritten (redirect_address redirect.now).host host.old host.new }
    ensures too_small { result ≢ Outcome.Done → (result ≡ Outcome.TooSmall)
        × (length host.old < length (redirect_address redirect.now).host)
        × (host.new ≡ host.old) }
{
    let (kind, address) = match redirect {
        Redirect::Moved(address) => (1, address),
        Redirect::Ask(address) => (2, address),
    };
    let named = address.host().as_bytes();
    *told = RedirectNumbers {
        kind,
        slot: u32::from(slot.number()),
        port: u32::from(address.port()),
        host_len: named.len(),
    };
    if host.len() < named.len() {
        return Outcome::TooSmall;
    }
    put(host, named);
    Outcome::Done
}
