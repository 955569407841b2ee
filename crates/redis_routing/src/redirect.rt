ghost use Rattle.std.specs.Prelude.{◌≡◌, Some, List, ℕ, IfOk, MatchOption};
ghost use Rattle.redis_routing.specs.RedirectText.{IsSlotText, IsNodeText, TellsNode, IsRedirectText, IsNoRedirect, redirect_address};

use crate::info::Redirect;
use cluster_slots::{NodeAddress, Slot, parse_u16, split_node_address};
use std::alloc::{AllocError, Global};

impl Redirect {
    /// Reads the text of a server's error, as `MOVED 3999 127.0.0.1:6381` or `ASK 3999 ::1:7001`:
    /// the slot that it names, and where it sends the client on. `None` for each other text.
    ///
    /// The address is read as by `split_node_address`. In `MOVED 3999 :6381` the host is left out:
    /// it is then `answering`, the host of the node that sent the error, unless that is empty. In
    /// `MOVED 3999 ?:6381` it is unknown, which names no node, as in a reply to `CLUSTER SLOTS`.
    ///
    /// ```
    /// Redirect::from_error_text(alloc, "MOVED 3999 127.0.0.1:6381", "127.0.0.1")
    /// ```
    ///
    /// # Errors
    ///
    /// If memory runs out for the host.
    pub fn from_error_text(
        alloc: Global,
        text: &str,
        answering: &str,
    ) -> Result<Option<(Slot, Redirect)>, AllocError>
        ensures read { IfOk result (λ told. MatchOption told (IsNoRedirect answering.now text.now)
            (λ redirect. IsRedirectText answering.now text.now redirect.0 redirect.1)) }
    {
        if let Some(told) = text.strip_prefix("MOVED ") {
            let Some((slot, host, port)) = slot_and_node(told, answering) else {
                return Ok(None);
            };
            let address = NodeAddress::new(alloc, host, port)?;
            return Ok(Some((slot, Redirect::Moved(address))));
        }
        if let Some(told) = text.strip_prefix("ASK ") {
            let Some((slot, host, port)) = slot_and_node(told, answering) else {
                return Ok(None);
            };
            let address = NodeAddress::new(alloc, host, port)?;
            return Ok(Some((slot, Redirect::Ask(address))));
        }
        Ok(None)
    }

    /// The address that this names.
    pub fn into_address(self) -> NodeAddress
        ensures { result ≡ redirect_address self }
    {
        match self {
            Redirect::Moved(address) => address,
            Redirect::Ask(address) => address,
        }
    }
}

/// The slot, the host and the port behind the word of a redirect.
fn slot_and_node<'a>(text: &'a str, answering: &'a str) -> Option<(Slot, &'a str, u16)>
    ensures { MatchOption result
        ((slot : ℕ) (host : List ℕ) (port : ℕ)
        → ¬ (TellsNode answering.now text.now slot host port))
        (λ told. TellsNode answering.now text.now told.0 told.1.now told.2) }
{
    let (number, node) = text.split_once(' ')?;
    if node.contains(' ') {
        return None;
    }
    let slot = slot_in(number)?;
    let (host, port) = node_in(node, answering)?;
    Some((slot, host, port))
}

/// The slot that a text writes in decimal digits, without a plus.
fn slot_in(text: &str) -> Option<Slot>
    ensures { MatchOption result ((slot : ℕ) → ¬ (IsSlotText text.now slot))
        (λ slot. IsSlotText text.now slot) }
{
    if text.starts_with('+') {
        return None;
    }
    Slot::new(parse_u16(text.as_bytes())?)
}

/// The host and the port that a text names. A text with a port alone has the host `answering`.
fn node_in<'a>(text: &'a str, answering: &'a str) -> Option<(&'a str, u16)>
    ensures { MatchOption result
        ((host : List ℕ) (port : ℕ) → ¬ (IsNodeText answering.now text.now host port))
        (λ named. IsNodeText answering.now text.now named.0.now named.1) }
{
    if let Ok((host, port)) = split_node_address(text) {
        return if host == "?" {
            None
        } else {
            Some((host, port))
        };
    }
    let port = parse_u16(text.strip_prefix(':')?.as_bytes())?;
    if answering.is_empty() {
        None
    } else {
        Some((answering, port))
    }
}
