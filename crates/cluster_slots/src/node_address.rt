ghost use Rattle.std.specs.Prelude.{◌≡◌, ◌<◌, ◌^◌, ◌++◌, ◌⊎◌, ◌↔◌, [], Some, IsTrue, IfOk, IfErr, MatchOption};
ghost use Rattle.std.specs.Ordering.{as_partial_cmp};
ghost use Rattle.std.specs.Hash as hashed;
ghost use Rattle.std.specs.Arc.{arc_str_bytes};
ghost use Rattle.std.specs.Cmp.{partial_order_from_own_ties};
ghost use Rattle.std.specs.Cmp.Rules.{comparing, hashing};
ghost use Rattle.std.proofs.Common.{rules, refl};
ghost use Rattle.resp_core.specs.ErrorParts.{out_of_memory};
ghost use Rattle.cluster_slots.specs.Address.{Address, display_text, same_address, address_cmp};
ghost use Rattle.cluster_slots.specs.Number.{number_in};
ghost use Rattle.cluster_slots.specs.AddressText.{IsAddressText, IsNoAddress, IsPlainHost, invalid_node_string};

use crate::host_text::HostText;
use resp_core::{ErrorKind, RedisError, RedisResult};
use std::alloc::{AllocError, Global};
use std::cmp::Ordering;
use std::fmt;
use std::hash::{Hash, Hasher};
use std::marker::Model;
use std::sync::ArcStr;

/// The address of a node: a host and a port. A host text of at most 16 bytes takes no memory.
/// Clones share a longer one.
///
/// Addresses are ordered by the bytes of the host, then by port. `Display` and `Debug` print
/// `host:port`.
///
/// ```
/// let low = NodeAddress::try_from(alloc, "10.0.0.1:6379")?;
/// let high = NodeAddress::try_from(alloc, "10.0.0.2:6379")?;
/// ```
#[derive(Drop)]
pub struct NodeAddress {
    host: HostText,
    port: u16,
}

impl Model for NodeAddress {
    ghost use Rattle.cluster_slots.specs.Address.{Address};

    ghost Value = { Address };

    ghost view = { λ a. record { host = a.host; port = a.port } };
}

impl NodeAddress {
    /// The address of a host and a port. The host is taken as it is.
    ///
    /// # Errors
    ///
    /// If memory runs out.
    pub fn new(alloc: Global, host: &str, port: u16) -> Result<Self, AllocError>
        ensures { IfOk result (λ a. a ≡ record { host = host.now; port = port }) }
    {
        Ok(NodeAddress {
            host: HostText::new(alloc, host)?,
            port,
        })
    }

    /// The address of a host whose text is shared, and a port.
    pub fn from_parts(host: ArcStr, port: u16) -> Self
        ensures { result ≡ record { host = arc_str_bytes host; port = port } }
    {
        let host = HostText::shared(host);
        NodeAddress { host, port }
    }

    /// The empty host and port 0.
    ///
    /// # Errors
    ///
    /// If memory runs out.
    pub fn default(alloc: Global) -> Result<Self, AllocError>
        ensures { IfOk result (λ a. a ≡ record { host = []; port = 0 }) }
    {
        NodeAddress::new(alloc, "", 0)
    }

    /// Reads a text as `split_node_address` does.
    ///
    /// # Errors
    ///
    /// Kind `InvalidClientConfig` and text `Invalid node string` for a text that names no address;
    /// kind `OutOfMemory` if memory runs out for the host.
    pub fn try_from(alloc: Global, text: &str) -> RedisResult<Self>
        ensures read { IfOk result (λ a. IsAddressText text.now a.host a.port) }
        ensures refused { IfErr result (λ e. ((e ≡ invalid_node_string) × IsNoAddress text.now)
            ⊎ (e ≡ out_of_memory)) }
        ensures invalid { IsNoAddress text.now → IfErr result (λ e. e ≡ invalid_node_string) }
    {
        let (host, port) = split_node_address(text)?;
        Ok(NodeAddress::new(alloc, host, port)?)
    }

    /// The host, a name or an IP address, without the brackets that `try_from` accepts.
    pub fn host(&self) -> &str
        ensures { result.now ≡ self.now.host }
    {
        self.host.as_str()
    }

    /// The port, 0 to 65535.
    pub fn port(&self) -> u16
        ensures { result ≡ self.now.port }
    {
        self.port
    }

    /// Whether the text names this address. `false` for a text that names none.
    pub fn matches_text(&self, text: &str) -> bool
        ensures { IsTrue result ↔ IsAddressText text.now self.now.host self.now.port }
    {
        match host_and_port(text) {
            Some((host, port)) => host == self.host() && port == self.port(),
            None => false,
        }
    }
}

impl Clone for NodeAddress {
    ghost is_clone = { λ a b. b ≡ a };

    fn clone(&self) -> Result<Self, AllocError> {
        Ok(NodeAddress {
            host: self.host.clone()?,
            port: self.port,
        })
    }
}

impl fmt::Display for NodeAddress {
    ghost output = { λ a. Some (display_text a) };

    fn fmt<W: fmt::Write>(&self, f: &mut fmt::Formatter<W>) -> fmt::Result {
        let host = self.host();
        let port = self.port;
        write!(f, "{host}:{port}")
    }
}

impl fmt::Debug for NodeAddress {
    ghost debug_output = { λ a. Some (display_text a) };

    fn fmt<W: fmt::Write>(&self, f: &mut fmt::Formatter<W>) -> fmt::Result {
        let host = self.host();
        let port = self.port;
        write!(f, "{host}:{port}")
    }
}

impl PartialEq for NodeAddress {
    ghost eq = { same_address };

    ghost laws = { Prim.search (comparing, rules) };

    fn eq(&self, other: &Self) -> bool
        ensures value { result ≡ same_address self.now other.now }
        ensures same { IsTrue result ↔ (self.now ≡ other.now) }
    {
        self.host() == other.host() && self.port == other.port
    }
}

impl Eq for NodeAddress {
    ghost laws = { Prim.search (comparing, rules) };
}

impl PartialOrd for NodeAddress {
    ghost partial_cmp = { as_partial_cmp address_cmp };

    ghost laws = { partial_order_from_own_ties
        (Prim.search (comparing, rules)) (Prim.search (comparing, rules)) };

    fn partial_cmp(&self, other: &Self) -> Option<Ordering> {
        Some(self.cmp(other))
    }
}

impl Ord for NodeAddress {
    ghost cmp = { address_cmp };

    ghost total = { Prim.search (comparing, rules) };

    ghost matches_partial_cmp = { λ x y. refl };

    ghost matches_eq = { Prim.search (comparing, rules) };

    fn cmp(&self, other: &Self) -> Ordering
        ensures value { result ≡ address_cmp self.now other.now }
        ensures equal { (result ≡ Ordering.Equal) ↔ (self.now ≡ other.now) }
    {
        let hosts = self.host().cmp(other.host());
        hosts.then(self.port.cmp(&other.port))
    }
}

impl Hash for NodeAddress {
    ghost hash_input = { λ a. hashed.str a.host ++ hashed.u16 a.port };

    ghost respects_eq = { Prim.search (hashing, rules) };

    fn hash<H: Hasher>(&self, state: &mut H) {
        self.host().hash(state);
        self.port.hash(state);
    }
}

/// The host and the port that a text names.
///
/// The text is cut at its last colon. All `[` before the host and all `]` after it are dropped, and
/// the host must not be empty. The port is a decimal number up to 65535, with or without a `+`.
///
/// # Errors
///
/// Kind `InvalidClientConfig` and text `Invalid node string`. No memory is taken.
pub fn split_node_address(text: &str) -> RedisResult<(&str, u16)>
    ensures read { IfOk result (λ named. IsAddressText text.now named.0.now named.1) }
    ensures refused { IfErr result (λ e. (e ≡ invalid_node_string) × IsNoAddress text.now) }
    // The printed form of an address names it exactly if its host is a plain one.
    ensures printed { (a : Address) → a.port < 2 ^ 16 → text.now ≡ display_text a
        → (IsAddressText text.now a.host a.port ↔ IsPlainHost a.host) }
{
    let invalid = (ErrorKind::InvalidClientConfig, "Invalid node string");
    host_and_port(text).ok_or(RedisError::from(invalid))
}

/// The host without brackets, and the port after the last colon.
fn host_and_port(text: &str) -> Option<(&str, u16)>
    ensures { MatchOption result (IsNoAddress text.now)
        (λ named. IsAddressText text.now named.0.now named.1) }
{
    let (left, right) = text.rsplit_once(':')?;
    let host = left.trim_start_matches('[').trim_end_matches(']');
    if host.is_empty() {
        return None;
    }
    let port = port_number(right)?;
    Some((host, port))
}

fn port_number(text: &str) -> Option<u16>
    ensures { result ≡ number_in 16 text.now }
{
    match text.parse() {
        Ok(number) => Some(number),
        Err(_) => None,
    }
}
