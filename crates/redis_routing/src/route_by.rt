ghost use Rattle.std.specs.Prelude.{◌≡◌, Some, map, option_and_then};
ghost use Rattle.redis_routing.specs.Places.{value_at};
ghost use Rattle.redis_routing.specs.RouteBy.{base_routing};
ghost use Rattle.redis_routing.specs.Policies.{policy_of};
ghost use Rattle.redis_routing.specs.declared.tables.TheConstants.{NAMES_A_TO_C, NAMES_D_TO_L, NAMES_M_TO_S, NAMES_T_TO_Z};

use super::lookup::{name_hash, row_of, value_at};
use super::places::NAME_PLACES;
use super::policy::ResponsePolicy;
use super::tables::{NAMES_A_TO_C, NAMES_D_TO_L, NAMES_M_TO_S, NAMES_T_TO_Z};
use cluster_slots::MultiSlotArgPattern;

/// Where the commands of a name go. Arguments are counted from 0, the first word of the command.
#[derive(Clone, Copy, Debug, PartialEq, Eq)]
pub enum RouteBy {
    /// To each node: `CONFIG SET maxmemory 100mb`.
    AllNodes,
    /// To each primary: `DBSIZE`.
    AllMasters,
    /// Split by slot: `MGET key1 key2`.
    MultiSlot(MultiSlotArgPattern),
    /// To no node: which one is meant, the caller has to say: `SCAN 0`, `SHUTDOWN`.
    Undefined,
    /// A number of keys at this argument, and the first key after it: `EVAL script 1 key`.
    CountAt(u8),
    /// The key is this argument: `BITOP AND dest key`.
    KeyAt(u8),
    /// The key follows the argument STREAMS: `XREAD COUNT 2 STREAMS key 0`.
    KeyAfterStreams,
    /// To any node: `ECHO hello`.
    Random,
    /// A slot number is this argument: `CLUSTER COUNTKEYSINSLOT 7`.
    SlotAt(u8),
}

/// How commands of a name are routed, given in upper case as `Routable::command` gives it. `None`
/// is for most names, whose key is argument 1.
pub fn base_routing(name: &[u8]) -> Option<RouteBy>
    ensures { result ≡ base_routing name.now }
{
    routing_and_policy(name).0
}

/// How commands of a name are routed, as `base_routing` has it, and how the replies to them make
/// one, as `ResponsePolicy::for_command` has it: one look-up for both.
#[inline(always)]
pub fn routing_and_policy(name: &[u8]) -> (Option<RouteBy>, Option<ResponsePolicy>)
    ensures routing { result.0 ≡ base_routing name.now }
    ensures policy { result.1 ≡ policy_of name.now }
{
    match in_tables(name) {
        Some((route_by, policy)) => (Some(route_by), policy),
        None => (None, None),
    }
}

/// What the tables say of a name. It is inlined, so that what a caller does not read is not loaded.
#[inline(always)]
fn in_tables(name: &[u8]) -> Option<(RouteBy, Option<ResponsePolicy>)>
    ensures routing { option_and_then (λ row. Some row.0) result ≡ base_routing name.now }
    ensures policy { option_and_then (λ row. row.1) result ≡ policy_of name.now }
{
    let row = row_of(&NAME_PLACES, name_hash(name));
    if row < 53 {
        return in_a_to_c(row, name);
    }
    if row < 89 {
        return in_d_to_l(row - 53, name);
    }
    if row < 128 {
        return in_m_to_s(row - 89, name);
    }
    in_t_to_z(row - 128, name)
}

/// What this row has for a name, of the rows of names that begin with A to C.
#[inline(always)]
fn in_a_to_c(row: usize, name: &[u8]) -> Option<(RouteBy, Option<ResponsePolicy>)>
    ensures { result ≡ value_at (map (λ row. (row.0.now, row.1)) NAMES_A_TO_C) row name.now }
{
    value_at(&NAMES_A_TO_C, row, name)
}

/// What this row has for a name, of the rows of names that begin with D to L.
#[inline(always)]
fn in_d_to_l(row: usize, name: &[u8]) -> Option<(RouteBy, Option<ResponsePolicy>)>
    ensures { result ≡ value_at (map (λ row. (row.0.now, row.1)) NAMES_D_TO_L) row name.now }
{
    value_at(&NAMES_D_TO_L, row, name)
}

/// What this row has for a name, of the rows of names that begin with M to S.
#[inline(always)]
fn in_m_to_s(row: usize, name: &[u8]) -> Option<(RouteBy, Option<ResponsePolicy>)>
    ensures { result ≡ value_at (map (λ row. (row.0.now, row.1)) NAMES_M_TO_S) row name.now }
{
    value_at(&NAMES_M_TO_S, row, name)
}

/// What this row has for a name, of the rows of names that begin with T to Z.
#[inline(always)]
fn in_t_to_z(row: usize, name: &[u8]) -> Option<(RouteBy, Option<ResponsePolicy>)>
    ensures { result ≡ value_at (map (λ row. (row.0.now, row.1)) NAMES_T_TO_Z) row name.now }
{
    value_at(&NAMES_T_TO_Z, row, name)
}
