ghost use Rattle.std.specs.Prelude.{◌≡◌, ◌≢◌, ◌<◌, [], ℕ, List, IfOk, IfErr, length};
ghost use Rattle.redis_routing.specs.Names.{names_of};
ghost use Rattle.redis_bytes.specs.declared.fault.BytesFault as faults;
ghost use Rattle.redis_bytes.specs.declared.splitting.Parts as declared;
ghost use Rattle.redis_bytes.specs.Requests.{IsUnsplit};
ghost use Rattle.redis_bytes.specs.Replies.{IsUncombined};
ghost use Rattle.slotroute_c.specs.Outcomes.{code};
ghost use Rattle.slotroute_c.specs.Buffers.{IsWritten};
ghost use Rattle.slotroute_c.specs.Fields.{with_bytes};
ghost use Rattle.slotroute_c.specs.Faults.{outcome_of, with_fault};
ghost use Rattle.slotroute_c.specs.Named.{FailsBy};
ghost use Rattle.slotroute_c.specs.Parts.{route_slots, with_parts, ArePartsOfRequest, IsReplyToRequest, IsTooSmall};

use crate::buffers::put_all;
use crate::faults::code_of;
use crate::outcomes::Outcome;
use crate::told::Told;
use cluster_slots::Route;
use redis_bytes::{BytesFault, Parts, registry_in};
use redis_routing::{Names, ReadOnlyNames};
use std::alloc::{AllocError, Global};

/// Splits a request by slot. Writes each part's slot to `slots`, the end of its bytes to `ends`,
/// and its bytes, a request of their own, to `out`. `told` has the number of parts and of bytes.
/// `names` registers names of a module's commands, as `redis_bytes::registry_in` reads them.
///
/// # Errors
///
/// In this order: `BadName` for the first line of `names` that registers no name.
/// `RequestIncomplete`, `RequestMalformed` and `AfterRequest` if the bytes are not one request. `NotMultiKey` if the request is not split by slot. `TooSmall` if a buffer is too
/// small for what `told` says. `NoMemory` if memory runs out.
#[unsafe(no_mangle)]
pub extern "C" fn slotroute_split(
    alloc: Global,
    request: &[u8],
    names: &[u8],
    slots: &mut [u16],
    ends: &mut [usize],
    out: &mut [u8],
    told: &mut Told,
) -> u32
    ensures done { result ≡ code Outcome.Done → (parts : declared.Parts)
        × ArePartsOfRequest names.now request.now parts × (told.new ≡ with_parts parts told.old)
        × IsWritten (route_slots parts.routes.items) slots.old slots.new
        × IsWritten parts.ends.items ends.old ends.new
        × IsWritten parts.bytes.items out.old out.new }
    ensures too_small { result ≡ code Outcome.TooSmall → (parts : declared.Parts)
        × ArePartsOfRequest names.now request.now parts × (told.new ≡ with_parts parts told.old)
        × IsTooSmall parts (length slots.old) (length ends.old) (length out.old) }
    ensures fault { result ≢ code Outcome.Done → result ≢ code Outcome.TooSmall
        → (fault : faults.BytesFault) × (result ≡ code (outcome_of fault))
        × FailsBy names.now (λ registered. IsUnsplit (names_of [] registered) request.now) fault
        × (told.new ≡ with_fault fault told.old) }
    ensures unwritten { result ≢ code Outcome.Done → (slots.new ≡ slots.old)
        × (ends.new ≡ ends.old) × (out.new ≡ out.old) }
{
    let parts = match parts_of(alloc, request, names) {
        Ok(parts) => parts,
        Err(fault) => return code_of(&fault, told),
    };
    let Ok(found) = slots_in(alloc, &parts.routes) else {
        return code_of(&BytesFault::Memory, told);
    };
    told.parts = parts.routes.len();
    told.bytes = parts.bytes.len();
    if slots.len() < parts.routes.len() {
        return Outcome::TooSmall.code();
    }
    if ends.len() < parts.ends.len() {
        return Outcome::TooSmall.code();
    }
    if out.len() < parts.bytes.len() {
        return Outcome::TooSmall.code();
    }
    put_all(slots, &found);
    put_all(ends, &parts.ends);
    put_all(out, &parts.bytes);
    Outcome::Done.code()
}

/// The parts of a request.
fn parts_of(alloc: Global, request: &[u8], names: &[u8]) -> Result<Parts, BytesFault>
    ensures parts { IfOk result (λ parts. ArePartsOfRequest names.now request.now parts) }
    ensures fault { IfErr result
        (FailsBy names.now (λ registered. IsUnsplit (names_of [] registered) request.now)) }
{
    let (read_only, registry) = (ReadOnlyNames::new(alloc), registry_in(alloc, names)?);
    let names = Names {
        read_only: &read_only,
        registry: &registry,
    };
    redis_bytes::split(alloc, request, names)
}

/// The slot of each route.
fn slots_in(alloc: Global, routes: &[Route]) -> Result<Vec<u16>, AllocError>
    ensures slots { IfOk result (λ slots. slots.items ≡ route_slots routes.now) }
    ensures count { IfOk result (λ slots. length slots.items ≡ length routes.now) }
{
    let mut slots = Vec::with_capacity(alloc, routes.len())?;
    for route in routes {
        slots.push(route.slot())?;
    }
    Ok(slots)
}

/// Writes the one reply to a request, combined from the replies to its parts. `replies` has these
/// in the order of the parts. `told` has the number of bytes.
///
/// # Errors
///
/// In this order: the codes of `slotroute_split` for the request. `ReplyIncomplete`,
/// `ReplyMalformed`, `ReplyTooDeep` or `ReplyIsError` for the first reply that is no value, with
/// its number in `told`. `AfterReplies` if bytes follow the last one. `Unfit` if the replies do not
/// fit the command. `TooSmall` if the one reply does not fit. `NoMemory` if memory runs out.
#[unsafe(no_mangle)]
pub extern "C" fn slotroute_combine(
    alloc: Global,
    request: &[u8],
    names: &[u8],
    replies: &[u8],
    out: &mut [u8],
    told: &mut Told,
) -> u32
    ensures done { result ≡ code Outcome.Done → (combined : List ℕ)
        × IsReplyToRequest names.now request.now replies.now combined
        × IsWritten combined out.old out.new
        × (told.new ≡ with_bytes (length combined) told.old) }
    ensures too_small { result ≡ code Outcome.TooSmall → (combined : List ℕ)
        × IsReplyToRequest names.now request.now replies.now combined
        × (length out.old < length combined)
        × (told.new ≡ with_bytes (length combined) told.old) }
    ensures fault { result ≢ code Outcome.Done → result ≢ code Outcome.TooSmall
        → (fault : faults.BytesFault) × (result ≡ code (outcome_of fault))
        × FailsBy names.now
        (λ registered. IsUncombined (names_of [] registered) request.now replies.now) fault
        × (told.new ≡ with_fault fault told.old) }
    ensures form { result ≢ code Outcome.NoForm }
    ensures unwritten { result ≢ code Outcome.Done → out.new ≡ out.old }
{
    let reply = match one_reply(alloc, request, names, replies) {
        Ok(reply) => reply,
        Err(fault) => return code_of(&fault, told),
    };
    told.bytes = reply.len();
    if out.len() < reply.len() {
        return Outcome::TooSmall.code();
    }
    put_all(out, &reply);
    Outcome::Done.code()
}

/// The one reply to a request, by the replies to its parts.
fn one_reply(
    alloc: Global,
    request: &[u8],
    names: &[u8],
    replies: &[u8],
) -> Result<Vec<u8>, BytesFault>
    ensures combined { IfOk result (λ combined.
        IsReplyToRequest names.now request.now replies.now combined.items) }
    ensures fault { IfErr result (FailsBy names.now
        (λ registered. IsUncombined (names_of [] registered) request.now replies.now)) }
{
    let (read_only, registry) = (ReadOnlyNames::new(alloc), registry_in(alloc, names)?);
    let names = Names {
        read_only: &read_only,
        registry: &registry,
    };
    redis_bytes::combine(alloc, request, names, replies)
}
