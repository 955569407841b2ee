ghost use Rattle.std.specs.Prelude.{◌≡◌, ◌≢◌, ◌⊎◌, ◌<◌, length};
ghost use Rattle.std.specs.Str.{IsUtf8};
ghost use Rattle.redis_bytes.specs.declared.fault.BytesFault as faults;
ghost use Rattle.redis_bytes.specs.declared.tables.Table as declared;
ghost use Rattle.redis_bytes.specs.Table.{IsNoTable};
ghost use Rattle.slotroute_c.specs.Outcomes.{code};
ghost use Rattle.slotroute_c.specs.Buffers.{IsWritten};
ghost use Rattle.slotroute_c.specs.Faults.{outcome_of, with_fault};
ghost use Rattle.slotroute_c.specs.RouteNumbers.{addr_of};
ghost use Rattle.slotroute_c.specs.Tables.{IsTableOf};

use crate::buffers::put_all;
use crate::faults::code_of;
use crate::outcomes::Outcome;
use crate::routes::addr_of;
use crate::told::Told;
use std::alloc::Global;

/// Writes the table of a reply to `CLUSTER SLOTS`. Each slot gets the number of the node of a route
/// there, or 65535, in `numbers`. Each node gets a line in `nodes`. `answering` is the host of the
/// node that replied, for hosts that the reply leaves out. `addr` is 0 for primaries, else the
/// replica at `pick` modulo their count, or the primary if there is none. `told` has the count of
/// numbers and of bytes.
///
/// # Errors
///
/// `NotText` if `answering` is not UTF-8. `ReplyIncomplete`, `ReplyMalformed`, `ReplyTooDeep` or
/// `ReplyIsError` if the reply is no value. `AfterReplies` if bytes follow it. `LineFeedInHost` if
/// the host of a slot's node has a line feed. `TooSmall` if a buffer is too small for what `told`
/// says. `NoMemory` if memory runs out.
#[unsafe(no_mangle)]
pub extern "C" fn slotroute_table(
    alloc: Global,
    reply: &[u8],
    answering: &[u8],
    addr: u32,
    pick: usize,
    numbers: &mut [u16],
    nodes: &mut [u8],
    told: &mut Told,
) -> u32
    ensures done { result ≡ code Outcome.Done → (table : declared.Table)
        × IsTableOf reply.now answering.now addr pick told.old told.new table
        × IsWritten table.numbers.items numbers.old numbers.new
        × IsWritten table.nodes.items nodes.old nodes.new }
    ensures too_small { result ≡ code Outcome.TooSmall → (table : declared.Table)
        × IsTableOf reply.now answering.now addr pick told.old told.new table
        × ((length numbers.old < length table.numbers.items)
        ⊎ (length nodes.old < length table.nodes.items)) }
    ensures not_text { result ≡ code Outcome.NotText
        → ¬ (IsUtf8 answering.now) × (told.new ≡ told.old) }
    ensures utf8 { ¬ (IsUtf8 answering.now) → result ≡ code Outcome.NotText }
    ensures fault { result ≢ code Outcome.Done → result ≢ code Outcome.TooSmall
        → result ≢ code Outcome.NotText → (fault : faults.BytesFault)
        × (result ≡ code (outcome_of fault))
        × IsNoTable answering.now reply.now (addr_of addr) pick fault
        × (told.new ≡ with_fault fault told.old) }
    ensures unwritten { result ≢ code Outcome.Done
        → (numbers.new ≡ numbers.old) × (nodes.new ≡ nodes.old) }
{
    let Ok(answering) = str::from_utf8(answering) else {
        return Outcome::NotText.code();
    };
    let table = match redis_bytes::slot_table(alloc, reply, answering, addr_of(addr), pick) {
        Ok(table) => table,
        Err(fault) => return code_of(&fault, told),
    };
    told.parts = table.numbers.len();
    told.bytes = table.nodes.len();
    if numbers.len() < table.numbers.len() {
        return Outcome::TooSmall.code();
    }
    if nodes.len() < table.nodes.len() {
        return Outcome::TooSmall.code();
    }
    put_all(numbers, &table.numbers);
    put_all(nodes, &table.nodes);
    Outcome::Done.code()
}
