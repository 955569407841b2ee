//! A client with connections of its own, which writes to two slots and then reads.
ghost use Rattle.std.specs.Prelude.{◌≡◌, [], ◌∷◌, List, Bool, Ok, Some, map, IfOk, IfErr, IfSome, ⊤};
ghost use Rattle.resp_core.specs.Reply.{Reply};
ghost use Rattle.resp_core.specs.View.{view};
ghost use Rattle.redis_cluster.specs.State.{State, state};
ghost use Rattle.redis_cluster.specs.Faults.{IsCut, IsFault};
ghost use Rattle.redis_cluster.specs.Joined.{IsJoined};
ghost use Rattle.redis_cluster.specs.MultiKey.{multi_key};
ghost use Rattle.redis_cluster.specs.Trace.{Entry};
ghost use Rattle.redis_cluster.specs.Unsplit.{keyspace_after, reply_to};
ghost use Rattle.wire.specs.Held.{registry_in};
ghost use Rattle.uses.specs.Client.{asked, AreSentOnce, IsPrimary};

use cluster_map::SlotMap;
use redis_cluster::driver::{DriveError, Nodes, drive};
use redis_cluster::routing::ReadOnlyNames;
use resp_core::{Cmd, Value};
use std::alloc::Global;
use wire::{Meaning, Wire, WireNodes};

/// Why a client has not read what it wrote.
#[derive(Drop)]
pub enum ClientFault {
    /// The keys were not written, or not all.
    Write(DriveError),
    /// The keys were written, and not read.
    Read(DriveError),
}

/// Sends a write of two slots, and then a read of two slots: `MSET a 1 b 2`, and `MGET a b`.
///
/// A value is returned only if each part went once, in order, to the primary of its slot. The value
/// is made of the replies. If the servers answered as one would, one server that has all keys would
/// reply it to the read after the write.
///
/// # Errors
///
/// `Write` if the keys were not written, or not all. `Read` if they were written and not read. Both
/// have the number of parts that were answered.
pub fn write_and_read<W: Wire, M: Meaning>(
    alloc: Global,
    write: &Cmd,
    read: &Cmd,
    slot_map: &SlotMap,
    client: &mut WireNodes<W, M>,
) -> Result<Value, ClientFault>
    // A value is returned only if each part of both commands went once, and was answered.
    ensures once { IfOk result (λ value. (between : List Entry)
        × AreSentOnce slot_map.now (registry_in client.old) write.now (0 ∷ 1 ∷ [])
        (⟦<WireNodes<W, M> as Nodes>⟧.state client.old).trace between
        × AreSentOnce slot_map.now (registry_in client.old) read.now (1 ∷ 0 ∷ [])
        between (⟦<WireNodes<W, M> as Nodes>⟧.state client.new).trace) }
    // The value is made of the replies to the read, as the policy of its command says.
    ensures joined { IfOk result (λ value. (before : List Reply)
        × IsJoined (registry_in client.old) (map Some read.now) (1 ∷ 0 ∷ [])
        (λ replies. replies ≡ before) (⟦<WireNodes<W, M> as Nodes>⟧.gave client.new) (Ok (view value))) }
    // If the servers answered as one would, the value is one server's reply after the write.
    ensures as_one { IfOk result (λ value. ⟦<WireNodes<W, M> as Nodes>⟧.kept client.new
        → IfSome (multi_key (registry_in client.old) (map Some write.now)) (λ set. IfSome (multi_key (registry_in client.old) (map Some read.now)) (λ get.
        view value ≡ reply_to M.step get (keyspace_after M.step set
        (⟦<WireNodes<W, M> as Nodes>⟧.state client.old).keyspace)))) }
    // Of a write that failed, exactly the first `answered` parts were answered.
    ensures not_written { IfErr result (λ fault. (error : DriveError)
        → fault ≡ ClientFault.Write error
        → IsCut (IsPrimary slot_map.now) (asked slot_map.now (registry_in client.old) write.now (0 ∷ 1 ∷ []))
        (⟦<WireNodes<W, M> as Nodes>⟧.state client.old)
        (⟦<WireNodes<W, M> as Nodes>⟧.state client.new)
        (λ count ending. ⊤) error.fault error.answered) }
    // A read that failed is cut like that, too, and each part of the write was answered.
    ensures not_read { IfErr result (λ fault. (error : DriveError)
        → fault ≡ ClientFault.Read error → (between : State M.Cell)
        × AreSentOnce slot_map.now (registry_in client.old) write.now (0 ∷ 1 ∷ [])
        (⟦<WireNodes<W, M> as Nodes>⟧.state client.old).trace between.trace
        × IsCut (IsPrimary slot_map.now) (asked slot_map.now (registry_in client.old) read.now (1 ∷ 0 ∷ []))
        between
        (⟦<WireNodes<W, M> as Nodes>⟧.state client.new)
        (λ count ending. ⊤) error.fault error.answered) }
    // If the servers answered as one would, the keys hold what the answered parts wrote.
    ensures written_so_far { IfErr result (λ fault. (error : DriveError)
        → fault ≡ ClientFault.Write error → ⟦<WireNodes<W, M> as Nodes>⟧.kept client.new
        → IsFault (IsPrimary slot_map.now) M.step (asked slot_map.now (registry_in client.old) write.now (0 ∷ 1 ∷ []))
        (⟦<WireNodes<W, M> as Nodes>⟧.state client.old)
        (⟦<WireNodes<W, M> as Nodes>⟧.state client.new)
        (λ count ending. ⊤) error.fault error.answered) }
    // After a read that failed, the keys hold what the write and the read's answered parts leave.
    ensures written { IfErr result (λ fault. (error : DriveError)
        → fault ≡ ClientFault.Read error → ⟦<WireNodes<W, M> as Nodes>⟧.kept client.new
        → IfSome (multi_key (registry_in client.old) (map Some write.now)) (λ set. (between : List Entry) × (mark : Bool)
        × IsFault (IsPrimary slot_map.now) M.step (asked slot_map.now (registry_in client.old) read.now (1 ∷ 0 ∷ []))
        (state (keyspace_after M.step set (⟦<WireNodes<W, M> as Nodes>⟧.state client.old).keyspace) between mark)
        (⟦<WireNodes<W, M> as Nodes>⟧.state client.new)
        (λ count ending. ⊤) error.fault error.answered)) }
    // Servers that answered like that until now did so before.
    ensures kept { ⟦<WireNodes<W, M> as Nodes>⟧.kept client.new → ⟦<WireNodes<W, M> as Nodes>⟧.kept client.old }
{
    if let Err(error) = drive_over(alloc, write, slot_map, &[0, 1], client) {
        return Err(ClientFault::Write(error));
    }
    match drive_over(alloc, read, slot_map, &[1, 0], client) {
        Ok(value) => Ok(value),
        Err(error) => Err(ClientFault::Read(error)),
    }
}

/// Drives a command, each part at the primary of its slot.
fn drive_over<W: Wire, M: Meaning>(
    alloc: Global,
    command: &Cmd,
    slot_map: &SlotMap,
    order: &[usize],
    client: &mut WireNodes<W, M>,
) -> Result<Value, DriveError>
    ensures once { IfOk result (λ value. AreSentOnce slot_map.now (registry_in client.old) command.now order.now
        (⟦<WireNodes<W, M> as Nodes>⟧.state client.old).trace (⟦<WireNodes<W, M> as Nodes>⟧.state client.new).trace) }
    ensures joined { IfOk result (λ value.
        IsJoined (registry_in client.old) (map Some command.now) order.now
        (⟦<WireNodes<W, M> as Nodes>⟧.gave client.old) (⟦<WireNodes<W, M> as Nodes>⟧.gave client.new)
        (Ok (view value))) }
    ensures as_one { IfOk result (λ value. ⟦<WireNodes<W, M> as Nodes>⟧.kept client.new
        → IfSome (multi_key (registry_in client.old) (map Some command.now)) (λ whole.
        (view value ≡ reply_to M.step whole
        (⟦<WireNodes<W, M> as Nodes>⟧.state client.old).keyspace)
        × ((⟦<WireNodes<W, M> as Nodes>⟧.state client.new).keyspace ≡ keyspace_after M.step whole
        (⟦<WireNodes<W, M> as Nodes>⟧.state client.old).keyspace))) }
    ensures cut { IfErr result (λ error.
        IsCut (IsPrimary slot_map.now) (asked slot_map.now (registry_in client.old) command.now order.now)
        (⟦<WireNodes<W, M> as Nodes>⟧.state client.old)
        (⟦<WireNodes<W, M> as Nodes>⟧.state client.new)
        (λ count ending. ⊤) error.fault error.answered) }
    ensures fault { IfErr result (λ error. ⟦<WireNodes<W, M> as Nodes>⟧.kept client.new
        → IsFault (IsPrimary slot_map.now) M.step (asked slot_map.now (registry_in client.old) command.now order.now)
        (⟦<WireNodes<W, M> as Nodes>⟧.state client.old)
        (⟦<WireNodes<W, M> as Nodes>⟧.state client.new)
        (λ count ending. ⊤) error.fault error.answered) }
    ensures kept { ⟦<WireNodes<W, M> as Nodes>⟧.kept client.new → ⟦<WireNodes<W, M> as Nodes>⟧.kept client.old }
    ensures registered { registry_in client.new ≡ registry_in client.old }
{
    let none_only_reads = ReadOnlyNames::new(alloc);
    drive(
        alloc,
        command,
        &none_only_reads,
        slot_map,
        None,
        0,
        order,
        client,
    )
}
