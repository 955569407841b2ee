ghost use Rattle.std.specs.Prelude.{◌≡◌, [], ◌∷◌, is_some, IfOk, IfErr, MatchResult};
ghost use Rattle.memory_nodes.specs.Nodes.{registered_in, keyspace_in};
ghost use Rattle.slotroute_serve.specs.Commands.{AreReadOnly, RefuseNothing};
ghost use Rattle.slotroute_serve.specs.Faults.{IsCaused, fault_of_run};
ghost use Rattle.redis_bytes.specs.NameLines.{fields_of};
ghost use Rattle.slotroute_serve.specs.Runs.{AreRun};
ghost use Rattle.slotroute_serve.specs.RunFaults.{RunEnds, RunStops, WhyNoText};
ghost use Rattle.slotroute_serve.specs.Streams.{MayFailToRead, MayFailToWrite};

use crate::command::{read_only_names, run_command};
use crate::direction::Direction;
use crate::fault::RunFault;
use crate::input::next_line;
use crate::output::emit;
use crate::refusal::CommandFault;
use crate::streams::{Sink, Source};
use cluster_map::{ReadRoutingStrategy, SlotMap};
use memory_nodes::MemoryNodes;
use redis_bytes::fields_in;
use redis_cluster::routing::{ReadOnlyNames, Registry};
use std::alloc::Global;

/// Runs the commands of the lines that are left, on nodes with no key and these registered names.
/// The first line has the number `first`. The output of a command is written before the next line
/// is read.
pub fn run_commands<R: Source, O: Sink>(
    alloc: Global,
    direction: &Direction,
    first: u64,
    slot_map: &SlotMap,
    registry: Registry,
    strategy: Option<&dyn ReadRoutingStrategy>,
    reader: &mut R,
    out: &mut O,
) -> Result<(), RunFault>
    ensures run { MatchResult result
        (λ _. RunEnds (is_some strategy.entry) direction.now registry slot_map.now
        (R.remaining reader.old) (R.remaining reader.new) (O.contents out.old) (O.contents out.new))
        (RunStops (is_some strategy.entry) direction.now registry slot_map.now first
        (R.remaining reader.old) (R.remaining reader.new) (O.contents out.old)
        (O.contents out.new)) }
    ensures cause { IfErr result (λ fault. IsCaused (MayFailToRead R.fails) (MayFailToWrite O.fails)
        (fault_of_run fault)) }
{
    let read_only = read_only_names(alloc)?;
    let mut nodes = MemoryNodes::with_registry(alloc, registry);
    let mut line = Vec::new(alloc);
    for number in first..u64::MAX {
        if !next_line(reader, &mut line)? {
            return Ok(());
        }
        match line_text(
            alloc, direction, &line, &read_only, slot_map, strategy, &mut nodes,
        ) {
            Ok(text) => emit(out, &text)?,
            Err(fault) => return Err(RunFault::at_line(number, fault)),
        }
    }
    // There is no number left for a further line.
    Err(RunFault::Memory)
}

/// What the command of a line prints: nothing if the line has no field. Drops the trace of the
/// commands before it.
fn line_text(
    alloc: Global,
    direction: &Direction,
    line: &[u8],
    read_only: &ReadOnlyNames,
    slot_map: &SlotMap,
    strategy: Option<&dyn ReadRoutingStrategy>,
    nodes: &mut MemoryNodes,
) -> Result<Vec<u8>, CommandFault>
    requires names { AreReadOnly read_only.now }
    requires willing { RefuseNothing nodes.old }
    ensures run { IfOk result (λ text. AreRun (is_some strategy.entry) direction.now
        (registered_in nodes.old) slot_map.now
        (fields_of line.now ∷ []) (keyspace_in nodes.old) (keyspace_in nodes.new) text.items) }
    ensures refused { IfErr result (WhyNoText (registered_in nodes.old) slot_map.now (fields_of line.now)) }
    ensures willing { RefuseNothing nodes.new }
    ensures registered { registered_in nodes.new ≡ registered_in nodes.old }
{
    let fields = fields_in(alloc, line)?;
    if fields.is_empty() {
        return Ok(Vec::new(alloc));
    }
    nodes.clear_trace();
    run_command(
        alloc, direction, &fields, read_only, slot_map, strategy, nodes,
    )
}
