ghost use Rattle.std.specs.Prelude.{◌≡◌, ℕ, List, Some, map, is_some, IfOk, IfErr};
ghost use Rattle.redis_cluster.specs.Driven.{request, IsDriven};
ghost use Rattle.redis_cluster.specs.State.{state};
ghost use Rattle.resp_core.specs.View.{view};
ghost use Rattle.memory_nodes.specs.Nodes.{registered_in, keyspace_in, trace_in, mark_in};
ghost use Rattle.memory_nodes.specs.Steps.{step};
ghost use Rattle.slotroute_serve.specs.Commands.{names_with, AreReadOnly, RefuseNothing, IsCommandRun, IsRunNode, LeavesAllIfRefused, WhyNotRun};
ghost use Rattle.slotroute_serve.specs.Inner.Direction.{IsOrderOf};
ghost use Rattle.slotroute_serve.specs.Inner.Refusals.{fault_of_drive};

use crate::direction::{Direction, send_order};
use crate::printing::command_lines;
use crate::refusal::{CommandFault, Refusal};
use crate::words::cmd_from_words;
use cluster_map::{ReadRoutingStrategy, SlotMap};
use memory_nodes::MemoryNodes;
use redis_cluster::driver::{DriveFault, Nodes, SplitPlan, drive_plan};
use redis_cluster::routing::{Names, ReadOnlyNames};
use resp_core::{Cmd, Value};
use std::alloc::{AllocError, Global};

/// The names of the commands that only read.
pub fn read_only_names(alloc: Global) -> Result<ReadOnlyNames, AllocError>
    ensures { IfOk result (λ names. AreReadOnly names) }
{
    let mut names = ReadOnlyNames::new(alloc);
    names.insert(alloc, b"EXISTS")?;
    names.insert(alloc, b"JSON.MGET")?;
    names.insert(alloc, b"MGET")?;
    Ok(names)
}

/// Runs the command with these words on nodes that refuse nothing. Returns what is printed: the
/// parts in the order in which they were sent, each with its node, and the reply.
///
/// # Errors
///
/// `Refused` if the command is no complete multi-key command, or the slot of a key has no node.
/// Nothing was sent then. `Memory` if memory ran out, after any number of parts.
pub fn run_command(
    alloc: Global,
    direction: &Direction,
    words: &[&[u8]],
    read_only: &ReadOnlyNames,
    slot_map: &SlotMap,
    strategy: Option<&dyn ReadRoutingStrategy>,
    nodes: &mut MemoryNodes,
) -> Result<Vec<u8>, CommandFault>
    requires names { AreReadOnly read_only.now }
    requires willing { RefuseNothing nodes.old }
    ensures run { IfOk result (λ text. IsCommandRun (is_some strategy.entry) direction.now
        (registered_in nodes.old) slot_map.now (map (λ word. word.now) words.now)
        (keyspace_in nodes.old) (keyspace_in nodes.new) text.items) }
    ensures refused { IfErr result (WhyNotRun (registered_in nodes.old) slot_map.now (map (λ word. word.now) words.now)) }
    ensures unsent { IfErr result (λ fault. LeavesAllIfRefused fault
        (keyspace_in nodes.old) (keyspace_in nodes.new) (trace_in nodes.old) (trace_in nodes.new)) }
    ensures willing { RefuseNothing nodes.new }
    ensures registered { registered_in nodes.new ≡ registered_in nodes.old }
{
    let command = cmd_from_words(alloc, words)?;
    let before = nodes.trace().len();
    let reply = drive_command(
        alloc, direction, &command, read_only, slot_map, strategy, nodes,
    )?;
    Ok(command_lines(alloc, &nodes.trace()[before..], &reply)?)
}

/// Drives a command on nodes that refuse nothing, in the order of the direction. The plan comes
/// first, since it has the number of routes that the order needs.
fn drive_command(
    alloc: Global,
    direction: &Direction,
    command: &Cmd,
    read_only: &ReadOnlyNames,
    slot_map: &SlotMap,
    strategy: Option<&dyn ReadRoutingStrategy>,
    nodes: &mut MemoryNodes,
) -> Result<Value, CommandFault>
    requires names { AreReadOnly read_only.now }
    requires willing { RefuseNothing nodes.old }
    ensures driven { IfOk result (λ value. (order : List ℕ)
        × IsOrderOf direction.now (names_with (registered_in nodes.old)) command.now order
        × IsDriven (IsRunNode (is_some strategy.entry) slot_map.now) step
        (request (map Some command.now) (names_with (registered_in nodes.old)) slot_map.now order)
        (state (keyspace_in nodes.old) (trace_in nodes.old) (mark_in nodes.old))
        (state (keyspace_in nodes.new) (trace_in nodes.new) (mark_in nodes.new)) (view value)) }
    ensures refused { IfErr result (WhyNotRun (registered_in nodes.old) slot_map.now command.now) }
    ensures unsent { IfErr result (λ fault. LeavesAllIfRefused fault
        (keyspace_in nodes.old) (keyspace_in nodes.new) (trace_in nodes.old) (trace_in nodes.new)) }
    ensures willing { RefuseNothing nodes.new }
    ensures registered { registered_in nodes.new ≡ registered_in nodes.old }
{
    let names = Names {
        read_only,
        registry: nodes.registry(),
    };
    let plan = SplitPlan::new(alloc, command, names, slot_map, strategy, 0)?;
    let order = send_order(alloc, direction, plan.len())?;
    match drive_plan(alloc, plan, &order, nodes) {
        Ok(reply) => Ok(reply),
        Err(error) => Err(command_fault(error.fault)),
    }
}

/// The fault of a command by the fault of the driver.
fn command_fault(fault: DriveFault) -> CommandFault
    requires { ¬ (fault ≡ DriveFault.BadOrder) }
    ensures { result ≡ fault_of_drive fault }
{
    match fault {
        DriveFault::NotMultiKey => CommandFault::Refused(Refusal::NotMultiKey),
        DriveFault::NotCovered(slot) => CommandFault::Refused(Refusal::NotCovered(slot)),
        DriveFault::BadOrder => unreachable!(),
        DriveFault::Memory => CommandFault::Memory,
        DriveFault::Node(_) | DriveFault::Redirected(_) => {
            CommandFault::Refused(Refusal::NodeRefused)
        }
        DriveFault::Lost(_) => CommandFault::Refused(Refusal::ReplyLost),
        DriveFault::Reply(_) => CommandFault::Refused(Refusal::BadReply),
    }
}
