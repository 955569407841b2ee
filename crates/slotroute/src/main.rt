//! Prints which nodes of a Redis cluster serve a key or a command, and runs commands on nodes in
//! memory.
//!
//! `slotroute node KEY` reads a slot map from standard input, one range a line as
//! `START END HOST:PORT [HOST:PORT ..]`. It prints the key's slot and the primary that serves the
//! slot. `slotroute split WORD ..` reads such a map and prints the parts of a multi-key command,
//! with the slot, the node and the words of each. `slotroute run forward` reads a map, a blank line
//! and commands. It runs the commands, and prints the parts that it sends and the replies.
//! `run reverse` sends the parts in reverse order. A last word `first`, `pick=N` or `shard` says
//! which nodes serve reads.
#![tactic(auto)]

ghost use Rattle.std.specs.Prelude.{◌≤◌, IfOk};

use cluster_map::ReadRoutingStrategy;
use memory_nodes::strategies::{FirstReplica, PickIndex, ShardAware};
use slotroute_serve::{StrategyName, USAGE, serve, strategy_of};
use std::alloc::Global;
use std::env;
use std::io::{self, BufReader, BufWriter};
use std::process::ExitCode;

fn run(rt: &HostRuntime, alloc: Global) -> io::Result<u8>
    ensures { IfOk result (λ status. status ≤ 2) }
{
    let mut words = Vec::new(alloc);
    for word in env::args(rt)?.skip(1) {
        words.push(word)?;
    }
    let mut reader = BufReader::new(alloc, rt.stdin())?;
    let mut out = BufWriter::new(alloc, rt.stdout())?;
    let mut err = rt.stderr();
    let strategy: Option<Box<dyn ReadRoutingStrategy>> = match strategy_of(&words) {
        Some(StrategyName::First) => Some(Box::new(alloc, FirstReplica)?),
        Some(StrategyName::Pick(index)) => Some(Box::new(alloc, PickIndex::new(index as usize))?),
        Some(StrategyName::Shard) => Some(Box::new(alloc, ShardAware::new())?),
        None => None,
    };
    Ok(serve(alloc, &words, &mut reader, &mut out, &mut err, strategy))
}

/// Runs the program, and reports words that are not text or that find no memory.
fn status(rt: &HostRuntime) -> u8
    ensures { result ≤ 2 }
{
    match run(rt, rt.alloc()) {
        Ok(status) => status,
        Err(error) => {
            let line = match error.kind() {
                io::ErrorKind::InvalidData => USAGE,
                _ => "slotroute: no memory\n",
            };
            let _ = eprint!(rt; "{line}");
            2
        }
    }
}

fn main(rt: HostRuntime) -> ExitCode {
    ExitCode::from(status(&rt))
}
