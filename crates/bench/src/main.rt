//! Times calls of the layer, for `bench/run`. It tests nothing.
//!
//! `bench time OPERATION` prints the nanoseconds that a call takes. `bench once OPERATION` makes one
//! call, and prints something of what it gave. It reads the clock right before the call and right
//! after it. What a call is made with is read from standard input, as `bench/inputs` writes it.
#![tactic(auto)]

mod commands;
mod fault;
mod given;
mod maps;
mod replies;
mod watch;

use cluster_map::SlotMap;
use fault::Fault;
use given::{Given, command_of, read_only, words_in};
use redis_cluster::routing::{Names, Registry};
use resp::{Response, read};
use resp_core::Value;
use std::alloc::Global;
use std::env;
use std::io::Read;
use std::process::ExitCode;
use watch::Watch;

const USAGE: &str = "usage: bench once OPERATION | time OPERATION";

/// The nanoseconds that the rounds of a timed operation have together, and one round.
const WHOLE_NANOS: usize = 500_000_000;

const ROUND_NANOS: usize = 200_000;

/// Makes the calls of an operation, as the watch asks for them.
fn call(name: &str, watch: &mut Watch<'_>, given: &Given<'_>) -> Result<(), Fault> {
    match name {
        "key-slot" | "key-tag-last" | "key-tag-first" => watch.time(given, maps::key_slot),
        "look-up" => watch.time(given, maps::node_of_slot),
        "map-from-reply" => watch.time(given, maps::from_reply),
        "insert-descending" => watch.time(given, maps::inserted),
        "extend-descending" => watch.time(given, maps::extended),
        "topology" | "topology-own" | "topology-one-hash" => watch.time(given, maps::topology),
        "primaries" => watch.time(given, maps::primaries),
        "nodes-own" | "nodes-one-hash" => watch.time(given, maps::nodes),
        "read-only-names" | "read-only-names-one-spot" => commands::looked_up(watch, given),
        "policy" | "policy-none" => watch.time(given, commands::policy),
        "route-get" => watch.time(given, commands::route),
        "split-del" => watch.time(given, commands::split),
        "split-and-parts-del" => watch.time(given, commands::split_with_parts),
        "command" => watch.time(given, commands::made),
        "plan-get" | "plan-dbsize" => watch.time(given, commands::planned),
        "drive-del" => commands::driven(watch, given),
        "combine-sums" => replies::summed(watch, given),
        "combine-maps" | "combine-maps-in-order" => replies::mapped(watch, given),
        "combine-sorted" => replies::sorted(watch, given),
        "clone-bulk-array" => watch.time(given, replies::cloned),
        _ => Err(Fault::Words),
    }
}

fn once(rt: &HostRuntime, name: &str, given: &Given<'_>) -> Result<(), Fault> {
    let mut watch = Watch::new(rt, 1, 1);
    call(name, &mut watch, given)?;
    println!(rt; "{}", watch.answers)?;
    Ok(())
}

fn time(rt: &HostRuntime, name: &str, given: &Given<'_>) -> Result<(), Fault> {
    let mut first = Watch::new(rt, 1, 3);
    call(name, &mut first, given)?;
    let nanos = first.least().max(1);
    let calls = (ROUND_NANOS / nanos).clamp(1, 20_000);
    let rounds = (WHOLE_NANOS / nanos.saturating_mul(calls).max(1)).clamp(9, 1000);
    let mut watch = Watch::new(rt, calls, rounds);
    call(name, &mut watch, given)?;
    let tenths = watch.least().saturating_mul(10) / calls;
    if tenths < 1000 {
        println!(rt; "{}.{}", tenths / 10, tenths % 10)?;
    } else {
        println!(rt; "{}", tenths / 10)?;
    }
    Ok(())
}

/// Does what the words ask for, with these items, ranges and names.
fn measure(
    rt: &HostRuntime,
    verb: &str,
    name: &str,
    items: &Value,
    ranges: &Value,
    names: Names<'_>,
) -> Result<(), Fault> {
    let alloc = rt.alloc();
    let words = words_in(alloc, items)?;
    let command = command_of(alloc, &words)?;
    let map = SlotMap::from_reply(alloc, ranges, "")?;
    let given = Given {
        alloc,
        items,
        ranges,
        words: &words,
        command: &command,
        map: &map,
        names,
    };
    match verb {
        "once" => once(rt, name, &given),
        "time" => time(rt, name, &given),
        _ => Err(Fault::Words),
    }
}

/// What standard input has.
fn read_input(rt: &HostRuntime) -> Result<Value, Fault> {
    let mut bytes = Vec::new(rt.alloc());
    rt.stdin().read_to_end(&mut bytes)?;
    match read(rt.alloc(), &bytes) {
        Ok((Response::Value(input), _)) => Ok(input),
        _ => Err(Fault::Refused),
    }
}

/// Does what the words ask for, with what standard input has.
fn run_with(rt: &HostRuntime, verb: &str, name: &str) -> Result<(), Fault> {
    let input = read_input(rt)?;
    let Some([items, ranges]) = input.as_array() else {
        return Err(Fault::Refused);
    };
    let (read_only, registry) = (read_only(rt.alloc())?, Registry::new(rt.alloc()));
    let names = Names {
        read_only: &read_only,
        registry: &registry,
    };
    measure(rt, verb, name, items, ranges, names)
}

fn run(rt: &HostRuntime) -> Result<(), Fault> {
    let words: Vec<String> = env::args(rt)?.skip(1).collect(rt.alloc())?;
    match words.as_slice() {
        [verb, name] => run_with(rt, verb.as_str(), name.as_str()),
        _ => Err(Fault::Words),
    }
}

fn main(rt: HostRuntime) -> ExitCode {
    let Err(fault) = run(&rt) else {
        return ExitCode::from(0);
    };
    let line = match fault {
        Fault::Words => USAGE,
        Fault::Memory => "bench: out of memory",
        Fault::Stream => "bench: the clock, the input or the output failed",
        Fault::Refused => "bench: the input or the operation was refused",
    };
    let _ = eprintln!(rt; "{line}");
    ExitCode::from(2)
}
