ghost use Rattle.std.specs.Prelude.{◌≡◌, ◌≤◌, ◌⊎◌, ℕ, List, ⊤, map, string_bytes, is_some, IfOk, IfErr, OnErr, MatchResult};
ghost use Rattle.std.specs.Cow.{cow_str_bytes};
ghost use Rattle.slotroute_serve.specs.Output.{IsUsage, IsNodeOrSplit, IsNodeAnswer};
ghost use Rattle.slotroute_serve.specs.Faults.{fault_line, fault_of_run, IsCaused};
ghost use Rattle.slotroute_serve.specs.Requests.{Asks, WhyNoAnswer};
ghost use Rattle.slotroute_serve.specs.RunFaults.{RunEnds, RunStops};
ghost use Rattle.slotroute_serve.specs.Serves.{Serves, HasOutput, RanOutOfMemory, HasAnswer, Explains, Reports, IsNumbered};
ghost use Rattle.slotroute_serve.specs.Streams.{MayFailToRead, MayFailToWrite};

use crate::direction::Direction;
use crate::fault::{AnswerFault, Fault, RunFault};
use crate::input::{LeadingLines, read_map};
use crate::output::emit;
use crate::request::{Question, Request, request_of};
use crate::run::run_commands;
use crate::split::split_answer;
use crate::streams::{Sink, Source};
use cluster_map::{ReadRoutingStrategy, Route, SlotAddr, SlotMap};
use redis_cluster::routing::Registry;
use std::alloc::{AllocError, Global};
use std::borrow::CowStr;
use std::io::{BufRead, Write};

/// The line for unknown words.
pub const USAGE: &str =
    "usage: slotroute node KEY | split WORD .. | run forward|reverse [first|pick=N|shard]\n";

/// Runs the program on the words after its name, and returns its status.
///
/// The answer goes to `out`, and a fault goes to `err` as one line. The status is 0, 1, or 2 for a
/// fault. Contracts need not know the bytes of a stream, as of standard input. Also then the status
/// is bounded, and unknown words are refused. A strategy that is passed picks the nodes of the
/// reads of `run`, whatever the last word is. It gets the shards of the map once, before the first
/// command.
pub fn serve<R: BufRead, O: Write, E: Write>(
    alloc: Global,
    words: &[String],
    reader: &mut R,
    out: &mut O,
    err: &mut E,
    strategy: Option<Box<dyn ReadRoutingStrategy>>,
) -> u8
    ensures served { Serves ⊤ ⊤ ⊤ (is_some strategy) (map string_bytes words.now)
        (R.remaining reader.old) (R.remaining reader.new)
        (O.contents out.old) (O.contents out.new) (E.contents err.old) (E.contents err.new) result }
    ensures status { result ≤ 2 }
    ensures misused { ¬ (IsUsage (map string_bytes words.now)) → result ≡ 2 }
    ensures untouched { ¬ (IsUsage (map string_bytes words.now)) → reader.new ≡ reader.old }
{
    serve_streams(alloc, words, reader, out, err, strategy)
}

/// `serve` over streams whose contracts say how they may fail. If they cannot fail, only memory can
/// run out.
pub fn serve_streams<R: Source, O: Sink, E: Sink>(
    alloc: Global,
    words: &[String],
    reader: &mut R,
    out: &mut O,
    err: &mut E,
    strategy: Option<Box<dyn ReadRoutingStrategy>>,
) -> u8
    ensures served { Serves (MayFailToRead R.fails) (MayFailToWrite O.fails)
        (MayFailToWrite E.fails) (is_some strategy) (map string_bytes words.now)
        (R.remaining reader.old) (R.remaining reader.new)
        (O.contents out.old) (O.contents out.new) (E.contents err.old) (E.contents err.new) result }
    ensures steady { ¬ (MayFailToRead R.fails) → ¬ (MayFailToWrite O.fails)
        → ¬ (MayFailToWrite E.fails)
        → HasOutput (is_some strategy) (map string_bytes words.now) (R.remaining reader.old)
        (R.remaining reader.new)
        (O.contents out.old) (O.contents out.new) (E.contents err.old) (E.contents err.new) result
        ⊎ RanOutOfMemory (is_some strategy) (map string_bytes words.now) (R.remaining reader.old)
        (R.remaining reader.new) (O.contents out.old) (O.contents out.new) (E.contents err.old)
        (E.contents err.new) result }
    ensures status { result ≤ 2 }
    ensures misused { ¬ (IsUsage (map string_bytes words.now)) → result ≡ 2 }
    ensures untouched { ¬ (IsUsage (map string_bytes words.now)) → reader.new ≡ reader.old }
{
    match run(alloc, words, reader, out, strategy) {
        Ok(status) => status,
        Err(fault) => {
            report(alloc, &fault, err);
            2
        }
    }
}

fn run<R: Source, O: Sink>(
    alloc: Global,
    words: &[String],
    reader: &mut R,
    out: &mut O,
    strategy: Option<Box<dyn ReadRoutingStrategy>>,
) -> Result<u8, Fault>
    ensures answer { MatchResult result
        (HasAnswer (is_some strategy) (map string_bytes words.now) (R.remaining reader.old)
        (R.remaining reader.new) (O.contents out.old) (O.contents out.new))
        (Explains (is_some strategy) (map string_bytes words.now) (R.remaining reader.old)
        (R.remaining reader.new) (O.contents out.old) (O.contents out.new)) }
    ensures cause { IfErr result (IsCaused (MayFailToRead R.fails) (MayFailToWrite O.fails)) }
    ensures status { IfOk result (λ status. status ≤ 1) }
    ensures asked { IfOk result (λ _. IsUsage (map string_bytes words.now)) }
    ensures untouched { ¬ (IsUsage (map string_bytes words.now)) → reader.new ≡ reader.old }
{
    let Some(request) = request_of(words) else {
        return Err(Fault::Usage);
    };
    let (made, first) = read_map(alloc, reader)?;
    let LeadingLines { ranges, registry } = made;
    let map = SlotMap::from_slots(alloc, ranges)?;
    let question = match request {
        Request::Answer(question) => question,
        Request::Run(direction) => {
            run_told(
                alloc, &direction, first, &map, registry, strategy, reader, out,
            )?;
            return Ok(0);
        }
    };
    let (text, status) = answer(alloc, &map, &registry, &question)?;
    emit(out, &text)?;
    Ok(status)
}

/// The text and the status of what was asked for.
fn answer(
    alloc: Global,
    map: &SlotMap,
    registry: &Registry,
    question: &Question,
) -> Result<(Vec<u8>, u8), AnswerFault>
    ensures { MatchResult result
        (λ answer. (words : List (List ℕ)) → Asks words question.now
        → IsNodeOrSplit registry.now map.now words answer.0.items answer.1)
        (WhyNoAnswer registry.now question.now) }
{
    match question {
        Question::Node(key) => {
            let (line, status) = node_answer(alloc, map, key)?;
            Ok((line.into_bytes(), status))
        }
        Question::Split(command) => split_answer(alloc, map, registry, command),
    }
}

/// Passes the shards of the map to the strategy, and runs the commands of the lines that are left.
fn run_told<R: Source, O: Sink>(
    alloc: Global,
    direction: &Direction,
    first: u64,
    slot_map: &SlotMap,
    registry: Registry,
    mut strategy: Option<Box<dyn ReadRoutingStrategy>>,
    reader: &mut R,
    out: &mut O,
) -> Result<(), RunFault>
    ensures run { MatchResult result
        (λ _. RunEnds (is_some strategy) direction.now registry slot_map.now
        (R.remaining reader.old) (R.remaining reader.new) (O.contents out.old) (O.contents out.new))
        (RunStops (is_some strategy) direction.now registry slot_map.now first
        (R.remaining reader.old) (R.remaining reader.new) (O.contents out.old)
        (O.contents out.new)) }
    ensures cause { IfErr result (λ fault. IsCaused (MayFailToRead R.fails) (MayFailToWrite O.fails)
        (fault_of_run fault)) }
{
    tell(alloc, slot_map, &mut strategy)?;
    run_commands(
        alloc,
        direction,
        first,
        slot_map,
        registry,
        lend(&strategy),
        reader,
        out,
    )
}

/// Passes the shards of the map to a strategy.
fn tell(
    alloc: Global,
    slot_map: &SlotMap,
    strategy: &mut Option<Box<dyn ReadRoutingStrategy>>,
) -> Result<(), AllocError>
    ensures { is_some strategy.new ≡ is_some strategy.old }
{
    if let Some(strategy) = strategy {
        strategy.on_topology_changed(slot_map.topology(alloc)?);
    }
    Ok(())
}

fn lend(strategy: &Option<Box<dyn ReadRoutingStrategy>>) -> Option<&dyn ReadRoutingStrategy>
    ensures { is_some result ≡ is_some strategy.now }
{
    match strategy {
        Some(strategy) => Some(&**strategy),
        None => None,
    }
}

/// The line and the status for a key.
fn node_answer(alloc: Global, map: &SlotMap, key: &[u8]) -> Result<(String, u8), AllocError>
    ensures { IfOk result (λ answer. IsNodeAnswer map.now key.now (string_bytes answer.0)
        answer.1) }
{
    let route = Route::with_key(key, SlotAddr::Master);
    let slot = route.slot();
    match map.slot_addr_for_route(route, None, 0) {
        Some(node) => Ok((format!(in alloc; "slot {slot} {node}\n")?, 0)),
        None => Ok((format!(in alloc; "slot {slot} none\n")?, 1)),
    }
}

/// Writes the line of a fault. Without memory for its number, writes the line for `Memory`.
fn report<E: Sink>(alloc: Global, fault: &Fault, err: &mut E)
    ensures { Reports (MayFailToWrite E.fails) (E.contents err.old) (E.contents err.new) fault.now }
{
    let _ = match fault_text(alloc, fault) {
        Ok(text) => emit(err, text.as_str().as_bytes()),
        Err(_) => emit(err, b"slotroute: no memory\n"),
    };
}

fn fault_text(alloc: Global, fault: &Fault) -> Result<CowStr<'static>, AllocError>
    ensures text { IfOk result (λ text. cow_str_bytes text ≡ fault_line fault.now) }
    ensures memory { OnErr result (IsNumbered fault.now) }
{
    let text = match fault {
        Fault::Usage => USAGE,
        Fault::BadMapLine(number) => {
            let line = format!(in alloc; "slotroute: bad map line {number}\n")?;
            return Ok(CowStr::Owned(line));
        }
        Fault::NotMultiKey => "slotroute: not a multi-key command\n",
        Fault::Command(number, refusal) => {
            let line = format!(in alloc; "slotroute: line {number}: {refusal}\n")?;
            return Ok(CowStr::Owned(line));
        }
        Fault::Memory => "slotroute: no memory\n",
        Fault::Input => "slotroute: input failed\n",
        Fault::Output => "slotroute: output failed\n",
    };
    Ok(CowStr::Borrowed(text))
}
