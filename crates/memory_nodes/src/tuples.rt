ghost use Rattle.std.specs.Prelude.{◌≡◌, ◌<◌, ◌^◌, [], false, None, IfOk, OnOk, OnErr, IfSome, IsSome, Some, length, map, slice_get, slice_index_or};
ghost use Rattle.resp_core.specs.View.{view};
ghost use Rattle.redis_cluster.specs.MultiKey.{multi_key};
ghost use Rattle.redis_cluster.specs.Unsplit.{put, after, results, keyspace_after, reply_to};
ghost use Rattle.memory_nodes.specs.Cells.{keyspace_of, value_at};
ghost use Rattle.memory_nodes.specs.Parts.{words, key_tuples, act_on};
ghost use Rattle.memory_nodes.specs.Results.{result_of, HoldResults, HaveRoom, FitPolicy};
ghost use Rattle.memory_nodes.specs.Steps.{act, shown, step};
ghost use Rattle.memory_nodes.specs.Undo.{before_all};

use crate::action::Action;
use crate::cells::{Cells, is_there, remove, value_at, write, write_at_path};
use crate::change::{Change, undo_all};
use crate::name::Name;
use crate::results::{KeyResult, Results};
use crate::whole_command::WholeCommand;
use redis_routing::Registry;
use resp_core::{Cmd, Value};
use std::alloc::{AllocError, Global};

/// Runs a multi-key command with these arguments, and answers it. If memory runs out, the keyspace
/// is as it was.
pub(super) fn run(
    alloc: Global,
    registry: &Registry,
    cells: &mut Cells,
    cmd: &Cmd,
    args: &[Vec<u8>],
) -> Result<Value, AllocError>
    requires args { words args.now ≡ cmd.now }
    requires whole { IsSome (multi_key registry.now (map Some cmd.now)) }
    ensures reply { IfOk result
        (λ value. IfSome (multi_key registry.now (map Some cmd.now))
        (λ command. view value ≡ reply_to step command (keyspace_of cells.old))) }
    ensures cells { OnOk result (IfSome (multi_key registry.now (map Some cmd.now))
        (λ command. keyspace_of cells.new ≡ keyspace_after step command (keyspace_of cells.old))) }
    ensures memory { OnErr result (keyspace_of cells.new ≡ keyspace_of cells.old) }
{
    let name = Name::of(alloc, cmd)?;
    let whole = WholeCommand::new(registry, cmd, name.as_slice(), args);
    let mut changes = Vec::new(alloc);
    match run_tuples(alloc, cells, &whole, &mut changes) {
        Ok(results) => Ok(results.into_reply(whole.policy)),
        Err(error) => {
            undo_all(cells, changes);
            Err(error)
        }
    }
}

/// Runs the tuples of a command, one after the other, and adds what the writes changed.
fn run_tuples<'a>(
    alloc: Global,
    cells: &mut Cells,
    whole: &WholeCommand<'a>,
    changes: &mut Vec<Change<'a>>,
) -> Result<Results, AllocError>
    requires few { length whole.now.tuples.now < 2 ^ 63 }
    ensures cells { OnOk result
        (keyspace_of cells.new ≡ after (act_on whole.now)
        (key_tuples whole.now.pattern (words whole.now.tuples.now)) (keyspace_of cells.old)) }
    ensures results { IfOk result
        (λ kept. HoldResults kept
        (results (act_on whole.now) (key_tuples whole.now.pattern (words whole.now.tuples.now))
        (keyspace_of cells.old))) }
    ensures few { IfOk result (λ kept. HaveRoom kept 0) }
    ensures fit { IfOk result (λ kept. FitPolicy kept whole.now.policy) }
    // If memory runs out, undoing the changes leads back.
    ensures undo { OnErr result
        (before_all changes.new.items (keyspace_of cells.new)
        ≡ before_all changes.old.items (keyspace_of cells.old)) }
{
    let action = Action::by(whole.registered, whole.name);
    let width = whole.pattern.width();
    let mut results = Results::with_room(alloc, whole.policy, whole.tuples.len())?;
    let mut rest = whole.tuples;
    while rest.len() >= width {
        let (tuple, others) = rest.split_at(width);
        let added = run_tuple(
            alloc,
            cells,
            action,
            whole.shared,
            word(tuple, 0),
            &tuple[1..],
            changes,
        )?;
        results.add(added);
        rest = others;
    }
    Ok(results)
}

/// Runs one tuple: a key and what goes with it. A write adds what it changed. A removal cannot be
/// undone, and takes no memory.
fn run_tuple<'a>(
    alloc: Global,
    cells: &mut Cells,
    action: Action,
    shared: &[Vec<u8>],
    key: &'a [u8],
    extras: &'a [Vec<u8>],
    changes: &mut Vec<Change<'a>>,
) -> Result<KeyResult, AllocError>
    ensures cells { OnOk result
        (keyspace_of cells.new
        ≡ put key.now
        (act action (slice_get (words shared.now) 0) (words extras.now)
        (keyspace_of cells.old key.now)).cell (keyspace_of cells.old)) }
    ensures added { IfOk result
        (λ added. result_of added
        ≡ (act action (slice_get (words shared.now) 0) (words extras.now)
        (keyspace_of cells.old key.now)).result) }
    ensures undo { ¬ (action ≡ Action.Remove)
        → before_all changes.new.items (keyspace_of cells.new)
        ≡ before_all changes.old.items (keyspace_of cells.old) }
    ensures removal { OnErr result (¬ (action ≡ Action.Remove)) }
{
    match action {
        Action::Read => read(alloc, cells, key, b""),
        Action::ReadAtShared => read(alloc, cells, key, word(shared, 0)),
        Action::Count => Ok(KeyResult::counted(is_there(cells, key))),
        Action::Remove => Ok(KeyResult::counted(remove(cells, key))),
        Action::Leave => Ok(KeyResult::counted(false)),
        Action::Write => {
            changes.reserve(1)?;
            let change = write(alloc, cells, key, word(extras, 0))?;
            changes.push_reserved(change);
            Ok(KeyResult::counted(false))
        }
        Action::WriteAtPath => {
            changes.reserve(1)?;
            let change = write_at_path(alloc, cells, key, word(extras, 0), word(extras, 1))?;
            changes.push_reserved(change);
            Ok(KeyResult::counted(false))
        }
    }
}

/// Reads the value at a path of a key.
fn read(alloc: Global, cells: &Cells, key: &[u8], path: &[u8]) -> Result<KeyResult, AllocError>
    ensures { IfOk result
        (λ read. result_of read ≡ record {
          value = shown (value_at (keyspace_of cells.now key.now) path.now);
          counts = false;
        }) }
{
    match value_at(cells, key, path) {
        Some(value) => Ok(KeyResult::value(Value::BulkString(value.to_vec(alloc)?))),
        None => Ok(KeyResult::value(Value::Nil)),
    }
}

/// The argument at an index, or no bytes.
fn word(args: &[Vec<u8>], place: usize) -> &[u8]
    ensures { result.now ≡ slice_index_or (words args.now) place [] }
{
    match args.get(place) {
        Some(arg) => arg.as_slice(),
        None => b"",
    }
}
