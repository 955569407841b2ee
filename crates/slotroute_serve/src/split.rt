ghost use Rattle.std.specs.Prelude.{◌≡◌, Some, ◌∷◌, ◌++◌, map, string_bytes, option_copied, IfOk, OnOk, MatchResult};
ghost use Rattle.std.specs.List.{flat_map};
ghost use Rattle.redis_cluster.specs.Split.{split_part};
ghost use Rattle.slotroute_serve.specs.Faults.{WhyNoSplit};
ghost use Rattle.redis_bytes.specs.NameLines.{space};
ghost use Rattle.slotroute_serve.specs.Split.{part_line, ArePartLines, IsSplitAnswer};

use crate::command::read_only_names;
use crate::fault::AnswerFault;
use crate::words::{cmd_from_words, push_word};
use cluster_map::{NodeAddress, SlotMap};
use redis_cluster::routing::{Names, Registry, SplitCommand};
use resp_core::Cmd;
use std::alloc::{AllocError, Global};

/// The lines and the status for a command with these words.
pub fn split_answer(
    alloc: Global,
    slot_map: &SlotMap,
    registry: &Registry,
    words: &[String],
) -> Result<(Vec<u8>, u8), AnswerFault>
    ensures { MatchResult result
        (λ answer. IsSplitAnswer registry.now slot_map.now (map string_bytes words.now)
        answer.0.items answer.1)
        (WhyNoSplit registry.now (map string_bytes words.now)) }
{
    let command = cmd_from_words(alloc, words)?;
    let read_only = read_only_names(alloc)?;
    let names = Names {
        read_only: &read_only,
        registry,
    };
    let Some(split) = SplitCommand::new(alloc, &command, names)? else {
        return Err(AnswerFault::NotMultiKey);
    };
    Ok(lines_of(alloc, slot_map, &split)?)
}

/// A line for the part of each route, and as a status whether each part has a node.
fn lines_of(
    alloc: Global,
    slot_map: &SlotMap,
    split: &SplitCommand<Cmd>,
) -> Result<(Vec<u8>, u8), AllocError>
    ensures { IfOk result (λ answer. ArePartLines slot_map.now (split_part split.now)
        split.now.routes answer.0.items answer.1) }
{
    let mut lines = Vec::new(alloc);
    let mut status = 0;
    let routes = split.routes();
    for (number, (route, _)) in routes.iter().enumerate() {
        let part = split.part(alloc, number)?;
        let node = slot_map.slot_addr_for_route(*route, None, 0);
        if node.is_none() {
            status = 1;
        }
        lines.extend_from_slice(&line_of(alloc, route.slot(), node, &part)?)?;
    }
    Ok((lines, status))
}

/// The line of a part: its slot, its node, and its words.
fn line_of(
    alloc: Global,
    slot: u16,
    node: Option<&NodeAddress>,
    part: &Cmd,
) -> Result<Vec<u8>, AllocError>
    ensures { IfOk result (λ line. line.items
        ≡ part_line record { slot = slot; node = option_copied node.entry; words = part.now }) }
{
    let place = match node {
        Some(node) => format!(in alloc; "{slot} {node}")?,
        None => format!(in alloc; "{slot} none")?,
    };
    let mut line = place.into_bytes();
    push_words(&mut line, part)?;
    line.push(b'\n')?;
    Ok(line)
}

/// Adds the words at the end, each after a space.
pub(super) fn push_words(line: &mut Vec<u8>, words: &Cmd) -> Result<(), AllocError>
    ensures { OnOk result
        (line.new.items ≡ line.old.items ++ flat_map (λ word. space ∷ word) words.now) }
{
    for word in words.args() {
        push_word(line, word)?;
    }
    Ok(())
}
