ghost use Rattle.std.specs.Prelude.{◌≡◌, ◌++◌, ◌∷◌, map, IfOk, OnOk};
ghost use Rattle.std.specs.List.{flat_map};
ghost use Rattle.resp_core.specs.Reply.{replies_of};
ghost use Rattle.resp_core.specs.View.{view};
ghost use Rattle.memory_nodes.specs.Nodes.{entry_of};
ghost use Rattle.memory_nodes.specs.Parts.{words};
ghost use Rattle.redis_bytes.specs.NameLines.{space};
ghost use Rattle.slotroute_serve.specs.Printed.{send_line, printed, printed_items, command_lines};

use crate::words::push_word;
use memory_nodes::TraceEntry;
use resp_core::Value;
use std::alloc::{AllocError, Global};

/// What is printed of a command: a line for each part that was sent, and one for the reply.
pub(super) fn command_lines(
    alloc: Global,
    sent: &[TraceEntry],
    reply: &Value,
) -> Result<Vec<u8>, AllocError>
    ensures { IfOk result (λ text. text.items
        ≡ command_lines (map entry_of sent.now) (view reply.now)) }
{
    let mut text = Vec::new(alloc);
    for entry in sent {
        push_send(alloc, &mut text, entry)?;
    }
    push_reply(alloc, &mut text, reply)?;
    text.push(b'\n')?;
    Ok(text)
}

/// Adds the line of a part that was sent: its node, and its words.
fn push_send(alloc: Global, text: &mut Vec<u8>, entry: &TraceEntry) -> Result<(), AllocError>
    ensures { OnOk result (text.new.items ≡ text.old.items ++ send_line (entry_of entry.now)) }
{
    let node = format!(in alloc; "{}", entry.node)?;
    text.extend_from_slice(node.as_bytes())?;
    push_words(text, &entry.args)?;
    text.push(b'\n')?;
    Ok(())
}

/// Adds words, each after a space.
fn push_words(text: &mut Vec<u8>, args: &[Vec<u8>]) -> Result<(), AllocError>
    ensures { OnOk result (text.new.items
        ≡ text.old.items ++ flat_map (λ word. space ∷ word) (words args.now)) }
{
    for word in args {
        push_word(text, word)?;
    }
    Ok(())
}

/// Adds a reply: `OK`, the number, `nil`, the bytes, or the items in brackets. A reply of another
/// kind, which no multi-key command has, adds nothing.
#[cycle(printing)]
pub(super) fn push_reply(alloc: Global, text: &mut Vec<u8>, reply: &Value) -> Result<(), AllocError>
    ensures { OnOk result (text.new.items ≡ text.old.items ++ printed (view reply.now)) }
{
    match reply {
        Value::Okay => text.extend_from_slice(b"OK"),
        Value::Int(number) => {
            let digits = format!(in alloc; "{number}")?;
            text.extend_from_slice(digits.as_bytes())
        }
        Value::Nil => text.extend_from_slice(b"nil"),
        Value::BulkString(bytes) => text.extend_from_slice(bytes),
        Value::Array(items) => {
            text.push(b'[')?;
            push_items(alloc, text, items)?;
            text.push(b']')?;
            Ok(())
        }
        Value::SimpleString(_) | Value::Map(_) => Ok(()),
    }
}

/// Adds replies, one after the other, with a comma and a space between them.
#[cycle(printing)]
fn push_items(alloc: Global, text: &mut Vec<u8>, items: &[Value]) -> Result<(), AllocError>
    ensures { OnOk result (text.new.items
        ≡ text.old.items ++ printed_items (replies_of (map view items.now))) }
{
    let [first, rest @ ..] = items else {
        return Ok(());
    };
    push_reply(alloc, text, first)?;
    for item in rest {
        text.extend_from_slice(b", ")?;
        push_reply(alloc, text, item)?;
    }
    Ok(())
}
