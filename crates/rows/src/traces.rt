//! What was sent, as rows write it: a semicolon and a space apart, each time the node and the words
//! of the command, and after them that the node refused or where it redirected.
use fixtures::{bytes_or_none, push, push_next, shown};
use memory_nodes::TraceEntry;
use resp_core::RedisResult;
use std::alloc::Global;

/// Adds a word of a command. An empty one is written as `""`.
fn push_word(alloc: Global, text: &mut String, word: &[u8]) -> RedisResult<()> {
    push(text, " ")?;
    if word.is_empty() {
        return push(text, "\"\"");
    }
    push(text, &bytes_or_none(alloc, Some(word))?)
}

/// What became of a send, if the node did not answer it.
fn outcome(alloc: Global, entry: &TraceEntry) -> RedisResult<String> {
    match &entry.redirect {
        Some(redirect) => Ok(format!(in alloc; " {redirect:?}")?),
        None if entry.answered => Ok(String::new(alloc)),
        None => Ok(String::from_str(alloc, " refused")?),
    }
}

fn entry_text(alloc: Global, entry: &TraceEntry) -> RedisResult<String> {
    let mut text = shown(alloc, &entry.node)?;
    for word in &entry.args {
        push_word(alloc, &mut text, word)?;
    }
    push(&mut text, &outcome(alloc, entry)?)?;
    Ok(text)
}

/// The sends of single commands.
pub fn trace_text(alloc: Global, trace: &[TraceEntry]) -> RedisResult<String> {
    let mut text = String::new(alloc);
    for entry in trace {
        push_next(&mut text, "; ", &entry_text(alloc, entry)?)?;
    }
    Ok(text)
}
