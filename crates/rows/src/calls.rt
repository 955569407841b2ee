//! What a session asks of nodes for a request, and what a caller is told if it fails.
use crate::routing::Known;
use fixtures::{bad_row, bytes, cmd, cut, debug, debug_result, done, pieces, plain, two};
use redis_session::{
    AddedNames, CallPlan, CallRefusal, ErrorCause, PartFate, command_kind, effect_of, error_reply,
    no_tries_reply, split_reply,
};
use resp::write_command;
use resp_core::RedisResult;
use std::alloc::Global;

/// The names that earlier rows added.
#[derive(Drop)]
pub struct CallRows {
    known: Known,
    added: AddedNames,
}

impl CallRows {
    /// No name is added.
    pub fn new(alloc: Global) -> CallRows {
        CallRows {
            known: Known::new(alloc),
            added: AddedNames::new(alloc),
        }
    }

    /// What a call of this name returns.
    pub fn call(&mut self, alloc: Global, name: &str, words: &str) -> RedisResult<String> {
        match name {
            "add_plain" => done(alloc, self.added.add(alloc, words.as_bytes(), true)),
            "add_script" => done(alloc, self.added.add(alloc, words.as_bytes(), false)),
            "kind" => self.kind(alloc, words),
            "plan" => self.plan(alloc, request(alloc, words)),
            "plan_bytes" => self.plan(alloc, bytes(alloc, words)),
            "reply" => self.reply(alloc, words),
            "refused" => self.refused(alloc, words),
            "told" => told(alloc, words),
            "no_tries" => no_tries(alloc, words),
            _ => Err(bad_row("no call of this name")),
        }
    }

    fn kind(&self, alloc: Global, words: &str) -> RedisResult<String> {
        let command = cmd(alloc, words)?;
        debug_result(
            alloc,
            command_kind(alloc, &command, &self.known.registry, &self.added),
        )
    }

    fn plan_of(&self, alloc: Global, request: &[u8]) -> Result<CallPlan, CallRefusal> {
        CallPlan::new(alloc, request, self.known.names(), &self.added)
    }

    /// The reply to a command, of the answers to its parts.
    fn reply(&self, alloc: Global, words: &str) -> RedisResult<String> {
        let (command, rest) = cut(words, " | ");
        let request = request(alloc, command)?;
        let mut answers = Vec::new(alloc);
        for word in pieces(alloc, rest, " | ")? {
            answers.push(bytes(alloc, word)?)?;
        }
        match split_reply(alloc, &request, self.known.names(), &answers) {
            Ok(reply) => text(alloc, &reply),
            Err(fault) => debug(alloc, &fault),
        }
    }

    /// What is asked for a request, or why it is refused.
    fn plan(&self, alloc: Global, request: RedisResult<Vec<u8>>) -> RedisResult<String> {
        match self.plan_of(alloc, &request?) {
            Ok(plan) => debug(alloc, &plan),
            Err(refusal) => debug(alloc, &refusal),
        }
    }

    /// The reply to a request that is refused.
    fn refused(&self, alloc: Global, words: &str) -> RedisResult<String> {
        match self.plan_of(alloc, &request(alloc, words)?) {
            Ok(_plan) => Err(bad_row("not refused")),
            Err(refusal) => text(alloc, refusal.reply()),
        }
    }
}

/// The bytes of a command.
fn request(alloc: Global, words: &str) -> RedisResult<Vec<u8>> {
    let command = cmd(alloc, words)?;
    Ok(write_command(alloc, &command)?)
}

/// A reply without the end of its line.
fn text(alloc: Global, reply: &[u8]) -> RedisResult<String> {
    match str::from_utf8(reply) {
        Ok(text) => plain(alloc, text.trim_end()),
        Err(_) => Err(bad_row("no text")),
    }
}

/// What is told for a cause, by the fates of the parts.
fn told(alloc: Global, words: &str) -> RedisResult<String> {
    let (cause, words) = two(words);
    let effect = effect_of(&fates(alloc, words)?);
    text(alloc, error_reply(cause_named(cause)?, effect))
}

/// What is told of a part with no tries left, by its refusal and the fates of the parts.
fn no_tries(alloc: Global, words: &str) -> RedisResult<String> {
    let (refusal, words) = cut(words, " | ");
    let effect = effect_of(&fates(alloc, words)?);
    text(
        alloc,
        &no_tries_reply(alloc, &bytes(alloc, refusal)?, effect)?,
    )
}

fn fates(alloc: Global, words: &str) -> RedisResult<Vec<PartFate>> {
    let mut fates = Vec::new(alloc);
    for word in pieces(alloc, words, " ")? {
        fates.push(fate(word)?)?;
    }
    Ok(fates)
}

fn cause_named(word: &str) -> RedisResult<ErrorCause> {
    Ok(match word {
        "overtaken" => ErrorCause::Overtaken,
        "tries" => ErrorCause::NoTries,
        "node" => ErrorCause::NoNode,
        "late" => ErrorCause::Late,
        "lost" => ErrorCause::Lost,
        _ => return Err(bad_row("no cause of this name")),
    })
}

fn fate(word: &str) -> RedisResult<PartFate> {
    Ok(match word {
        "not_run" => PartFate::NotRun,
        "unknown" => PartFate::Unknown,
        "answered" => PartFate::Answered,
        _ => return Err(bad_row("no fate of this name")),
    })
}
