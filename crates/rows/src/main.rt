//! Makes the calls that the lines of its input name: of values, slots, maps, routing, combining and plans,
//! of commands that are sent to nodes, of runs of the program, and of sessions. A row has what its call
//! returns, too.
#![tactic(auto)]

mod addresses;
mod calls;
mod commands;
mod connections;
mod driving;
mod faults;
mod links;
mod maps;
mod order;
mod picked;
mod plans;
mod ranges;
mod reads;
mod retries;
mod routing;
mod serving;
mod sessions;
mod shell;
mod slots;
mod split_plans;
mod traces;

use crate::calls::CallRows;
use crate::driving::Driven;
use crate::routing::{Known, combiners, pipelines};
use crate::shell::new_session;
use cluster_map::SlotMap;
use fixtures::{Calls, bad_row, debug, run};
use redis_cluster::pipeline::{ClusterPipeline, cluster_pipe};
use redis_session::{AddedNames, Session};
use resp_core::RedisResult;
use session_core::Link;
use session_machine::Machine;
use std::alloc::Global;
use std::process::ExitCode;

/// The state that later rows use.
#[derive(Drop)]
struct Rows {
    map: SlotMap,
    known: Known,
    pipeline: ClusterPipeline,
    driven: Driven,
    link: Link,
    calls: CallRows,
    machine: Machine,
    session: Session,
}

impl Rows {
    /// What a call of this name returns, below the heading of this topic.
    fn answer(
        &mut self,
        alloc: Global,
        topic: &str,
        name: &str,
        words: &str,
    ) -> RedisResult<String> {
        match topic {
            "commands" => commands::call(alloc, name, words),
            "faults" => faults::call(alloc, name),
            "slots" => slots::call(alloc, name, words),
            "addresses" => addresses::call(alloc, name, words),
            "ranges" => ranges::call(alloc, name, words),
            "maps" => maps::call(&mut self.map, alloc, name, words),
            "routing" => routing::call(&mut self.known, alloc, name, words),
            "combining" => combiners::call(alloc, name, words),
            "pipelines" => pipelines::call(&mut self.pipeline, alloc, name, words),
            "plans" => plans::call(&self.map, alloc, name, words),
            "retries" => retries::call(&mut self.map, alloc, name, words),
            "drive" => driving::call(&mut self.driven, alloc, name, words),
            "connections" => connections::call(&self.map, alloc, name, words),
            "serve" => serving::call(alloc, name, words),
            "links" => links::call(&mut self.link, alloc, name, words),
            "order" => order::call(alloc, name, words),
            "calls" => self.calls.call(alloc, name, words),
            "session" => sessions::call(&mut self.machine, alloc, name, words),
            "shell" => shell::call(&mut self.session, alloc, name, words),
            _ => Err(bad_row("no topic of this name")),
        }
    }
}

impl Calls for Rows {
    fn call(&mut self, alloc: Global, topic: &str, name: &str, words: &str) -> RedisResult<String> {
        match name.strip_suffix('?') {
            Some(name) => kind(alloc, self.answer(alloc, topic, name, words)),
            None => self.answer(alloc, topic, name, words),
        }
    }
}

/// The kind of the error that a call returned, or what else it returned.
fn kind(alloc: Global, given: RedisResult<String>) -> RedisResult<String> {
    match given {
        Ok(answer) => Ok(answer),
        Err(error) => debug(alloc, &error.kind()),
    }
}

fn main(rt: HostRuntime) -> ExitCode {
    let alloc = rt.alloc();
    let mut rows = Rows {
        map: SlotMap::new(alloc),
        known: Known::new(alloc),
        pipeline: cluster_pipe(alloc),
        driven: Driven::new(alloc),
        link: Link::new(alloc, 0),
        calls: CallRows::new(alloc),
        machine: Machine::new(alloc),
        session: new_session(alloc, Vec::new(alloc), AddedNames::new(alloc)),
    };
    run(&rt, &mut rows)
}
