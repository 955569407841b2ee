//! Commands: where they go, and how they are split.
use crate::routing::Known;
use fixtures::{
    bad_row, bytes, bytes_or_none, cmd, cmd_text, debug, debug_or_none, equality, number, numbers,
    or_text, plain, push_next, two, value,
};
use redis_cluster::routing::{
    Routable, Routed, RoutingInfo, SplitCommand, command_for_multi_slot_indices,
    command_for_multi_slot_indices_with, multi_slot_routes,
};
use resp_core::{Cmd, RedisResult};
use std::alloc::{AllocError, Global};

/// What a call of this name returns. A command that begins with a bracket, or is `nil`, is a value.
pub fn call(alloc: Global, known: &Known, name: &str, text: &str) -> RedisResult<String> {
    let (first, text) = match name {
        "route_bytes" => return debug_or_none(alloc, bytes_route(alloc, known, text)?.as_ref()),
        "take" | "take_two" | "arg" | "position" => two(text),
        _ => ("", text),
    };
    if text.starts_with('[') || text == "nil" {
        ask(alloc, known, name, first, &value(alloc, text)?)
    } else {
        ask(alloc, known, name, first, &cmd(alloc, text)?)
    }
}

/// What a call of this name returns for a command, after the first word of the row.
fn ask<R: Routable>(
    alloc: Global,
    known: &Known,
    name: &str,
    first: &str,
    command: &R,
) -> RedisResult<String> {
    match name {
        "take" => cmd_text(alloc, &take(alloc, command, &numbers(alloc, first)?)?),
        "take_two" => cmd_text(alloc, &take_two(alloc, command, &numbers(alloc, first)?)?),
        "arg" => bytes_or_none(alloc, command.arg_idx(number(first)?)),
        "position" => debug_or_none(alloc, command.position(first.as_bytes()).as_ref()),
        _ => told(alloc, known, name, command),
    }
}

/// What a call of this name returns for a command.
fn told<R: Routable>(alloc: Global, known: &Known, name: &str, command: &R) -> RedisResult<String> {
    match name {
        "route" => debug_or_none(alloc, route(alloc, known, command)?.as_ref()),
        "route_with" => debug_or_none(alloc, route_with(alloc, known, command)?.as_ref()),
        "copied_route" => copied_route(alloc, known, command),
        "parts" => parts(alloc, known, command),
        "routed" => routed_text(alloc, &Routed::new(alloc, command, known.names())?),
        "routes" => debug(alloc, &multi_slot_routes(alloc, command, known.names())?),
        "name" => bytes_or_none(alloc, command.command(alloc)?.as_deref()),
        _ => Err(bad_row("no call of this name")),
    }
}

fn route<R: Routable>(
    alloc: Global,
    known: &Known,
    command: &R,
) -> Result<Option<RoutingInfo>, AllocError> {
    RoutingInfo::for_routable(alloc, command, &known.read_only)
}

fn route_with<R: Routable>(
    alloc: Global,
    known: &Known,
    command: &R,
) -> Result<Option<RoutingInfo>, AllocError> {
    RoutingInfo::for_routable_with(alloc, command, &known.read_only, &known.registry)
}

/// Where a command goes, or the routes of its parts.
fn routed_text<R: Routable>(alloc: Global, routed: &Routed<'_, R>) -> RedisResult<String> {
    match routed {
        Routed::Nowhere => plain(alloc, "nowhere"),
        Routed::One(info) => debug(alloc, info),
        Routed::Several(group, policy) => debug(alloc, &(*group, *policy)),
        Routed::Slots(split) => debug(alloc, &split.routes()),
    }
}

/// Where a request goes.
fn bytes_route(alloc: Global, known: &Known, text: &str) -> RedisResult<Option<RoutingInfo>> {
    let request = bytes(alloc, text)?;
    or_text(alloc, redis_bytes::route(alloc, &request, known.names()))
}

/// Whether a copy of where a command goes is equal.
fn copied_route<R: Routable>(alloc: Global, known: &Known, command: &R) -> RedisResult<String> {
    match route(alloc, known, command)? {
        Some(info) => equality(alloc, &info),
        None => Err(bad_row("the command goes nowhere")),
    }
}

/// The parts of a command, a semicolon and a space apart.
fn parts<R: Routable>(alloc: Global, known: &Known, command: &R) -> RedisResult<String> {
    let Some(split) = SplitCommand::new(alloc, command, known.names())? else {
        return plain(alloc, "none");
    };
    let mut text = String::new(alloc);
    for number in 0..split.len() {
        push_next(
            &mut text,
            "; ",
            &cmd_text(alloc, &split.part(alloc, number)?)?,
        )?;
    }
    Ok(text)
}

fn take<R: Routable>(alloc: Global, command: &R, indices: &[usize]) -> RedisResult<Cmd> {
    command_for_multi_slot_indices(alloc, command, indices)
}

fn take_two<R: Routable>(alloc: Global, command: &R, indices: &[usize]) -> RedisResult<Cmd> {
    command_for_multi_slot_indices_with(alloc, command, 2, indices)
}
