//! Pipelines, and which of them a cluster refuses.
use fixtures::{bad_row, cmds, debug, done, is_same, number, okay, plain, put, shown};
use redis_cluster::pipeline::{ClusterPipeline, cluster_pipe};
use resp_core::{Cmd, RedisResult};
use std::alloc::Global;

/// What a call of this name returns. The pipeline is that of earlier rows.
pub fn call(
    pipeline: &mut ClusterPipeline,
    alloc: Global,
    name: &str,
    text: &str,
) -> RedisResult<String> {
    match name {
        "pipe" => done(alloc, pipe(alloc, pipeline, text)),
        "new" => renew(alloc, pipeline),
        "room" => put(
            alloc,
            pipeline,
            ClusterPipeline::with_capacity(alloc, number(text)?),
        ),
        "copy" => {
            *pipeline = pipeline.clone()?;
            okay(alloc)
        }
        "check" => done(alloc, pipeline.check(alloc)),
        "ignored" => shown(alloc, &pipeline.ignored(number(text)?)),
        _ => changed(alloc, pipeline, name, text),
    }
}

fn renew(alloc: Global, pipeline: &mut ClusterPipeline) -> RedisResult<String> {
    *pipeline = ClusterPipeline::new(alloc);
    okay(alloc)
}

/// A new pipeline of these commands, which has to be one that may be sent.
fn pipe(alloc: Global, pipeline: &mut ClusterPipeline, text: &str) -> RedisResult<()> {
    *pipeline = cluster_pipe(alloc);
    for command in &cmds(alloc, text)? {
        push(alloc, pipeline, command)?;
    }
    pipeline.check(alloc)
}

/// Adds a command with its arguments.
fn push(alloc: Global, pipeline: &mut ClusterPipeline, command: &Cmd) -> RedisResult<()> {
    pipeline.push_cmd(alloc, command.arg_idx(0).unwrap_or(b""))?;
    for arg in command.args().skip(1) {
        pipeline.write_arg(arg)?;
    }
    Ok(())
}

/// Adds a command, or an argument to the last one, or marks that command.
fn change(
    alloc: Global,
    pipeline: &mut ClusterPipeline,
    name: &str,
    text: &str,
) -> RedisResult<()> {
    match name {
        "cmd" => {
            pipeline.cmd(alloc, text.as_bytes())?;
        }
        "arg" => {
            pipeline.arg(text.as_bytes())?;
        }
        "write_arg" => pipeline.write_arg(text.as_bytes())?,
        "ignore" => {
            pipeline.ignore()?;
        }
        _ => return Err(bad_row("no call of this name")),
    }
    Ok(())
}

/// A pipeline after such a change. An error tells if the pipeline changed all the same.
fn changed(
    alloc: Global,
    pipeline: &mut ClusterPipeline,
    name: &str,
    text: &str,
) -> RedisResult<String> {
    let before = debug(alloc, pipeline)?;
    let change = change(alloc, pipeline, name, text);
    let after = debug(alloc, pipeline)?;
    match change {
        Err(_) if !is_same(&before, &after) => plain(alloc, "changed"),
        Err(error) => Err(error),
        Ok(()) => Ok(after),
    }
}
