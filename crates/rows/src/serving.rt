//! Runs of the program, over streams in memory.
use cluster_map::ReadRoutingStrategy;
use fixtures::{Strategy, bad_row, bytes, cut, pieces, text};
use resp_core::RedisResult;
use slotroute_serve::serve;
use std::alloc::Global;
use std::io::{self, ErrorKind, Write};

/// Takes a byte at each second call, and is interrupted at the others.
#[derive(Drop)]
struct Interrupted<'a> {
    taken: &'a mut Vec<u8>,
    is_next: bool,
}

impl Write for Interrupted<'_> {
    fn write(&mut self, buf: &[u8]) -> io::Result<usize> {
        self.is_next = !self.is_next;
        if self.is_next {
            return Err(io::Error::from(ErrorKind::Interrupted));
        }
        self.taken.write(&buf[..buf.len().min(1)])
    }

    fn flush(&mut self) -> io::Result<()> {
        Ok(())
    }
}

/// What a run of this name writes. Another name is that of a strategy, which is passed.
pub fn call(alloc: Global, name: &str, row: &str) -> RedisResult<String> {
    // With room, so that a short output does not fail for memory.
    let mut out = Vec::with_capacity(alloc, 1000)?;
    let told = match name {
        "run" => run(alloc, row, &mut out, None)?,
        "interrupted" => run_interrupted(alloc, row, &mut out)?,
        _ => run_by(alloc, name, row, &mut out)?,
    };
    let out = String::from_utf8_lossy(alloc, &out)?;
    Ok(format!(in alloc; "{out:?} {told}")?)
}

/// A run to which a strategy is passed.
fn run_by(alloc: Global, strategy: &str, row: &str, out: &mut Vec<u8>) -> RedisResult<String> {
    let Some(strategy) = Strategy::new(strategy)? else {
        return Err(bad_row("no strategy"));
    };
    run(alloc, row, out, Some(Box::new(alloc, strategy)?))
}

fn run_interrupted(alloc: Global, row: &str, taken: &mut Vec<u8>) -> RedisResult<String> {
    let mut out = Interrupted {
        taken,
        is_next: false,
    };
    run(alloc, row, &mut out, None)
}

/// The words of a command line.
fn words_of(alloc: Global, row: &str) -> RedisResult<Vec<String>> {
    let mut words = Vec::new(alloc);
    for word in &pieces(alloc, row, " ")? {
        words.push(text(alloc, word)?)?;
    }
    Ok(words)
}

/// Runs the program on the words of a row, and after a bar its input. Returns what goes to the error
/// stream, and the status.
fn run<O: Write>(
    alloc: Global,
    row: &str,
    out: &mut O,
    strategy: Option<Box<dyn ReadRoutingStrategy>>,
) -> RedisResult<String> {
    let (words, input) = cut(row, " | ");
    let words = words_of(alloc, words)?;
    let input = bytes(alloc, input)?;
    let mut err = Vec::with_capacity(alloc, 1000)?;
    let status = serve(
        alloc,
        &words,
        &mut input.as_slice(),
        out,
        &mut err,
        strategy,
    );
    let err = String::from_utf8_lossy(alloc, &err)?;
    Ok(format!(in alloc; "{err:?} {status}")?)
}
