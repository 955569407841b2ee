ghost use Rattle.std.specs.Prelude.{◌<◌, ℕ, length, take, IfOk, OnOk, OnErr};
ghost use Rattle.std.specs.Io.{WritesAtMost};
ghost use Rattle.std.specs.Io.KnownBytes.{Appends, WriteAppends};
ghost use Rattle.slotroute_serve.specs.Streams.{MayFailToWrite};

use crate::fault::WriteFault;
use crate::streams::Sink;
use std::io::{self, ErrorKind};

/// Writes and flushes a text. If the writer fails, the first bytes of the text may be written.
pub fn emit<W: Sink>(writer: &mut W, text: &[u8]) -> Result<(), WriteFault>
    ensures ok { OnOk result (Appends (W.contents writer.old) (W.contents writer.new) text.now) }
    ensures failed { OnErr result (MayFailToWrite W.fails) }
    ensures begun { OnErr result
        ((k : ℕ) × Appends (W.contents writer.old) (W.contents writer.new) (take k text.now)) }
{
    put(writer, text).map_err(|_| WriteFault)
}

/// Writes and flushes a text, as `write_all` and `flush` do.
fn put<W: Sink>(writer: &mut W, text: &[u8]) -> io::Result<()>
    ensures ok { OnOk result (Appends (W.contents writer.old) (W.contents writer.new) text.now) }
    ensures failed { OnErr result (MayFailToWrite W.fails) }
    ensures begun { OnErr result
        ((k : ℕ) × Appends (W.contents writer.old) (W.contents writer.new) (take k text.now)) }
{
    let mut done = 0;
    while done < text.len() {
        done += write_retrying(writer, &text[done..])?;
    }
    writer.flush()
}

/// Writes some of the bytes. An interrupted call is repeated, up to 2^64 times.
fn write_retrying<W: Sink>(writer: &mut W, bytes: &[u8]) -> io::Result<usize>
    ensures bound { WritesAtMost result bytes.now }
    ensures some { IfOk result (λ n. 0 < length bytes.now → 0 < n) }
    ensures bytes { WriteAppends (W.contents writer.old) (W.contents writer.new) result bytes.now }
    ensures failed { OnErr result (MayFailToWrite W.fails) }
{
    for _ in 0..u64::MAX {
        match writer.write(bytes) {
            Err(error) if error.kind() == ErrorKind::Interrupted => {}
            answer => return answer,
        }
    }
    writer.write(bytes)
}
