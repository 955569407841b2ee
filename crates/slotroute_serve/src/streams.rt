ghost use Rattle.std.specs.Prelude.{◌≡◌, ◌<◌, ◌+◌, ◌++◌, ℕ, List, Option, ⊤, length, vec_len, IfOk, IfErr, OnOk, OnErr, IfSome};
ghost use Rattle.std.specs.declared.io.Error.{Error};
ghost use Rattle.std.specs.Io.{WritesAtMost};
ghost use Rattle.std.specs.Io.BufRead.{take_through, DropsThrough};
ghost use Rattle.std.specs.Io.KnownBytes.{Keeps, WriteAppends, IsAtEnd};
ghost use Rattle.slotroute_serve.specs.Lines.{StopsInLine};
ghost use Rattle.slotroute_serve.specs.Streams.{Leaves};

use std::io::{self, BufRead, ErrorKind, Write};

/// What lines are read from.
pub trait Source {
    /// The bytes that reads will give, if they are known.
    ghost remaining: { Self → Option (List ℕ) };

    /// Whether a read may fail with this error. Any source shows that only by a read that failed.
    ghost fails: { Self → Error → Type 0 };

    /// Adds the next line with its line feed to `line`. Returns the number of its bytes, 0 at the
    /// end.
    fn read_line(&mut self, line: &mut Vec<u8>) -> io::Result<usize>
        ensures ok { IfOk result (λ n. vec_len line.new ≡ vec_len line.old + n) }
        ensures bytes { OnOk result (IfSome (remaining self.old)
            (λ input. line.new.items ≡ line.old.items ++ take_through 10 input)) }
        ensures rest { OnOk result (DropsThrough (remaining self.old) (remaining self.new) 10) }
        ensures end { IfOk result (λ n. n ≡ 0 → IsAtEnd (remaining self.old)) }
        ensures stops { OnErr result
            (Leaves (remaining self.old) (remaining self.new) StopsInLine) }
        ensures failed { IfErr result (fails self.old) };
}

/// What bytes are written to.
pub trait Sink {
    /// The bytes that were written, if they are known.
    ghost contents: { Self → Option (List ℕ) };

    /// Whether a write may fail with this error. Any sink shows that only by a write that failed.
    ghost fails: { Self → Error → Type 0 };

    /// Writes the first of the bytes, at least one if there are any. Returns their number.
    fn write(&mut self, bytes: &[u8]) -> io::Result<usize>
        ensures bound { WritesAtMost result bytes.now }
        ensures some { IfOk result (λ n. 0 < length bytes.now → 0 < n) }
        ensures bytes { WriteAppends (contents self.old) (contents self.new) result bytes.now }
        ensures failed { IfErr result (fails self.old) };

    /// Flushes what was written.
    fn flush(&mut self) -> io::Result<()>
        ensures bytes { Keeps (contents self.old) (contents self.new) }
        ensures failed { IfErr result (fails self.old) };
}

// Nothing is known of which calls of a reader or writer fail, so each may.
impl<R: BufRead> Source for R {
    ghost remaining = { R.remaining };

    ghost fails = { λ _ _. ⊤ };

    fn read_line(&mut self, line: &mut Vec<u8>) -> io::Result<usize> {
        self.read_until(b'\n', line)
    }
}

impl<W: Write> Sink for W {
    ghost contents = { W.contents };

    ghost fails = { λ _ _. ⊤ };

    fn write(&mut self, bytes: &[u8]) -> io::Result<usize> {
        match Write::write(self, bytes) {
            Ok(0) if !bytes.is_empty() => Err(io::Error::from(ErrorKind::WriteZero)),
            answer => answer,
        }
    }

    fn flush(&mut self) -> io::Result<()> {
        Write::flush(self)
    }
}
