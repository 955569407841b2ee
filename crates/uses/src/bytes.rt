//! Requests and replies as bytes.
ghost use Rattle.std.specs.Prelude.{◌≡◌, ◌∷◌, [], None, codes, IfOk};
ghost use Rattle.resp.specs.Forms.{request};
ghost use Rattle.resp.specs.Reading.{CanBeCompleted};

use resp::{Fault, ReadError, Response, read, write_command};
use resp_core::Cmd;
use std::alloc::{AllocError, Global};

/// The bytes of `GET key`.
pub fn get_request(alloc: Global, key: &[u8]) -> Result<Vec<u8>, AllocError>
    ensures { IfOk result (λ bytes. bytes.items ≡ request (codes "GET" ∷ key.now ∷ [])) }
{
    let mut command = Cmd::new(alloc);
    command.arg(b"GET")?.arg(key)?;
    write_command(alloc, &command)
}

/// The first answer and the bytes after it, or `None` while more bytes can complete it.
pub fn first_answer(alloc: Global, bytes: &[u8]) -> Result<Option<(Response, &[u8])>, ReadError>
    ensures waits { IfOk result (λ found. found ≡ None → CanBeCompleted bytes.now) }
{
    match read(alloc, bytes) {
        Ok(found) => Ok(Some(found)),
        Err(ReadError::Fault(Fault::Incomplete)) => Ok(None),
        Err(error) => Err(error),
    }
}
