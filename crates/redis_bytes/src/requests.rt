ghost use Rattle.std.specs.Prelude.{◌≡◌, ◌++◌, ℕ, List, Some, map, IfOk, IfErr, MatchResult};
ghost use Rattle.resp.specs.Forms.{IsRequest};
ghost use Rattle.resp.specs.Requests.{RequestErrorCause};
ghost use Rattle.redis_routing.specs.Command.{is_word};
ghost use Rattle.redis_bytes.specs.Requests.{Words, IsUnread};

use crate::fault::BytesFault;
use redis_routing::Routable;
use resp::{RequestError, read_args};
use std::alloc::Global;
use std::marker::Model;

/// A request that is read in place: its arguments are pieces of its bytes.
#[derive(Drop)]
pub struct Request<'a> {
    bytes: &'a [u8],
    args: Vec<&'a [u8]>,
}

impl<'a> Model for Request<'a> {
    ghost use Rattle.std.specs.Prelude.{map};
    ghost use Rattle.resp.specs.Forms.{IsRequest};
    ghost use Rattle.redis_bytes.specs.Requests.{Words};

    ghost Value = { Words };

    ghost view = { λ request. map (λ arg. arg.now) request.args.items };

    ghost invariant = { λ request.
        IsRequest (map (λ arg. arg.now) request.args.items) request.bytes.now };
}

impl<'a> Request<'a> {
    /// The request at the front of the bytes, and what follows it. `*1\r\n$4\r\nPING\r\n` has the one
    /// argument `PING`.
    ///
    /// # Errors
    ///
    /// As `resp::read_request`.
    pub fn read(alloc: Global, bytes: &'a [u8]) -> Result<(Self, &'a [u8]), RequestError>
        ensures found { IfOk result (λ x. (form : List ℕ)
            × (bytes.now ≡ form ++ x.1.now) × IsRequest x.0 form) }
        ensures only { (words : Words) (form rest : List ℕ) → IsRequest words form
            → bytes.now ≡ form ++ rest
            → MatchResult result (λ x. (x.0 ≡ words) × (x.1.now ≡ rest)) (λ e. e ≡ RequestError.Memory) }
        ensures cause { IfErr result (λ e. RequestErrorCause bytes.now e) }
    {
        let (args, rest) = read_args(alloc, bytes)?;
        let (own, _) = bytes.split_at(bytes.len() - rest.len());
        Ok((Request { bytes: own, args }, rest))
    }

    /// The bytes of the request.
    pub fn bytes(&self) -> &'a [u8]
        ensures { IsRequest self.now result.now }
    {
        self.bytes
    }
}

impl<'a> Routable for Request<'a> {
    ghost args = { λ request. map Some request };

    fn arg_idx(&self, index: usize) -> Option<&[u8]> {
        let arg = self.args.get(index)?;
        Some(*arg)
    }

    fn position(&self, candidate: &[u8]) -> Option<usize> {
        for (place, arg) in self.args.iter().enumerate() {
            if is_word(*arg, candidate) {
                return Some(place);
            }
        }
        None
    }
}

/// Whether two words are the same in any ASCII case.
fn is_word(word: &[u8], candidate: &[u8]) -> bool
    ensures { result ≡ is_word candidate.now (Some word.now) }
{
    word.eq_ignore_ascii_case(candidate)
}

/// The one request that the bytes are. Its arguments are pieces of the bytes.
///
/// # Errors
///
/// `Request` if the bytes begin no whole request, `AfterRequest` if bytes follow it. `Memory`
/// if memory runs out.
pub fn request_in(alloc: Global, bytes: &[u8]) -> Result<Request<'_>, BytesFault>
    ensures found { IfOk result (λ request. IsRequest request bytes.now) }
    ensures only { (words : Words) → IsRequest words bytes.now
        → MatchResult result (λ request. request ≡ words) (λ fault. fault ≡ BytesFault.Memory) }
    ensures fault { IfErr result (λ fault. IsUnread bytes.now fault) }
{
    let (request, rest) = match Request::read(alloc, bytes) {
        Ok(found) => found,
        Err(RequestError::Memory) => return Err(BytesFault::Memory),
        Err(RequestError::Fault(fault)) => return Err(BytesFault::Request(fault)),
    };
    if !rest.is_empty() {
        return Err(BytesFault::AfterRequest(bytes.len() - rest.len()));
    }
    Ok(request)
}
