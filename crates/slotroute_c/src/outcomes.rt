ghost use Rattle.std.specs.Prelude.{◌≡◌, ◌<◌, ◌≤◌, length};
ghost use Rattle.slotroute_c.specs.Outcomes.{code, message};
ghost use Rattle.slotroute_c.specs.Buffers.{IsWritten};

use crate::buffers::put;

/// The outcome of a call. `include/slotroute.h` says more of each.
#[derive(Clone, Copy)]
pub enum Outcome {
    /// The call did what it is for.
    Done,
    /// Memory ran out.
    NoMemory,
    /// A buffer is too small.
    TooSmall,
    /// More bytes can complete the request.
    RequestIncomplete,
    /// No bytes complete the request.
    RequestMalformed,
    /// Bytes follow the request.
    AfterRequest,
    /// The request is no complete multi-key command.
    NotMultiKey,
    /// More bytes can complete a reply.
    ReplyIncomplete,
    /// No bytes complete a reply.
    ReplyMalformed,
    /// A reply has arrays that are nested too deep.
    ReplyTooDeep,
    /// A reply is an error.
    ReplyIsError,
    /// Bytes follow the replies.
    AfterReplies,
    /// The replies do not fit the parts.
    Unfit,
    /// The one reply has no written form.
    NoForm,
    /// A text or a host is not UTF-8.
    NotText,
    /// The text is no redirect.
    NoRedirect,
    LineFeedInHost,
    /// A command goes to no node.
    NotRoutable,
    /// A line registers no name.
    BadName,
    /// What is asked for is not there.
    NotThere,
    /// Shared links do not take the command.
    NotTaken,
    /// The command waits, as `XREAD BLOCK`.
    Blocking,
    /// The session keeps as many calls, or bytes of requests, as it may.
    TooMany,
}

impl Outcome {
    /// The code that a call returns for this.
    pub fn code(self) -> u32
        ensures { result ≡ code self }
    {
        match self {
            Outcome::Done => 0,
            Outcome::NoMemory => 1,
            Outcome::TooSmall => 2,
            Outcome::RequestIncomplete => 3,
            Outcome::RequestMalformed => 4,
            Outcome::AfterRequest => 5,
            Outcome::NotMultiKey => 6,
            Outcome::ReplyIncomplete => 7,
            Outcome::ReplyMalformed => 8,
            Outcome::ReplyTooDeep => 9,
            Outcome::ReplyIsError => 10,
            Outcome::AfterReplies => 11,
            Outcome::Unfit => 12,
            Outcome::NoForm => 13,
            Outcome::NotText => 14,
            Outcome::NoRedirect => 15,
            Outcome::LineFeedInHost => 16,
            Outcome::NotRoutable => 17,
            Outcome::BadName => 19,
            Outcome::NotThere => 20,
            Outcome::NotTaken => 21,
            Outcome::Blocking => 22,
            Outcome::TooMany => 23,
        }
    }
}

/// The text of a code.
fn message(number: u32) -> &'static str
    ensures { result.now ≡ message number }
{
    match number {
        0 => "done",
        1 => "out of memory",
        2 => "a buffer is too small",
        3 => "the bytes end before the request does",
        4 => "the bytes begin no request",
        5 => "bytes follow the request",
        6 => "not a complete command over many keys that is split by slot",
        7 => "the bytes end before the reply does",
        8 => "the bytes begin no reply",
        9 => "arrays stand too deep in arrays",
        10 => "a reply is or holds an error",
        11 => "bytes follow the last reply",
        12 => "the replies are not what the parts answer with",
        13 => "the one reply has no form",
        14 => "a text is not UTF-8",
        15 => "the text is no redirect",
        16 => "a host has a line feed",
        17 => "a command goes to no node",
        19 => "a line registers no name",
        20 => "there is none",
        21 => "shared links do not take this command",
        22 => "shared links do not take a command that waits",
        23 => "too many commands wait",
        _ => "no answer of this library",
    }
}

/// The length of the text of a code, as of `out of memory` for 1. The text is written if it fits.
#[unsafe(no_mangle)]
pub extern "C" fn slotroute_message(answer: u32, text: &mut [u8]) -> usize
    // The result is the length of the text.
    ensures len { result ≡ length (message answer) }
    // The text is written if it fits.
    ensures text { length (message answer) ≤ length text.old
        → IsWritten (message answer) text.old text.new }
    // Otherwise nothing is written.
    ensures too_small { length text.old < length (message answer) → text.new ≡ text.old }
{
    let said = message(answer).as_bytes();
    if said.len() <= text.len() {
        put(text, said);
    }
    said.len()
}
