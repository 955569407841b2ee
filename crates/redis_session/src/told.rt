ghost use Rattle.std.specs.Prelude.{◌≡◌, IfOk};
ghost use Rattle.std.specs.List.{list_all, list_any};
ghost use Rattle.redis_session.specs.Told.{effect_of, effect_text, error_reply, error_text, is_not_run, no_tries_reply};

use std::alloc::{AllocError, Global};

/// What became of a part of a call that ends with an error of the session.
#[derive(Clone, Copy, Debug, PartialEq, Eq)]
pub enum PartFate {
    /// It did not run, and will not: it was never asked, or its last answer is a refusal.
    NotRun,
    /// It may have run, or may yet: it is on its way, or its link ended after a byte of it was written.
    Unknown,
    /// It was answered by anything but a refusal.
    Answered,
}

/// What an error of the session says of the effect of its call.
#[derive(Clone, Copy, Debug, PartialEq, Eq)]
pub enum Effect {
    /// The call did nothing.
    Nothing,
    /// A part did not take effect, and others may have.
    InPart,
    /// The call may have taken effect.
    Unknown,
}

/// Why a call ends with an error of the session.
#[derive(Clone, Copy, Debug, PartialEq, Eq)]
pub enum ErrorCause {
    /// A later part of its caller took effect first.
    Overtaken,
    /// A part has no tries left.
    NoTries,
    /// There is no node to ask.
    NoNode,
    /// Its time is over.
    Late,
    /// A link ended after a byte of a part was written.
    Lost,
}

/// What an error says of a call whose parts have these fates. It says that the call did nothing only if
/// no part ran or may yet.
pub fn effect_of(fates: &[PartFate]) -> Effect
    ensures { result ≡ effect_of fates.now }
{
    if is_each_not_run(fates) {
        return Effect::Nothing;
    }
    if is_some_not_run(fates) {
        return Effect::InPart;
    }
    Effect::Unknown
}

/// Whether no part ran.
fn is_each_not_run(fates: &[PartFate]) -> bool
    ensures { result ≡ list_all is_not_run fates.now }
{
    fates.iter().all(|fate| matches!(fate, PartFate::NotRun))
}

/// Whether some part did not run.
fn is_some_not_run(fates: &[PartFate]) -> bool
    ensures { result ≡ list_any is_not_run fates.now }
{
    fates.iter().any(|fate| matches!(fate, PartFate::NotRun))
}

/// The reply if a part has no tries left, with the node's last refusal in its text.
///
/// # Errors
///
/// If memory runs out. Then `error_reply` has a reply that says the same without that text.
pub fn no_tries_reply(alloc: Global, refusal: &[u8], effect: Effect) -> Result<Vec<u8>, AllocError>
    ensures { IfOk result (λ reply. reply.items ≡ no_tries_reply refusal.now effect) }
{
    let mut reply = Vec::new(alloc);
    reply.extend_from_slice(b"-TRYAGAIN the nodes refused too often: ")?;
    reply.extend_from_slice(error_text(refusal))?;
    reply.extend_from_slice(b"; ")?;
    reply.extend_from_slice(effect_text(effect))?;
    reply.extend_from_slice(b"\r\n")?;
    Ok(reply)
}

/// The text of an error, without its mark and the end of its line.
fn error_text(error: &[u8]) -> &[u8]
    ensures { result.now ≡ error_text error.now }
{
    if error.len() < 3 {
        return &[];
    }
    &error[1..error.len() - 2]
}

/// What an error says of the effect.
fn effect_text(effect: Effect) -> &'static [u8]
    ensures { result.now ≡ effect_text effect }
{
    match effect {
        Effect::Nothing => b"the command did not take effect",
        Effect::InPart => b"a part did not take effect, and others may have",
        Effect::Unknown => b"the command may have taken effect",
    }
}

const OVERTAKEN: [&[u8]; 3] = [
    b"-TRYAGAIN a later command took effect first; the command did not take effect\r\n",
    b"-TRYAGAIN a later command took effect first; a part did not take effect, and others may have\r\n",
    b"-TRYAGAIN a later command took effect first; the command may have taken effect\r\n",
];

const NO_TRIES: [&[u8]; 3] = [
    b"-TRYAGAIN the nodes refused too often; the command did not take effect\r\n",
    b"-TRYAGAIN the nodes refused too often; a part did not take effect, and others may have\r\n",
    b"-TRYAGAIN the nodes refused too often; the command may have taken effect\r\n",
];

const NO_NODE: [&[u8]; 3] = [
    b"-CLUSTERDOWN no node serves the slot; the command did not take effect\r\n",
    b"-CLUSTERDOWN no node serves the slot; a part did not take effect, and others may have\r\n",
    b"-CLUSTERDOWN no node serves the slot; the command may have taken effect\r\n",
];

const LATE: [&[u8]; 3] = [
    b"-ERR the time is over; the command did not take effect\r\n",
    b"-ERR the time is over; a part did not take effect, and others may have\r\n",
    b"-ERR the time is over; the command may have taken effect\r\n",
];

const LOST: [&[u8]; 3] = [
    b"-ERR a connection ended; the command did not take effect\r\n",
    b"-ERR a connection ended; a part did not take effect, and others may have\r\n",
    b"-ERR a connection ended; the command may have taken effect\r\n",
];

/// The reply that tells of an error of the session, in version 2 of the protocol. It takes no memory.
pub fn error_reply(cause: ErrorCause, effect: Effect) -> &'static [u8]
    ensures { result.now ≡ error_reply cause effect }
{
    let texts = match cause {
        ErrorCause::Overtaken => &OVERTAKEN,
        ErrorCause::NoTries => &NO_TRIES,
        ErrorCause::NoNode => &NO_NODE,
        ErrorCause::Late => &LATE,
        ErrorCause::Lost => &LOST,
    };
    match effect {
        Effect::Nothing => texts[0],
        Effect::InPart => texts[1],
        Effect::Unknown => texts[2],
    }
}
