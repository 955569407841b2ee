ghost use Rattle.std.specs.Prelude.{◌≡◌, [], IfOk, IsTrue, None, true, false};
ghost use Rattle.memory_nodes.specs.Parts.{words};

use cluster_slots::NodeAddress;
use redis_cluster::driver::Log;
use redis_routing::Redirect;
use resp_core::{Cmd, Value};
use std::alloc::{AllocError, Global};

/// What one send did: where the command went, its arguments, and whether the node answered it,
/// refused it or redirected it.
#[derive(Drop)]
pub struct TraceEntry {
    /// The node that was named.
    pub node: NodeAddress,
    /// The arguments of the command, the name first.
    pub args: Vec<Vec<u8>>,
    /// Whether the node answered. If not, it refused or redirected.
    pub answered: bool,
    /// Where the node redirected the client, if it did.
    pub redirect: Option<Redirect>,
    /// The reply of the node, which only proofs read.
    pub(super) reply: Log<(), (), Value>,
    ghost one_ending: { IsTrue answered → redirect ≡ None },
}

impl TraceEntry {
    /// The entry of a send that the node answered.
    pub(super) fn with_answer(
        alloc: Global,
        node: &NodeAddress,
        cmd: &Cmd,
    ) -> Result<TraceEntry, AllocError>
        ensures node { IfOk result (λ entry. entry.node ≡ node.now) }
        ensures args { IfOk result (λ entry. words entry.args.items ≡ cmd.now) }
        ensures answered { IfOk result (λ entry. entry.answered ≡ true) }
        ensures reply { IfOk result (λ entry. entry.reply.items ≡ []) }
    {
        Ok(TraceEntry {
            node: node.clone()?,
            args: copy_args(alloc, cmd)?,
            answered: true,
            redirect: None,
            reply: Log::new(),
        })
    }

    /// The entry of a send that the node redirected, or refused if there is no redirect.
    pub(super) fn without_answer(
        alloc: Global,
        node: &NodeAddress,
        cmd: &Cmd,
        redirect: Option<Redirect>,
    ) -> Result<TraceEntry, AllocError>
        ensures node { IfOk result (λ entry. entry.node ≡ node.now) }
        ensures args { IfOk result (λ entry. words entry.args.items ≡ cmd.now) }
        ensures answered { IfOk result (λ entry. entry.answered ≡ false) }
        ensures redirect { IfOk result (λ entry. entry.redirect ≡ redirect) }
        ensures reply { IfOk result (λ entry. entry.reply.items ≡ []) }
    {
        Ok(TraceEntry {
            node: node.clone()?,
            args: copy_args(alloc, cmd)?,
            answered: false,
            redirect,
            reply: Log::new(),
        })
    }
}

/// A copy of the arguments of a command.
fn copy_args(alloc: Global, cmd: &Cmd) -> Result<Vec<Vec<u8>>, AllocError>
    ensures { IfOk result (λ args. words args.items ≡ cmd.now) }
{
    let mut args = Vec::with_capacity(alloc, cmd.len())?;
    for arg in cmd.args() {
        args.push(arg.to_vec(alloc)?)?;
    }
    Ok(args)
}
