ghost use Rattle.std.specs.Prelude.{◌≡◌, IfOk};
ghost use Rattle.memory_nodes.specs.Nodes.{planned_for};

use redis_routing::Redirect;
use std::alloc::AllocError;

/// What a plan has a send do: answer, refuse as the fuse does, or redirect.
#[derive(Debug, PartialEq, Eq, Drop)]
pub enum Planned {
    /// The node answers.
    Answer,
    /// The node refuses.
    Refuse,
    /// The node redirects the client.
    Redirect(Redirect),
}

/// What is planned for the send that finds `entries` entries in the trace, by a plan made at
/// `base`.
pub(super) fn next_planned(
    plan: &[Planned],
    base: usize,
    entries: usize,
) -> Result<Planned, AllocError>
    ensures { IfOk result (λ next. next ≡ planned_for plan.now base entries) }
{
    if entries < base {
        return Ok(Planned::Answer);
    }
    match plan.get(entries - base) {
        Some(Planned::Refuse) => Ok(Planned::Refuse),
        Some(Planned::Redirect(redirect)) => Ok(Planned::Redirect(redirect.clone()?)),
        Some(Planned::Answer) => Ok(Planned::Answer),
        None => Ok(Planned::Answer),
    }
}
