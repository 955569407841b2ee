ghost use Rattle.std.specs.Prelude.{◌≡◌, map, Some};
ghost use Rattle.redis_commands.specs.Part.{arguments_sent};

use redis_routing::Routable;
use resp_core::Cmd;

/// What a target is sent.
#[derive(Drop)]
pub enum CommandPart<'p, R: Routable> {
    /// The whole command, borrowed.
    Whole(&'p R),
    /// The part of one slot.
    Split(&'p Cmd),
}

impl<'p> CommandPart<'p, Cmd> {
    /// The command that goes out.
    pub fn command(&self) -> &'p Cmd
        ensures { map Some result.now ≡ arguments_sent (λ command. map Some command) self.now }
    {
        match self {
            CommandPart::Whole(command) => command,
            CommandPart::Split(part) => part,
        }
    }
}
