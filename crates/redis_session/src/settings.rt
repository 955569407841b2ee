ghost use Rattle.std.specs.Prelude.{◌≡◌, ◌==◌, length};

use crate::added::AddedNames;
use redis_routing::{ReadOnlyNames, Registry};

/// What a session is told when it begins.
#[derive(Drop)]
pub struct Settings {
    /// The request with which each link begins, such as `AUTH` with a password, as bytes. Empty: none. A link is
    /// ready once its reply is no error.
    pub login: Vec<u8>,
    /// How many bytes a reply may have.
    pub most_reply_bytes: usize,
    /// How many calls may be kept, of all callers together. A call is kept until its parts are done and its reply was
    /// given, and those of the calls of its caller before it.
    pub most_calls: usize,
    /// How many bytes the requests of the kept calls may have together.
    pub most_bytes: usize,
    /// How long a link may owe a reply without a byte coming, in the unit of the shell's times. Then it is to be closed.
    /// `None`: as long as it likes.
    ///
    /// The silence begins at the first `advance` after a byte came on the link, or after something was asked on it while
    /// it owed nothing. An `advance` finds that it lasted so long. From the next one on, `link_to_close` names the link,
    /// unless a byte came meanwhile. So a shell that stood still can read what came in that time.
    pub silence: Option<u64>,
    /// How often nodes may refuse a part before it is given up: `MOVED`, `ASK`, `TRYAGAIN` and their like. While a
    /// replica takes over, nodes answer `CLUSTERDOWN` for seconds. So as many pauses have to last longer than that.
    pub retries: u32,
    /// How long a part waits after `TRYAGAIN`, `CLUSTERDOWN` or `LOADING`, and after many redirects. It is in the unit of
    /// the shell's times.
    pub pause: u64,
    /// Names of multi-key commands that the tables lack.
    pub registry: Registry,
    /// Names of commands that shared links take besides those of the table.
    pub added: AddedNames,
    /// The names of the commands that only read. A session asks them at primaries, too.
    pub read_only: ReadOnlyNames,
}

impl Settings {
    /// Whether links begin without a login.
    pub(crate) fn needs_no_login(&self) -> bool
        ensures { result ≡ (length self.now.login.items == 0) }
    {
        self.login.as_slice().is_empty()
    }
}
