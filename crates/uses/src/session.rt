//! An everyday session: a pipeline, a redirect, a call that is given up, and a node that dies. It needs no socket, since
//! the code has what the nodes send.
use cluster_map::NodeAddress;
use redis_routing::{ReadOnlyNames, Registry};
use redis_session::{AddedNames, Session, Settings};
use resp_core::RedisResult;
use std::alloc::Global;

const ME: u64 = 1;

const MAP: &[u8] =
    b"*2\r\n*3\r\n:0\r\n:8191\r\n*2\r\n$8\r\n10.0.0.1\r\n:6379\r\n*3\r\n:8192\r\n:16383\r\n*2\r\n$8\r\n10.0.0.2\r\n:6379\r\n";

/// A session, and a line for each thing that happened.
#[derive(Drop)]
struct Shell {
    alloc: Global,
    session: Session,
    lines: String,
}

/// Runs the session. Returns a line for each thing that happened.
pub fn everyday(alloc: Global) -> RedisResult<String> {
    let mut shell = Shell {
        alloc,
        session: Session::new(alloc, settings(alloc)),
        lines: String::new(alloc),
    };
    let seed = NodeAddress::try_from(alloc, "10.0.0.1:6379")?;
    shell.session.add_node(&seed)?;
    let first = shell.connect()?;
    shell.write(first)?;
    shell.read(first, MAP)?;

    // a pipeline: the second command has a part at each node
    shell.begin(b"*3\r\n$3\r\nSET\r\n$3\r\nbar\r\n$1\r\n1\r\n");
    shell.begin(b"*3\r\n$4\r\nMGET\r\n$3\r\nfoo\r\n$3\r\nbar\r\n");
    shell.write(first)?;
    let second = shell.connect()?;
    shell.write(second)?;
    // a redirect: the slot of `bar` moves between the two commands
    shell.read(first, b"+OK\r\n-MOVED 5061 10.0.0.2:6379\r\n")?;
    shell.write(second)?;
    shell.read(second, b"*1\r\n$-1\r\n*1\r\n$1\r\n1\r\n")?;
    shell.show_replies()?;

    // a call that is given up: its late reply goes to nobody
    let call = shell.begin(b"*2\r\n$3\r\nGET\r\n$3\r\nfoo\r\n");
    shell.write(second)?;
    shell.session.give_up(alloc, call);
    shell.read(second, b"$3\r\nold\r\n")?;
    shell.show_replies()?;

    // a node that dies: nobody knows whether the command ran
    shell.begin(b"*2\r\n$4\r\nINCR\r\n$3\r\nbar\r\n");
    shell.write(second)?;
    shell.session.ended(alloc, second)?;
    shell.show_replies()?;
    Ok(shell.lines)
}

impl Shell {
    /// Connects to the node that needs a link.
    fn connect(&mut self) -> RedisResult<usize> {
        let node = self.session.wanted_node().unwrap_or(0);
        if let Some(address) = self.session.address(node) {
            let line = format!(in self.alloc; "connect to {address}\n")?;
            self.lines.push_str(&line)?;
        }
        Ok(self.session.connected(self.alloc, node)?)
    }

    /// Writes all that is to be written on a link.
    fn write(&mut self, link: usize) -> RedisResult<()> {
        let bytes = self.session.unwritten(link);
        let line = format!(in self.alloc; "write {}\n", bytes.escape_ascii())?;
        let count = bytes.len();
        self.session.wrote(link, count);
        Ok(self.lines.push_str(&line)?)
    }

    fn read(&mut self, link: usize, came: &[u8]) -> RedisResult<()> {
        Ok(self.session.read(self.alloc, link, came)?)
    }

    /// Begins a call. It is number 0 if it is refused.
    fn begin(&mut self, request: &[u8]) -> u64 {
        match self.session.begin(self.alloc, ME, request, 5000) {
            Ok(call) => call,
            Err(_) => 0,
        }
    }

    /// Notes the replies that are there.
    fn show_replies(&mut self) -> RedisResult<()> {
        for _ in 0..u64::MAX {
            let Some(_) = self.session.next_reply(self.alloc)? else {
                break;
            };
            let reply = self.session.reply();
            let line = format!(in self.alloc; "reply {}\n", reply.escape_ascii())?;
            self.lines.push_str(&line)?;
        }
        Ok(())
    }
}

fn settings(alloc: Global) -> Settings {
    Settings {
        login: Vec::new(alloc),
        most_reply_bytes: 1 << 29,
        most_calls: 100_000,
        most_bytes: 1 << 30,
        silence: Some(10_000),
        retries: 100,
        pause: 100,
        registry: Registry::new(alloc),
        added: AddedNames::new(alloc),
        read_only: ReadOnlyNames::new(alloc),
    }
}
