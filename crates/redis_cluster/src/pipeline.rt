ghost use Rattle.std.specs.Prelude.{◌≡◌, ◌<◌, ◌++◌, ◌∷◌, [], None, IfOk, IfErr, OnOk, OnErr, codes, length};
ghost use Rattle.resp_core.specs.declared.error.ErrorKind.TheVariants.{Client};
ghost use Rattle.redis_cluster.specs.declared.pipeline.TheConstants.{UNROUTABLE_ERROR};
ghost use Rattle.redis_cluster.specs.Pipeline.{commands_of, is_ignored, command_named, with_argument, with_last_ignored, no_command, IsArgumentRefusal, first_refused, IsRefusal};

mod refusals;
mod refused_names;

use self::refusals::{explain, first_refused};
use resp_core::{Cmd, ErrorKind, RedisError, RedisResult};
use std::alloc::{AllocError, Global};
use std::marker::Model;

/// The kind and the text of the error by which `ClusterPipeline::check` refuses a command.
pub const UNROUTABLE_ERROR: (ErrorKind, &str) = (
    ErrorKind::Client,
    "This command cannot be safely routed in cluster mode",
);

/// A new, empty pipeline.
pub fn cluster_pipe(alloc: Global) -> ClusterPipeline
    ensures { result ≡ [] }
{
    ClusterPipeline::new(alloc)
}

/// Commands that are to be sent to a cluster together, in the order in which they are added.
///
/// Beside each stands whether its reply is left out of what the pipeline gives.
///
/// ```
/// let mut pipeline = cluster_pipe(alloc);
/// pipeline.cmd(alloc, b"SET")?.arg(key)?.arg(value)?.ignore()?;
/// pipeline.cmd(alloc, b"GET")?.arg(key)?;
/// pipeline.check(alloc)?;
/// ```
#[derive(Debug, Drop)]
pub struct ClusterPipeline {
    commands: Vec<Cmd>,
    ignored: Vec<bool>,
}

impl Model for ClusterPipeline {
    ghost use Rattle.std.specs.Prelude.{◌≡◌, ℕ, List, Bool, length};
    ghost use Rattle.std.specs.List.{zip};

    ghost Value = { List (List (List ℕ) × Bool) };

    ghost view = { λ p. zip p.commands.items p.ignored.items };

    ghost invariant = { λ p. length p.ignored.items ≡ length p.commands.items };
}

impl ClusterPipeline {
    /// A pipeline of no command. Takes no memory.
    pub fn new(alloc: Global) -> Self
        ensures { result ≡ [] }
    {
        ClusterPipeline {
            commands: Vec::new(alloc),
            ignored: Vec::new(alloc),
        }
    }

    /// A pipeline with room for `capacity` commands.
    ///
    /// # Errors
    ///
    /// If memory runs out.
    pub fn with_capacity(alloc: Global, capacity: usize) -> Result<Self, AllocError>
        ensures { IfOk result (λ pipeline. pipeline ≡ []) }
    {
        Ok(ClusterPipeline {
            commands: Vec::with_capacity(alloc, capacity)?,
            ignored: Vec::with_capacity(alloc, capacity)?,
        })
    }

    /// The commands in the order in which they were added.
    pub fn commands(&self) -> &Vec<Cmd>
        ensures { result.now.items ≡ commands_of self.now }
    {
        &self.commands
    }

    /// Adds a command of this name at the end, unmarked, and gives the pipeline back for the next.
    ///
    /// # Errors
    ///
    /// If memory runs out, the pipeline stays as it was: this is `push_cmd`, which says so.
    pub fn cmd(&mut self, alloc: Global, name: &[u8]) -> Result<&mut Self, AllocError>
        ensures same_reference { IfOk result (λ pipeline. pipeline.ghost_name
            ≡ self.entry.ghost_name) }
        ensures added { IfOk result (λ pipeline. pipeline.now
            ≡ self.old ++ command_named name.now ∷ []) }
    {
        self.push_cmd(alloc, name)?;
        Ok(self)
    }

    /// Adds a command of this name at the end, unmarked.
    ///
    /// # Errors
    ///
    /// If memory runs out, the pipeline stays as it was.
    pub fn push_cmd(&mut self, alloc: Global, name: &[u8]) -> Result<(), AllocError>
        ensures added { OnOk result (self.new ≡ self.old ++ command_named name.now ∷ []) }
        ensures unchanged { OnErr result (self.new ≡ self.old) }
    {
        let mut command = Cmd::new(alloc);
        command.write_arg(name)?;
        self.commands.reserve(1)?;
        self.ignored.push(false)?;
        self.commands.push_reserved(command);
        Ok(())
    }

    /// Adds an argument to the last command, and gives the pipeline back for the next.
    ///
    /// # Errors
    ///
    /// Of kind `Client` if there is no command yet, and else if memory runs out. The pipeline stays
    /// as it was: this is `write_arg`, which says so.
    pub fn arg(&mut self, arg: &[u8]) -> RedisResult<&mut Self>
        ensures same_reference { IfOk result (λ pipeline. pipeline.ghost_name
            ≡ self.entry.ghost_name) }
        ensures not_empty { OnOk result (0 < length self.old) }
        ensures added { IfOk result (λ pipeline. pipeline.now ≡ with_argument self.old arg.now) }
        ensures refused { IfErr result (λ fault. IsArgumentRefusal self.old fault) }
    {
        self.write_arg(arg)?;
        Ok(self)
    }

    /// Adds an argument to the last command.
    ///
    /// # Errors
    ///
    /// Of kind `Client` if there is no command yet, and else if memory runs out. The pipeline stays as
    /// it was.
    pub fn write_arg(&mut self, arg: &[u8]) -> RedisResult<()>
        ensures not_empty { OnOk result (0 < length self.old) }
        ensures added { OnOk result (self.new ≡ with_argument self.old arg.now) }
        ensures refused { IfErr result (λ fault. IsArgumentRefusal self.old fault) }
        ensures unchanged { OnErr result (self.new ≡ self.old) }
    {
        let Some(command) = self.commands.last_mut() else {
            return Err(no_command());
        };
        command.write_arg(arg)?;
        Ok(())
    }

    /// Marks the last command, so that its reply is ignored, and gives the pipeline back for the
    /// next.
    ///
    /// # Errors
    ///
    /// Of kind `Client` if there is no command yet. The pipeline stays as it was: this is
    /// `mark_ignored`, which says so.
    pub fn ignore(&mut self) -> RedisResult<&mut Self>
        ensures same_reference { IfOk result (λ pipeline. pipeline.ghost_name
            ≡ self.entry.ghost_name) }
        ensures not_empty { OnOk result (0 < length self.old) }
        ensures marked { IfOk result (λ pipeline. pipeline.now ≡ with_last_ignored self.old) }
        ensures refused { IfErr result (λ fault. (self.old ≡ []) × (fault ≡ no_command)) }
    {
        self.mark_ignored()?;
        Ok(self)
    }

    /// Marks the last command, so that its reply is ignored.
    ///
    /// # Errors
    ///
    /// Of kind `Client` if there is no command yet. The pipeline stays as it was.
    pub fn mark_ignored(&mut self) -> RedisResult<()>
        ensures not_empty { OnOk result (0 < length self.old) }
        ensures marked { OnOk result (self.new ≡ with_last_ignored self.old) }
        ensures refused { IfErr result (λ fault. (self.old ≡ []) × (fault ≡ no_command)) }
        ensures unchanged { OnErr result (self.new ≡ self.old) }
    {
        let Some(mark) = self.ignored.last_mut() else {
            return Err(no_command());
        };
        *mark = true;
        Ok(())
    }

    /// Whether the reply to the command at an index, counted from 0, is ignored. Past the end none
    /// is.
    pub fn ignored(&self, index: usize) -> bool
        ensures { result ≡ is_ignored self.now index }
    {
        match self.ignored.get(index) {
            Some(mark) => *mark,
            None => false,
        }
    }

    /// Whether the pipeline can be sent: it has a command, and none whose name is refused.
    ///
    /// The name is a command's first argument alone, without the Unicode white space round it, in
    /// ASCII upper case. If that argument is missing or no UTF-8, the name is empty.
    ///
    /// # Errors
    ///
    /// Of kind `Client`: `UNROUTABLE_ERROR`, whose detail has the first refused name. If no name is
    /// refused, `empty command` for a pipeline without commands. Memory is taken only to report a
    /// refused name.
    pub fn check(&self, alloc: Global) -> RedisResult<()>
        ensures passed { OnOk result
            ((first_refused (commands_of self.now) ≡ None) × (0 < length self.now)) }
        ensures refused { IfErr result (λ fault. IsRefusal self.now fault) }
        ensures kind { UNROUTABLE_ERROR.0 ≡ Client }
        ensures text { UNROUTABLE_ERROR.1.now
            ≡ codes "This command cannot be safely routed in cluster mode" }
    {
        if let Some(name) = first_refused(&self.commands) {
            let (kind, desc) = UNROUTABLE_ERROR;
            let detail = explain(alloc, name)?;
            return Err(RedisError::from((kind, desc, detail)));
        }
        if self.commands.is_empty() {
            return Err(RedisError::from((ErrorKind::Client, "empty command")));
        }
        Ok(())
    }
}

fn no_command() -> RedisError
    ensures { result ≡ no_command }
{
    RedisError::from((ErrorKind::Client, "no command in the pipeline"))
}

impl Clone for ClusterPipeline {
    ghost is_clone = { λ pipeline copy. copy ≡ pipeline };

    fn clone(&self) -> Result<Self, AllocError> {
        Ok(ClusterPipeline {
            commands: self.commands.clone()?,
            ignored: self.ignored.clone()?,
        })
    }
}
