use crate::fault::Fault;
use crate::given::Given;
use resp_core::Value;
use std::alloc::{AllocError, Global};
use std::io;
use std::time::{CpuClock, Duration};

/// Times rounds of calls on the processor time of this thread, and keeps the least round.
#[derive(Drop)]
pub struct Watch<'a> {
    clock: &'a HostRuntime,
    calls: usize,
    rounds: usize,
    /// The sum of what the calls gave, so that no compiler leaves one out.
    pub answers: usize,
    began: Duration,
    least: Duration,
}

impl<'a> Watch<'a> {
    /// A watch for as many rounds of as many calls.
    pub fn new(clock: &'a HostRuntime, calls: usize, rounds: usize) -> Self {
        Watch {
            clock,
            calls,
            rounds,
            answers: 0,
            began: Duration::ZERO,
            least: Duration::MAX,
        }
    }

    /// Times rounds of a call, which gets the number of its turn and gives something of what it
    /// made.
    pub fn time<F>(&mut self, given: &Given<'_>, call: F) -> Result<(), Fault>
    where
        F: Fn(&Given<'_>, usize) -> Result<usize, Fault>,
        requires { F.IsAlwaysCallable call }
    {
        for _ in 0..self.rounds {
            self.start()?;
            for turn in 0..self.calls {
                let answer = call(given, turn)?;
                self.keep(answer);
            }
            self.stop()?;
        }
        Ok(())
    }

    /// `time` for a call that uses up a copy of some replies, made before the round.
    pub fn time_with_copies<F>(
        &mut self,
        given: &Given<'_>,
        replies: &Vec<Value>,
        call: F,
    ) -> Result<(), Fault>
    where
        F: Fn(&Given<'_>, Vec<Value>) -> Result<usize, Fault>,
        requires { F.IsAlwaysCallable call }
    {
        for _ in 0..self.rounds {
            let copies = self.copies(given.alloc, replies)?;
            self.start()?;
            for copy in copies {
                let answer = call(given, copy)?;
                self.keep(answer);
            }
            self.stop()?;
        }
        Ok(())
    }

    /// A copy of some replies for each call.
    fn copies(&self, alloc: Global, replies: &Vec<Value>) -> Result<Vec<Vec<Value>>, AllocError> {
        vec![in alloc; replies.clone()?; self.calls]
    }

    fn start(&mut self) -> io::Result<()> {
        self.began = self.clock.thread_cpu_time()?;
        Ok(())
    }

    fn stop(&mut self) -> io::Result<()> {
        let ended = self.clock.thread_cpu_time()?;
        self.least = self.least.min(ended.saturating_sub(self.began));
        Ok(())
    }

    fn keep(&mut self, answer: usize) {
        self.answers = self.answers.wrapping_add(answer);
    }

    /// The nanoseconds of the least round.
    pub fn least(&self) -> usize {
        usize::try_from(self.least.as_nanos()).unwrap_or(usize::MAX)
    }
}
