ghost use Rattle.std.specs.Prelude.{◌≡◌, ◌<◌, ◌≤◌, IfOk};
ghost use Rattle.kom_load.specs.Runs.{new_run, next_of, after_answer, is_refusal, made_last};

use crate::generator::generated;
use kom_types::{Call, Memory, Reply};
use std::alloc::Global;

/// How far a run has come: how many calls were answered, how many of them refused, and the
/// conference that was made last, 0 before there is one.
#[derive(Clone, Copy, Debug)]
pub struct Run {
    pub calls: u32,
    pub refused: u32,
    pub conference: u32,
}

impl Run {
    /// The run before its first call.
    pub fn new() -> Run
        ensures { result ≡ new_run }
    {
        Run {
            calls: 0,
            refused: 0,
            conference: 0,
        }
    }

    /// The next call.
    #[tactic(auto, unfolding(crate::specs::Runs::next_of))]
    pub fn next_call(&self, alloc: Global) -> Result<Call, Memory>
        requires { self.now.calls < 100000 }
        ensures { IfOk result (λ call. call ≡ next_of self.now) }
    {
        generated(self.calls + 1, self.conference, alloc)
    }

    /// Takes note of the answer to the next call.
    #[tactic(auto, unfolding(crate::specs::Runs::after_answer))]
    pub fn answer(&mut self, reply: &Reply)
        requires few { self.old.calls < 100000 }
        requires refused { self.old.refused ≤ self.old.calls }
        ensures run { self.new ≡ after_answer self.old reply.now }
        ensures refused { self.new.refused ≤ self.new.calls }
    {
        self.calls += 1;
        if is_refusal(reply) {
            self.refused += 1;
        }
        self.conference = made_last(self.calls, reply, self.conference);
    }
}

/// Whether a call was refused.
fn is_refusal(reply: &Reply) -> bool
    ensures { result ≡ is_refusal reply.now }
{
    matches!(reply, Reply::Refused(..))
}

/// The conference that was made last, after the call of an index was answered.
fn made_last(index: u32, reply: &Reply, last: u32) -> u32
    ensures { result ≡ made_last index reply.now last }
{
    match reply {
        Reply::Number(number) if index % 4 == 1 => *number,
        _ => last,
    }
}
