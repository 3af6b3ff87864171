// The calls of a disk in memory: the record of what they have done, and their script.
ghost use Rattle.std.specs.Prelude.{◌≡◌, [], ◌∷◌, ◌++◌, IsErr, IsSomeAnd, OnOk, OnErr};
ghost use Rattle.std.specs.Prelude.{if◌then◌else◌};
ghost use Rattle.kom_disk.specs.Faults.{CountsFault};
ghost use Rattle.kom_disk.specs.Script.{IsToFail, next_number};
ghost use Rattle.kom_disk.specs.Steps.{KeepsNothing};

use crate::Failed;
use crate::script::Script;
use crate::step::Step;
use std::alloc::Global;

#[derive(Drop)]
pub struct Calls {
    pub steps: Vec<Step>,
    pub script: Script,
}

impl Calls {
    pub fn new(alloc: Global, script: Script) -> Calls
        ensures steps { result.steps.items ≡ [] }
        ensures script { result.script ≡ script }
    {
        Calls {
            steps: Vec::new(alloc),
            script,
        }
    }

    /// Numbers a call, and keeps what it is to do. With nothing to do, by the script or out of
    /// memory the call fails.
    pub fn begin(&mut self, step: Option<Step>) -> Result<(), Failed>
        ensures kept { OnOk result
            (IsSomeAnd step (λ step. self.new.steps.items ≡ self.old.steps.items ++ step ∷ [])) }
        ensures failed { OnErr result (KeepsNothing self.old.steps.items self.new.steps.items) }
        ensures numbered { self.new.script.made ≡ next_number self.old.script.made }
        ensures fails { IsToFail self.old.script.fails.items self.old.script.stop
            self.new.script.made → IsErr result }
        ensures faults { CountsFault self.old.script.faults self.new.script.faults result }
        ensures same_fails { self.new.script.fails.items ≡ self.old.script.fails.items }
        ensures same_stop { self.new.script.stop ≡ self.old.script.stop }
    {
        let fails = self.script.next() || step.is_none();
        let kept = self
            .steps
            .push(if fails { Step::Pass } else { step.unwrap() });
        if fails || kept.is_err() {
            return Err(self.script.fail());
        }
        Ok(())
    }

    /// Keeps what a call has done, unless memory has run out.
    pub fn keep(&mut self, step: Step) -> bool
        ensures steps { self.new.steps.items
            ≡ (if result then self.old.steps.items ++ step ∷ [] else self.old.steps.items) }
        ensures script { self.new.script ≡ self.old.script }
    {
        self.steps.push(step).is_ok()
    }
}
