// The script of a disk in memory, which says which of its calls fail. It numbers them, and counts
// those that failed.
ghost use Rattle.std.specs.Prelude.{◌≡◌, ◌≤◌, ◌↔◌, IsTrue};
ghost use Rattle.kom_disk.specs.Faults.{Rose};
ghost use Rattle.kom_disk.specs.Script.{IsToFail, next_number};

use crate::Failed;

#[derive(Drop)]
pub struct Script {
    pub made: u64,
    pub faults: u64,
    pub fails: Vec<u64>,
    pub stop: Option<u64>,
}

impl Script {
    pub fn new(fails: Vec<u64>, stop: Option<u64>) -> Script
        ensures counts { (result.made ≡ 0) × (result.faults ≡ 0) }
        ensures script { (result.fails.items ≡ fails.items) × (result.stop ≡ stop) }
    {
        Script {
            made: 0,
            faults: 0,
            fails,
            stop,
        }
    }

    /// Numbers a call, from 1 on, and says whether it is to fail.
    pub fn next(&mut self) -> bool
        ensures numbered { self.new.made ≡ next_number self.old.made }
        ensures fails { IsTrue result ↔ IsToFail self.old.fails.items self.old.stop self.new.made }
        ensures same_faults { self.new.faults ≡ self.old.faults }
        ensures same_script { (self.new.fails.items ≡ self.old.fails.items)
            × (self.new.stop ≡ self.old.stop) }
    {
        self.made = self.made.saturating_add(1);
        is_to_fail(&self.fails, self.stop, self.made)
    }

    /// Counts a call that failed.
    pub fn fail(&mut self) -> Failed
        ensures rose { Rose self.old.faults self.new.faults }
        ensures never_falls { self.old.faults ≤ self.new.faults }
        ensures same_number { self.new.made ≡ self.old.made }
        ensures same_script { (self.new.fails.items ≡ self.old.fails.items)
            × (self.new.stop ≡ self.old.stop) }
    {
        self.faults = self.faults.saturating_add(1);
        Failed
    }
}

fn is_to_fail(fails: &[u64], stop: Option<u64>, number: u64) -> bool
    ensures { IsTrue result ↔ IsToFail fails.now stop number }
{
    fails.contains(&number) || stop.is_some_and(|last| last < number)
}
