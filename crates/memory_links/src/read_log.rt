ghost use Rattle.std.specs.Prelude.{[], Some, is_some, List, Option, option_map, ◌≡◌};
ghost use Rattle.kom_links.specs.Doors.{Gains};
ghost use Rattle.memory_links.specs.declared.read_log.ReadMark.{ReadMark as Mark};

use std::alloc::Global;
use std::marker::Model;

/// A read of a link in memory: how many bytes were taken and put before it, and whether it found
/// nothing ready.
#[derive(Clone, Copy, Debug)]
pub(crate) struct ReadMark {
    pub(crate) taken: usize,
    pub(crate) put: usize,
    pub(crate) waited: bool,
}

/// The reads of a link. Once there was no room for one, it has none any more.
#[derive(Debug, Drop)]
pub(crate) struct ReadLog {
    marks: Option<Vec<ReadMark>>,
}

impl Model for ReadLog {
    ghost Value = { Option (List Mark) };

    ghost view = { λ log. option_map (λ marks. marks.items) log.marks };
}

impl ReadLog {
    /// No read was made yet.
    pub(crate) fn new(alloc: Global) -> ReadLog
        ensures { result ≡ Some [] }
    {
        ReadLog {
            marks: Some(Vec::new(alloc)),
        }
    }

    /// Whether it has its reads.
    pub(crate) fn is_whole(&self) -> bool
        ensures { result ≡ is_some self.now }
    {
        self.marks.is_some()
    }

    /// Adds a read, if there is room for it.
    pub(crate) fn add(&mut self, mark: ReadMark)
        ensures { Gains self.old mark self.new }
    {
        let has_room = match &mut self.marks {
            Some(marks) => marks.push(mark).is_ok(),
            None => true,
        };
        if !has_room {
            self.marks = None;
        }
    }
}
