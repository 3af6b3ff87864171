//! Where the person is.
ghost use Rattle.std.specs.Prelude.{◌≡◌};

use crate::drafts::Drafts;
use crate::visitor::Visitor;
use kom_exchange::{VisitEnd, Waiting};
use kom_links::{Link, Sink};
use std::alloc::{AllocError, Global};
use std::sync::Wait;

impl<W: Waiting, K: Link, L: Link, S: Sink, D: Drafts> Visitor<W, K, L, S, D> {
    /// Says where the person is.
    pub(crate) fn tell_place<R: Wait>(&mut self, rt: &R) -> Result<(), VisitEnd>
        ensures { self.new.exchange.columns ≡ self.old.exchange.columns }
    {
        let working = self.reader.working();
        if working == 0 {
            return self.say("You are nowhere: `go` goes to a conference.", "");
        }
        self.learn_name(rt, working)?;
        let count = self.reader.count_in(working);
        let text = place_line(self.alloc, self.names.name(working), count)?;
        self.say("You are in ", text.as_str())
    }
}

fn place_line(alloc: Global, name: &str, count: usize) -> Result<String, AllocError> {
    format!(in alloc; "{name}, where {count} are unread")
}
