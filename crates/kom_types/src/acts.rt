ghost use Rattle.std.specs.Prelude.{◌≡◌, ◌↔◌, IsTrue};

use crate::calls::Call;
use crate::lists::Bytes;
use crate::times::Moment;
use std::marker::Model;
use std::snapshot::Snapshot;

/// What happens to the server: one atomic step.
#[derive(PartialEq, Drop)]
pub enum Act {
    /// A greeting was read: a session begins for this user at this host.
    Connect {
        user: Bytes,
        host: Bytes,
    },
    /// A line was read: a session makes a call.
    Call {
        session: u32,
        reference: u32,
        call: Call,
    },
    /// A session's stream is at fault.
    Broken {
        session: u32,
    },
    /// A session takes the items that wait for it, 64 at most.
    Drain {
        session: u32,
    },
    /// What was done so far is made stable.
    Flush,
    /// A session ends.
    Close {
        session: u32,
    },
}

/// One act, with the number of the pass that made it and the moment that the pass's clock gave.
#[derive(PartialEq, Drop)]
pub struct Entry {
    pub pass: u32,
    pub moment: Moment,
    pub act: Act,
}

impl Entry {
    /// Whether two entries are the same: by the same passes, at the same moments, with equal acts.
    pub fn is_same(&self, other: &Entry) -> bool
        ensures { IsTrue result ↔ (self.now ≡ other.now) }
    {
        *self == *other
    }
}

/// An entry that was made, as the history keeps it.
#[derive(Drop)]
pub struct Record {
    pub entry: Entry,
    /// The session of the act; the one that it makes at a Connect; 0 at a Flush.
    pub session: u32,
    /// Whether the act was a call that was answered 39, out of memory, or a flush that the store
    /// refused.
    pub short: bool,
}

/// What an act that was made is handed on as: clauses see its record. Of the entry it has no bytes.
#[derive(Drop)]
pub struct Made {
    of: Snapshot<Entry>,
    session: u32,
    short: bool,
}

impl Model for Made {
    ghost use Rattle.kom_types.specs.declared.acts.Record.{Record as Logged};

    ghost Value = { Logged };

    ghost view = { λ made. record {
      entry = made.of.value;
      session = made.session;
      short = made.short;
    } };
}

impl Made {
    /// The act of an entry, by its session.
    pub fn of(entry: &Entry, session: u32, short: bool) -> Made
        ensures { result ≡ record { entry = entry.now; session = session; short = short } }
    {
        Made {
            of: Snapshot::of(entry),
            session,
            short,
        }
    }

    /// The session of the record.
    pub fn session(&self) -> u32
        ensures { result ≡ self.now.session }
    {
        self.session
    }

    /// Whether the record is short.
    pub fn is_short(&self) -> bool
        ensures { result ≡ self.now.short }
    {
        self.short
    }

    /// The record, with the entry of which it is.
    pub fn with_entry(&self, entry: Entry) -> Record
        requires { self.now.entry ≡ entry }
        ensures { result ≡ self.now }
    {
        Record {
            entry,
            session: self.session,
            short: self.short,
        }
    }
}
