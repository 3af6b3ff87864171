// What lies in a book's box: the core, and the store that keeps it.
ghost use Rattle.std.specs.Prelude.{◌≡◌, ◌<◌, ◌^◌, ◌||◌, Some, None, IsTrue};
ghost use Rattle.std.specs.Prelude.{is_some, false, IfSome};
ghost use Rattle.kom_model.specs.Legal.{HasUser};
ghost use Rattle.kom_model.specs.Out.{taken_by};
ghost use Rattle.kom_book.specs.Books.{state_in, disk_in, batches_in};
ghost use Rattle.kom_journal.specs.Images.{images_at, moment};
ghost use Rattle.kom_journal.specs.Journals.{EndsAtGate};
ghost use Rattle.kom_book.specs.Making.{BookComes, StopsCome};

use crate::storing::make_stored;
use arrayvec::ArrayVec;
use batch_log::FlushFault;
use kom_core::Core;
use kom_disk::Disk;
use kom_journal::Journal;
use kom_state::Unkept;
use kom_types::{Entry, Item, Made, NotMade};
use std::marker::Model;
use std::snapshot::Snapshot;

#[derive(Drop)]
pub(crate) struct Inner<D: Disk + Drop> {
    pub(crate) core: Core,
    pub(crate) journal: Option<Journal<D>>,
    /// Why the store refused a flush.
    pub(crate) refused: Option<FlushFault>,
}

impl<D: Disk + Drop> Model for Inner<D> {
    ghost use Rattle.kom_book.specs.Books.{BookView, IsMarked};

    ghost Value = { BookView D };

    ghost view = { λ inner. record {
      core = inner.core;
      journal = inner.journal;
      refused = inner.refused;
    } };

    ghost invariant = { λ inner.
        IsMarked inner.core.state.store_refused inner.journal inner.refused };
}

impl<D: Disk + Drop> Inner<D> {
    /// A core without a store.
    pub(crate) fn new(core: Core) -> Inner<D>
        requires { core.state.store_refused ≡ false }
        ensures { result ≡ record { core = core; journal = None; refused = None } }
    {
        Inner {
            core,
            journal: None,
            refused: None,
        }
    }

    /// Makes the act of an entry, or returns why it is not made.
    pub(crate) fn make(
        &mut self,
        entry: &Entry,
        items: &mut ArrayVec<Item, 64>,
    ) -> Result<Made, NotMade>
        requires room { (state_in self.old).entries < 2 ^ 62 }
        requires user { HasUser entry.now.act }
        ensures comes { BookComes D.faults self.old entry.now self.new result }
        ensures stops { IsTrue D.tells
            → StopsCome (moment D.moment) (images_at D.images_at) self.old self.new result }
        ensures taken { items.new.items ≡ taken_by (state_in self.old) entry.now.act }
    {
        match &mut self.journal {
            None => self.core.make_kept(entry, items, &mut Unkept),
            Some(store) => { make_stored(&mut self.core, store, &mut self.refused, entry, items) }
        }
    }

    /// A store keeps the server from now on.
    pub(crate) fn keep_in(&mut self, store: Journal<D>)
        requires { store.refused ≡ false }
        ensures { self.new ≡ record self.old { journal = Some store } }
    {
        self.journal = Some(store);
    }

    /// Whether the server was shut down or its store refused a flush.
    pub(crate) fn stopped(&self) -> bool
        ensures { result ≡ ((state_in self.now).stopped || (state_in self.now).store_refused) }
    {
        self.core.stopped()
    }

    /// How often something came to a session of the server unasked.
    pub(crate) fn news(&self) -> u64 {
        self.core.news()
    }

    /// The first session of a pass, above this number, to which something came unasked after this
    /// count of news.
    pub(crate) fn next_news(&self, pass: u32, above: u32, since: u64) -> Option<u32>
        ensures { IfSome result (λ session. above < session) }
    {
        self.core.next_news(pass, above, since)
    }

    /// The store as it is now.
    pub(crate) fn store(&self) -> Snapshot<Option<Journal<D>>>
        ensures { result.value ≡ self.now.journal }
    {
        Snapshot::of(&self.journal)
    }

    pub(crate) fn refused(&self) -> Option<FlushFault>
        ensures refused { result ≡ self.now.refused }
        ensures marked { (state_in self.now).store_refused ≡ is_some result }
    {
        self.refused
    }

    pub(crate) fn batches(&self) -> u64
        ensures { result ≡ batches_in self.now }
    {
        match &self.journal {
            Some(journal) => journal.batches(),
            None => 0,
        }
    }

    pub(crate) fn into_disk(self) -> Option<D>
        ensures disk { result ≡ disk_in self }
        ensures size { IsTrue D.tells → IfSome self.journal (EndsAtGate D.size) }
    {
        let Inner {
            core: _,
            journal,
            refused: _,
        } = self;
        match journal {
            Some(journal) => Some(journal.into_disk()),
            None => None,
        }
    }
}
