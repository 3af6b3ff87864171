ghost use Rattle.std.specs.Prelude.{◌≡◌, ◌≢◌, ℕ, [], length, None, Some, IsTrue, IfOk, IfErr};
ghost use Rattle.std.specs.Prelude.{IfSome, IsSome};
ghost use Rattle.std.specs.Prelude.{MatchResult, false, is_some};
ghost use Rattle.kom_disk.specs.Faults.{Rose};
ghost use Rattle.kom_model.specs.Db.{Db};
ghost use Rattle.kom_model.specs.Initial.{initial};
ghost use Rattle.kom_model.specs.State.{opening_state};
ghost use Rattle.kom_journal.specs.Images.{StandsFor, AreFor, IsKept, IsCause, IsLeftOf, HasCount};
ghost use Rattle.kom_journal.specs.Images.{as_read, images, images_at, moment as moment_on};
ghost use Rattle.kom_journal.specs.Journals.{EndsAtGate};
ghost use Rattle.kom_journal.specs.Opened.{Opens};
ghost use Rattle.kom_journal.specs.Opening.{IsMakeFault};
ghost use Rattle.kom_book.specs.Books.{IsPlain, StandsNow, disk_in, batches_in};

use crate::inner::Inner;
use crate::starting::store_initial;
use batch_log::FlushFault;
use kom_core::Core;
use kom_disk::Disk;
use kom_journal::{Journal, OpenFault};
use kom_types::{Memory, Moment};
use std::alloc::Global;
use std::marker::Model;

/// A server, with the store that keeps it, if there is one. It lies in a box: a turn of a hall
/// moves it out and in.
#[derive(Drop)]
pub struct Book<D: Disk + Drop> {
    pub(crate) inner: Box<Inner<D>>,
}

impl<D: Disk + Drop> Model for Book<D> {
    ghost use Rattle.kom_book.specs.Books.{BookView};

    ghost Value = { BookView D };

    ghost view = { λ book. book.inner.value };
}

impl<D: Disk + Drop> Book<D> {
    /// The book of a new server, whose administrator has this password, without a store.
    pub fn fresh(alloc: Global, password: &[u8], moment: Moment) -> Result<Book<D>, Memory>
        ensures state { IfOk result (λ book.
            book.core.state ≡ opening_state (initial password.now moment)) }
        ensures store { IfOk result (λ book. book.journal ≡ None) }
        ensures plain { IfOk result IsPlain }
    {
        let core = Core::fresh(alloc, password, moment)?;
        let inner = Box::new(alloc, Inner::new(core))?;
        Ok(Book { inner })
    }

    /// The book of such a server with a store, which is made on an empty disk and has its rows in
    /// one batch. The first error that comes is returned.
    pub fn init(
        alloc: Global,
        disk: D,
        password: &[u8],
        moment: Moment,
    ) -> Result<Book<D>, (D, OpenFault)>
        ensures state { IfOk result (λ book.
            book.core.state ≡ opening_state (initial password.now moment)) }
        ensures store { IfOk result (λ book. IsSome book.journal) }
        ensures plain { IfOk result IsPlain }

        // What the store stands for.
        ensures stands { IsTrue D.tells
            → IfOk result (StandsNow (moment_on D.moment) (images_at D.images_at)) }
        ensures rows { IsTrue D.tells → IfOk result (λ book. IfSome (disk_in book) (λ made.
            AreFor (images D.images made) (initial password.now moment))) }
        ensures kept { IsTrue D.tells → IfOk result (λ book. IfSome (disk_in book) (λ made.
            IsKept (images D.images made))) }

        // Why it is not made: the disk is used exactly where it was not empty.
        ensures new { IsTrue D.tells → IfOk result (λ book. D.size disk ≡ 0) }
        ensures used { IsTrue D.tells → (n : ℕ) → IfErr result (λ refused.
            refused.1 ≡ OpenFault.Used n → (n ≢ 0) × (n ≡ D.size disk)) }
        ensures kinds { IfErr result (λ refused. IsMakeFault refused.1) }
        ensures cause { IfErr result (λ refused. refused.1 ≡ OpenFault.Fault
            → Rose (D.faults disk) (D.faults refused.0)) }
        ensures no_cause { IfOk result (λ book. IfSome (disk_in book) (λ made.
            D.faults made ≡ D.faults disk)) }
    {
        match Journal::make(alloc, disk) {
            Ok(mut store) => match store_initial(alloc, &mut store, password, moment) {
                Ok(core) => Book::with_store(alloc, core, store),
                Err(fault) => Err((store.into_disk(), fault)),
            },
            Err(refused) => Err(refused),
        }
    }

    /// The book of the server whose store is on a disk, as that was left by a stop or by a run's
    /// end. It is opened as a journal is.
    pub fn open(alloc: Global, disk: D) -> Result<Book<D>, (D, OpenFault)>
        ensures store { IfOk result (λ book. IsSome book.journal) }
        ensures plain { IfOk result IsPlain }

        // What the store stands for.
        ensures was { IsTrue D.tells
            → IfOk result (λ book. StandsFor book.core.state.db (as_read D.bytes disk)) }
        ensures stands { IsTrue D.tells
            → IfOk result (StandsNow (moment_on D.moment) (images_at D.images_at)) }
        ensures batches { IsTrue D.tells
            → IfOk result (λ book. HasCount (batches_in book) (as_read D.bytes disk)) }

        // Why it is not opened.
        ensures cause { IsTrue D.tells
            → IfErr result (λ refused. IsCause (as_read D.bytes disk) refused.1) }
        ensures fault { IfErr result (λ refused. refused.1 ≡ OpenFault.Fault
            → Rose (D.faults disk) (D.faults refused.0)) }
        ensures no_fault { IfOk result (λ book. IfSome (disk_in book) (λ opened.
            D.faults opened ≡ D.faults disk)) }
        ensures undamaged { IsTrue D.tells → IsKept (images D.images disk) → (place : ℕ)
            → IfErr result (λ refused. refused.1 ≢ OpenFault.Damaged place) }

        // What a stop leaves.
        ensures any_moment { IsTrue D.tells → (db : Db) → StandsFor db (as_read D.bytes disk)
            → IsKept (images D.images disk)
            → MatchResult result
            (λ book. IfSome (disk_in book) (λ opened. Opens (moment_on D.moment)
            (images_at D.images_at) disk opened (images D.images disk)
            (IsLeftOf (as_read D.bytes disk) db)))
            (λ refused. Opens (moment_on D.moment) (images_at D.images_at) disk refused.0
            (images D.images disk)
            (IsLeftOf (as_read D.bytes disk) db)) }
        ensures kept { IsTrue D.tells → IsKept (images D.images disk) → MatchResult result
            (λ book. IfSome (disk_in book) (λ opened. IsKept (images D.images opened)))
            (λ refused. IsKept (images D.images refused.0)) }
    {
        match Journal::open(alloc, disk) {
            Ok((store, rows)) => Book::with_store(alloc, Core::of(alloc, rows), store),
            Err(refused) => Err(refused),
        }
    }

    /// The book of a core before its first act, and of its store.
    fn with_store(alloc: Global, core: Core, store: Journal<D>) -> Result<Book<D>, (D, OpenFault)>
        requires unmarked { core.state.store_refused ≡ false }
        requires calm { store.refused ≡ false }
        ensures made { IfOk result (λ book. book
            ≡ record { core = core; journal = Some store; refused = None }) }
        ensures memory { IfErr result (λ refused. refused ≡ (store.disk, OpenFault.Memory)) }
    {
        match Box::new(alloc, Inner::new(core)) {
            Ok(mut inner) => {
                inner.keep_in(store);
                Ok(Book { inner })
            }
            Err(_) => Err((store.into_disk(), OpenFault::Memory)),
        }
    }

    /// Why the store refused a flush, if it did: since then no act is made but a Close.
    pub fn refused(&self) -> Option<FlushFault>
        ensures refused { result ≡ self.now.refused }
        ensures marked { self.now.core.state.store_refused ≡ is_some result }
    {
        self.inner.refused()
    }

    /// How many batches the store had when it was opened; 0 of a new one, or of none.
    pub fn batches(&self) -> u64
        ensures { result ≡ batches_in self.now }
    {
        self.inner.batches()
    }

    /// The disk of the store, if there is one. What waits is dropped.
    pub fn into_disk(self) -> Option<D>
        ensures disk { result ≡ disk_in self }
        ensures size { IsTrue D.tells → IfSome self.journal (EndsAtGate D.size) }
    {
        Box::into_inner(self.inner).into_disk()
    }
}
