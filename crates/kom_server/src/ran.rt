// What a command came to.
ghost use Rattle.std.specs.Prelude.{◌≡◌, ◌≢◌, ◌↔◌, ◌⊎◌, IsTrue, IsSome, IsNone, IsSomeAnd, None};
ghost use Rattle.std.specs.Prelude.{false, true, IfSome};
ghost use Rattle.kom_journal.specs.Journals.{EndsAtGate};
ghost use Rattle.kom_book.specs.Books.{state_in, disk_in};
ghost use Rattle.store_check.specs.Stores.{IsUnswept};

use hall_desk::Acts;
use kom_book::Book;
use kom_commands::Cases;
use kom_disk::Disk;
use kom_links::World;
use kom_serving::{Closing, Left};

/// What a command came to: its cases, the disk that was opened, and what was opened to serve.
#[derive(Drop)]
pub struct Ran<W: World>
where
    Book<W::Disk>: Acts,
{
    pub cases: Cases,
    pub disk: Option<W::Disk>,
    pub end: Option<Closing<Book<W::Disk>, W>>,
}

/// The disk of a store was not opened, and the world may have failed.
pub(crate) fn unopened<W: World>(gate_failed: bool) -> Ran<W>
    ensures { result ≡ record {
      cases = record {
        store_failed = true;
        is_unfit = false;
        gate_failed = gate_failed;
        is_refused = false;
        is_given_up = false;
        no_memory = false;
      };
      disk = None;
      end = None;
    } }
{
    Ran {
        cases: Cases {
            store_failed: true,
            is_unfit: false,
            gate_failed,
            is_refused: false,
            is_given_up: false,
            no_memory: false,
        },
        disk: None,
        end: None,
    }
}

/// What came of serving, where the world may have failed.
pub(crate) fn settle<W: World>(left: Left<Book<W::Disk>, W>, world_failed: bool) -> Ran<W>
    ensures disk { result.disk ≡ disk_in left.server }
    ensures size { IsTrue W.Disk.tells → IfSome left.server.journal (EndsAtGate W.Disk.size) }
    ensures end { result.end ≡ left.end }
    ensures store { IsTrue result.cases.store_failed ↔ (IsSomeAnd result.disk (λ disk.
        W.Disk.faults disk ≢ 0)
        ⊎ (IsSome left.end × ((state_in left.server).store_refused ≡ true))) }
    ensures unfit { result.cases.is_unfit ≡ false }
    ensures gate { IsTrue result.cases.gate_failed ↔ (IsTrue left.failed ⊎ IsTrue world_failed) }
    ensures memory { IsTrue result.cases.no_memory ↔ IsNone left.end }
    ensures unswept { IsUnswept result.cases }
{
    let Left {
        server,
        failed,
        end,
    } = left;
    let refused = end.is_some() && server.refused().is_some();
    let disk = server.into_disk();
    let disk_failed = disk_has_failed(&disk);
    Ran {
        cases: Cases {
            store_failed: disk_failed || refused,
            is_unfit: false,
            gate_failed: failed || world_failed,
            is_refused: false,
            is_given_up: false,
            no_memory: end.is_none(),
        },
        disk,
        end,
    }
}

fn disk_has_failed<D: Disk>(disk: &Option<D>) -> bool
    ensures { IsTrue result ↔ IsSomeAnd disk.now (λ disk. D.faults disk ≢ 0) }
{
    match disk {
        Some(disk) => disk.faults() != 0,
        None => false,
    }
}
