ghost use Rattle.std.specs.Prelude.{◌≡◌, ◌↔◌, ◌⊎◌, ◌<◌, ◌^◌, IsTrue, IsNone, OnOk, OnErr, false};
ghost use Rattle.std.specs.Prelude.{is_some};
ghost use Rattle.std.specs.Prelude.{length};
ghost use Rattle.kom_commands.specs.Reports.{check_lines, HasText};
ghost use Rattle.kom_links.specs.Doors.{IsNewSink, KeepsTold};
ghost use Rattle.kom_links.specs.Outside.{Rose};
ghost use Rattle.kom_links.specs.WorldCounts.{with_disk};
ghost use Rattle.store_check.specs.Stores.{IsNoStore, IfFound, IsWrong, IsUnswept, Fails};
ghost use Rattle.store_check.specs.Stores.{IsReported};

use crate::unopened::cases_of;
use kom_commands::{Cases, check_report, put_text};
use kom_disk::Disk;
use kom_journal::Journal;
use kom_links::{Sink, World};
use kom_state::StoredRows;
use kom_types::Memory;
use std::alloc::Global;

/// What a check came to, and the disk if one was opened.
#[derive(Drop)]
pub struct Checked<D: Disk + Drop> {
    pub cases: Cases,
    pub disk: Option<D>,
}

/// Opens the store of a path, which repairs it after a stop, and puts to a sink how many batches it
/// had and how many conferences, persons and texts it has.
pub fn check<W: World>(
    alloc: Global,
    path: &str,
    world: &mut W,
    sink: &mut W::Sink,
) -> Checked<W::Disk>
    requires fresh { IsNewSink (W.Sink.view sink.old) }
    ensures asks { (W.view world.new).counts
        ≡ with_disk (is_some result.disk) (W.view world.old).counts }
    ensures told { KeepsTold (W.view world.old) (W.view world.new) }

    // Its cases.
    ensures failed { IsTrue result.cases.store_failed ↔ Fails W.Disk.faults
        (Rose (W.view world.old).faults (W.view world.new).faults) result.disk }
    ensures unopened { IsNone result.disk → IsTrue result.cases.store_failed }
    ensures unfit { IsTrue result.cases.is_unfit
        → IfFound W.Disk.tells (W.view world.old).files path.now IsNoStore }
    ensures exact { IsWrong result.cases ⊎ IfFound W.Disk.tells (W.view world.old).files path.now
        (λ image. IsNoStore image → ⊥) }
    ensures gate { result.cases.gate_failed ≡ false }
    ensures unswept { IsUnswept result.cases }

    // What is put to the sink.
    ensures silent { IsWrong result.cases → W.Sink.view sink.new ≡ W.Sink.view sink.old }
    ensures reported { IsWrong result.cases ⊎ IsReported W.Disk.tells (W.view world.old).files
        path.now (W.Sink.view sink.new) }
{
    let Ok(disk) = world.open_disk(path) else {
        return Checked {
            cases: Cases {
                store_failed: true,
                is_unfit: false,
                gate_failed: false,
                is_refused: false,
                is_given_up: false,
                no_memory: false,
            },
            disk: None,
        };
    };
    match Journal::open(alloc, disk) {
        Ok((journal, rows)) => {
            let told = tell(alloc, journal.batches(), &rows, sink);
            let cases = Cases {
                store_failed: false,
                is_unfit: false,
                gate_failed: false,
                is_refused: false,
                is_given_up: false,
                no_memory: told.is_err(),
            };
            Checked {
                cases,
                disk: Some(journal.into_disk()),
            }
        }
        Err((disk, fault)) => Checked {
            cases: cases_of(fault, disk.faults()),
            disk: Some(disk),
        },
    }
}

// Puts the report of a store of so many batches and these rows.
fn tell<S: Sink>(alloc: Global, batches: u64, rows: &StoredRows, sink: &mut S) -> Result<(), Memory>
    requires fresh { IsNewSink (S.view sink.old) }
    ensures put { OnOk result (HasText (check_lines batches (length rows.now.db.conferences)
        (length rows.now.db.persons) (length rows.now.db.texts)) (S.view sink.new)) }
    ensures untold { OnErr result (S.view sink.new ≡ S.view sink.old) }
{
    let report = check_report(
        alloc,
        batches,
        rows.conference_count() as u64,
        rows.person_count() as u64,
        rows.text_count() as u64,
    )?;
    put_text(sink, report.as_slice());
    Ok(())
}
