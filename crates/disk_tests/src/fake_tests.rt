//! Disks over files that fail by script.
use crate::fakes::{FakePlace, Plan, SOUND, place_of};
use kom_disk::{Disk, FileDisk, Opener, read_up_to};
use std::process::Abort;
use std::test::Fail;

/// A call of a disk and what it is answered: a write at the beginning, a cut and a sync, and
/// whether each succeeds; how many bytes are counted, where that does not fail; and what is read.
#[derive(Clone, Copy)]
enum Step {
    Write(&'static [u8], bool),
    Cut(u64, bool),
    Sync(bool),
    Len(Option<u64>),
    Read(&'static [u8]),
}

/// A disk over a file of this plan, its calls, and how many of them fail.
#[derive(Clone, Copy)]
struct Case {
    plan: Plan,
    steps: &'static [Step],
    faults: u64,
}

/// The first call measures the file when it is opened.
const UNMEASURED: Plan = Plan {
    fails: [1, 0],
    ..SOUND
};

const LOCKED: Plan = Plan {
    is_locked: true,
    ..SOUND
};

const UNSYNCED: Plan = Plan {
    folder_fails: 1,
    ..SOUND
};

static CASES: [Case; 12] = [
    // Five bytes are written in two calls, 2 and 3.
    Case {
        plan: SOUND,
        steps: &[
            Step::Write(b"12345", true),
            Step::Sync(true),
            Step::Cut(2, true),
            Step::Len(Some(2)),
        ],
        faults: 0,
    },
    // After a write that fails the file is measured.
    Case {
        plan: Plan {
            fails: [2, 0],
            ..SOUND
        },
        steps: &[
            Step::Write(b"12345", false),
            Step::Sync(true),
            Step::Cut(2, true),
            Step::Len(Some(0)),
        ],
        faults: 1,
    },
    Case {
        plan: Plan {
            fails: [3, 0],
            ..SOUND
        },
        steps: &[
            Step::Write(b"12345", false),
            Step::Sync(true),
            Step::Cut(2, true),
            Step::Len(Some(2)),
        ],
        faults: 1,
    },
    Case {
        plan: Plan {
            fails: [4, 0],
            ..SOUND
        },
        steps: &[
            Step::Write(b"12345", true),
            Step::Sync(false),
            Step::Cut(2, true),
            Step::Len(Some(2)),
        ],
        faults: 1,
    },
    Case {
        plan: Plan {
            fails: [5, 0],
            ..SOUND
        },
        steps: &[
            Step::Write(b"12345", true),
            Step::Sync(true),
            Step::Cut(2, false),
            Step::Len(Some(5)),
        ],
        faults: 1,
    },
    Case {
        plan: Plan {
            fails: [6, 0],
            ..SOUND
        },
        steps: &[
            Step::Write(b"12345", true),
            Step::Sync(true),
            Step::Cut(2, true),
            Step::Len(None),
        ],
        faults: 1,
    },
    // A file is written whole, and not lengthened.
    Case {
        plan: SOUND,
        steps: &[
            Step::Write(b"1234567", true),
            Step::Read(b"1234567"),
            Step::Cut(9, true),
            Step::Len(Some(7)),
        ],
        faults: 0,
    },
    // A failed sync is not forgotten.
    Case {
        plan: Plan {
            fails: [2, 0],
            ..SOUND
        },
        steps: &[Step::Sync(false), Step::Sync(false)],
        faults: 2,
    },
    // A missing file is made by the first write, and then its lock and the sync of its folder
    // count.
    Case {
        plan: Plan {
            is_missing: true,
            ..LOCKED
        },
        steps: &[
            Step::Len(Some(0)),
            Step::Cut(0, true),
            Step::Sync(true),
            Step::Write(b"a", false),
        ],
        faults: 1,
    },
    Case {
        plan: Plan {
            is_missing: true,
            folder_fails: 2,
            ..SOUND
        },
        steps: &[
            Step::Len(Some(0)),
            Step::Cut(0, true),
            Step::Sync(true),
            Step::Write(b"a", false),
        ],
        faults: 1,
    },
    // Three of the five bytes are written. The file is measured at once,
    Case {
        plan: Plan {
            fails: [3, 0],
            ..SOUND
        },
        steps: &[
            Step::Write(b"12345", false),
            Step::Cut(2, true),
            Step::Len(Some(2)),
        ],
        faults: 1,
    },
    // and where that fails before the next change, which then fails until the length is counted
    // anew.
    Case {
        plan: Plan {
            fails: [3, 4],
            ..SOUND
        },
        steps: &[
            Step::Write(b"12345", false),
            Step::Cut(2, false),
            Step::Write(b"1", false),
            Step::Len(Some(3)),
            Step::Cut(2, true),
            Step::Len(Some(2)),
        ],
        faults: 3,
    },
];

/// Whether a call is answered so.
fn keeps(disk: &mut FileDisk<FakePlace>, step: Step) -> bool {
    match step {
        Step::Write(bytes, succeeds) => disk.write_at(0, bytes).is_ok() == succeeds,
        Step::Cut(len, succeeds) => disk.cut(len).is_ok() == succeeds,
        Step::Sync(succeeds) => disk.sync().is_ok() == succeeds,
        Step::Len(len) => disk.len().ok() == len,
        Step::Read(bytes) => {
            let mut back = [0; 16];
            read_up_to(disk, 0, &mut back) == Ok(bytes.len()) && back.starts_with(bytes)
        }
    }
}

fn check_case(rt: &impl Abort, disk: &mut FileDisk<FakePlace>, number: usize, case: &Case) {
    for (place, step) in case.steps.iter().enumerate() {
        assert!(rt; keeps(disk, *step), "step {place} of case {number}");
    }
    assert_eq!(rt; disk.faults(), case.faults, "case {number}");
}

#[test]
fn an_error_of_a_file_is_told(rt: HostRuntime) -> Result<(), Fail> {
    for (number, case) in CASES.iter().enumerate() {
        let mut disk = Opener::new().open_place(place_of(case.plan))?;
        check_case(&rt, &mut disk, number, case);
    }
    Ok(())
}

#[test]
fn an_opening_locks_and_syncs_the_folder(rt: HostRuntime) -> Result<(), Fail> {
    let mut opener = Opener::new();
    for plan in [UNMEASURED, LOCKED, UNSYNCED] {
        assert!(rt; opener.open_place(place_of(plan)).is_err());
    }
    assert!(rt; opener.open_place_to_read(place_of(UNMEASURED)).is_err());
    assert_eq!(rt; opener.faults, 4);
    let mut disk = opener.open_place_to_read(place_of(SOUND))?;
    assert_eq!(rt; (disk.len(), disk.faults(), opener.faults), (Ok(0), 0, 4));
    Ok(())
}
