// Which of both files is chosen.
ghost use Rattle.std.specs.Prelude.{◌≡◌, ◌⊎◌, ◌+◌, IsTrue, OnOk, Err, nat_lt};
ghost use Rattle.std.specs.Prelude.{if◌then◌else◌};
ghost use Rattle.kom_disk.specs.Faults.{Rose};
ghost use Rattle.kom_disk.specs.Moments.{LeavesOnly};
ghost use Rattle.batch_log.specs.Walk.{Stays};
ghost use Rattle.store_files.specs.Choices as choices;
ghost use Rattle.store_files.specs.Choices.{choice_in};

use crate::heads::{Head, Side, read_head};
use kom_disk::Disk;

/// Which file is chosen, and its generation.
#[derive(Clone, Copy, Debug, PartialEq, Eq)]
pub enum Choice {
    /// The first, which is of version 1.
    Old,
    /// The first, which never had a snapshot: it stands for no row.
    Empty,
    First(u64),
    Second(u64),
}

/// Why no file is chosen.
#[derive(Clone, Copy, Debug, PartialEq, Eq)]
pub enum NotChosen {
    /// A disk failed.
    Fault,
    /// The first place of a file's header that holds another byte, and that byte.
    Foreign(u64, u8),
    /// Neither file has a snapshot, and the first has this length, which is less than a store has.
    Short(u64),
}

/// Reads the heads of two files of these lengths, and chooses one of them.
pub fn choose<D: Disk>(
    first: &mut D,
    first_len: u64,
    second: &mut D,
    second_len: u64,
) -> Result<Choice, NotChosen>
    requires first { first_len ≡ D.size first.old }
    requires second { second_len ≡ D.size second.old }
    ensures chosen { IsTrue D.tells → (result ≡ Err NotChosen.Fault)
        ⊎ (result ≡ choice_in (D.bytes first.old) (D.bytes second.old)) }
    ensures sizes { (D.size first.new ≡ D.size first.old)
        × (D.size second.new ≡ D.size second.old) }
    ensures bytes { IsTrue D.tells → (D.bytes first.new ≡ D.bytes first.old)
        × (D.bytes second.new ≡ D.bytes second.old) }
    ensures first_stop { IsTrue D.tells
        → LeavesOnly D.moment D.images_at first.old first.new (Stays (D.images first.old)) }
    ensures second_stop { IsTrue D.tells
        → LeavesOnly D.moment D.images_at second.old second.new (Stays (D.images second.old)) }
    ensures fault { result ≡ Err NotChosen.Fault → Rose (D.faults first.old + D.faults second.old)
        (D.faults first.new + D.faults second.new) }
    ensures no_fault { OnOk result ((D.faults first.new ≡ D.faults first.old)
        × (D.faults second.new ≡ D.faults second.old)) }
{
    let Ok(one) = read_head(first, Side::First, first_len) else {
        return Err(NotChosen::Fault);
    };
    let Ok(other) = read_head(second, Side::Second, second_len) else {
        return Err(NotChosen::Fault);
    };
    choice_of(one, other)
}

// Which is chosen by what both heads say.
fn choice_of(first: Head, second: Head) -> Result<Choice, NotChosen>
    ensures { result ≡ choices.choice_of first second }
{
    match first {
        Head::Foreign(place, byte) => Err(NotChosen::Foreign(place, byte)),
        Head::Live(one) => beside_live(one, second),
        Head::Old => beside_other(Ok(Choice::Old), second),
        Head::Shut => beside_other(Ok(Choice::Empty), second),
        Head::Short(len) => beside_other(Err(NotChosen::Short(len)), second),
        Head::Stub(place, byte) => beside_other(Err(NotChosen::Foreign(place, byte)), second),
    }
}

// What the second file comes to beside a first one of this generation.
fn beside_live(one: u64, second: Head) -> Result<Choice, NotChosen>
    ensures { result ≡ choices.beside_live one second }
{
    match second {
        Head::Foreign(place, byte) => Err(NotChosen::Foreign(place, byte)),
        Head::Live(other) => Ok(greater(one, other)),
        _ => Ok(Choice::First(one)),
    }
}

// And beside one without a snapshot, which comes to this alone.
fn beside_other(alone: Result<Choice, NotChosen>, second: Head) -> Result<Choice, NotChosen>
    ensures { result ≡ choices.beside_other alone second }
{
    match second {
        Head::Foreign(place, byte) => Err(NotChosen::Foreign(place, byte)),
        Head::Live(other) => Ok(Choice::Second(other)),
        _ => alone,
    }
}

// Which of two generations is chosen.
fn greater(one: u64, other: u64) -> Choice
    ensures { result ≡ (if nat_lt one other then Choice.Second other else Choice.First one) }
{
    if one < other {
        Choice::Second(other)
    } else {
        Choice::First(one)
    }
}
