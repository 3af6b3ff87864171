// What the head of a file says.
ghost use Rattle.std.specs.Prelude.{◌≡◌, ◌≤◌, IsTrue, IfOk, length, min, take};
ghost use Rattle.kom_disk.specs.Faults.{CountsFault};
ghost use Rattle.kom_disk.specs.Moments.{LeavesOnly};
ghost use Rattle.batch_log.specs.Walk.{Stays};
ghost use Rattle.store_files.specs.Heads as heads;
ghost use Rattle.store_files.specs.Heads.{head_in, generation_of};

use batch_log::read_block;
use kom_disk::{Disk, Failed};

// How long a header is.
const HEADER: u64 = 16;

const HEADER_1: [u8; 16] = *b"KOMSTORE\x01\0\0\0\0\0\0\0";

const HEADER_2: [u8; 16] = *b"KOMSTORE\x02\0\0\0\0\0\0\0";

/// Which of both files.
#[derive(Clone, Copy, Debug, PartialEq, Eq)]
pub enum Side {
    First,
    Second,
}

/// What the head of a file says.
#[derive(Clone, Copy, Debug, PartialEq, Eq)]
pub enum Head {
    /// A first file of version 1, with a gate.
    Old,
    /// A file with a snapshot of this generation.
    Live(u64),
    /// A file of version 2 with a gate that is not open, or with no byte after it.
    Shut,
    /// A file of this length, which has no gate, and begins as one of version 2 does.
    Short(u64),
    /// The first place of a file of at most 25 bytes that holds another byte than a header of
    /// version 2, and that byte.
    Stub(u64, u8),
    /// The first such place of a longer file, and its byte.
    Foreign(u64, u8),
}

/// Reads the head of a file of this length.
pub fn read_head<D: Disk>(disk: &mut D, side: Side, len: u64) -> Result<Head, Failed>
    requires { len ≡ D.size disk.old }
    ensures head { IsTrue D.tells → IfOk result (λ head. head ≡ head_in side (D.bytes disk.old)) }
    ensures size { D.size disk.new ≡ D.size disk.old }
    ensures bytes { IsTrue D.tells → D.bytes disk.new ≡ D.bytes disk.old }
    ensures stop { IsTrue D.tells → LeavesOnly D.moment D.images_at disk.old disk.new
        (Stays (D.images disk.old)) }
    ensures faults { CountsFault (D.faults disk.old) (D.faults disk.new) result }
{
    let mut front = [0; 25];
    let held = read_block(disk, 0, len, &mut front)?;
    Ok(head_from(side, len, &front[..held]))
}

// What the first bytes of a file of this length say.
fn head_from(side: Side, len: u64, front: &[u8]) -> Head
    requires { length front.now ≡ min 25 len }
    ensures { result ≡ heads.head_from side len front.now }
{
    if is_old(side, len, front) {
        return Head::Old;
    }
    let place = places_as(&HEADER_2, front);
    if (place as u64) < HEADER.min(len) {
        return other_head(len, place as u64, front[place]);
    }
    if len < 25 {
        return Head::Short(len);
    }
    if len == 25 || front[24] != 1 {
        return Head::Shut;
    }
    Head::Live(generation_in(front))
}

// Whether these bytes of a file of this length begin one of version 1.
fn is_old(side: Side, len: u64, front: &[u8]) -> bool
    ensures { result ≡ heads.is_old side len front.now }
{
    match side {
        Side::First => places_as(&HEADER_1, front) == 16 && len > 16,
        Side::Second => false,
    }
}

// What bytes say that differ from a header.
fn other_head(len: u64, place: u64, byte: u8) -> Head
    ensures { result ≡ heads.other_head len place byte }
{
    if len > 25 {
        Head::Foreign(place, byte)
    } else {
        Head::Stub(place, byte)
    }
}

// For how many places bytes are those of a header.
fn places_as(header: &[u8], bytes: &[u8]) -> usize
    ensures same { result ≡ heads.places_as header.now bytes.now }
    ensures within { result ≤ length header.now }
{
    let mut same = 0;
    while same < bytes.len() && same < header.len() && bytes[same] == header[same] {
        same += 1;
    }
    same
}

// The generation in a head.
fn generation_in(front: &[u8]) -> u64
    requires { length front.now ≡ 25 }
    ensures { result ≡ generation_of (take 24 front.now) }
{
    u64::from_le_bytes([
        front[16], front[17], front[18], front[19], front[20], front[21], front[22], front[23],
    ])
}
