// The calls of a disk over a file.
ghost use Rattle.std.specs.Prelude.{◌≤◌, IfOk};
ghost use Rattle.bench.specs.Words.{AsksForSome};

use crate::request::Request;
use crate::watch::Watch;
use kom_disk::{Disk, Failed, Opener};
use std::rt::Clock;
use std::{fs, io};

const FEW_TURNS: u32 = 10;

/// The file of the disk, which the program makes and removes.
const STORE: &str = "bench_store";

const BLOCK: usize = 512;

/// Measures the calls of a disk.
pub fn measure(rt: &HostRuntime, request: Request) -> io::Result<()>
    requires { AsksForSome request }
{
    let Ok(mut disk) = Opener::new().open(rt, STORE) else {
        return Err(io::ErrorKind::Other.into());
    };
    let done = measure_disk(rt, request, &mut disk);
    // Where a call failed there may be no file.
    if fs::exists(rt, STORE)? {
        fs::remove_file(rt, STORE)?;
    }
    done
}

fn measure_disk<R, D>(rt: &R, request: Request, disk: &mut D) -> io::Result<()>
where
    R: Print + Clock,
    D: Disk,
    requires { AsksForSome request }
{
    let mut watch = Watch::start(rt, request.told(), 0)?;
    let Ok(bytes) = turns(disk, request.count_or(FEW_TURNS)) else {
        return Err(io::ErrorKind::Other.into());
    };
    watch.tell(rt, "cut, write_at, len, read and sync", bytes)
}

/// So many turns, and one sync. How many bytes were read.
fn turns<D: Disk>(disk: &mut D, count: u32) -> Result<u64, Failed> {
    let block = [7; BLOCK];
    let mut back = [0; BLOCK];
    let mut bytes: u64 = 0;
    for _ in 0..count {
        bytes = bytes.wrapping_add(turn(disk, &block, &mut back)?);
    }
    disk.sync()?;
    Ok(bytes)
}

/// Makes a block all that the disk holds, and reads it. How many bytes were read.
fn turn<D: Disk>(disk: &mut D, block: &[u8; BLOCK], back: &mut [u8; BLOCK]) -> Result<u64, Failed>
    ensures { IfOk result (λ bytes. bytes ≤ BLOCK) }
{
    disk.cut(0)?;
    disk.write_at(0, block)?;
    if disk.len()? < BLOCK as u64 {
        return Ok(0);
    }
    disk.read(0, back)?;
    Ok(BLOCK as u64)
}
