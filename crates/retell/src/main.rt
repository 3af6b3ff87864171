//! Tells the rows of a store as a snapshot, reads it again, and tells what was read: `retell again
//! STORE` says whether both are the same. `retell open STORE` only opens it, and `retell tell
//! STORE` tells it once, so that both can be measured.
#![tactic(auto)]

ghost use Rattle.kom_model.specs.Whole.{IsWhole};
ghost use Rattle.kom_snapshot.specs.Listed.{IsListed};

mod coder;

use crate::coder::Coder;
use kom_disk::Opener;
use kom_journal::{Journal, read_snapshot};
use kom_state::StoredRows;
use kom_telling::tell;
use std::alloc::Global;
use std::process::ExitCode;
use std::{env, io};

/// The status where the words are none, the store is none, or what is told again differs.
const FAILED: u8 = 1;

fn main(rt: HostRuntime) -> io::Result<ExitCode> {
    let mut args = env::args(&rt)?;
    let _program = args.next();
    let (Some(mode), Some(path)) = (args.next(), args.next()) else {
        return Ok(ExitCode::from(FAILED));
    };
    let alloc = rt.alloc();
    let Ok(disk) = Opener::new().open(&rt, path.as_str()) else {
        return Ok(ExitCode::from(FAILED));
    };
    let Ok((journal, rows)) = Journal::open(alloc, disk) else {
        return Ok(ExitCode::from(FAILED));
    };
    let _disk = journal.into_disk();
    let done = match mode.as_str() {
        "open" => true,
        "tell" => told_once(alloc, &rows),
        "again" => told_again(&rt, alloc, &rows)?,
        _ => false,
    };
    Ok(if done {
        ExitCode::SUCCESS
    } else {
        ExitCode::from(FAILED)
    })
}

fn told_once(alloc: Global, rows: &StoredRows) -> bool
    requires whole { IsWhole rows.now.db }
    requires listed { IsListed rows.now.db }
{
    let mut coder = Coder::forgetting(alloc);
    tell(alloc, rows, &mut coder).is_ok()
}

fn told_again(rt: &HostRuntime, alloc: Global, rows: &StoredRows) -> io::Result<bool>
    requires whole { IsWhole rows.now.db }
    requires listed { IsListed rows.now.db }
{
    let mut first = Coder::keeping(alloc);
    if tell(alloc, rows, &mut first).is_err() {
        return Ok(false);
    }
    let Ok(read) = read_snapshot(alloc, first.bytes()) else {
        println!(rt; "not read")?;
        return Ok(false);
    };
    let mut second = Coder::keeping(alloc);
    if tell(alloc, &read, &mut second).is_err() {
        return Ok(false);
    }
    let same = first.bytes() == second.bytes();
    println!(rt;
        "{} parts, {} bytes, same {}",
        first.parts(),
        first.bytes().len(),
        same
    )?;
    Ok(same)
}
