//! Measures chains of pairs, a disk over a file and a state lock: without words what a few of each
//! add up to, and by its name one of them, with a number the times of so many.
#![tactic(auto)]

mod chains;
mod disks;
mod locks;
mod request;
mod watch;

use request::Subject;
use std::io;
use std::process::ExitCode;

fn main(rt: HostRuntime) -> io::Result<ExitCode> {
    let Some(request) = request::asked(&rt) else {
        return request::refuse(&rt);
    };
    let alloc = rt.alloc();
    if request.asks_for(Subject::MapChain) {
        chains::measure(&rt, alloc, request)?;
    }
    if request.asks_for(Subject::Disk) {
        disks::measure(&rt, request)?;
    }
    if request.asks_for(Subject::StateLock) {
        locks::measure(&rt, alloc, request)?;
    }
    Ok(ExitCode::SUCCESS)
}
