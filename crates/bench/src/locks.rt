// Turns that threads take under a state lock, each of which adds one.
ghost use Rattle.std.specs.Prelude.{◌≡◌, ◌<◌, ◌≤◌, length};
ghost use Rattle.bench.specs.Words.{AsksForSome};
ghost use Rattle.kom_state_lock.specs.Passes.{IsPassOf, HoldsNoTurn, AreReady};

mod counter;

use crate::request::{Request, Told};
use counter::{Added, Counter};
use kom_state_lock::{Hall, Pass};
use std::alloc::Global;
use std::rt::Clock;
use std::sync::Wait;
use std::thread::Threads;
use std::time::{CpuClock, Duration, Instant};
use std::{io, thread};

/// The short turns of all threads together.
const FEW_TURNS: u32 = 32_000;

/// For so many short turns one is held.
const SHORT_FOR_HELD: u32 = 500;

/// What a thread does in its turn, and then.
#[derive(Clone, Copy)]
struct Work {
    name: &'static str,
    hold: Duration,
    pause: Duration,
}

fn short() -> Work {
    Work {
        name: "short",
        hold: Duration::from_micros(0),
        pause: Duration::from_micros(0),
    }
}

/// As with the sync of a disk.
fn held() -> Work {
    Work {
        name: "held",
        hold: Duration::from_micros(200),
        pause: Duration::from_micros(2000),
    }
}

/// Measures turns of 1, 4, 16 and 64 threads.
pub fn measure<R: Print + Clock + CpuClock + Threads + Wait + Sync>(
    rt: &R,
    alloc: Global,
    request: Request,
) -> io::Result<()>
    requires { AsksForSome request }
{
    let told = request.told();
    let count = request.count_or(FEW_TURNS);
    for threads in [1, 4, 16, 64] {
        measure_turns(rt, alloc, told, threads, count / threads, short())?;
    }
    let count = count / SHORT_FOR_HELD;
    for threads in [1, 4, 16, 64] {
        measure_turns(rt, alloc, told, threads, count / threads, held())?;
    }
    Ok(())
}

/// So many turns of each thread.
fn measure_turns<R: Print + Clock + CpuClock + Threads + Wait + Sync>(
    rt: &R,
    alloc: Global,
    told: Told,
    threads: u32,
    turns: u32,
    work: Work,
) -> io::Result<()>
    requires { (1 ≤ threads) × (threads ≤ 65) }
{
    let used = rt.process_cpu_time()?;
    let start = Instant::now(rt)?;
    let Ok((hall, mut row)) = Hall::make(alloc, Counter { total: 0 }, threads) else {
        return Err(io::ErrorKind::OutOfMemory.into());
    };
    take_together(rt, &hall, row.as_mut_slice(), turns, work);
    let time = start.elapsed(rt);
    let used_then = rt.process_cpu_time();
    let (counter, _pass) = hall.close(row);
    let total = counter.total;
    let name = work.name;
    let nanos = time?.as_nanos();
    let processor = used_then?.saturating_sub(used).as_nanos();
    match told {
        Told::Sums => println!(rt; "{name} {threads}: {total}"),
        Told::Times => println!(rt; "{name} {threads}: {nanos} ns, {processor} ns ({total})"),
    }
}

/// So many turns of each pass, in as many threads.
fn take_together<R: Clock + Threads + Wait + Sync>(
    rt: &R,
    hall: &Hall<Counter>,
    passes: &mut [Pass<Counter>],
    turns: u32,
    work: Work,
)
    requires ready { AreReady hall.now passes.old }
    requires some { 0 < length passes.old }
    ensures { AreReady hall.now passes.new }
{
    let threads = passes.len();
    thread::for_each_mut(
        rt,
        passes,
        threads,
        &|_, pass| take_turns(rt, hall, pass, turns, work),
    );
}

fn take_turns<R: Clock + Wait>(
    rt: &R,
    hall: &Hall<Counter>,
    pass: &mut Pass<Counter>,
    turns: u32,
    work: Work,
)
    requires { IsPassOf hall.now pass.old × HoldsNoTurn pass.old.turn }
    ensures { IsPassOf hall.now pass.new × HoldsNoTurn pass.new.turn
        × (pass.new.number ≡ pass.old.number) }
{
    for _ in 0..turns {
        let Ok(mut held) = hall.take(rt, pass) else {
            return;
        };
        let counter = held.value();
        counter.total = counter.total.wrapping_add(1);
        let entry = Added {
            pass: pass.number(),
        };
        rest(rt, work.hold);
        hall.log(pass, &mut held, entry);
        hall.put(pass, held);
        rest(rt, work.pause);
    }
}

fn rest(rt: &impl Clock, time: Duration) {
    if !time.is_zero() {
        thread::sleep(rt, time);
    }
}
