//! A counter under the lock, to which threads add in turns.
ghost use Rattle.std.specs.Prelude.{◌≡◌, ◌<◌, ◌≤◌, ◌++◌, ◌∷◌, [], length, if◌then◌else◌};
ghost use Rattle.kom_state_lock.specs.Passes.{IsPassOf, HoldsNoTurn, AreReadyButLast};

use kom_state_lock::{Booked, Hall, Pass};
use std::alloc::Global;
use std::process::Abort;
use std::rt::Clock;
use std::sync::Wait;
use std::test::Fail;
use std::thread;
use std::thread::Threads;
use std::time::{CpuClock, Duration};

/// So much was added by a pass.
#[derive(Clone, Copy)]
struct Added {
    pass: u32,
    by: u64,
}

/// A sum that remembers what was added to it, and how many turns were counted, which is not booked.
#[derive(Drop)]
struct Counter {
    total: u64,
    added: Vec<Added>,
    turns: u64,
}

impl Booked for Counter {
    ghost use Rattle.std.specs.Prelude.{◌≡◌, ℕ, ◌+◌, ◌^◌, ◌%◌, ◌++◌, ◌∷◌, [], fold};
    ghost use Rattle.std.proofs.Common.{refl, sym, ap, ◌∙◌, append-nil, append_assoc};
    ghost use Rattle.std.proofs.lemmas.List.Sums.{fold-append};

    type Entry = Added;

    ghost pass_of = { λ e. e.pass };

    ghost follows = { λ old e new. (new.total ≡ (old.total + e.by) % 2 ^ 64)
        × (new.added.items ≡ old.added.items ++ e ∷ []) };

    ghost stays = { λ old new. (new.total ≡ old.total)
        × (new.added.items ≡ old.added.items) };

    ghost led = { λ opening history value.
        (value.total ≡ fold (λ n e. (n + e.by) % 2 ^ 64) opening.total history)
        × (value.added.items ≡ opening.added.items ++ history) };

    ghost itself_stays = { λ value. (refl, refl) };

    ghost empty_leads = { λ opening. (refl, sym (append-nil opening.added.items)) };

    ghost staying_leads = { λ opening history old new leads stays.
        (stays.0 ∙ leads.0, stays.1 ∙ leads.1) };

    ghost following_leads = { λ opening history old e new leads follows. (
      follows.0 ∙ (ap (λ n. (n + e.by) % 2 ^ 64) leads.0
          ∙ sym (fold-append (λ n e. (n + e.by) % 2 ^ 64) opening.total history (e ∷ []))),
      follows.1 ∙ (ap (λ l. l ++ e ∷ []) leads.1
          ∙ append_assoc opening.added.items history (e ∷ [])),
    ) };
}

/// One turn that adds. False where there was no ticket or no memory.
fn add<R: Wait>(rt: &R, hall: &Hall<Counter>, pass: &mut Pass<Counter>, by: u64) -> bool
    requires pass { IsPassOf hall.now pass.old × HoldsNoTurn pass.old.turn }
    ensures pass { IsPassOf hall.now pass.new × HoldsNoTurn pass.new.turn
        × (pass.new.number ≡ pass.old.number) }
    ensures mine { pass.new.mine ≡ (if result
        then pass.old.mine ++ record { pass = pass.old.number; by = by } ∷ []
        else pass.old.mine) }
{
    let Ok(mut held) = hall.take(rt, pass) else {
        return false;
    };
    let entry = Added {
        pass: pass.number(),
        by,
    };
    let counter = held.value();
    if counter.added.push(entry).is_err() {
        hall.put(pass, held);
        return false;
    }
    counter.total = counter.total.wrapping_add(by);
    hall.log(pass, &mut held, entry);
    hall.put(pass, held);
    true
}

/// One turn that is counted and not logged. The first of all is held for so long.
fn count_turn<R: Clock + Wait>(
    rt: &R,
    hall: &Hall<Counter>,
    pass: &mut Pass<Counter>,
    time: Duration,
)
    requires { IsPassOf hall.now pass.old × HoldsNoTurn pass.old.turn }
    ensures { IsPassOf hall.now pass.new × HoldsNoTurn pass.new.turn
        × (pass.new.number ≡ pass.old.number) }
{
    let Ok(mut held) = hall.take(rt, pass) else {
        return;
    };
    let counter = held.value();
    let turns = counter.turns;
    counter.turns = turns.wrapping_add(1);
    if turns == 0 {
        thread::sleep(rt, time);
    }
    hall.put(pass, held);
}

/// So many turns that add, each with one after it that is counted.
fn add_often<R: Clock + Wait>(
    rt: &R,
    hall: &Hall<Counter>,
    pass: &mut Pass<Counter>,
    turns: u64,
    time: Duration,
)
    requires { IsPassOf hall.now pass.old × HoldsNoTurn pass.old.turn }
    ensures { IsPassOf hall.now pass.new × HoldsNoTurn pass.new.turn
        × (pass.new.number ≡ pass.old.number) }
{
    for by in 0..turns {
        let _ = add(rt, hall, pass, by);
        count_turn(rt, hall, pass, time);
    }
}

/// The same by each pass but the last one, in as many threads.
fn add_beside<R: Threads + Clock + Wait + Sync>(
    rt: &R,
    hall: &Hall<Counter>,
    passes: &mut [Pass<Counter>],
    turns: u64,
    time: Duration,
)
    requires ready { AreReadyButLast hall.now passes.old }
    requires some { 0 < length passes.old }
    ensures { AreReadyButLast hall.now passes.new }
{
    let threads = passes.len();
    thread::for_each_mut(
        rt,
        passes,
        threads,
        &|_, pass| add_often(rt, hall, pass, turns, time),
    );
}

/// A counter that the passes of other threads add to, and then the last pass, which is kept here
/// meanwhile. It closes the hall with theirs.
fn count_beside<R: Threads + Clock + Wait + Sync>(
    rt: &R,
    alloc: Global,
    passes: u32,
    turns: u64,
    time: Duration,
) -> Option<Counter>
    requires { (2 ≤ passes) × (passes ≤ 65) }
{
    let empty = Counter {
        total: 0,
        added: Vec::new(alloc),
        turns: 0,
    };
    let Ok((hall, mut row)) = Hall::make(alloc, empty, passes) else {
        return None;
    };
    let mut own = row.pop().unwrap();
    add_beside(rt, &hall, row.as_mut_slice(), turns, time);
    add_often(rt, &hall, &mut own, turns, time);
    row.push_reserved(own);
    let (counter, _pass) = hall.close(row);
    Some(counter)
}

fn replayed(added: &[Added]) -> u64 {
    let mut total: u64 = 0;
    for entry in added {
        total = total.wrapping_add(entry.by);
    }
    total
}

/// So many turns of each pass are in the counter.
fn check_counter(rt: &impl Abort, counter: &Counter, passes: u32, turns: u64, want: u64) {
    assert_eq!(rt; counter.total, want, "{passes} passes");
    assert_eq!(rt; replayed(counter.added.as_slice()), want, "{passes} passes");
    for pass in 0..passes {
        let count = counter.added.iter().filter(|e| e.pass == pass).count();
        assert_eq!(rt; count as u64, turns, "pass {pass} of {passes}");
    }
    let counted = turns.saturating_mul(u64::from(passes));
    assert_eq!(rt; counter.turns, counted, "{passes} passes");
}

#[test]
fn each_turn_counts_once(rt: HostRuntime) -> Result<(), Fail> {
    let none = Duration::from_secs(0);
    for (passes, turns, want) in [
        (2, 3_000, 8_997_000),
        (8, 1_000, 3_996_000),
        (65, 100, 321_750),
    ] {
        let counter = count_beside(&rt, rt.alloc(), passes, turns, none).ok_or("memory")?;
        check_counter(&rt, &counter, passes, turns, want);
    }
    Ok(())
}

/// One turn is held for a second, while eight threads wait for theirs.
#[test]
fn waiting_takes_next_to_no_processor_time(rt: HostRuntime) -> Result<(), Fail> {
    let before = rt.process_cpu_time()?;
    let second = Duration::from_secs(1);
    let counter = count_beside(&rt, rt.alloc(), 10, 1, second).ok_or("memory")?;
    let used = rt.process_cpu_time()?.saturating_sub(before);
    assert_eq!(rt; counter.turns, 10);
    assert!(rt; used < Duration::from_millis(50), "{used:?}");
    Ok(())
}
