//! The process's own world, and its clock.
use kom_links::{Clock, Gate, Link, Next, Sink, StdWorld, Took, World, has_risen};
use std::process::Abort;
use std::test::Fail;
use std::time::{Duration, SystemTime, UNIX_EPOCH};
use std::{rt, thread};

#[test]
fn a_count_of_faults_rises_and_stands_still_at_its_end(rt: HostRuntime) {
    assert!(rt; has_risen(1, 2) && !has_risen(2, 2));
    assert!(rt; has_risen(u64::MAX - 1, u64::MAX) && has_risen(u64::MAX, u64::MAX));
}

/// The sink of a world and the link of its gate take what is written, and the gate gives one link.
fn check_world<W: World>(rt: &impl Abort, world: &mut W) {
    assert!(rt; world.out().write(b"the sink writes\n").is_ok());
    let Ok(mut gate) = world.std_gate() else {
        assert!(rt; false);
        return;
    };
    match gate.next() {
        Next::Link(mut link) => {
            assert!(rt; link.write(b"the link writes\n") == Took::Some(16) && link.faults() == 0);
        }
        _ => assert!(rt; false),
    }
    assert!(rt; matches!(gate.next(), Next::Ended));
}

#[test]
fn the_real_world_works(rt: HostRuntime) {
    check_world(&rt, &mut StdWorld::new(&rt));
}

/// The seconds of the system's clock.
fn system_seconds(rt: &impl rt::Clock) -> Result<u64, Fail> {
    Ok(SystemTime::now(rt)?.duration_since(UNIX_EPOCH)?.as_secs())
}

/// The clock of a world goes with that of the system.
fn check_clock<R: rt::Clock + Abort, W: World>(rt: &R, world: &mut W) -> Result<(), Fail> {
    let Ok(mut clock) = world.clock() else {
        assert!(rt; false);
        return Ok(());
    };
    for _ in 0..3 {
        let before = system_seconds(rt)?;
        let now = clock.now().seconds();
        let after = system_seconds(rt)?;
        assert!(rt; before <= now && now <= after);
        thread::sleep(rt, Duration::from_millis(30));
    }
    Ok(())
}

#[test]
fn a_clock_goes_with_the_system(rt: HostRuntime) -> Result<(), Fail> {
    check_clock(&rt, &mut StdWorld::new(&rt))
}
