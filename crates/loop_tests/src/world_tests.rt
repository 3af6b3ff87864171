//! Links and worlds in memory: what flags hold, and what a world has once.
use kom_disk::Disk;
use kom_links::{Clock, Got, Link, Sink, Took, World};
use kom_types::Moment;
use memory_links::{
    FilePlan, Flag, GatePlan, Hold, LinkPlan, MemoryLink, MemoryWorld, Script, Signal,
};
use std::alloc::Global;
use std::collections::VecDeque;
use std::process::Abort;
use std::test::Fail;

/// A call of one of two links, and its answer: a read or a write of the link that is held, or that
/// one more byte is put to the other.
#[derive(Clone, Copy)]
enum Step {
    Read(Got),
    Write(Took),
    Put,
}

/// A link that sets the flag once three bytes were put to it.
fn teller_of(alloc: Global, flag: Flag) -> Result<MemoryLink, Fail> {
    let mut plan = LinkPlan::new(alloc);
    plan.flags.signals.push(Signal { flag, put: 3 })?;
    Ok(MemoryLink::new(alloc, Vec::new(alloc), plan))
}

/// A link of two bytes that waits for the flag once one was taken, and before one is put.
fn held_by(alloc: Global, flag: Flag) -> Result<MemoryLink, Fail> {
    let mut plan = LinkPlan::new(alloc);
    plan.cuts.push(1)?;
    plan.flags.holds.push(Hold {
        flag,
        reads_from: Some(1),
        writes_from: Some(0),
    })?;
    Ok(MemoryLink::new(alloc, Vec::from_slice(alloc, b"ab")?, plan))
}

fn check_steps(rt: &impl Abort, teller: &mut MemoryLink, held: &mut MemoryLink) {
    let steps = [
        Step::Read(Got::Some(1)),
        Step::Read(Got::NotYet),
        Step::Write(Took::NotYet),
        Step::Put,
        Step::Put,
        Step::Read(Got::NotYet),
        Step::Put,
        Step::Read(Got::Some(1)),
        Step::Write(Took::Some(1)),
        Step::Read(Got::End),
    ];
    let mut buffer = [0u8; 8];
    for step in steps {
        match step {
            Step::Read(answer) => assert!(rt; held.read(&mut buffer) == answer),
            Step::Write(answer) => assert!(rt; held.write(b"x") == answer),
            Step::Put => assert!(rt; teller.write(b"x") == Took::Some(1)),
        }
    }
    assert!(rt; held.tells_reads());
}

#[test]
fn a_flag_holds_a_link_until_enough_was_put_to_another(rt: HostRuntime) -> Result<(), Fail> {
    let alloc = rt.alloc();
    let flag = Flag::new(alloc)?;
    let mut teller = teller_of(alloc, flag.again()?)?;
    let mut held = held_by(alloc, flag)?;
    check_steps(&rt, &mut teller, &mut held);
    Ok(())
}

/// A gate without clients.
fn gate_of(alloc: Global) -> GatePlan {
    GatePlan {
        clients: VecDeque::new(alloc),
        script: Script::new(alloc),
    }
}

/// A file of these bytes.
fn file_of(alloc: Global, path: &str, bytes: &[u8]) -> Result<FilePlan, Fail> {
    let bytes = Vec::from_slice(alloc, bytes)?;
    Ok(FilePlan {
        path: String::from_str(alloc, path)?,
        bytes,
        room: 8,
        fails: Vec::new(alloc),
        stop: None,
    })
}

/// A world with a gate, another at a port, and two files, which refuses its second disk and the
/// first write of its sink.
fn world_of(alloc: Global) -> Result<MemoryWorld, Fail> {
    let moments = [Moment::at_most(9)];
    let moments = Vec::from_slice(alloc, &moments)?;
    let fails = Vec::from_slice(alloc, &[1])?;
    let mut world = MemoryWorld::new(alloc, Some(gate_of(alloc)), moments, fails);
    let mut port = Vec::new(alloc);
    port.push(gate_of(alloc))?;
    world.set_port(port);
    let mut files = Vec::new(alloc);
    files.push(file_of(alloc, "a", b"one")?)?;
    files.push(file_of(alloc, "b", b"three")?)?;
    world.set_files(files, Vec::from_slice(alloc, &[2])?);
    Ok(world)
}

/// How many gates the world opens at a port, where one is asked for.
fn gates_at_port(alloc: Global, world: &mut MemoryWorld) -> Option<usize> {
    Some(world.open_gates(alloc, 1, 1).ok()?.len())
}

fn has_gate(world: &mut MemoryWorld) -> bool {
    world.std_gate().is_ok()
}

/// The moment that a clock of the world gives first.
fn first_moment(world: &mut MemoryWorld) -> Option<u64> {
    Some(world.clock().ok()?.now().seconds())
}

/// How long a disk is that the world opens.
fn len_of(world: &mut MemoryWorld, path: &str) -> Option<u64> {
    world.open_disk(path).ok()?.len().ok()
}

fn check_world(rt: &impl Abort, alloc: Global, world: &mut MemoryWorld) {
    assert!(rt; gates_at_port(alloc, world) == Some(1) && has_gate(world));
    assert!(rt; gates_at_port(alloc, world) == None && !has_gate(world));
    assert!(rt; world.faults() == 2);
    assert!(rt; world.out().write(b"x").is_err());
    assert!(rt; first_moment(world) == Some(9) && first_moment(world) == Some(9));
    for (path, len) in [("b", Some(5)), ("b", None), ("a", Some(3)), ("c", Some(0))] {
        assert!(rt; len_of(world, path) == len);
    }
    assert!(rt; world.faults() == 3);
}

#[test]
fn a_world_has_its_gates_once_and_its_files(rt: HostRuntime) -> Result<(), Fail> {
    let alloc = rt.alloc();
    check_world(&rt, alloc, &mut world_of(alloc)?);
    Ok(())
}
