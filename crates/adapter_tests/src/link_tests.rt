//! Links over scripted standard input and output, and over sockets.
use crate::fakes::{FakeRuntime, Step};
use kom_links::{Gate, Got, Link, Next, SocketLink, StdWorld, Took, World};
use std::alloc::Global;
use std::io::{ErrorKind, Read};
use std::os::unix::net::UnixStream;
use std::process::Abort;
use std::test::Fail;

const BLOCKED: Step = Step::Fails(ErrorKind::WouldBlock);

const BROKEN_OFF: Step = Step::Fails(ErrorKind::Interrupted);

const BROKEN: Step = Step::Fails(ErrorKind::BrokenPipe);

/// What a read and a write of a link answer, and how often each sleeps.
#[derive(Clone, Copy)]
struct Answers {
    got: Got,
    took: Took,
    sleeps: u64,
}

/// The steps of a link's streams, and what becomes of them.
struct Row {
    steps: &'static [Step],
    answers: Answers,
}

static ROWS: [Row; 6] = [
    Row {
        steps: &[Step::Moves(2)],
        answers: Answers {
            got: Got::Some(2),
            took: Took::Some(2),
            sleeps: 0,
        },
    },
    Row {
        steps: &[],
        answers: Answers {
            got: Got::End,
            took: Took::Failed,
            sleeps: 0,
        },
    },
    Row {
        steps: &[BLOCKED, BLOCKED, Step::Moves(3)],
        answers: Answers {
            got: Got::Some(3),
            took: Took::Some(3),
            sleeps: 2,
        },
    },
    Row {
        steps: &[BLOCKED; 6],
        answers: Answers {
            got: Got::NotYet,
            took: Took::NotYet,
            sleeps: 5,
        },
    },
    Row {
        steps: &[BROKEN_OFF, BROKEN],
        answers: Answers {
            got: Got::NotYet,
            took: Took::NotYet,
            sleeps: 0,
        },
    },
    Row {
        steps: &[BROKEN],
        answers: Answers {
            got: Got::Failed,
            took: Took::Failed,
            sleeps: 0,
        },
    },
];

/// The link of a world's standard input and output answers so.
fn check_row<W: World>(rt: &impl Abort, runtime: &FakeRuntime, world: &mut W, want: Answers) {
    let Ok(mut gate) = world.std_gate() else {
        assert!(rt; false);
        return;
    };
    match gate.next() {
        Next::Link(mut link) => {
            assert!(rt; link.read(&mut [0u8; 8]) == want.got);
            assert!(rt; runtime.sleeps() == want.sleeps);
            assert!(rt; link.write(b"abcdefgh") == want.took);
            assert!(rt; runtime.sleeps() == want.sleeps.saturating_mul(2));
        }
        _ => assert!(rt; false),
    }
}

fn check_rows(rt: &impl Abort, alloc: Global) {
    for row in &ROWS {
        let runtime = FakeRuntime::new(alloc, row.steps);
        let shared = &runtime;
        check_row(rt, shared, &mut StdWorld::new(&shared), row.answers);
    }
}

#[test]
fn a_link_waits_while_nothing_is_ready(rt: HostRuntime) {
    check_rows(&rt, rt.alloc());
}

/// How many bytes the stream has, which does not wait for more.
fn count_left(stream: &mut UnixStream) -> usize {
    let mut count = 0usize;
    let mut buffer = [0u8; 4096];
    for _ in 0..10_000 {
        match stream.read(&mut buffer) {
            Ok(0) | Err(_) => break,
            Ok(more) => count = count.saturating_add(more),
        }
    }
    count
}

/// A link gives nothing while nothing is there, and says how much it takes of more than its socket
/// has room for.
fn check_full(
    rt: &impl Abort,
    alloc: Global,
    link: &mut impl Link,
    far: &mut UnixStream,
) -> Result<(), Fail> {
    assert!(rt; link.read(&mut [0u8; 8]) == Got::NotYet);
    let many = vec![in alloc; 7u8; 1_000_000]?;
    let mut told = 0usize;
    let mut last = Took::Some(0);
    for _ in 0..1_000 {
        last = link.write(&many);
        match last {
            Took::Some(count) => told = told.saturating_add(count),
            Took::NotYet | Took::Failed => break,
        }
    }
    assert!(rt; last == Took::NotYet && link.faults() == 0);
    assert!(rt; count_left(far) == told);
    Ok(())
}

#[test]
fn a_link_says_what_it_moves(rt: HostRuntime) -> Result<(), Fail> {
    let (near, mut far) = UnixStream::pair(&rt)?;
    near.set_nonblocking(true)?;
    far.set_nonblocking(true)?;
    let mut link = SocketLink::new(near, b"::1".to_vec(rt.alloc())?, &rt);
    check_full(&rt, rt.alloc(), &mut link, &mut far)
}
