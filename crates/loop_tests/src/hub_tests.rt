//! One worker of `hub` over a store and a port in memory, whose gate gives several clients.
use crate::run_tests::check_returned;
use crate::side_by_side_tests::{
    SIDE_BY_SIDE, client_of, is_put, new_flags, new_store, words_of, world_of,
};
use kom_links::{Served, SessionEnd};
use kom_server::{Outcome, run};
use memory_links::{Client, GatePlan, LinkPlan, MemoryLink, MemoryWorld, Script};
use std::alloc::Global;
use std::collections::VecDeque;
use std::process::Abort;
use std::sync::Wait;
use std::test::Fail;
use std::thread::Threads;

/// A greeting and the call for the caller's session number.
const ASKS: &[u8] = b"A5Hceder\n1 56\n";

/// So many lines are sent in one piece.
const LINES: usize = 10_000;

/// The call at which a link or a gate fails that gives something at its first one, and nothing
/// between.
const LAST: u64 = 1_000_002;

/// The clients of one gate are served by one worker.
fn serve<R: Abort + Threads + Wait + Sync>(
    rt: &R,
    alloc: Global,
    clients: VecDeque<Client>,
    script: Script,
) -> Result<Outcome<MemoryWorld>, Fail> {
    let words = words_of(alloc, &["hub", "s", "4894", "1"])?;
    let mut gates = Vec::new(alloc);
    gates.push(GatePlan { clients, script })?;
    let mut world = world_of(alloc, new_store(rt, alloc)?, gates)?;
    Ok(run(rt, alloc, &words, &mut world))
}

/// The links of the one gate of a run that ended well.
fn returned<'o>(rt: &impl Abort, outcome: &'o Outcome<MemoryWorld>) -> &'o [(MemoryLink, Served)] {
    assert!(rt; outcome.status == 0);
    if let Some(closing) = &outcome.end {
        if let Some(gate) = closing.gates.first() {
            return gate.returned();
        }
    }
    &[]
}

/// A script at whose first call something is there, and which fails at last.
fn fails_at_last(alloc: Global) -> Result<Script, Fail> {
    let mut script = Script::new(alloc);
    for call in 2..LAST {
        script.waits.push(call)?;
    }
    script.fails.push(LAST)?;
    Ok(script)
}

/// One client, of this input and plan.
fn one_client(alloc: Global, input: Vec<u8>, plan: LinkPlan) -> Result<VecDeque<Client>, Fail> {
    let mut clients = VecDeque::new(alloc);
    clients.push_back(Client { input, plan })?;
    Ok(clients)
}

/// The clients of two workers side by side.
fn both_clients(alloc: Global) -> Result<VecDeque<Client>, Fail> {
    let flags = new_flags(alloc)?;
    let mut clients = VecDeque::new(alloc);
    for part in &SIDE_BY_SIDE {
        clients.push_back(client_of(alloc, &flags, part)?)?;
    }
    Ok(clients)
}

/// The one's second line waits until the other is answered, by the same worker.
#[test]
fn one_worker_serves_side_by_side(rt: HostRuntime) -> Result<(), Fail> {
    let alloc = rt.alloc();
    let outcome = serve(&rt, alloc, both_clients(alloc)?, Script::new(alloc))?;
    let returned = returned(&rt, &outcome);
    assert!(rt; returned.len() == 2);
    for (link, served) in returned {
        assert!(rt; served.end == SessionEnd::End && is_put(&SIDE_BY_SIDE[0], link.output()));
    }
    Ok(())
}

/// A client that sends one byte at a time, and nothing at each second look.
fn slow_client(alloc: Global) -> Result<Client, Fail> {
    let mut plan = LinkPlan::new(alloc);
    plan.most_read = 1;
    for place in 1..=ASKS.len() as u64 {
        plan.reads.waits.push(place.saturating_mul(2))?;
    }
    Ok(Client {
        input: Vec::from_slice(alloc, ASKS)?,
        plan,
    })
}

static SLOW: [(&[u8], SessionEnd); 3] = [
    (b"LysKOM\n=1 1\n", SessionEnd::End),
    (b"LysKOM\n=1 2\n", SessionEnd::End),
    (b"LysKOM\n=1 3\n", SessionEnd::End),
];

fn slow_clients(alloc: Global) -> Result<VecDeque<Client>, Fail> {
    let mut clients = VecDeque::new(alloc);
    for _ in &SLOW {
        clients.push_back(slow_client(alloc)?)?;
    }
    Ok(clients)
}

#[test]
fn who_send_byte_by_byte_are_served_together(rt: HostRuntime) -> Result<(), Fail> {
    let alloc = rt.alloc();
    let outcome = serve(&rt, alloc, slow_clients(alloc)?, Script::new(alloc))?;
    check_returned(&rt, returned(&rt, &outcome), &SLOW);
    Ok(())
}

/// These bytes, and then others so often as is said.
fn many(alloc: Global, first: &[u8], line: &[u8]) -> Result<Vec<u8>, Fail> {
    let mut bytes = Vec::from_slice(alloc, first)?;
    for _ in 0..LINES {
        bytes.extend_from_slice(line)?;
    }
    Ok(bytes)
}

#[test]
fn many_lines_are_answered(rt: HostRuntime) -> Result<(), Fail> {
    let alloc = rt.alloc();
    let input = many(alloc, b"A1Ha\n", b"1 56\n")?;
    let clients = one_client(alloc, input, LinkPlan::new(alloc))?;
    let outcome = serve(&rt, alloc, clients, Script::new(alloc))?;
    let answers = many(alloc, b"LysKOM\n", b"=1 1\n")?;
    let left = [(answers.as_slice(), SessionEnd::End)];
    check_returned(&rt, returned(&rt, &outcome), &left);
    Ok(())
}

static STOPPED: [(&[u8], SessionEnd); 1] = [(b"LysKOM\n=1\n=2\n=3\n", SessionEnd::Stopped)];

/// A client that stops the server, and whose link would fail if it were read for long.
fn stopping_client(alloc: Global) -> Result<VecDeque<Client>, Fail> {
    let mut plan = LinkPlan::new(alloc);
    plan.reads = fails_at_last(alloc)?;
    let input = Vec::from_slice(alloc, b"A1Ha\n1 62 5 0H 0\n2 42 255\n3 44 0\n")?;
    one_client(alloc, input, plan)
}

/// The gate would fail too if it were asked for long.
#[test]
fn who_stops_the_server_is_served_to_the_end(rt: HostRuntime) -> Result<(), Fail> {
    let alloc = rt.alloc();
    let outcome = serve(&rt, alloc, stopping_client(alloc)?, fails_at_last(alloc)?)?;
    check_returned(&rt, returned(&rt, &outcome), &STOPPED);
    Ok(())
}
