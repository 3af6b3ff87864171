//! How talks end over links in memory, whose waits and faults come by script.
ghost use Rattle.std.specs.Prelude.{IfOk};
ghost use Rattle.kom_client.specs.Client.{IsUntouched};

use kom_client::{TalkEnd, talk};
use kom_links::Link;
use memory_links::{LinkPlan, MemoryLink, MemorySink, Script};
use std::alloc::Global;
use std::process::Abort;
use std::sync::Wait;
use std::test::Fail;

const KEYS: &[u8] = b"login 5 \nread 1\nfoo\n";

const REPLIES: &[u8] = b"LysKOM\n=1\n:2 9 5 1\n%2 14 1\n";

/// How the links of a talk depart from giving and taking all at once: how many bytes a read gives
/// and a write takes at most, where 0 sets no limit; at which call of each nothing is ready; and
/// which call fails. The numbers of calls are 0 for none.
#[derive(Clone, Copy)]
struct Course {
    most: usize,
    waits: u64,
    key_fails: u64,
    read_fails: u64,
    write_fails: u64,
    show_fails: u64,
}

const SMOOTH: Course = Course {
    most: 0,
    waits: 0,
    key_fails: 0,
    read_fails: 0,
    write_fails: 0,
    show_fails: 0,
};

fn script_of(alloc: Global, waits: u64, fails: u64) -> Result<Script, Fail> {
    let mut script = Script::new(alloc);
    script.waits.push(waits)?;
    script.fails.push(fails)?;
    Ok(script)
}

/// A link that gives these bytes.
fn link_of(
    alloc: Global,
    input: &[u8],
    most: usize,
    reads: Script,
    writes: Script,
) -> Result<MemoryLink, Fail>
    ensures { IfOk result (λ link. IsUntouched (⟦<MemoryLink as Link>⟧.view link)) }
{
    let mut plan = LinkPlan::new(alloc);
    plan.most_read = most;
    plan.most_written = most;
    plan.reads = reads;
    plan.writes = writes;
    Ok(MemoryLink::new(alloc, Vec::from_slice(alloc, input)?, plan))
}

/// How a talk ends in which the server writes these bytes.
fn end_of<R: Abort + Wait>(
    rt: &R,
    alloc: Global,
    replies: &[u8],
    course: Course,
) -> Result<TalkEnd, Fail> {
    let typed = script_of(alloc, course.waits, course.key_fails)?;
    let mut keys = link_of(alloc, KEYS, course.most, typed, Script::new(alloc))?;
    let reads = script_of(alloc, course.waits, course.read_fails)?;
    let writes = script_of(alloc, course.waits, course.write_fails)?;
    let mut link = link_of(alloc, replies, course.most, reads, writes)?;
    let mut out = MemorySink::new(alloc, Vec::from_slice(alloc, &[course.show_fails])?);
    Ok(talk(rt, alloc, b"u", &mut keys, &mut link, &mut out))
}

#[test]
fn a_talk_ends_as_its_keys_or_its_server_do(rt: HostRuntime) -> Result<(), Fail> {
    let rows: [(&[u8], TalkEnd); 4] = [
        (REPLIES, TalkEnd::End),
        (b"LysKOM\n=1\n", TalkEnd::ServerEnd),
        (b"LysKOM\n=2\n", TalkEnd::Broken(9)),
        (b"Lyskom\n", TalkEnd::Broken(3)),
    ];
    for (replies, end) in rows {
        for most in [0, 1, 7] {
            for waits in [0, 3] {
                let course = Course {
                    most,
                    waits,
                    ..SMOOTH
                };
                assert_eq!(rt; end_of(&rt, rt.alloc(), replies, course)?, end);
            }
        }
    }
    Ok(())
}

#[test]
fn a_talk_ends_where_a_link_fails(rt: HostRuntime) -> Result<(), Fail> {
    let unread = Course {
        read_fails: 1,
        ..SMOOTH
    };
    let unsent = Course {
        most: 1,
        write_fails: 3,
        ..SMOOTH
    };
    let unshown = Course {
        show_fails: 3,
        ..SMOOTH
    };
    let untyped = Course {
        key_fails: 2,
        ..SMOOTH
    };
    let rows = [
        (unread, TalkEnd::LinkFault),
        (unsent, TalkEnd::LinkFault),
        (unshown, TalkEnd::SinkFault),
        (untyped, TalkEnd::KeysFault),
    ];
    for (course, end) in rows {
        assert_eq!(rt; end_of(&rt, rt.alloc(), REPLIES, course)?, end);
    }
    Ok(())
}
