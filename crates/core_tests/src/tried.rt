//! A core that is tried: what its sessions ask are lines of the protocol, and so is what they are
//! sent.
ghost use Rattle.std.specs.Prelude.{◌≡◌, ◌<◌, ◌≤◌, ◌^◌, OnOk, IfOk};
ghost use Rattle.kom_model.specs.Legal.{HasUser};

use arrayvec::ArrayVec;
use kom_calls::read_call;
use kom_core::Core;
use kom_framing::{Line, Splitter, Unit, Writer};
use kom_replies::print_item;
use kom_state::Unkept;
use kom_types::{Act, Answer, Bytes, Call, Entry, Item, Memory, Moment, NotMade, Why};
use std::alloc::Global;
use std::process::Abort;
use std::test::Fail;

/// What an act came to: it was made, with this session in its record, or it was not, for this.
pub(crate) type Came = Result<u32, NotMade>;

/// A new core whose administrator has the empty password, and how many acts were handed to it.
#[derive(Drop)]
pub(crate) struct Tried {
    pub(crate) core: Core,
    acts: u32,
    ghost counted: { core.state.entries ≤ acts },
}

impl Tried {
    /// No act was handed to it yet.
    pub(crate) fn new(alloc: Global) -> Result<Tried, Memory> {
        let core = Core::fresh(alloc, b"", Moment::at_most(0))?;
        Ok(Tried { core, acts: 0 })
    }

    /// Whether the server was shut down.
    pub(crate) fn is_stopped(&self) -> bool {
        self.core.stopped()
    }

    /// Counts one act more.
    pub(crate) fn count(&mut self) -> Result<(), Memory>
        ensures counted { OnOk result (self.new.core.state.entries < self.new.acts) }
        ensures room { OnOk result (self.new.core.state.entries < 2 ^ 62) }
    {
        self.acts = self.acts.checked_add(1).ok_or(Memory)?;
        Ok(())
    }

    /// Connects a session.
    pub(crate) fn connect(&mut self, alloc: Global) -> Result<Came, Memory> {
        self.count()?;
        let user = Bytes::copy_of(alloc, b"ceder")?;
        let host = Bytes::copy_of(alloc, b"h")?;
        match self.core.act(entry_of(Act::Connect { user, host }))? {
            Answer::Connected(number) => Ok(Ok(number)),
            Answer::Gone(why) => Ok(gone(why)),
            Answer::Full(number) => Ok(Err(NotMade::Full(number))),
            Answer::Taken => Err(Memory),
            Answer::Items(items) => {
                drop(items);
                Err(Memory)
            }
        }
    }

    /// Makes an act, and leaves the items that a drain takes in an array.
    pub(crate) fn make(&mut self, act: Act, items: &mut ArrayVec<Item, 64>) -> Result<Came, Memory>
        requires { HasUser act }
    {
        self.count()?;
        match self.core.make_kept(&entry_of(act), items, &mut Unkept) {
            Ok(made) => Ok(Ok(made.session())),
            Err(why) => Ok(Err(why)),
        }
    }
}

/// The entry of an act of pass 3 at moment 0.
pub(crate) fn entry_of(act: Act) -> Entry
    ensures { result.act ≡ act }
{
    Entry {
        pass: 3,
        moment: Moment::at_most(0),
        act,
    }
}

/// The session, or the server, is gone.
pub(crate) fn gone(why: Why) -> Came {
    Err(NotMade::Gone(why))
}

/// The act of a session that makes the call of a line.
pub(crate) fn call_of(alloc: Global, session: u32, line: &[u8]) -> Result<Act, Fail>
    ensures { IfOk result HasUser }
{
    let line = line_of(alloc, line)?;
    let (reference, call) = read_call(alloc, &line)?;
    Ok(Act::Call {
        session,
        reference,
        call,
    })
}

/// These bytes as the line of a stream that follows its greeting.
fn line_of(alloc: Global, line: &[u8]) -> Result<Line, Fail> {
    let mut splitter = Splitter::new(alloc);
    splitter.feed(b"A1Ha\n")?;
    splitter.feed(line)?;
    drop(splitter.next_unit());
    match splitter.next_unit() {
        Some(Unit::Line(line)) => Ok(line),
        _ => Err(Memory.into()),
    }
}

/// A session, the line by which it makes a call, and what it is sent after a flush. With an empty
/// line it is only drained.
pub(crate) type Step = (u32, &'static [u8], &'static [u8]);

/// The steps are made in turn.
pub(crate) fn check_steps(
    rt: &impl Abort,
    alloc: Global,
    tried: &mut Tried,
    steps: &[Step],
) -> Result<(), Fail> {
    for (session, line, sent) in steps {
        if !line.is_empty() {
            let call = call_of(alloc, *session, *line)?;
            check_made(rt, tried, call, Ok(*session))?;
            check_made(rt, tried, Act::Flush, Ok(0))?;
        }
        check_drained(rt, alloc, tried, *session, *sent)?;
    }
    Ok(())
}

/// The act comes to this.
pub(crate) fn check_made(
    rt: &impl Abort,
    tried: &mut Tried,
    act: Act,
    came: Came,
) -> Result<(), Fail>
    requires { HasUser act }
{
    let mut items = ArrayVec::new();
    assert_eq!(rt; tried.make(act, &mut items)?, came);
    Ok(())
}

/// The items that a session takes print to these lines.
fn check_drained(
    rt: &impl Abort,
    alloc: Global,
    tried: &mut Tried,
    session: u32,
    lines: &[u8],
) -> Result<(), Fail> {
    let mut items = ArrayVec::new();
    assert_eq!(rt;
        tried.make(Act::Drain { session }, &mut items)?,
        Ok(session)
    );
    check_printed(rt, alloc, items.as_slice(), lines)
}

/// The items print to these lines.
fn check_printed(rt: &impl Abort, alloc: Global, items: &[Item], lines: &[u8]) -> Result<(), Fail> {
    let mut out = Writer::new(alloc);
    for item in items {
        print_item(item, &mut out)?;
    }
    assert_eq!(rt; out.bytes(), lines);
    Ok(())
}
