ghost use Rattle.std.specs.Prelude.{◌≡◌, ◌+◌, ◌<◌, ◌≤◌, ◌^◌, codes, IfOk, OnOk, Contains};
ghost use Rattle.kom_types.specs.declared.acts.Act.TheVariants as act;
ghost use Rattle.kom_types.specs.declared.items.Item.TheVariants as kind;
ghost use Rattle.kom_model.specs.After.{session_in, HasUser};
ghost use Rattle.kom_model.specs.Out.{taken_by};
ghost use Rattle.kom_load.specs.Loading.{lone_act, flush_drain, connect_one, call_once, reply_at};
ghost use Rattle.kom_load.specs.Steps.{Leads, AreBefore, taken_at};

use arrayvec::ArrayVec;
use kom_core::Core;
use kom_state::Unkept;
use kom_types::{Act, Bytes, Call, Entry, Item, Memory, Moment, Reply};
use std::alloc::Global;

/// The session that makes the calls of a run: the first of its server.
const SESSION: u32 = 1;

/// Connects the session, which is to be the first of its server, and takes its greeting.
pub(crate) fn greet(
    core: &mut Core,
    items: &mut ArrayVec<Item, 64>,
    alloc: Global,
) -> Result<(), Memory>
    requires first { core.old.state.connects ≡ 0 }
    requires room { core.old.state.entries + 2 < 2 ^ 62 }
    ensures greeted { OnOk result (Leads core.old.state connect_one core.new.state) }
    ensures counted { core.new.state.entries ≤ core.old.state.entries + 3 }
{
    let user = Bytes::copy_of(alloc, b"load")?;
    let host = Bytes::copy_of(alloc, b"memory")?;
    make(core, 0, Act::Connect { user, host }, items)?;
    drain(core, 0, items)?;
    Ok(())
}

/// Makes a call of the session, and hands out its reply.
pub(crate) fn make_call(
    core: &mut Core,
    index: u32,
    call: Call,
    items: &mut ArrayVec<Item, 64>,
) -> Result<Reply, Memory>
    requires before { AreBefore index core.old.state }
    requires room { core.old.state.entries + 2 < 2 ^ 62 }
    ensures called { OnOk result (Leads core.old.state (call_once index call) core.new.state) }
    ensures reply { IfOk result (λ reply. reply ≡ reply_at core.old.state index call) }
    ensures before { OnOk result (AreBefore (index + 1) core.new.state) }
    ensures counted { core.new.state.entries ≤ core.old.state.entries + 3 }
{
    let act = Act::Call {
        session: SESSION,
        reference: index,
        call,
    };
    make(core, index, act, items)?;
    drain(core, index, items)?;
    let reply = reply_in(items, index)?;
    Ok(reply)
}

/// Makes what was done stable, and takes what waits for the session.
fn drain(core: &mut Core, moment: u32, items: &mut ArrayVec<Item, 64>) -> Result<(), Memory>
    requires room { core.old.state.entries + 1 < 2 ^ 62 }
    ensures drained { OnOk result (Leads core.old.state (flush_drain moment) core.new.state) }
    ensures given { OnOk result (items.new.items ≡ taken_at moment core.old.state) }
    ensures counted { core.new.state.entries ≤ core.old.state.entries + 2 }
{
    make(core, moment, Act::Flush, items)?;
    make(core, moment, Act::Drain { session: SESSION }, items)?;
    Ok(())
}

/// Makes an act. It answers so where memory did not suffice for it, and also where it was refused.
fn make(
    core: &mut Core,
    moment: u32,
    act: Act,
    items: &mut ArrayVec<Item, 64>,
) -> Result<(), Memory>
    requires user { HasUser act }
    requires room { core.old.state.entries < 2 ^ 62 }
    ensures made { OnOk result (Leads core.old.state
        (lone_act moment (session_in core.old.state act) act) core.new.state) }
    ensures given { OnOk result (items.new.items ≡ taken_by core.old.state act) }
    ensures counted { core.new.state.entries ≤ core.old.state.entries + 1 }
{
    let entry = Entry {
        pass: 0,
        moment: moment_of(moment),
        act,
    };
    let Ok(made) = core.make_kept(&entry, items, &mut Unkept) else {
        return Err(Memory);
    };
    if made.is_short() {
        return Err(Memory);
    }
    Ok(())
}

/// The moment of a number of seconds.
fn moment_of(seconds: u32) -> Moment
    ensures { result ≡ seconds }
{
    Moment::at_most(u64::from(seconds))
}

/// The last of some items, if it is the reply of this reference.
fn reply_in(items: &mut ArrayVec<Item, 64>, reference: u32) -> Result<Reply, Memory>
    ensures { IfOk result (λ reply. Contains items.old.items (kind.Reply reference reply)) }
{
    match items.pop() {
        Some(item) => reply_of(item, reference),
        None => Err(Memory),
    }
}

/// The reply that an item is, if it has this reference.
fn reply_of(item: Item, reference: u32) -> Result<Reply, Memory>
    ensures { IfOk result (λ reply. item ≡ kind.Reply reference reply) }
{
    match item {
        Item::Reply {
            reference: given,
            body,
        } => {
            if given == reference {
                Ok(body)
            } else {
                drop(body);
                Err(Memory)
            }
        }
        other => {
            drop(other);
            Err(Memory)
        }
    }
}
