ghost use Rattle.std.specs.Prelude.{◌≡◌, ◌==◌, List, [], ◌∷◌, IfOk, IfErr, false, Some, None};
ghost use Rattle.std.specs.Prelude.{if◌then◌else◌};
ghost use Rattle.kom_links.specs.Records.{IsOpen};
ghost use Rattle.kom_sweep.specs.declared.ends.Cut.TheVariants as cut;
ghost use Rattle.kom_sweep.specs.Told.{Told, reply_of, reply_in, next_reference, IsAbout, tell};
ghost use Rattle.kom_sweep.specs.Acting.{sight, Goes, Breaks};
ghost use Rattle.kom_sweep.specs.Replies.{is_short};

use crate::ends::Cut;
use crate::replies::is_short;
use arrayvec::ArrayVec;
use kom_links::{Clock, Desk};
use kom_types::{Call, Item, Reply};

/// The calls of one session of a desk, each flushed and drained before the next.
#[derive(Drop)]
pub(crate) struct Talk {
    /// The reference of the next call.
    pub next: u32,
    items: ArrayVec<Item, 64>,
}

impl Talk {
    /// The first call has reference 1.
    pub(crate) fn new() -> Talk
        ensures { result.next ≡ 1 }
    {
        Talk {
            next: 1,
            items: ArrayVec::new(),
        }
    }

    /// Makes a call, and returns its reply, if the drain after it gave one. Where the reply is that
    /// memory ran out, nothing goes on.
    pub(crate) fn ask<K: Desk, C: Clock>(
        &mut self,
        desk: &mut K,
        clock: &mut C,
        session: u32,
        call: Call,
    ) -> Result<Option<Reply>, Cut>
        requires { IsOpen session (K.view desk.old).mine }
        ensures ok { IfOk result (λ reply. Goes session
            (sight (K.view desk.old) (C.gave clock.old) self.old.next)
            (sight (K.view desk.new) (C.gave clock.new) self.new.next) (tell call reply ∷ [])) }
        ensures err { IfErr result (λ cut. (calls : List Told) × IsAbout call calls
            × Breaks session (sight (K.view desk.old) (C.gave clock.old) self.old.next)
            (sight (K.view desk.new) (C.gave clock.new) self.new.next) calls cut) }
        ensures open { IsOpen session (K.view desk.new).mine }
        ensures on { K.goes_on desk.old desk.new }
    {
        let reference = self.next;
        self.next = following(reference);
        if let Err(fault) = desk.call(clock.now(), session, reference, call) {
            return Err(Cut::Desk(fault));
        }
        if let Err(fault) = desk.flush(clock.now()) {
            return Err(Cut::Desk(fault));
        }
        if let Err(fault) = desk.drain_into(clock.now(), session, &mut self.items) {
            return Err(Cut::Desk(fault));
        }
        unless_short(take_reply(&mut self.items, reference))
    }
}

/// The reference of the call after that of this one.
fn following(reference: u32) -> u32
    ensures { result ≡ next_reference reference }
{
    if reference == u32::MAX {
        1
    } else {
        reference + 1
    }
}

/// Takes the reply to the call of a reference from what was given, if it is there.
#[tactic(auto, using(crate::proofs::Replying::reply_in_push))]
fn take_reply(items: &mut ArrayVec<Item, 64>, reference: u32) -> Option<Reply>
    ensures { result ≡ reply_in reference items.old.items }
{
    while let Some(item) = items.pop() {
        if let Some(reply) = reply_of(reference, item) {
            return Some(reply);
        }
    }
    None
}

/// The reply to the call of a reference, if the item is that.
fn reply_of(reference: u32, item: Item) -> Option<Reply>
    ensures { result ≡ reply_of reference item }
{
    match item {
        Item::Reply {
            reference: given,
            body,
        } => if_equal(given, reference, body),
        _ => None,
    }
}

/// A reply, if two references are equal.
fn if_equal(given: u32, reference: u32, body: Reply) -> Option<Reply>
    ensures { result ≡ (if given == reference then Some body else None) }
{
    if given == reference {
        return Some(body);
    }
    None
}

/// A reply, unless it says that memory ran out.
fn unless_short(reply: Option<Reply>) -> Result<Option<Reply>, Cut>
    ensures ok { IfOk result (λ given. (given ≡ reply) × (is_short given ≡ false)) }
    ensures err { IfErr result (λ why. why ≡ cut.Memory) }
{
    if is_short(&reply) {
        return Err(Cut::Memory);
    }
    Ok(reply)
}
