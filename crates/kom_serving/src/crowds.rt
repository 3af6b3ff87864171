// Serving many links of a gate at a time.
ghost use Rattle.std.specs.Prelude.{◌≡◌, []};
ghost use Rattle.kom_hub.specs.Hub.{IsEmptyHub};
ghost use Rattle.kom_links.specs.Doors.{IsNewGate};
ghost use Rattle.hall_desk.specs.Desks.{GoesOn};
ghost use Rattle.kom_serving.specs.Runs.{AllGivenBack, IsDone};
ghost use Rattle.kom_serving.specs.Serving.{Serves, KeepsFirst};

use hall_desk::{Acts, HallDesk};
use kom_hub::Hub;
use kom_links::{Clock, Link, PolledGate};
use kom_talk::Conversation;
use kom_types::Memory;
use std::alloc::Global;
use std::sync::Wait;

/// Room for the links that a worker serves at a time, of which none has come.
pub(crate) struct Room<L: Link> {
    hub: Hub<Conversation, L>,
    ghost empty: { IsEmptyHub hub },
}

impl<L: Link> Room<L> {
    /// The hub of the room, in which nobody is.
    fn into_hub(self) -> Hub<Conversation, L>
        ensures { IsEmptyHub result }
    {
        let Room { hub } = self;
        hub
    }
}

impl<L: Link> Drop for Room<L> {
    fn drop(self) {
        let Room { hub } = self;
        drop(hub);
    }
}

/// So many rooms.
pub(crate) fn open_rooms<L: Link>(alloc: Global, number: u32) -> Result<Vec<Room<L>>, Memory> {
    let mut rooms = Vec::with_capacity(alloc, number as usize)?;
    for _ in 0..number {
        let hub = Hub::new(alloc)?;
        rooms.push(Room { hub })?;
    }
    Ok(rooms)
}

/// Serves the links of a gate that has given none yet, many at a time, by a pass that has made no
/// act, until the gate ends or fails or the server is found to be stopped.
pub(crate) fn attend_many<R: Wait, B: Acts, G: PolledGate, C: Clock>(
    rt: &R,
    room: Room<G::Link>,
    desk: &mut HallDesk<'_, R, B>,
    gate: &mut G,
    clock: &mut C,
)
    requires unseen { desk.old.pass.seen ≡ [] }
    requires unused { desk.old.pass.mine ≡ [] }
    requires fresh { IsNewGate (G.view gate.old) }
    ensures on { GoesOn desk.old desk.new }
    ensures serves { Serves G.Link.view desk.new.start desk.new.pass (G.view gate.new).returned
        (C.gave clock.new) }
    ensures all_back { AllGivenBack (G.view gate.new) }
    ensures first { KeepsFirst (C.gave clock.old) (C.gave clock.new) }
    ensures done { IsDone desk.new.start desk.new.pass.seen (G.view gate.new) }
{
    let mut hub = room.into_hub();
    hub.serve(rt, desk, gate, clock);
    desk.assured();
}
