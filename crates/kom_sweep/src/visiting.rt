//! The walk over the conferences and letterboxes.
ghost use Rattle.std.specs.Prelude.{◌≡◌, ◌&&◌, List, Option, [], ◌∷◌, IfOk, IfErr, true};
ghost use Rattle.kom_types.specs.declared.calls.Call.TheVariants as call;
ghost use Rattle.kom_types.specs.declared.replies.Reply.{Reply as Body};
ghost use Rattle.kom_links.specs.Records.{IsOpen};
ghost use Rattle.kom_sweep.specs.Told.{Told, tell, only_asks};
ghost use Rattle.kom_sweep.specs.Replies.{number_in};
ghost use Rattle.kom_sweep.specs.Acting.{sight, Goes, Breaks};
ghost use Rattle.kom_sweep.specs.Due.{Walk, Room, is_whole};
ghost use Rattle.kom_sweep.specs.Walks.{IsRoomWalk, told_rooms, told_room};
ghost use Rattle.kom_sweep.specs.Names.{Knows, KnowsMore, LearnsOwner};

use crate::ends::Cut;
use crate::names::Names;
use crate::replies::{conference_in, next_in, person_in};
use crate::talk::Talk;
use kom_links::{Clock, Desk};
use kom_types::Call;
use kom_types::bits::is_letterbox;
use std::alloc::Global;

/// Walks over all conferences and letterboxes, and returns what is to be kept of what they tell.
pub(crate) fn ask_names<K: Desk, C: Clock>(
    alloc: Global,
    talk: &mut Talk,
    desk: &mut K,
    clock: &mut C,
    session: u32,
) -> Result<Names, Cut>
    requires { IsOpen session (K.view desk.old).mine }
    ensures ok { IfOk result (λ kept. (rooms : Walk Room) × IsRoomWalk rooms
        × Goes session (sight (K.view desk.old) (C.gave clock.old) talk.old.next)
        (sight (K.view desk.new) (C.gave clock.new) talk.new.next) (told_rooms rooms)
        × Knows rooms.steps (is_whole rooms) kept) }
    ensures err { IfErr result (λ cut. (calls : List Told) × (only_asks calls ≡ true)
        × Breaks session (sight (K.view desk.old) (C.gave clock.old) talk.old.next)
        (sight (K.view desk.new) (C.gave clock.new) talk.new.next) calls cut) }
    ensures open { IsOpen session (K.view desk.new).mine }
    ensures on { K.goes_on desk.old desk.new }
{
    let mut names = Names::new(alloc);
    let mut at = 0;
    'rooms: loop {
        let call = Call::FindNextConfNo { start: at };
        let next = next_in(talk.ask(desk, clock, session, call)?, at);
        let Some(number) = next.number else {
            names.whole = both(names.whole, next.is_last);
            return Ok(names);
        };
        ask_room(talk, desk, clock, session, &mut names, number)?;
        at = number;
    }
}

/// Whether both are so.
fn both(one: bool, other: bool) -> bool
    ensures { result ≡ (one && other) }
{
    one && other
}

/// Asks about a conference, and, if it is a letterbox, about its person.
fn ask_room<K: Desk, C: Clock>(
    talk: &mut Talk,
    desk: &mut K,
    clock: &mut C,
    session: u32,
    names: &mut Names,
    number: u32,
) -> Result<(), Cut>
    requires { IsOpen session (K.view desk.old).mine }
    ensures ok { IfOk result (λ done. (room : Room)
        × Goes session (sight (K.view desk.old) (C.gave clock.old) talk.old.next)
        (sight (K.view desk.new) (C.gave clock.new) talk.new.next) (told_room number room)
        × KnowsMore number room names.old names.new) }
    ensures err { IfErr result (λ cut. (calls : List Told) × (only_asks calls ≡ true)
        × Breaks session (sight (K.view desk.old) (C.gave clock.old) talk.old.next)
        (sight (K.view desk.new) (C.gave clock.new) talk.new.next) calls cut) }
    ensures open { IsOpen session (K.view desk.new).mine }
    ensures on { K.goes_on desk.old desk.new }
{
    let call = Call::GetConfStat { conference: number };
    let Some(conference) = conference_in(talk.ask(desk, clock, session, call)?) else {
        names.whole = false;
        return Ok(());
    };
    names.note_conference(number, conference.get())?;
    if is_letterbox(conference.get().kind) {
        ask_owner(talk, desk, clock, session, names, number)?;
        Ok(())
    } else {
        Ok(())
    }
}

/// Asks about a person.
fn ask_owner<K: Desk, C: Clock>(
    talk: &mut Talk,
    desk: &mut K,
    clock: &mut C,
    session: u32,
    names: &mut Names,
    person: u32,
) -> Result<(), Cut>
    requires { IsOpen session (K.view desk.old).mine }
    ensures ok { IfOk result (λ done. (owner : Option Body)
        × Goes session (sight (K.view desk.old) (C.gave clock.old) talk.old.next)
        (sight (K.view desk.new) (C.gave clock.new) talk.new.next)
        (tell (call.GetPersonStat person) owner ∷ [])
        × LearnsOwner owner names.old names.new) }
    ensures err { IfErr result (λ cut. (calls : List Told) × (only_asks calls ≡ true)
        × Breaks session (sight (K.view desk.old) (C.gave clock.old) talk.old.next)
        (sight (K.view desk.new) (C.gave clock.new) talk.new.next) calls cut) }
    ensures open { IsOpen session (K.view desk.new).mine }
    ensures on { K.goes_on desk.old desk.new }
{
    let call = Call::GetPersonStat { person };
    let Some(owner) = person_in(talk.ask(desk, clock, session, call)?) else {
        names.whole = false;
        return Ok(());
    };
    names.note_person(owner.get())?;
    Ok(())
}
