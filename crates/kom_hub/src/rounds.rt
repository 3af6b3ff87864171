ghost use Rattle.std.specs.Prelude.{◌≡◌, ◌<◌, ℕ, Option, List, length};
ghost use Rattle.kom_links.specs.DeskCalls.{DeskView};
ghost use Rattle.kom_hub.specs.Crowds.{Stands, CanGo, Carries, CarriesTo};

use crate::crowd::{give_up_at, is_over_at, leave, turn_at};
use crate::guest::{Converse, Guest, Turn};
use indexmap::IndexMap;
use kom_links::{Clock, Desk, Gate, Link};
use slab::Slab;

/// The session of the guest at a key, 0 for none.
pub fn session_at<T: Converse, L: Link>(crowd: &Slab<Guest<T, L>>, key: usize) -> u32 {
    match crowd.get(key) {
        Some(guest) => guest.place.session,
        None => 0,
    }
}

/// Whether one of the guests at some keys is to be flushed.
pub fn owe_flush<T: Converse, L: Link>(crowd: &Slab<Guest<T, L>>, keys: &[usize]) -> bool {
    for place in 0..keys.len() {
        if let Some(guest) = crowd.get(keys[place]) {
            if guest.talk.owes_flush() {
                return true;
            }
        }
    }
    false
}

/// The guests at some keys each take a turn.
pub fn turn_some<T: Converse, K: Desk, L: Link, C: Clock>(
    crowd: &mut Slab<Guest<T, L>>,
    keys: &[usize],
    turn: Turn,
    desk: &mut K,
    clock: &mut C,
    buffer: &mut [u8],
)
    requires room { 0 < length buffer.old }
    requires can { CanGo T.kept T.talks L.view (K.view desk.old) (C.gave clock.old) crowd.old }
    ensures room { 0 < length buffer.new }
    ensures stands { Carries T.kept T.talks L.view (K.view desk.old) (C.gave clock.old) crowd.old
        (K.view desk.new) (C.gave clock.new) crowd.new }
    ensures on { K.goes_on desk.old desk.new }
{
    for place in 0..keys.len() {
        turn_at(crowd, keys[place], turn, desk, clock, buffer);
    }
}

/// The guest at a key is read and makes some calls; who has a new session is found by it.
fn collect_at<T: Converse, K: Desk, L: Link, C: Clock>(
    crowd: &mut Slab<Guest<T, L>>,
    sessions: &mut IndexMap<u32, usize>,
    key: usize,
    desk: &mut K,
    clock: &mut C,
    buffer: &mut [u8],
)
    requires room { 0 < length buffer.old }
    requires can { CanGo T.kept T.talks L.view (K.view desk.old) (C.gave clock.old) crowd.old }
    ensures room { 0 < length buffer.new }
    ensures stands { Carries T.kept T.talks L.view (K.view desk.old) (C.gave clock.old) crowd.old
        (K.view desk.new) (C.gave clock.new) crowd.new }
    ensures on { K.goes_on desk.old desk.new }
{
    let had = session_at(crowd, key);
    turn_at(crowd, key, Turn::Collect, desk, clock, buffer);
    let has = session_at(crowd, key);
    if had != has {
        let _ = sessions.insert(has, key);
    }
}

/// The guests at some keys are each read and make some calls.
pub fn collect_some<T: Converse, K: Desk, L: Link, C: Clock>(
    crowd: &mut Slab<Guest<T, L>>,
    sessions: &mut IndexMap<u32, usize>,
    keys: &[usize],
    desk: &mut K,
    clock: &mut C,
    buffer: &mut [u8],
)
    requires room { 0 < length buffer.old }
    requires can { CanGo T.kept T.talks L.view (K.view desk.old) (C.gave clock.old) crowd.old }
    ensures room { 0 < length buffer.new }
    ensures stands { Carries T.kept T.talks L.view (K.view desk.old) (C.gave clock.old) crowd.old
        (K.view desk.new) (C.gave clock.new) crowd.new }
    ensures on { K.goes_on desk.old desk.new }
{
    for place in 0..keys.len() {
        collect_at(crowd, sessions, keys[place], desk, clock, buffer);
    }
}

/// The guest at a key, if there is one, is marked as listed. Returns whether it was not yet.
fn mark_at<T: Converse, L: Link>(crowd: &mut Slab<Guest<T, L>>, key: usize) -> bool
    ensures { (desk : DeskView) (gave : Option (List ℕ))
        → Carries T.kept T.talks L.view desk gave crowd.old desk gave crowd.new }
{
    let Some(guest) = crowd.get_mut(key) else {
        return false;
    };
    guest.list()
}

/// The guest at a key, if there is one, is listed for the next round.
pub fn list_at<T: Converse, L: Link>(
    crowd: &mut Slab<Guest<T, L>>,
    key: usize,
    listed: &mut Vec<usize>,
)
    ensures { (desk : DeskView) (gave : Option (List ℕ))
        → Carries T.kept T.talks L.view desk gave crowd.old desk gave crowd.new }
{
    if mark_at(crowd, key) {
        let _ = listed.push(key);
    }
}

/// Something may be there to be read for the guest at a key, if there is one.
pub fn ready_at<T: Converse, L: Link>(crowd: &mut Slab<Guest<T, L>>, key: usize)
    ensures { (desk : DeskView) (gave : Option (List ℕ))
        → Carries T.kept T.talks L.view desk gave crowd.old desk gave crowd.new }
{
    let Some(guest) = crowd.get_mut(key) else {
        return;
    };
    guest.ready();
}

/// All guests below a key give up, and are listed.
pub fn give_up_all<T: Converse, L: Link>(
    crowd: &mut Slab<Guest<T, L>>,
    keys: usize,
    listed: &mut Vec<usize>,
)
    ensures { (desk : DeskView) (gave : Option (List ℕ))
        → Carries T.kept T.talks L.view desk gave crowd.old desk gave crowd.new }
{
    for key in 0..keys {
        give_up_at(crowd, key);
        list_at(crowd, key, listed);
    }
}

/// Whether the guest at a key is over, could go on, or is to be flushed.
fn may_go_at<T: Converse, L: Link>(crowd: &Slab<Guest<T, L>>, key: usize) -> bool {
    match crowd.get(key) {
        Some(guest) => { guest.talk.is_over() || guest.talk.has_more() || guest.talk.owes_flush() }
        None => false,
    }
}

/// Lists the guest at a key if it is over, could go on, or is to be flushed.
fn list_going_at<T: Converse, L: Link>(
    crowd: &mut Slab<Guest<T, L>>,
    key: usize,
    listed: &mut Vec<usize>,
)
    ensures { (desk : DeskView) (gave : Option (List ℕ))
        → Carries T.kept T.talks L.view desk gave crowd.old desk gave crowd.new }
{
    if may_go_at(crowd, key) {
        list_at(crowd, key, listed);
    }
}

/// All guests below a key that are over, could go on, or are to be flushed, are listed.
pub fn list_going<T: Converse, L: Link>(
    crowd: &mut Slab<Guest<T, L>>,
    keys: usize,
    listed: &mut Vec<usize>,
)
    ensures { (desk : DeskView) (gave : Option (List ℕ))
        → Carries T.kept T.talks L.view desk gave crowd.old desk gave crowd.new }
{
    for key in 0..keys {
        list_going_at(crowd, key, listed);
    }
}

/// Whether the link of the guest at a key may have been silent, or taken nothing, for too long.
fn is_silent_at<T: Converse, L: Link>(crowd: &Slab<Guest<T, L>>, key: usize) -> bool {
    match crowd.get(key) {
        Some(guest) => guest.place.session == 0 || guest.talk.has_unwritten(),
        None => false,
    }
}

/// Lists the guest at a key if its link may have been silent, or taken nothing, for too long.
fn list_silent_at<T: Converse, L: Link>(
    crowd: &mut Slab<Guest<T, L>>,
    key: usize,
    all: bool,
    listed: &mut Vec<usize>,
)
    ensures { (desk : DeskView) (gave : Option (List ℕ))
        → Carries T.kept T.talks L.view desk gave crowd.old desk gave crowd.new }
{
    let is_silent = is_silent_at(crowd, key);
    if !all && !is_silent {
        return;
    }
    ready_at(crowd, key);
    list_at(crowd, key, listed);
}

/// Lists all below a key, or those whose links may have been silent or taken nothing for long.
pub fn list_silent<T: Converse, L: Link>(
    crowd: &mut Slab<Guest<T, L>>,
    keys: usize,
    all: bool,
    listed: &mut Vec<usize>,
)
    ensures { (desk : DeskView) (gave : Option (List ℕ))
        → Carries T.kept T.talks L.view desk gave crowd.old desk gave crowd.new }
{
    for key in 0..keys {
        list_silent_at(crowd, key, all, listed);
    }
}

/// The turn of the guest at a key is over. Returns whether it has one in the next round.
fn rest_at<T: Converse, L: Link>(crowd: &mut Slab<Guest<T, L>>, key: usize) -> bool
    ensures { (desk : DeskView) (gave : Option (List ℕ))
        → Carries T.kept T.talks L.view desk gave crowd.old desk gave crowd.new }
{
    let Some(guest) = crowd.get_mut(key) else {
        return false;
    };
    guest.rest()
}

/// The guest at a key leaves if it is over, and its link is given back. It is listed where it has
/// more to do. Returns whether it left.
fn go_on_at<T: Converse, K: Desk, G: Gate, C: Clock>(
    crowd: &mut Slab<Guest<T, G::Link>>,
    sessions: &mut IndexMap<u32, usize>,
    key: usize,
    listed: &mut Vec<usize>,
    desk: &mut K,
    gate: &mut G,
    clock: &mut C,
) -> bool
    requires can { CanGo T.kept T.talks G.Link.view (K.view desk.old) (C.gave clock.old)
        crowd.old }
    ensures stands { CarriesTo T.kept T.talks G.Link.view (K.view desk.old) (C.gave clock.old)
        crowd.old (G.view gate.old) (K.view desk.new) (C.gave clock.new) crowd.new
        (G.view gate.new) }
    ensures ended { (G.view gate.new).ended ≡ (G.view gate.old).ended }
    ensures on { K.goes_on desk.old desk.new }
{
    if is_over_at(crowd, key) {
        let session = session_at(crowd, key);
        let _ = sessions.swap_remove(&session);
        leave(crowd, key, desk, gate, clock);
        return true;
    }
    if rest_at(crowd, key) {
        let _ = listed.push(key);
    }
    false
}

/// The guests at some keys leave where they are over, and are listed where they have more to do.
/// Returns whether one left.
pub fn go_on_some<T: Converse, K: Desk, G: Gate, C: Clock>(
    crowd: &mut Slab<Guest<T, G::Link>>,
    sessions: &mut IndexMap<u32, usize>,
    keys: &[usize],
    listed: &mut Vec<usize>,
    desk: &mut K,
    gate: &mut G,
    clock: &mut C,
) -> bool
    requires can { (begun : Option (List ℕ)) × Stands T.kept T.talks G.Link.view begun
        (K.view desk.old) (C.gave clock.old) crowd.old (G.view gate.old) }
    ensures stands { CarriesTo T.kept T.talks G.Link.view (K.view desk.old) (C.gave clock.old)
        crowd.old (G.view gate.old) (K.view desk.new) (C.gave clock.new) crowd.new
        (G.view gate.new) }
    ensures ended { (G.view gate.new).ended ≡ (G.view gate.old).ended }
    ensures on { K.goes_on desk.old desk.new }
{
    let mut has_left = false;
    for place in 0..keys.len() {
        let leaves = go_on_at(crowd, sessions, keys[place], listed, desk, gate, clock);
        has_left = leaves || has_left;
    }
    has_left
}
