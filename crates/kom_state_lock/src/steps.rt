// The steps of a turn, each by one seat of the table.
ghost use Rattle.std.specs.Prelude.{◌≡◌, ◌≢◌, ℕ, ◌<◌, ◌≤◌, ◌+◌, ◌^◌, true, false, [], ◌∷◌};
ghost use Rattle.std.specs.Prelude.{Some, None, MatchResult};
ghost use Rattle.kom_state_lock.specs.declared.views.Turn.TheVariants.{Resting, Waiting};
ghost use Rattle.kom_state_lock.specs.Views.{after_draw, after_log, after_hand_on};
ghost use Rattle.kom_state_lock.specs.Steps.{Draws, Takes, IsSameSeat, IsSeatOf, TakesAll};
ghost use Rattle.kom_state_lock.specs.Passes.{MayLog, MayPut};

use crate::booked::Booked;
use crate::plays::{Draw, HandOn, Log, Look, Mark, Place, Told, Words};
use std::hint;
use std::marker::Brand;
use std::sync::Wait;

/// The words of the table. Those that count lie 64 bytes apart: each has a cache line of its own.
pub(crate) const WORDS: usize = 152;

const TICKET: usize = 0;

const SERVING: usize = 8;

const HISTORY: usize = 16;

// From here on lie the words to sleep on, each for every 128th ticket. At most 65 tickets are in
// line, so that those in line at one time sleep on different words.
const BEDS: usize = 24;

const BED_COUNT: u64 = 128;

// Whether somebody sleeps on a word, or is about to.
const AWAKE: u64 = 0;

const ASLEEP: u64 = 1;

// The tickets below it have turns.
const TURNS: u64 = 1 << 62;

// A seat looks so often before it sleeps, which takes about as long as to sleep and be woken. Where
// more than NEAR tickets are before its own, it sleeps at once.
const LOOKS: u32 = 1000;

const NEAR: u64 = 3;

fn draw<B: Booked>(words: &Words<B>, seat: &mut Place<B>) -> u64
    requires table { IsSeatOf words.now.table_id seat.old }
    requires free { seat.old.me.0.turn ≡ Resting }
    ensures seat { IsSameSeat seat.old seat.new }
    ensures drawn { Draws seat.old.me result seat.new.me }
{
    words.fetch_add::<Draw>(seat, TICKET, 1)
}

// The word that the pass with the ticket sleeps on.
fn bed(ticket: u64) -> usize
    ensures { (24 ≤ result) × (result < 152) }
{
    BEDS + (ticket % BED_COUNT) as usize
}

// Which ticket is served. If it is this one, the slot is taken with the value in it.
fn look<B: Booked, N: Told<B, B::Entry>>(words: &Words<B>, seat: &mut Place<B>, ticket: u64) -> u64
    requires table { IsSeatOf words.now.table_id seat.old }
    requires told { N.opening ≡ Some words.now.key.value.value }
    requires drawn { (seat.old.me.0.turn ≡ Waiting ticket) × (ticket < 2 ^ 62) }
    ensures seat { IsSameSeat seat.old seat.new }
    ensures other { result ≢ ticket → seat.new.me ≡ seat.old.me }
    ensures taken { result ≡ ticket
        → Takes B.pass_of B.led words.now.key.value.value ticket seat.old.me seat.new.me }
{
    words.load::<Look<N>>(seat, SERVING)
}

// Looks while the turn is near, without sleeping. Whether it came.
fn watch<B: Booked, N: Told<B, B::Entry>>(
    words: &Words<B>,
    seat: &mut Place<B>,
    ticket: u64,
) -> bool
    requires table { IsSeatOf words.now.table_id seat.old }
    requires told { N.opening ≡ Some words.now.key.value.value }
    requires drawn { (seat.old.me.0.turn ≡ Waiting ticket) × (ticket < 2 ^ 62) }
    ensures seat { IsSameSeat seat.old seat.new }
    ensures other { result ≡ false → seat.new.me ≡ seat.old.me }
    ensures taken { result ≡ true
        → Takes B.pass_of B.led words.now.key.value.value ticket seat.old.me seat.new.me }
{
    for _ in 0..LOOKS {
        let serving = look::<B, N>(words, seat, ticket);
        if serving == ticket {
            return true;
        }
        if ticket.wrapping_sub(serving) > NEAR {
            return false;
        }
        hint::spin_loop();
    }
    false
}

fn mark<B: Booked>(words: &Words<B>, seat: &mut Place<B>, ticket: u64, sleep: u64) -> u64
    requires table { IsSeatOf words.now.table_id seat.old }
    ensures seat { IsSameSeat seat.old seat.new }
    ensures same { seat.new.me ≡ seat.old.me }
{
    words.swap::<Mark>(seat, bed(ticket), sleep)
}

// Waits until the ticket is served, and takes the slot with the value in it.
fn wait_turn<B: Booked, N: Told<B, B::Entry>, R: Wait>(
    rt: &R,
    words: &Words<B>,
    seat: &mut Place<B>,
    ticket: u64,
)
    requires table { IsSeatOf words.now.table_id seat.old }
    requires told { N.opening ≡ Some words.now.key.value.value }
    requires drawn { (seat.old.me.0.turn ≡ Waiting ticket) × (ticket < 2 ^ 62) }
    ensures seat { IsSameSeat seat.old seat.new }
    ensures taken { Takes B.pass_of B.led words.now.key.value.value ticket seat.old.me seat.new.me }
{
    if watch::<B, N>(words, seat, ticket) {
        return;
    }
    for _ in rt.forever() {
        let _ = mark(words, seat, ticket, ASLEEP);
        // Whoever serves the ticket after this look finds the mark.
        if look::<B, N>(words, seat, ticket) == ticket {
            return;
        }
        words.park(rt, bed(ticket), ASLEEP as u32);
        if look::<B, N>(words, seat, ticket) == ticket {
            return;
        }
    }
    unreachable!()
}

// Wakes the pass with the ticket, if it sleeps.
fn wake<B: Booked>(words: &Words<B>, seat: &mut Place<B>, ticket: u64)
    requires table { IsSeatOf words.now.table_id seat.old }
    ensures seat { IsSameSeat seat.old seat.new }
    ensures same { seat.new.me ≡ seat.old.me }
{
    if words.peek(bed(ticket)) == ASLEEP && mark(words, seat, ticket, AWAKE) == ASLEEP {
        words.wake_one(bed(ticket));
    }
}

// Takes a turn, or gives the ticket that has none.
pub(crate) fn take_turn<B: Booked, R: Wait>(
    rt: &R,
    words: &Words<B>,
    seat: &mut Place<B>,
) -> Result<B, u64>
    requires table { IsSeatOf words.now.table_id seat.old }
    requires free { (seat.old.me.0.turn ≡ Resting) × (seat.old.me.1 ≡ []) }
    ensures seat { IsSameSeat seat.old seat.new }
    ensures turn { MatchResult result
        (λ value. TakesAll B.pass_of B.led words.now.key.value.value seat.old.me.0 value
        seat.new.me)
        (λ ticket. (2 ^ 62 ≤ ticket) × (seat.old.me.0.drawn ≤ ticket)
        × (seat.new.me ≡ (after_draw ticket seat.old.me.0, []))) }
{
    let ticket = draw(words, seat);
    if ticket >= TURNS {
        return Err(ticket);
    }
    wait_turn::<B, Brand, R>(rt, words, seat, ticket);
    Ok(words.exchange(seat, 0, None).unwrap())
}

// Makes the entry the last one of the history.
pub(crate) fn write_entry<B: Booked, N: Told<B, B::Entry>>(
    words: &Words<B>,
    seat: &mut Place<B>,
    entry: &B::Entry,
    value: &B,
)
    requires table { IsSeatOf words.now.table_id seat.old }
    requires told { (N.entry ≡ Some entry.now) × (N.left ≡ Some value.now) }
    requires follows { MayLog B.follows seat.old.me.0.turn entry.now value.now }
    requires own { B.pass_of entry.now ≡ seat.old.me.0.number }
    ensures seat { IsSameSeat seat.old seat.new }
    ensures logged { seat.new.me ≡ (after_log entry.now value.now seat.old.me.0, seat.old.me.1) }
{
    let _ = entry;
    let _ = value;
    words.fetch_add::<Log<N>>(seat, HISTORY, 1);
}

// Puts the value into the slot, and gives the slot back.
pub(crate) fn hand_on<B: Booked>(words: &Words<B>, seat: &mut Place<B>, value: B)
    requires table { IsSeatOf words.now.table_id seat.old }
    requires value { MayPut B.stays seat.old.me.0.turn value }
    requires carries { seat.old.me.1 ≡ (0, None) ∷ [] }
    ensures seat { IsSameSeat seat.old seat.new }
    ensures handed { seat.new.me ≡ (after_hand_on seat.old.me.0, []) }
{
    match words.exchange(seat, 0, Some(value)) {
        None => {}
        Some(_) => unreachable!(),
    }
    let served = words.fetch_add::<HandOn>(seat, SERVING, 1);
    // The next in line marks its word and then looks at SERVING once more. With SERVING written
    // first here, either that look sees the turn, or the mark is seen here. Who draws the next
    // ticket after the look at TICKET sees the turn too.
    let next = served.wrapping_add(1);
    if words.peek(TICKET) != next {
        wake(words, seat, next);
    }
}
