// What each step tells. These types are for the proofs alone.
ghost use Rattle.std.specs.Prelude.{None};
ghost use Rattle.kom_state_lock.specs.Steps.{Draws, Looks, Logs, HandsOn, Marks};
ghost use Rattle.kom_state_lock.specs.Views.{first_seat, after_split, split_off};
ghost use Rattle.kom_state_lock.specs.Views.{after_join, spent_seat, after_close, note_of};
ghost use Rattle.kom_state_lock.specs.Rule.{Rule};

use crate::booked::Booked;
use crate::views::View;
use atomic_table::{Join, Play, Seat, Shared, Split, Table, TableRule};
use std::alloc::Global;
use std::marker::{Brand, PhantomData};
use std::snapshot::Snapshot;

/// What the table is told when it is made: the opening value, and how many passes there are.
#[derive(Drop)]
pub struct Opening<B> {
    pub value: Snapshot<B>,
    pub passes: u32,
}

/// What is true of the table between any two steps.
pub struct OneHistory<B> {
    of: PhantomData<B>,
}

impl<B: Booked> TableRule<Option<B>, View<B, B::Entry>, Opening<B>> for OneHistory<B> {
    ghost holds = { λ key. Rule B.pass_of B.led key.value.value key.passes };

    ghost first = { λ _. first_seat };
}

/// What a call tells a step: the value that the hall was made with, and the entry and the value to
/// be logged.
pub trait Told<B, E> {
    ghost use Rattle.std.specs.Prelude.{Option};

    ghost opening: { Option B };

    ghost entry: { Option E };

    ghost left: { Option B };
}

impl<B, E> Told<B, E> for Brand {
    ghost opening = { None };

    ghost entry = { None };

    ghost left = { None };
}

pub struct Draw;

impl<B, E> Play<Option<B>, View<B, E>> for Draw {
    ghost then = { λ _ m found n. Draws m found n };
}

pub struct Look<N> {
    of: PhantomData<N>,
}

impl<B: Booked, N: Told<B, B::Entry>> Play<Option<B>, View<B, B::Entry>> for Look<N> {
    ghost then = { λ _ m found n. Looks B.pass_of B.led N.opening m found n };
}

pub struct Log<N> {
    of: PhantomData<N>,
}

impl<B: Booked, N: Told<B, B::Entry>> Play<Option<B>, View<B, B::Entry>> for Log<N> {
    ghost then = { λ _ m _ n. Logs N.entry N.left m n };
}

pub struct HandOn;

impl<B, E> Play<Option<B>, View<B, E>> for HandOn {
    ghost then = { λ _ m _ n. HandsOn m n };
}

/// A word to sleep on is marked.
pub struct Mark;

impl<B, E> Play<Option<B>, View<B, E>> for Mark {
    ghost then = { λ _ m _ n. Marks m n };
}

/// A new seat.
pub struct Another;

impl<B, E> Split<View<B, E>> for Another {
    ghost left = { after_split };

    ghost right = { split_off };
}

/// A note of what the last seat knows.
pub struct Note;

impl<B, E> Split<View<B, E>> for Note {
    ghost left = { after_close };

    ghost right = { note_of };
}

/// One seat takes in another.
pub struct Both;

impl<B, E> Join<View<B, E>> for Both {
    ghost both = { after_join };

    ghost spent = { spent_seat };
}

pub type Desk<B> = Table<
    Option<B>,
    View<B, <B as Booked>::Entry>,
    Opening<B>,
    OneHistory<B>,
    Global,
>;

pub type Words<B> = Shared<Option<B>, View<B, <B as Booked>::Entry>, Opening<B>, OneHistory<B>>;

pub type Place<B> = Seat<Option<B>, View<B, <B as Booked>::Entry>>;
