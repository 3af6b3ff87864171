//! A value that threads change in turns, and one history of its changes.
//!
//! A `Hall` keeps the value. The holder of a `Pass` waits for its turn with `take`, works on the
//! value that it holds, tells by `log` which entry led from the value that it took to the one that
//! it has, and gives it back with `put`. Turns are served in the order in which their tickets were
//! drawn. The history exists for the proofs alone: each entry stands in it once, at the turn in
//! which it was logged, and leads from the value before to the value after. What an entry means is
//! the caller's, by `Booked`.
//!
//! With nobody waiting, a turn is two atomic additions (three where it is logged) and two atomic
//! loads, and takes no memory. It moves the value out of its slot and back,
//! `size_of::<Option<B>>()` bytes each time. Keep what grows in a `Box` or in a `Vec`, and a turn
//! costs as much for a large state as for a small one.
//!
//! A pass that has more than three tickets before its own, or has looked for its turn a thousand
//! times, sleeps on a word of its ticket. `put` wakes the next in line and nobody else. For this a
//! hall has 1,216 bytes of words beside its value.
#![tactic(auto)]

mod booked;
mod closing;
mod crossing;
mod dealing;
mod hall;
mod held;
mod pass;
mod plays;
mod steps;
mod views;

pub use booked::Booked;
pub use hall::{Full, Hall, Memory};
pub use held::Held;
pub use pass::Pass;
