//! Many links over one desk: a worker serves a crowd of guests in rounds, with one flush for all.
#![tactic(auto)]

mod crowd;
mod guest;
mod hub;
mod law;
mod news;
mod place;
mod rounds;
mod seat;

pub use crowd::{
    MOST_GUESTS, admit, ask_for, flush_for, give_up_at, is_over_at, leave, tell_all, tell_at,
    tell_some, turn_at,
};
pub use guest::{Converse, Guest, Turn};
pub use hub::{Hub, HubEnd};
pub use law::{whole_steps, whole_talk};
pub use news::News;
pub use place::Place;
pub use rounds::{
    collect_some, give_up_all, go_on_some, list_at, list_going, list_silent, owe_flush, ready_at,
    session_at, turn_some,
};
pub use seat::Seat;
