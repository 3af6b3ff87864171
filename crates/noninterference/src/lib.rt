//! Noninterference: what it means that two histories are the same to a group of persons but for
//! what the rights hide from it, and that this changes nothing that the group is sent. It follows
//! by unwinding, from laws of single acts: output consistency, step consistency, local respect.
#![tactic(auto)]

mod group;
mod laws;
mod unwinding;
mod worlds;

pub use group::Group;
pub use laws::{histories_hide, own_steps_hide, steps_hide, worked_mail, worked_worlds};
pub use unwinding::{
    acts_stand_erased, answers_stand_erased, calls_stand_erased, effects_stand_erased,
    hidden_calls_vanish, hidden_effects_vanish, hidden_entries_vanish, hidden_texts_vanish,
    leaks_are_refused, messages_stand_erased, rows_stand_masked,
};
pub use worlds::two_worlds;
