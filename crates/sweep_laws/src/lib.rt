//! Laws of sweeps: what the calls of one make of the stored rows.
#![tactic(auto)]

mod laws;

pub use laws::{
    deletions_leave_the_rest, due_is_told, strong_sessions_are_told_all, sweeps_delete_alone,
    whole_sweeps_leave_what_is_not_due, worked_due_texts,
};
