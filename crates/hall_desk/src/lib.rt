//! The desk of a pass in a hall: each act is made in one turn of the lock, and is one entry of the
//! one history of the hall.
#![tactic(auto)]

mod acts;
mod answers;
mod hall_desk;
mod turning;

pub use acts::Acts;
pub use hall_desk::HallDesk;
