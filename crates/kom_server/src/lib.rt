//! The server: its top call `run`, and what each command comes to.
//!
//! Only what serves may wait. The commands `init` and `load`, and `check` of `store_check`, have no
//! bound `Wait`: that they return is part of their contracts.
#![tactic(auto)]

mod loads;
mod outcome;
mod ran;
mod running;
mod store_runs;
mod sweep_runs;
mod sweeping;

pub use kom_serving::Closing;
pub use loads::load;
pub use outcome::Outcome;
pub use ran::Ran;
pub use running::run;
pub use store_runs::init;
