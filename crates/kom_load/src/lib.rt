//! A run that loads a new server with calls that it makes up itself: which call is next, what
//! became of those before it, and the lines that tell what the run came to.
#![tactic(auto)]

mod generator;
mod loading;
mod rows;
mod runs;
mod stepping;
mod summaries;
mod telling;

pub use generator::generated;
pub use loading::load;
pub use rows::worked_runs;
pub use runs::Run;
pub use summaries::Summary;
pub use telling::tell_load;
