//! The command lines of the program: what its words ask for, its exit statuses, and the lines of
//! its reports.
#![tactic(auto)]

mod cases;
mod loads;
mod numbers;
mod reports;
mod sweeps;
mod words;

pub use cases::Cases;
pub use loads::load_of;
pub use numbers::{AtPort, Way, number_in, serve_of};
pub use reports::{MADE, check_report, push_line, put_text, sweep_report};
pub use sweeps::sweep_of;
pub use words::{Command, command_of};
