//! A screen on which lines are shown. What others wrote neither steers it nor forges a line.
#![tactic(auto)]

mod fronts;
mod pieces;
mod screen;
mod screen_fault;
mod surface;

pub use fronts::Front;
pub use screen::Screen;
pub use screen_fault::ScreenFault;
