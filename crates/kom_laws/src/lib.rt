//! Laws over all stored rows: what is taken out of them by a mask commutes with what effects make
//! of them; what the rights hide from a group of persons changes nothing that it may see or do; and
//! what calls come to fits, and where they are refused changes nothing.
#![tactic(auto)]

mod laws;

pub use laws::{
    decided_effects_fit, effects_stand_masked, refused_calls_change_nothing, rights_stand_erased,
};
