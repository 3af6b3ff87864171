//! The calls that change conferences: what each comes to, refusals first.
#![tactic(auto)]

mod deletion;
mod on_aux_items;
mod on_conferences;
mod owning;
mod settings;

pub use deletion::delete_conf;
pub use on_aux_items::modify_conf_info;
pub use on_conferences::{change_name, create_conf};
pub use settings::{
    set_conf_type, set_etc_motd, set_expire, set_garb_nice, set_keep_commented,
    set_permitted_submitters, set_presentation, set_super_conf, set_supervisor,
};
