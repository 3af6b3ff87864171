//! The calls that tell something and change nothing: what each comes to, refusals first.
#![tactic(auto)]

mod created;
mod hidden;
mod lookup;
mod nearest;
mod on_aux_items;
mod on_conferences;
mod on_memberships;
mod on_persons;
mod on_server;
mod on_sessions;
mod on_texts;
mod told_counts;

pub use on_aux_items::query_predefined_aux_items;
pub use on_conferences::{
    find_next_conf_no, find_previous_conf_no, first_unused_conf_no, get_collate_table,
    get_conf_stat, get_uconf_stat, lookup_z_name,
};
pub use on_memberships::{get_members, get_membership, get_unread_confs, query_read_texts};
pub use on_persons::get_person_stat;
pub use on_server::{get_info, get_time, get_version_info};
pub use on_sessions::{
    get_client_name, get_client_version, get_static_session_info, query_async, who_am_i,
    who_is_on_dynamic,
};
pub use on_texts::{
    find_next_text_no, find_previous_text_no, first_unused_text_no, get_marks, get_text_stat,
    local_to_global, local_to_global_reverse, map_created_texts,
};
