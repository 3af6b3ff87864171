//! The calls about sessions, persons and the server: what each is answered, and what it changes.
#![tactic(auto)]

mod leaving;
mod on_messages;
mod on_persons;
mod on_server;
mod on_sessions;

pub use on_messages::send_message;
pub use on_persons::{create_person, set_passwd, set_pers_flags, set_priv_bits, set_user_area};
pub use on_server::{shutdown_kom, sync_kom};
pub use on_sessions::{
    accept_async, change_conference, change_what_i_am_doing, disconnect, enable, login, logout,
    set_client_version, user_active,
};
