use crate::messages::Message;
use crate::replies::Reply;

/// What a session is sent.
#[derive(Default, Drop)]
pub enum Item {
    /// The greeting's answer.
    #[default]
    Hello,
    /// The reply to the call that had this reference.
    Reply { reference: u32, body: Reply },
    /// What it is told without having asked.
    Message(Message),
    /// The client's stream is at fault.
    Fault,
}
