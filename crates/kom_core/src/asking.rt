use kom_types::{Call, Moment};

/// A call that a session makes, at the moment that its entry has.
#[derive(Drop)]
pub(crate) struct Asking<'a> {
    pub session: u32,
    pub reference: u32,
    pub moment: Moment,
    pub call: &'a Call,
}
