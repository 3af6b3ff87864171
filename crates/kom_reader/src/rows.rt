/// An unread text of a conference, by its local number there.
#[derive(Clone, Copy)]
pub struct Row {
    pub conference: u32,
    pub local: u32,
    pub text: u32,
}

/// A membership, and where it stands among the others: a higher priority comes first, and then a
/// lower position.
#[derive(Clone, Copy)]
pub struct Place {
    pub conference: u32,
    pub priority: u8,
    pub position: u32,
}
