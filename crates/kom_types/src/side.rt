/// Whose stream it is.
#[derive(Clone, Copy, Debug, PartialEq, Eq)]
pub enum Side {
    /// The stream that a client writes.
    Client,
    /// The stream that a server writes.
    Server,
}
