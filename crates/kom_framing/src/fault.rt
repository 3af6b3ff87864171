/// The first fault of a stream, with the place of its byte.
#[derive(Clone, Copy, Debug, PartialEq, Eq)]
pub enum Fault {
    Malformed(u64),
    LineTooLong(u64),
}
