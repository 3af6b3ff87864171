use crate::line::Line;
use kom_types::Bytes;

/// A unit of a stream.
#[derive(Debug, Drop)]
pub enum Unit {
    /// The greeting, with the user name; a server's names none.
    Hello(Bytes),
    /// A line that is not blank.
    Line(Line),
}
