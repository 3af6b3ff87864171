/// A token of a line.
#[derive(Clone, Copy, Debug, PartialEq, Eq)]
pub enum Token<'a> {
    /// A run of digits.
    Digits(&'a [u8]),
    /// The bytes of a string.
    Text(&'a [u8]),
    /// The brace before the elements of an array.
    Open,
    /// The brace after the elements of an array.
    Close,
    /// The star in place of an array's elements.
    Star,
    /// A sign, and the run of digits directly after it: only a server's lines have one.
    Signed(u8, &'a [u8]),
}
