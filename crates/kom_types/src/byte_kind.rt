ghost use Rattle.std.specs.Prelude.{◌≡◌};
ghost use Rattle.kom_types.specs.ByteKind.{kind_of};

/// What a byte may be in a line, outside a string's bytes.
#[derive(Clone, Copy, Debug, PartialEq, Eq)]
pub enum ByteKind {
    /// A space, a tab or a carriage return.
    Blank,
    /// The end of a line.
    LineFeed,
    /// A decimal digit.
    Digit,
    /// The letter `H` after the length of a string.
    Hollerith,
    /// The brace before the elements of an array.
    Open,
    /// The brace after the elements of an array.
    Close,
    /// The contents of an array that are not there.
    Star,
    /// A sign before the digits of a reference or of a message: `=`, `%` or `:`.
    Sign,
    /// Any other byte, which stands inside strings alone.
    Other,
}

/// The kind of a byte.
pub fn kind_of_byte(byte: u8) -> ByteKind
    ensures { result ≡ kind_of byte }
{
    match byte {
        b' ' | b'\t' | b'\r' => ByteKind::Blank,
        b'\n' => ByteKind::LineFeed,
        b'0'..=b'9' => ByteKind::Digit,
        b'H' => ByteKind::Hollerith,
        b'{' => ByteKind::Open,
        b'}' => ByteKind::Close,
        b'*' => ByteKind::Star,
        b'=' | b'%' | b':' => ByteKind::Sign,
        _ => ByteKind::Other,
    }
}
