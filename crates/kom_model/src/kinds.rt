//! Kinds of calls, as lists of their numbers.

/// The calls that take no memory, and so are never answered that it ran out.
pub const FIRM_NUMBERS: [u32; 8] = [35, 56, 60, 61, 114, 115, 116, 117];

/// The calls that may send something beside who logs out and in.
pub const SENDING_NUMBERS: [u32; 15] = [3, 11, 15, 16, 17, 29, 30, 31, 43, 53, 57, 86, 87, 92, 100];

/// The calls that only ask.
pub const ASKING_NUMBERS: [u32; 31] = [
    23, 25, 35, 49, 52, 56, 60, 61, 70, 71, 75, 76, 78, 81, 83, 84, 85, 90, 91, 94, 96, 101, 103,
    104, 107, 108, 114, 115, 116, 117, 121,
];

/// The eleven calls whose change may be hidden from a group of persons.
pub const HIDING_NUMBERS: [u32; 11] = [16, 17, 27, 30, 31, 77, 86, 92, 93, 109, 110];
