// Why a store is not opened, or not made, and why a snapshot is not read.

#[derive(Clone, Copy, Debug, PartialEq, Eq)]
pub enum OpenFault {
    /// The disk failed.
    Fault,
    /// The first place of the header that holds another byte, and that byte.
    Foreign(u64, u8),
    /// The file has this length, which is less than that of a store without a batch, and what is
    /// there begins as a store does.
    Short(u64),
    /// The open gate at this place stands before bytes that are no batch, or before an effect that
    /// does not fit.
    Damaged(u64),
    /// The file has this length already, and is not empty.
    Used(u64),
    Memory,
}

/// Why bytes are not read as a snapshot.
#[derive(Clone, Copy, Debug, PartialEq, Eq)]
pub enum NotSnapshot {
    /// They are none.
    Wrong,
    Memory,
}
