// Why a snapshot was not written.

#[derive(Clone, Copy, Debug, PartialEq, Eq)]
pub enum Unwritten {
    /// The disk failed.
    Fault,
    /// The file would get this length.
    Full(u64),
    Memory,
}
