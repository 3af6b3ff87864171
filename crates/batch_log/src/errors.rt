// Why a flush is refused.

#[derive(Clone, Copy, Debug, PartialEq, Eq)]
pub enum FlushFault {
    /// The disk failed.
    Fault,
    /// The file would get this length, or a greater one where this is the greatest of its type.
    Full(u64),
}
