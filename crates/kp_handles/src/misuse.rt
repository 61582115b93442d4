//! What keeps a call of handles from being made.

/// Why a call wasn't made. Nothing has changed then. (Own rule.)
#[derive(Clone, Copy, PartialEq, Eq)]
pub enum Misuse {
    /// The handle is closed.
    Closed,
    /// The handle holds something of another kind.
    OtherKind,
    /// The handle that was to be written is open.
    InUse,
    /// The memory that a handle takes was refused, and none of the others is so.
    NoRoom,
    /// A number is above the greatest that it may be.
    OutOfRange,
    /// There are more bytes than a batch may have, or fewer places than bytes.
    BadLength,
}
