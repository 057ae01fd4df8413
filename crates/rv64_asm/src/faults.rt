// Why an image is not made.

use thiserror::Error;

/// Why an image is not made.
#[derive(Clone, Copy, Debug, PartialEq, Eq, Error)]
pub enum AsmFault {
    #[error("out of memory")]
    NoMemory,
    /// The distance in bytes from a branch or JAL to its label, which does not fit its field.
    #[error("a label is too far away, at a distance of {0}")]
    TooFar(i64),
    /// A label that is used, and was never set.
    #[error("label {0} is not set")]
    NoLabel(u32),
}
