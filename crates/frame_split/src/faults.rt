// Why there is no plan.

use std::alloc::AllocError;
use thiserror::Error;

/// Why machine memory can't be shared out.
#[derive(Clone, Copy, Debug, PartialEq, Eq, Error)]
pub enum PlanFault {
    #[error("out of memory")]
    NoMemory,
    /// The guests and the spare blocks need that many frames, more than there are.
    #[error("{0} frames are too many")]
    TooMuch(u64),
}
