// What a report says of a guest.

/// Whether a machine goes on.
#[derive(Clone, Copy, PartialEq, Eq)]
pub enum Status {
    Running,
    /// A WFI for which nothing can come.
    Waiting,
    /// The guest has stopped itself.
    Stopped,
}
