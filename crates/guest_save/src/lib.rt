// Machines as bytes: the form of a machine, and the machine of bytes.
#![tactic(auto)]

mod buffers;
mod first_entries;
mod headers;
mod items;
mod laws;
mod machine_parts;
mod numbers;
mod registers;
mod savable;
mod saved;
mod snapshots;
mod versions;
mod writing;

pub use headers::Header;
pub use laws::{reading_is_exact, saved_is_decided, saved_machines_go_on, sizes_stay};
pub use savable::numbers_fit;
pub use saved::{SaveEnd, Saved, read};
pub use snapshots::Snapshot;
pub use versions::Version;
pub use writing::put;
