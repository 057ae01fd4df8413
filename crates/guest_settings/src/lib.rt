// What a guest is given, what it needs of machine memory, and what the report says of it.
#![tactic(auto)]

mod guests;
mod limits;
mod needs;
mod statuses;

pub use guests::{Bytes, GuestSpec, Inputs, Name};
pub use limits::{
    LEAST_ENTRIES, MOST_BLOCKS, MOST_CONSOLE, MOST_ENTRIES, MOST_GUESTS, MOST_INPUTS, MOST_SPACES,
};
pub use needs::{Need, TABLES_PER_ENTRY};
pub use statuses::Status;
