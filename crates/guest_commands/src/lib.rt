//! What programs share whose command is about one guest of a configuration: their words, the guest, and how
//! they end.
#![tactic(auto)]

mod end_lines;
mod guest_words;
mod lone_guests;

pub use end_lines::finish;
pub use guest_words::{GuestRequest, guest_request};
pub use lone_guests::{LoneGuest, load_guest};
