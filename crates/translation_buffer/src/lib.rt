// The translations that the hart keeps between accesses.
#![tactic(auto)]

mod buffers;
mod contexts;
mod frame_sets;
mod laws;
mod lookups;
mod pages;
mod slots;

pub use buffers::{Buffer, passed_by};
pub use contexts::Context;
pub use frame_sets::FrameSet;
pub use laws::{buffers_serve_on, fills_keep_others, hits_are_known, translations_stay};
pub use lookups::Lookup;
pub use pages::Page;
pub use slots::{Slot, Slots};
