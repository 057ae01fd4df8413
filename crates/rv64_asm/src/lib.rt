// From instructions to their words, and images of them with labels.
#![tactic(auto)]

mod encoding;
mod faults;
mod fitting;
mod formats;
mod groups;
mod images;
mod laws;
mod lines;
mod pieces;

pub use encoding::encode;
pub use faults::AsmFault;
pub use fitting::fits;
pub use images::Image;
pub use laws::{decoded_fits, decodes_back, system_has_one_word, system_op_has_one_word};
