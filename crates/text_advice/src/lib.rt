//! Notes on what is no class: of a text's wrong line, or of each, what is wrong there and what is
//! written in its place; of bytes that are no image, which byte is wrong. Of a note it is promised
//! that it is text, and that only memory can be wanting. What a note takes for a right register or
//! number is what the grammar takes (`register`, `plain`, `signed`). That notes are right is tested,
//! by texts that are mended as they say. `word_distance` picks the word that a wrong one is nearest
//! to, here and in the notes of `sim`.
#![tactic(auto)]

mod calls;
mod forms;
mod image;
mod instead;
mod lines;
mod nearest;
mod number;
mod operand;
mod place;
mod quoted;
mod source;
mod told;
mod trouble;
mod word;

pub use calls::call_of;
pub use image::{PackedMethod, image_text, packed_text};
pub use nearest::word_distance;
pub use source::source_text;
pub use told::{fault_text, faults_text};
