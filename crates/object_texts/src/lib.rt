//! The object of a call, as words and a text spell it: `object_before` gives that of words,
//! `spelled_object` that of a text, or the first refusal; `shown_text` gives an object's text,
//! `objects_text` that of several by their names, and `save` writes it to a file, if it would be
//! read back as the same object. `large_before`,
//! `spelled_large`, `large_text` and `save_large` do so by an OSD's limits.
#![tactic(auto)]

mod given;
mod large_given;
mod large_saved;
mod method_call;
mod saved;
mod shown;

pub use given::object_before;
pub use large_given::{large_before, spelled_large};
pub use large_saved::{large_text, save_large};
pub use method_call::{MethodCall, SpelledEntry};
pub use saved::{save, spelled_object};
pub use shown::{objects_text, shown_text};
