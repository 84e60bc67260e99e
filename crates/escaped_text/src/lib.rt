//! Texts of others, as a terminal may have them: `push_escaped` shows each byte that isn't
//! printable ASCII as `\x1b`. What is shown is exactly `specs/Escaped.antt`'s `escaped`.
#![tactic(auto)]

mod escape;

pub use escape::push_escaped;
