//! Objects as bytes, for a host that keeps them itself: an object as its flat form, which is its
//! one spelling. `read_object` reads it, and `flat_form` writes it.
#![tactic(auto)]

mod flat;
mod laws;
mod object;
mod part;
mod reading;
mod spelling;

pub use flat::FlatError;
pub use laws::one_object;
pub use object::read_object;
pub use spelling::flat_form;
