//! Lists of edits as bytes: `edit_at` reads the edit that bytes begin with, as `txn` spells it in
//! the list of a staged object. Who makes the edits of a list of an object reads one after the other.
#![tactic(auto)]

mod reading;

pub use reading::edit_at;
