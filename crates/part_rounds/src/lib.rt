//! How often a call on parts of one object needs something more. A host that gives each next call all
//! that it gave before, and what was needed, has an answer after at most as many rounds as the method's
//! run on the object calls helpers and removes names: `rounds_are_few` says so of what a call knows, and
//! `part_rounds_are_few` of the bytes that a host gives.
#![tactic(auto)]

mod laws;

pub use laws::{part_rounds_are_few, rounds_are_few};
