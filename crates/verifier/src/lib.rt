//! The verifier of classes. `verify` follows each method once, slot by slot, with the kinds of its
//! registers, and accepts the class or gives the first refusal. Every method of an accepted
//! class runs to its exit on every object and input, wherever its regions lie, never stuck, in at
//! most as many steps as it has instructions. A refusal is the verdict of the rules in
//! docs/VERIFIER.md, and its rule refuses the instruction at its slot. Only `verify` makes a
//! `VerifiedClass`, which keeps the operations that a run executes, and that its methods are safe.
#![tactic(auto)]

mod access_rules;
mod answers;
mod class;
mod facets;
mod fault;
mod kept;
mod kind_rules;
mod known;
mod laws;
mod method;
mod pass;
mod refusal;
mod refused;
mod rule;
mod rules;
mod verified;

pub use answers::answer;
pub use class::verify;
pub use facets::{
    Access, Callee, Goes, Reads, Touches, Uses, callee_of, goes_of, reads_of, touches_of, uses_of,
    writes_of,
};
pub use fault::room;
pub use kept::PendingFrames;
pub use known::{frame_slots, linked_places, precision};
pub use laws::{first_rule_set, one_table};
pub use method::{slots_of, verify_method};
pub use refusal::Refusal;
pub use refused::{RefusedSlot, refused_slot};
pub use rule::Rule;
pub use rules::{begins_at, falls_off, frame_rule, is_backward, is_local_call, misses, writes_r10};
pub use verified::{VerifiedClass, VerifiedMethod};
