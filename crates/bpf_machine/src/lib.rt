//! The meaning of a method's bytes. The flat machine reads raw slots and plain addresses; the typed
//! machine runs decoded instructions over numbers and places. The laws: the flat machine does the
//! same as the typed one, wherever the regions lie, so a method whose typed runs end is safe. The
//! flat machine as a program is the crate `flat_machine`.
#![tactic(auto)]

mod caps;
mod laws;
mod limits;

pub use bpf_decode::{Region, Value, arithmetic, jump_target};
pub use caps::Caps;
pub use helpers::{Argument, Signature, signature};
pub use laws::{
    addresses, blind_steps, chains, decoded, layouts, limits_are_kept, lists, other_runs, outcomes,
    simulation, slots,
};
pub use limits::STACK_SIZE;
