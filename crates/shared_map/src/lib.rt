//! An ordered map from bytes to values that is copied on write: a copy costs one pointer, and
//! setting or removing a key makes the path to it anew and leaves every older copy as it is.
//! Contracts see `SharedMap` as the finite map: `get`, `key_above`, `nth`, `set`, `remove`, `len`,
//! `copy` and `is_same` are exact over it, and after an error it is as it was.
#![tactic(auto)]

mod same;
mod shared_map;
mod tree;

pub use same::Same;
pub use shared_map::SharedMap;
