//! The built-in classes `lock` and `obj`, as the texts that their methods are read from. A program
//! loads them when it starts. A class that was loaded is the one that its text spells, and each of
//! its methods is safe; one that can't be had was refused for want of memory, or its text is wrong.
#![tactic(auto)]

mod failure;
mod load;
mod lock;
mod obj;

pub use failure::BuiltInFailure;
pub use load::{load_lock, load_obj};
pub use lock::LOCK;
pub use obj::OBJ;
