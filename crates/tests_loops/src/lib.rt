//! Only tests of methods with loops: worked calls by a budget; what is declared of
//! loops, frames at heads, their order, and pairs of pointers, by hand; and methods at random with
//! right and wrong heads on plain addresses: an accepted one is never stuck within its budget, at
//! each step what is known there is true, and each call answers as the machine has it. And calls of
//! held classes on bytes.
#![tactic(auto)]

#[cfg(test)]
mod frames;
#[cfg(test)]
mod handles;
#[cfg(test)]
mod heads;
#[cfg(test)]
mod made;
#[cfg(test)]
mod object_calls;
#[cfg(test)]
mod pairs;
#[cfg(test)]
mod random;
#[cfg(test)]
mod runs;
#[cfg(test)]
mod weights;
