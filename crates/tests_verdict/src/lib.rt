//! Tests alone, of the verifier: what is known before a run of a number, and verdicts on methods and
//! classes. And a law that needs the machine and frames both: what a frame says of the stack's
//! bytes.
#![tactic(auto)]

#[cfg(test)]
mod loops;
#[cfg(test)]
mod numbers;
mod slots;
#[cfg(test)]
mod verdicts;

pub use slots::slots_as_numbers;
