//! Tests alone, of the search for heads: methods with loops, what is found for each, and that the verdict
//! on loops accepts it.
#![tactic(auto)]

#[cfg(test)]
mod found;
#[cfg(test)]
mod loops;
