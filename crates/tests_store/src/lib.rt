//! Tests alone, of the crates that keep objects: maps, objects by name, their data, parts of
//! objects, and the effect of a call on its object; each helper has its rows in `tests_machine`.
//! What a call gives for every argument is proved; here its definition meets values from outside,
//! memory suffices, and sizes are at their limits.
#![tactic(auto)]

#[cfg(test)]
mod blocks;
#[cfg(test)]
mod data;
#[cfg(test)]
mod helpers_on_parts;
#[cfg(test)]
mod limits;
#[cfg(test)]
mod maps;
#[cfg(test)]
mod names;
#[cfg(test)]
mod objects;
#[cfg(test)]
mod refusals;
#[cfg(test)]
mod staging;
