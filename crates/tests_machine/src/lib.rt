//! Only tests of what a call of a method does: by `interp`, with answers from outside (RFC 9669, or
//! computed by hand), at all limits, with lists of edits, in one room, and the table of classes; and
//! by the library's calls on bytes, flat forms, parts, edits and limits, and a host in Rattle.
#![tactic(auto)]

#[cfg(test)]
mod answers;
#[cfg(test)]
mod calls_on_parts;
#[cfg(test)]
mod declared;
#[cfg(test)]
mod flat_limits;
#[cfg(test)]
mod flat_objects;
#[cfg(test)]
mod helper_calls;
#[cfg(test)]
mod host;
#[cfg(test)]
mod limits;
#[cfg(test)]
mod lists;
#[cfg(test)]
mod methods;
#[cfg(test)]
mod needed_names;
#[cfg(test)]
mod operations;
#[cfg(test)]
mod part_limits;
#[cfg(test)]
mod programs;
#[cfg(test)]
mod rooms;
#[cfg(test)]
mod tables;
#[cfg(test)]
mod values;
#[cfg(test)]
mod words;
