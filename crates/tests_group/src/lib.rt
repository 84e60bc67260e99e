//! Tests alone, of groups: which nodes act, the built-in classes through a group, the log and its
//! requests, lists that are packed, printed refusals; and of images with a byte
//! changed.
#![tactic(auto)]

#[cfg(test)]
mod builtin;
#[cfg(test)]
mod class_texts;
#[cfg(test)]
mod full;
#[cfg(test)]
mod hostile;
#[cfg(test)]
mod log;
#[cfg(test)]
mod packed;
#[cfg(test)]
mod placing;
#[cfg(test)]
mod refusals;
#[cfg(test)]
mod requests;
#[cfg(test)]
mod script;
#[cfg(test)]
mod words;
