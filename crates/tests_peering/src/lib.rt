//! Tests alone, of nodes and their monitor, and of the values under the locks of a cluster: a
//! group's cell, and the book of maps. Runs by hand are files of events, which tests of the program
//! play.
#![tactic(auto)]

#[cfg(test)]
mod account;
#[cfg(test)]
mod cell;
#[cfg(test)]
mod full;
#[cfg(test)]
mod maps;
#[cfg(test)]
mod messages;
#[cfg(test)]
mod monitor;
#[cfg(test)]
mod words;
