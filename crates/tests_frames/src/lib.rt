//! Only tests of runs of raw bytes on plain addresses, by the flat machine: layouts of the regions;
//! worked runs in several; and of methods at random at each step what rule set 3 knows there, the
//! outcome that `interp` gives, and the answers of calls on parts of objects.
#![tactic(auto)]

#[cfg(test)]
mod dice;
#[cfg(test)]
mod draft;
#[cfg(test)]
mod frames;
#[cfg(test)]
mod layouts;
#[cfg(test)]
mod plain_runs;
#[cfg(test)]
mod rounds;
