//! Tests of a cluster in threads. Most are rows (`row`): steps that are done (`steps`) while
//! workers serve a new cluster under a gate and a fate, which count and hold what comes to them
//! (`table`, `sessions`, `server`). Each test ends by itself: it counts its turns, and fails once
//! they are used up.
#![tactic(auto)]

#[cfg(test)]
mod calls;
#[cfg(test)]
mod delivery;
#[cfg(test)]
mod fate;
#[cfg(test)]
mod first_page;
#[cfg(test)]
mod gate;
#[cfg(test)]
mod groups;
#[cfg(test)]
mod hold;
#[cfg(test)]
mod limits;
#[cfg(test)]
mod logs;
#[cfg(test)]
mod makers;
#[cfg(test)]
mod maps;
#[cfg(test)]
mod nudges;
#[cfg(test)]
mod pairs;
#[cfg(test)]
mod play;
#[cfg(test)]
mod requests;
#[cfg(test)]
mod row;
#[cfg(test)]
mod sessions;
#[cfg(test)]
mod sleeping;
#[cfg(test)]
mod steps;
#[cfg(test)]
mod table;
#[cfg(test)]
mod tries;
#[cfg(test)]
mod workers;
