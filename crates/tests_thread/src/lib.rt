//! Only tests, of the values that threads share: a group under a lock, queues of operations, the
//! board of commits.
#![tactic(auto)]

#[cfg(test)]
mod boards;
#[cfg(test)]
mod locks;
#[cfg(test)]
mod memory;
#[cfg(test)]
mod queues;
#[cfg(test)]
mod schedule_steps;
#[cfg(test)]
mod schedules;
#[cfg(test)]
mod searches;
