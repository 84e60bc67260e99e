//! Tests alone, of reading and writing classes, as images and as texts, and loops.
#![tactic(auto)]

#[cfg(test)]
mod code;
#[cfg(test)]
mod digits;
#[cfg(test)]
mod head_lines;
#[cfg(test)]
mod heads;
#[cfg(test)]
mod images;
#[cfg(test)]
mod limits;
#[cfg(test)]
mod looped;
#[cfg(test)]
mod opcodes;
#[cfg(test)]
mod texts;
