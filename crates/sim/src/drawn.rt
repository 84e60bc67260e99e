//! Draws the events of a group as a message sequence in text: a column for each client, each node
//! and the monitor, and an arrow for each message at its arrival; a stopped node's line is dotted.
//! What a drawing looks like is no promise, and is shown by stored outputs alone.

mod chart;
mod column;
mod columns;
mod delivered;
mod drawn_message;
mod drawn_step;
pub(crate) mod note;
mod rows;
mod stopped;
mod text;

pub use chart::draw;
pub use column::Column;
pub use drawn_message::DrawnMessage;
pub use drawn_step::{DrawnStep, What};
