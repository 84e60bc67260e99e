use crate::drawn::column::Column;

/// The event of a step.
#[derive(Clone, Copy, Drop)]
pub enum What {
    /// Something at one party, as a map that a node sees.
    At(Column),
    /// The first, a client, asks the second, a node.
    Asked(Column, Column),
    /// The message of this number arrives at its receiver.
    Arrived(usize),
    /// The message of this number gets to its receiver, which is stopped.
    Bounced(usize),
    /// A node stops: its line is dotted from then on.
    Stopped(Column),
    /// A node goes on: its line is whole from then on.
    Resumed(Column),
}

/// A step of a run.
#[derive(Drop)]
pub struct DrawnStep {
    /// The event.
    pub what: What,
    /// Its text; for a message that arrives, the text follows the message's own.
    pub text: String,
    /// The number of messages that it sent, not counting those of earlier steps.
    pub sent: usize,
}
