use crate::drawn::column::Column;

/// A message that was sent. Messages are numbered from 1, in the order of sending.
#[derive(Drop)]
pub struct DrawnMessage {
    /// The sender.
    pub from: Column,
    /// The receiver.
    pub to: Column,
    /// The message's text: its kind, and more after a blank.
    pub text: String,
}
