//! A message as it is kept.
ghost use Rattle.std.specs.Prelude.{◌≡◌};
ghost use Rattle.sim_world.specs.Keeping.{kept_as};

use carried::{CarriedMessage, pack};
use group_world::{Packet, Party};

/// A message that was sent, as it is kept: a list goes without the beginning that its receiver had
/// committed.
#[derive(Drop)]
pub struct KeptMessage {
    /// The receiver.
    pub receiver: Party,
    /// The message.
    pub message: CarriedMessage,
}

impl KeptMessage {
    /// A message of a sender that has committed `committed` entries, to a receiver that has
    /// reported `reported`.
    pub(crate) fn new(committed: usize, reported: usize, packet: Packet) -> KeptMessage
        ensures { result ≡ kept_as committed reported packet }
    {
        let (receiver, message) = pack(committed, reported, packet);
        KeptMessage { receiver, message }
    }
}
