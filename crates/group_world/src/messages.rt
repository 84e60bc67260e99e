ghost use Rattle.std.specs.Prelude.{◌≡◌};

use crate::message::Packet;
use std::marker::Model;

/// The messages that an event sends, in their order, each with its receiver. Contracts see the
/// list.
pub struct Messages {
    items: Vec<Packet>,
}

// Written out, here and at `CallReply` and `GroupMap`, so that a crate that drops one calls this and
// needn't prove again how its parts are dropped.
impl Drop for Messages {
    fn drop(self) {
        let Messages { items } = self;
        drop(items);
    }
}

impl Model for Messages {
    ghost use Rattle.std.specs.Prelude.{List};
    ghost use Rattle.group_world.specs.declared.message.Packet.{Packet};

    ghost Value = { List Packet };

    ghost view = { λ m. m.items.items };
}

impl Messages {
    /// The list of those messages. It takes no memory.
    pub fn new(items: Vec<Packet>) -> Messages
        ensures { result ≡ items.items }
    {
        Messages { items }
    }

    /// The messages, the first one first.
    pub fn items(&self) -> &[Packet]
        ensures { result.now ≡ self.now }
    {
        &self.items
    }

    /// The messages, by value. It takes no memory.
    pub fn into_items(self) -> Vec<Packet>
        ensures { result.items ≡ self }
    {
        let Messages { items } = self;
        items
    }
}
