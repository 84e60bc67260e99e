//! The played world of a file of events. `read_line` gives the event or question of a line
//! (`specs/Lines.antt`); `World::take` does it, and gives what came of it. What a line does in the
//! group's world, and what comes of it, is `specs/Step.antt`. The events that happened are kept
//! there in their order; they lead to the world, so that it is an agreed one by them, and no line
//! cuts a committed list (`worlds_agree`). What is printed of a line (`World::text`), and the texts
//! of messages, are `specs/Texts.antt`.
#![tactic(auto)]

mod counted;
mod deliver;
mod keeping;
mod kept;
mod laws;
mod line;
mod message_text;
mod numbers;
mod request;
mod same;
mod sent;
mod taken;
mod taken_text;
mod text;
mod world;
mod world_parts;

pub use counted::numbered;
pub use file_words::{Nodes, lines};
pub use kept::KeptMessage;
pub use laws::worlds_agree;
pub use line::{Line, read_line};
pub use message_text::{carried_text, message_line};
pub use numbers::Numbers;
pub use taken::{MapMade, NodeShown, Taken};
pub use taken_text::{again_text, said_text};
pub use world::World;
