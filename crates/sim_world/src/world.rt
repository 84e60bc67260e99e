ghost use Rattle.std.specs.Prelude.{◌≡◌, IfOk, length, option_copied, string_bytes};
ghost use Rattle.sim_world.specs.Holds.{AreShown, Holds, IsNodeAt, Says, Steps};
ghost use Rattle.sim_world.specs.Step.{beginning};

use crate::kept::KeptMessage;
use crate::line::Line;
use crate::taken::Taken;
use crate::world_parts::Parts;
use group_world::{agreement, nothing_is_cut};
use peering::GroupNode;
use pg_log::{ClassTable, Classes};
use placement::NodeId;
use replication::packed_lists;
use std::alloc::{AllocError, Global};
use std::marker::Model;

/// A played world, for the classes that `C` names: a world of the group that events lead to, and
/// which of the nodes 0 to 15 are stopped. Contracts see how it is held; `Holds` says of which
/// played world that is. If memory was refused at a line, it is lost.
#[derive(Drop)]
pub struct World<C: Classes> {
    parts: Parts<C>,
    is_lost: bool,
}

impl<C: Classes> Model for World<C> {
    ghost use Rattle.std.specs.Prelude.{◌≡◌, false};
    ghost use Rattle.sim_world.specs.Holds.{IsPlayed};
    ghost use Rattle.sim_world.specs.inner.Parts.{Parts};

    ghost Value = { Parts };

    ghost view = { λ w. w.parts };

    ghost invariant = { λ w. w.is_lost ≡ false → IsPlayed C.classes w.parts };
}

impl<C: Classes> World<C> {
    /// The world before the first line: nodes that have learned nothing, no map and no message. It
    /// fails for want of memory alone.
    pub fn new(alloc: Global) -> Result<World<C>, AllocError>
        ensures { IfOk result (λ w. Holds C.classes w (beginning C.classes)) }
    {
        Ok(World {
            parts: Parts::new(alloc)?,
            is_lost: false,
        })
    }

    /// The messages that were sent, as they are kept: the one of number 1 first.
    pub fn sent(&self) -> &[KeptMessage]
        ensures kept { result.now ≡ self.now.sent }
        ensures shown { AreShown C.classes self.now result.now }
    {
        self.parts.messages()
    }

    /// The number of maps that the monitor made.
    pub fn map_count(&self) -> usize
        ensures { result ≡ length self.now.maps }
    {
        self.parts.map_count()
    }

    /// The node of a number, as it stands; none if the number is past 15.
    pub fn node(&self, number: NodeId) -> Option<&GroupNode<C>>
        ensures { IsNodeAt C.classes self.now number (option_copied result) }
    {
        self.parts.node(number)
    }

    /// Does a line, and gives what came of it; a bad one leaves all as it was. It fails for want of
    /// memory alone: the world is lost then, and each further line fails too. A line costs what its
    /// event costs at the node, and a copy of the message that it delivers; of a list, a copy of
    /// what the node has of it too.
    pub fn take(&mut self, table: &ClassTable, line: Line) -> Result<Taken, AllocError>
        requires { table.now ≡ C.classes }
        ensures { IfOk result (λ t. Steps C.classes self.old self.new line t) }
    {
        agreement();
        nothing_is_cut();
        packed_lists();
        if self.is_lost {
            return Err(AllocError);
        }
        // If memory is refused amid the line, it stays so.
        self.is_lost = true;
        let taken = self.parts.take(table, line)?;
        self.is_lost = false;
        Ok(taken)
    }

    /// The text that is printed of the last line, by what came of it; empty for a bad one. It fails
    /// for want of memory alone.
    pub fn text(&self, taken: &Taken) -> Result<String, AllocError>
        ensures { IfOk result (λ t. Says C.classes self.now taken.now (string_bytes t)) }
    {
        self.parts.text(taken)
    }
}
