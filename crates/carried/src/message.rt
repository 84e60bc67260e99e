//! A message while it is on its way between two nodes.

ghost use Rattle.std.specs.Prelude.{◌≡◌, IfOk};
ghost use Rattle.carried.specs.Carried.{reported_by};

use crate::copies::copy_kind;
use group_world::{CallReply, Epoch, GroupMap, Party, Place, Requests};
use pg_log::{ClientId, NoMemory, Request, RequestNumber};
use replication::PackedLog;
use std::alloc::Global;

/// A message on its way: as it was sent, but for the number in a question and the list of a log.
#[derive(Drop)]
pub struct CarriedMessage {
    /// The sender.
    pub sender: Party,
    /// The content.
    pub kind: CarriedKind,
}

/// The content of a message on its way: `group_world`'s nine kinds.
#[derive(Drop)]
pub enum CarriedKind {
    /// The primary of the map asks for a list. It has committed that number of entries, and they
    /// are left out of the list that answers.
    Query(GroupMap, usize),
    /// A list without its beginning, for the primary that asked for it.
    Log(Epoch, PackedLog),
    /// The list that the map's primary adopted, for another member.
    Install(GroupMap, Requests),
    /// A member has installed that interval's list.
    Installed(Epoch),
    /// The primary of that interval asks the monitor to activate it.
    AskActivate(Epoch),
    /// The monitor has activated that interval.
    Activated(Epoch),
    /// The primary of that interval has this request at that place.
    Rep(Epoch, Place, Request),
    /// A member of that interval has a list of that length.
    Ack(Epoch, usize),
    /// The request of that client and number is at that place of the log, and has that answer.
    Reply(ClientId, RequestNumber, Place, CallReply),
}

impl CarriedMessage {
    /// The number of entries that the sender of a question says it has committed; 0 of any other
    /// kind.
    #[rattlefmt::skip]
    pub(crate) fn reported(&self) -> usize
        ensures { result ≡ reported_by self.now.kind }
    {
        match &self.kind {
            CarriedKind::Query(_, reported) => *reported,
            CarriedKind::Log(_, _)          => 0,
            CarriedKind::Install(_, _)      => 0,
            CarriedKind::Installed(_)       => 0,
            CarriedKind::AskActivate(_)     => 0,
            CarriedKind::Activated(_)       => 0,
            CarriedKind::Rep(_, _, _)       => 0,
            CarriedKind::Ack(_, _)          => 0,
            CarriedKind::Reply(_, _, _, _)  => 0,
        }
    }

    /// An equal one. It shares requests and lists.
    pub fn copy(&self, alloc: Global) -> Result<CarriedMessage, NoMemory>
        ensures { IfOk result (λ m. m ≡ self.now) }
    {
        Ok(CarriedMessage {
            sender: self.sender,
            kind: copy_kind(alloc, &self.kind)?,
        })
    }
}
