//! Replies to committed requests. Each is made by `reply`, from an entry.
ghost use Rattle.std.specs.Prelude.{◌≡◌, ◌<◌, ◌≤◌, ◌+◌, ◌++◌, ◌∷◌, [], drop, length, take, slice_get, Some, IfOk};
ghost use Rattle.std.specs.Prelude.{IfErr, OnOk};
ghost use Rattle.pg_log.specs.Requests.{ClientRequest};
ghost use Rattle.group_world.specs.Node.{packet};
ghost use Rattle.group_world.specs.Rules.{reply_packet, replies_from};
ghost use Rattle.peering_messages.specs.Sending.{IsEntryAt, IsLegalBy, IsNextReply, answer_in};

use crate::packets::{packet, send};
use group_world::{CallReply, HandleError, MessageKind, Packet, Party, Place};
use pg_log::{ClassTable, Classes, Entry, Group, classes_added, replies as replies_of_lists};
use placement::NodeId;
use std::alloc::Global;

/// The Reply to the request of an entry, which is at that place of the log.
fn reply(alloc: Global, number: NodeId, place: Place, entry: &Entry) -> Result<Packet, HandleError>
    ensures ok { IfOk result (λ p. p ≡ packet number (Party.Client entry.now.request.client)
        (MessageKind.Reply entry.now.request.client entry.now.request.number place (answer_in entry.now))) }
    ensures err { IfErr result (λ e. e ≡ HandleError.NoMemory) }
{
    let client = entry.request.client();
    let answer = CallReply::new(entry.code, Vec::from_slice(alloc, &entry.output)?);
    let kind = MessageKind::Reply(client, entry.request.number(), place, answer);
    Ok(packet(number, Party::Client(client), kind))
}

/// The entry at a place of a log.
fn entry_at<'a, C: Classes>(table: &ClassTable, group: &'a Group<C>, place: Place) -> &'a Entry
    requires legal { IsLegalBy table.now C.classes group.now }
    requires within { place < length group.now }
    ensures { IsEntryAt table.now group.now place result.now }
{
    // For the proof: code and output of an entry are the reply of its place, by the given table
    // too.
    classes_added();
    replies_of_lists();
    &group.entries()[place]
}

/// The entry at a place of a log to which one is about to be added.
fn entry_with<'a, C: Classes>(
    table: &ClassTable,
    group: &'a Group<C>,
    next: &'a Entry,
    place: Place,
) -> &'a Entry
    requires legal { IsLegalBy table.now C.classes group.now }
    requires next { IsNextReply table.now group.now next.now }
    requires within { place ≤ length group.now }
    ensures { IsEntryAt table.now (group.now ++ next.now.request ∷ []) place result.now }
{
    // For the proof: the reply of a place stays the same with one entry more.
    replies_of_lists();
    if place < group.len() {
        return entry_at(table, group, place);
    }
    next
}

/// A node that replies to the requests of its log, which runs by the table.
pub struct Replier<'a, C: Classes> {
    /// The memory for its Replies.
    pub alloc: Global,
    /// The node's number.
    pub number: NodeId,
    /// The table.
    pub table: &'a ClassTable,
    /// The log.
    pub group: &'a Group<C>,
}

// Written out, since a derived one would ask the same of the name of the classes.
impl<C: Classes> Drop for Replier<'_, C> {
    fn drop(self) {
        let Replier {
            alloc: _,
            number: _,
            table: _,
            group: _,
        } = self;
    }
}

impl<'a, C: Classes> Replier<'a, C> {
    /// The Reply to the request of a place of the log.
    pub fn reply_again(&self, place: Place) -> Result<Packet, HandleError>
        requires legal { IsLegalBy self.now.table.now C.classes self.now.group.now }
        requires within { place < length self.now.group.now }
        ensures ok { IfOk result (λ p. (r : ClientRequest) → slice_get self.now.group.now place ≡ Some r →
            p ≡ reply_packet self.now.table.now self.now.number self.now.group.now place r) }
        ensures err { IfErr result (λ e. e ≡ HandleError.NoMemory) }
    {
        let entry = entry_at(self.table, self.group, place);
        reply(self.alloc, self.number, place, entry)
    }

    /// The Replies to the requests of the log from one place to before another.
    pub fn replies(&self, from: Place, to: Place) -> Result<Vec<Packet>, HandleError>
        requires legal { IsLegalBy self.now.table.now C.classes self.now.group.now }
        requires within { to ≤ length self.now.group.now }
        ensures ok { IfOk result (λ v. v.items ≡ replies_from self.now.table.now self.now.number self.now.group.now from
            (drop from (take to self.now.group.now))) }
        ensures err { IfErr result (λ e. e ≡ HandleError.NoMemory) }
    {
        let (table, group) = (self.table, self.group);
        let mut sent = Vec::new(self.alloc);
        for place in from..to {
            let said = reply(
                self.alloc,
                self.number,
                place,
                entry_at(table, group, place),
            )?;
            send(&mut sent, said)?;
        }
        Ok(sent)
    }

    /// Adds the same, of the log with the entry that is about to be added.
    pub fn replies_with(
        &self,
        next: &Entry,
        from: Place,
        to: Place,
        sent: &mut Vec<Packet>,
    ) -> Result<(), HandleError>
        requires legal { IsLegalBy self.now.table.now C.classes self.now.group.now }
        requires next { IsNextReply self.now.table.now self.now.group.now next.now }
        requires within { to ≤ length self.now.group.now + 1 }
        ensures ok { OnOk result (sent.new.items ≡ sent.old.items ++
            replies_from self.now.table.now self.now.number (self.now.group.now ++ next.now.request ∷ []) from
            (drop from (take to (self.now.group.now ++ next.now.request ∷ [])))) }
        ensures err { IfErr result (λ e. e ≡ HandleError.NoMemory) }
    {
        let (table, group) = (self.table, self.group);
        for place in from..to {
            let entry = entry_with(table, group, next, place);
            let said = reply(self.alloc, self.number, place, entry)?;
            send(sent, said)?;
        }
        Ok(())
    }
}
