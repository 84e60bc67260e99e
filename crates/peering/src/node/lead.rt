//! A primary before it is active: it adopts a list, notes the members that have installed it, and
//! becomes active.
ghost use Rattle.std.specs.Prelude.{◌≡◌, length, IfOk, IfErr, OnErr, if◌then◌else◌, ◌&&◌, ◌==◌, not, is_none, None};
ghost use Rattle.std.specs.Prelude.{true, ◌≤◌};
ghost use mathlib.Core.List.{IsPrefix};
ghost use Rattle.placement.specs.Placement.{has};
ghost use Rattle.pg_log.specs.Entries.{requests_of};
ghost use Rattle.pg_log.specs.Log.{Classes as Table, Legal};
ghost use Rattle.pg_log.specs.Refusals.{first_refusal};
ghost use Rattle.group_world.specs.Node.{committed_list, is_installing};
ghost use Rattle.group_world.specs.Rules.{adopt_log, note_installed, activate, each_at, is_usable, begins};
ghost use Rattle.peering.specs.Numbered.{IsDone};
ghost use Rattle.peering_messages.specs.Sending.{IsLegalBy};
ghost use Rattle.peering.specs.inner.Arriving.{with_log, is_memory};

use crate::node::GroupNode;
use crate::node::moves::installing;
use group_world::{Epoch, HandleError, MessageKind, Packet, Party, Status};
use peering_messages::{are_among, is_same_request, packet};
use pg_log::{
    ClassTable, Classes, Entry, Group, LogError, Request, Requests, adopting, copy_log,
    legal_lists, list_refusal, refusals,
};
use placement::{NodeId, has};
use std::alloc::Global;

impl<C: Classes> GroupNode<C> {
    /// Takes a list that a member sent: a primary that asks adopts the first usable one.
    pub(crate) fn adopt_log(
        &mut self,
        table: &ClassTable,
        interval: Epoch,
        list: Requests,
    ) -> Result<Vec<Packet>, HandleError>
        requires { IsLegalBy table.now C.classes self.old.state.log }
        ensures done { IfOk result (λ sent. IsDone self.old self.new sent.items
            (adopt_log table.now self.old.number self.old.state interval list)) }
        ensures err { OnErr result (self.new ≡ self.old) }
        ensures why { IfErr result (λ e. e ≡ HandleError.NoMemory) }
    {
        if !self.is_at(interval, Status::Asking) {
            return Ok(Vec::new(self.alloc));
        }
        // The messages are made first, since a refusal must leave the node as it was. They share
        // the list.
        let adopted = installing(self.alloc, self.number, self.interval, &self.members, &list)?;
        if !self.take_list(table, &list)? {
            return Ok(Vec::new(self.alloc));
        }
        Ok(adopted.installs(self))
    }

    /// True if it can take a list: the list can be run, and begins with the committed list. It runs
    /// and changes nothing. A beginning of the own log can be run, since the log can: that costs a
    /// comparison and no memory, so an Install that comes again is answered without an index.
    pub(crate) fn can_take(&self, table: &ClassTable, list: &[Request]) -> Result<bool, HandleError>
        requires { IsLegalBy table.now C.classes self.now.state.log }
        ensures ok { IfOk result (λ can. can ≡ is_usable table.now self.now.state list.now) }
        ensures err { IfErr result (λ e. e ≡ HandleError.NoMemory) }
        ensures again { IfErr result (λ _. ¬ (IsPrefix list.now self.now.state.log)) }
    {
        if !self.keeps_committed(list) {
            return Ok(false);
        }
        if self.has_run(list) {
            return Ok(true);
        }
        match list_refusal(self.alloc, table, list) {
            Ok(why) => Ok(why.is_none()),
            Err(_) => Err(HandleError::NoMemory),
        }
    }

    /// True if a list is a beginning of the log, and so can be run.
    fn has_run(&self, list: &[Request]) -> bool
        ensures beginning { IsPrefix list.now self.now.state.log → result ≡ true }
        ensures runs { (classes : Table) → Legal classes self.now.state.log → result ≡ true →
            first_refusal classes list.now ≡ None }
    {
        // For the proof: a beginning of a legal list is legal, and nothing refuses a request of a
        // legal list.
        legal_lists();
        refusals();
        self.group().begins_with(list)
    }

    /// The log as a list for a message: the one that is kept, or a new one.
    pub(crate) fn list(&self) -> Result<Requests, HandleError>
        ensures ok { IfOk result (λ l. l ≡ self.now.state.log) }
        ensures err { IfErr result (λ e. e ≡ HandleError.NoMemory) }
    {
        if !self.listed.is_empty() {
            return Ok(self.listed.copy()?);
        }
        let items = copy_log(self.alloc, self.group.entries())?;
        Ok(Requests::new(self.alloc, items)?)
    }

    /// Makes the log a received list, and returns true, if it is usable. Else, and at an error,
    /// nothing changes.
    pub(crate) fn take_list(
        &mut self,
        table: &ClassTable,
        list: &Requests,
    ) -> Result<bool, HandleError>
        requires { IsLegalBy table.now C.classes self.old.state.log }
        ensures usable { IfOk result (λ taken. taken ≡ is_usable table.now self.old.state list.now) }
        ensures taken { IfOk result (λ taken. self.new ≡ (if taken then with_log self.old list.now else self.old)) }
        ensures status { self.new.state.status ≡ self.old.state.status }
        ensures err { OnErr result (self.new ≡ self.old) }
        ensures why { IfErr result (λ e. e ≡ HandleError.NoMemory) }
    {
        if !self.keeps_committed(list.items()) {
            return Ok(false);
        }
        // Before the log changes, since the copy may be refused.
        let listed = list.copy()?;
        if !become_list(table, &mut self.group, self.committed, list.items())? {
            return Ok(false);
        }
        self.listed = listed;
        Ok(true)
    }

    /// True if a list begins with the committed list.
    fn keeps_committed(&self, list: &[Request]) -> bool
        ensures value { result ≡ begins (committed_list self.now.state) list.now }
        ensures within { result ≡ true → self.now.state.committed ≤ length list.now }
    {
        begins_with(&self.group.entries()[..self.committed], list)
    }

    /// Notes that a member has installed.
    pub(crate) fn note_installed(
        &mut self,
        sender: Party,
        interval: Epoch,
    ) -> Result<Vec<Packet>, HandleError>
        ensures done { IfOk result (λ sent. IsDone self.old self.new sent.items
            (note_installed self.old.number self.old.state sender interval)) }
        ensures err { OnErr result (self.new ≡ self.old) }
        ensures why { IfErr result (λ e. e ≡ HandleError.NoMemory) }
    {
        let Party::Node(member) = sender else {
            return Ok(Vec::new(self.alloc));
        };
        if !self.awaits(member, interval) {
            return Ok(Vec::new(self.alloc));
        }
        // Room comes first: once the member is noted, nothing may be refused.
        let mut sent = Vec::with_capacity(self.alloc, 1)?;
        self.joined.push(member)?;
        if are_among(self.members.acting(), &self.joined) {
            let kind = MessageKind::AskActivate(self.interval);
            sent.push_reserved(packet(self.number, Party::Monitor, kind));
        }
        Ok(sent)
    }

    /// True if it has to note that a member has installed: in this interval, and the member isn't
    /// noted yet.
    fn awaits(&self, member: NodeId, interval: Epoch) -> bool
        ensures { result ≡ ((interval == self.now.state.interval) && (is_installing self.now.state.status &&
            (has member self.now.state.members.acting && not (has member self.now.state.joined)))) }
    {
        interval == self.interval
            && self.status == Status::Installing
            && has(member, self.members.acting())
            && !has(member, &self.joined)
    }

    /// Becomes active, if the monitor has activated its interval.
    pub(crate) fn activate(&mut self, interval: Epoch) -> Result<Vec<Packet>, HandleError>
        ensures done { IfOk result (λ sent. IsDone self.old self.new sent.items (activate self.old.state interval)) }
        ensures err { OnErr result (self.new ≡ self.old) }
        ensures why { IfErr result (λ e. e ≡ HandleError.NoMemory) }
    {
        if !self.is_at(interval, Status::Installing) {
            return Ok(Vec::new(self.alloc));
        }
        let length = self.group.len();
        // All members have installed the list, so all of it is acknowledged and committed.
        let acked = each_at(self.alloc, self.members.acting(), length)?;
        self.status = Status::Active;
        self.listed = Requests::none();
        self.committed = length;
        self.acked = acked;
        Ok(Vec::new(self.alloc))
    }
}

/// The same length for each of these nodes.
fn each_at(alloc: Global, nodes: &[NodeId], length: usize) -> Result<Vec<usize>, HandleError>
    ensures ok { IfOk result (λ v. v.items ≡ each_at nodes.now length) }
    ensures err { IfErr result (λ e. e ≡ HandleError.NoMemory) }
{
    let mut lengths = Vec::new(alloc);
    for _node in nodes {
        lengths.push(length)?;
    }
    Ok(lengths)
}

/// Makes a log a received list, and returns true, if the list is legal. Else, and at an error,
/// nothing changes. Log and list are at least as long as the committed list.
fn become_list<C: Classes>(
    table: &ClassTable,
    group: &mut Group<C>,
    committed: usize,
    list: &[Request],
) -> Result<bool, HandleError>
    requires legal { IsLegalBy table.now C.classes group.old }
    requires own { committed ≤ length group.old }
    requires list { committed ≤ length list.now }
    ensures legal { IfOk result (λ taken. taken ≡ is_none (first_refusal table.now list.now)) }
    ensures taken { IfOk result (λ taken. group.new ≡ (if taken then list.now else group.old)) }
    ensures within { committed ≤ length group.new }
    ensures err { OnErr result (group.new ≡ group.old) }
    ensures why { IfErr result (λ e. e ≡ HandleError.NoMemory) }
{
    // For the proof: `adopt` refuses exactly as replaying the list would, though it runs only the
    // rest.
    adopting();
    match group.adopt(table, list) {
        Ok(_common) => Ok(true),
        Err(error) => {
            if is_memory(error) {
                return Err(HandleError::NoMemory);
            }
            Ok(false)
        }
    }
}

/// True if memory was refused.
pub(crate) fn is_memory(error: LogError) -> bool
    ensures { result ≡ is_memory error }
{
    match error {
        LogError::NoMemory => true,
        _ => false,
    }
}

/// True if a list begins with the requests of these entries.
fn begins_with(entries: &[Entry], list: &[Request]) -> bool
    ensures { result ≡ begins (requests_of entries.now) list.now }
{
    if list.len() < entries.len() {
        return false;
    }
    for place in 0..entries.len() {
        if !is_same_request(&entries[place].request, &list[place]) {
            return false;
        }
    }
    true
}
