//! An active primary and its members: requests, their replication, and acknowledgements.
ghost use Rattle.std.specs.Prelude.{◌≡◌, ◌≤◌, ◌+◌, ◌++◌, ◌∷◌, [], length, max, if◌then◌else◌, is_none, IfOk, IfErr};
ghost use Rattle.std.specs.Prelude.{OnOk, OnErr, None, Some};
ghost use mathlib.Core.List.{IsPrefix};
ghost use Rattle.pg_log.specs.Refusals.{place_of, refusal};
ghost use Rattle.group_world.specs.Rules.{request as request_step, request_at, append_new, replicate, acknowledge};
ghost use Rattle.group_world.specs.Rules.{least_of, raised};
ghost use Rattle.pg_log.specs.Entries.{IsNextEntry};
ghost use Rattle.peering.specs.Numbered.{IsDone, IsRefusal};
ghost use Rattle.peering_messages.specs.Sending.{IsLegalBy, IsNextReply};
ghost use Rattle.peering.specs.inner.Arriving.{acks_if, sent_with, grown};

use crate::node::GroupNode;
use crate::node::lead::is_memory;
use group_world::{HandleError, MessageKind, Packet, Party, Place, Status};
use peering_messages::{RepRef, Replier, packet, rep_to_others};
use pg_log::{
    ClassTable, Classes, Entry, Request, Requests, classes_added, legal_lists, pairs, refusals,
};
use placement::NodeId;
use replication::{Ack, Rep, append_at, commit_point};
use std::alloc::Global;

/// The acknowledged lengths and the commit point of a primary after an event, and its messages.
#[derive(Drop)]
struct Commit {
    acked: Vec<usize>,
    point: Place,
    sent: Vec<Packet>,
}

impl<C: Classes> GroupNode<C> {
    /// A client's request.
    pub(crate) fn request(
        &mut self,
        table: &ClassTable,
        request: Request,
    ) -> Result<Vec<Packet>, HandleError>
        requires legal { IsLegalBy table.now C.classes self.old.state.log }
        ensures done { IfOk result (λ sent. IsDone self.old self.new sent.items
            (request_step table.now self.old.number self.old.state request)) }
        ensures err { OnErr result (self.new ≡ self.old) }
        ensures why { IfErr result (λ e. IsRefusal (request_step table.now self.old.number self.old.state request) e) }
    {
        match self.status {
            Status::Active => self.serve(table, request),
            Status::Asking | Status::Installing => Err(HandleError::Peering),
            Status::Out | Status::Waiting | Status::Installed => Err(HandleError::NotPrimary),
        }
    }

    /// A client's request at an active primary.
    fn serve(&mut self, table: &ClassTable, request: Request) -> Result<Vec<Packet>, HandleError>
        requires legal { IsLegalBy table.now C.classes self.old.state.log }
        ensures done { IfOk result
            (λ sent. IsDone self.old self.new sent.items (request_at table.now self.old.number self.old.state request
            (place_of request.client request.number self.old.state.log))) }
        ensures err { OnErr result (self.new ≡ self.old) }
        ensures why { IfErr result
            (λ e. IsRefusal (request_at table.now self.old.number self.old.state request
            (place_of request.client request.number self.old.state.log)) e) }
    {
        match self.group().reply_of(request.client(), request.number()) {
            None => self.append(table, request),
            Some((place, _, _)) => self.answer_again(table, &request, place),
        }
    }

    /// The answer to a logged request, if it is committed.
    fn answer_again(
        &self,
        table: &ClassTable,
        request: &Request,
        place: Place,
    ) -> Result<Vec<Packet>, HandleError>
        requires legal { IsLegalBy table.now C.classes self.now.state.log }
        requires logged { place_of request.now.client request.now.number self.now.state.log ≡ Some place }
        ensures done { IfOk result (λ sent. IsDone self.now self.now sent.items
            (request_at table.now self.now.number self.now.state request.now (Some place))) }
        ensures why { IfErr result (λ e. e ≡ HandleError.NoMemory) }
    {
        // For the proof: the place of a logged pair is in range, and has the pair.
        pairs();
        if place >= self.committed() {
            return Ok(Vec::new(self.alloc));
        }
        let replier = Replier {
            alloc: self.alloc,
            number: self.number,
            table,
            group: &self.group,
        };
        let said = replier.reply_again(place)?;
        let mut sent = Vec::with_capacity(self.alloc, 1)?;
        sent.push_reserved(said);
        Ok(sent)
    }

    /// Appends a request that isn't logged.
    fn append(&mut self, table: &ClassTable, request: Request) -> Result<Vec<Packet>, HandleError>
        requires legal { IsLegalBy table.now C.classes self.old.state.log }
        ensures done { IfOk result (λ sent. IsDone self.old self.new sent.items
            (request_at table.now self.old.number self.old.state request None)) }
        ensures err { OnErr result (self.new ≡ self.old) }
        ensures why { IfErr result
            (λ e. IsRefusal (request_at table.now self.old.number self.old.state request None) e) }
    {
        // It runs before anything is sent, and each message is built before the entry is kept: so
        // refusals 1 to 7 come before 8, and a refusal leaves the node as it was.
        let entry = self.next(table, request)?;
        self.keep_next(table, entry)
    }

    /// Keeps the entry that a new request is, and sends it to the others.
    fn keep_next(&mut self, table: &ClassTable, entry: Entry) -> Result<Vec<Packet>, HandleError>
        requires legal { IsLegalBy table.now C.classes self.old.state.log }
        requires next { IsNextEntry C.classes self.old.state.log entry }
        requires reply { IsNextReply table.now self.old.state.log entry }
        ensures done { IfOk result (λ sent. IsDone self.old self.new sent.items
            (append_new table.now self.old.number self.old.state entry.request)) }
        ensures err { OnErr result (self.new ≡ self.old) }
        ensures why { IfErr result (λ e. e ≡ HandleError.NoMemory) }
    {
        let commit = self.commit_new(table, &entry)?;
        self.grow(entry, commit)
    }

    /// The acknowledged lengths, the commit point and the messages with the entry of a new request.
    fn commit_new(&self, table: &ClassTable, entry: &Entry) -> Result<Commit, HandleError>
        requires legal { IsLegalBy table.now C.classes self.now.state.log }
        requires reply { IsNextReply table.now self.now.state.log entry.now }
        ensures ok { IfOk result (λ w. grown self.now.state entry.now.request w ≡
            append_new table.now self.now.number self.now.state entry.now.request) }
        ensures within { IfOk result (λ w. w.point ≤ length self.now.state.log + 1) }
        ensures err { IfErr result (λ e. e ≡ HandleError.NoMemory) }
    {
        let length = self.group.len() + 1;
        let acting = self.members.acting();
        let acked = raised(self.alloc, &self.acked, acting, self.number, length)?;
        let point = self.committed.max(least_of(length, &acked));
        let sent = self.sent_with(table, entry, point)?;
        Ok(Commit { acked, point, sent })
    }

    /// A Rep of a new request to each other member, and the Replies to the requests that are
    /// committed with it, up to a place.
    fn sent_with(
        &self,
        table: &ClassTable,
        entry: &Entry,
        point: Place,
    ) -> Result<Vec<Packet>, HandleError>
        requires legal { IsLegalBy table.now C.classes self.now.state.log }
        requires reply { IsNextReply table.now self.now.state.log entry.now }
        requires within { point ≤ length self.now.state.log + 1 }
        ensures ok { IfOk result (λ v. v.items ≡
            sent_with table.now self.now.number self.now.state entry.now.request point) }
        ensures err { IfErr result (λ e. e ≡ HandleError.NoMemory) }
    {
        let rep = RepRef {
            interval: self.interval,
            place: self.group.len(),
            request: &entry.request,
        };
        let mut sent = rep_to_others(self.alloc, self.number, self.members.acting(), &rep)?;
        let replier = Replier {
            alloc: self.alloc,
            number: self.number,
            table,
            group: &self.group,
        };
        replier.replies_with(entry, self.committed, point, &mut sent)?;
        Ok(sent)
    }

    /// Logs the entry of a new request, and takes over acknowledged lengths and commit point.
    fn grow(&mut self, entry: Entry, commit: Commit) -> Result<Vec<Packet>, HandleError>
        requires next { IsNextEntry C.classes self.old.state.log entry }
        requires within { commit.point ≤ length self.old.state.log + 1 }
        ensures done { IfOk result
            (λ sent. IsDone self.old self.new sent.items (grown self.old.state entry.request commit)) }
        ensures err { OnErr result (self.new ≡ self.old) }
        ensures why { IfErr result (λ e. e ≡ HandleError.NoMemory) }
    {
        if self.group.keep(entry).is_err() {
            return Err(HandleError::NoMemory);
        }
        self.listed = Requests::none();
        self.acked = commit.acked;
        self.committed = commit.point;
        Ok(commit.sent)
    }

    /// The entry that a new request would be. It leaves the node as it was.
    fn next(&mut self, table: &ClassTable, request: Request) -> Result<Entry, HandleError>
        requires { IsLegalBy table.now C.classes self.old.state.log }
        ensures next { IfOk result (λ e. IsNextEntry C.classes self.old.state.log e) }
        ensures request { IfOk result (λ e. e.request ≡ request) }
        ensures unrefused { IfOk result (λ _. refusal table.now self.old.state.log request ≡ None) }
        ensures reply { IfOk result (λ e. IsNextReply table.now self.old.state.log e) }
        ensures same { self.new ≡ self.old }
        ensures why { IfErr result
            (λ e. IsRefusal (request_at table.now self.old.number self.old.state request None) e) }
    {
        // For the proof: a list with one request more is legal exactly if nothing refuses the
        // request, and added classes change nothing of a legal list.
        legal_lists();
        refusals();
        classes_added();
        // Each answer returns by itself: the prover would lose its facts at a merge point of both.
        let entry = match self.group.next_entry(table, request) {
            Ok(entry) => entry,
            Err(error) => return Err(HandleError::from(error)),
        };
        Ok(entry)
    }
}

impl<C: Classes> GroupNode<C> {
    /// A Rep at a member.
    pub(crate) fn replicate(
        &mut self,
        table: &ClassTable,
        sender: Party,
        rep: Rep,
    ) -> Result<Vec<Packet>, HandleError>
        requires { IsPrefix table.now C.classes }
        ensures done { IfOk result (λ sent. IsDone self.old self.new sent.items
            (replicate table.now self.old.number self.old.state sender rep.epoch rep.place rep.request)) }
        ensures err { OnErr result (self.new ≡ self.old) }
        ensures why { IfErr result (λ e. e ≡ HandleError.NoMemory) }
    {
        // Room for the Ack comes first: once the request is logged, nothing may be refused.
        let mut sent = Vec::with_capacity(self.alloc, 1)?;
        match self.takes_rep(table, rep)? {
            None => Ok(sent),
            Some(length) => {
                let kind = MessageKind::Ack(self.interval, length);
                sent.push_reserved(packet(self.number, sender, kind));
                Ok(sent)
            }
        }
    }

    /// Puts the request of a Rep at its place, if the node has installed and the request may
    /// follow, and gives the length to acknowledge, if any.
    fn takes_rep(&mut self, table: &ClassTable, rep: Rep) -> Result<Option<usize>, HandleError>
        requires { IsPrefix table.now C.classes }
        ensures number { OnOk result (self.new.number ≡ self.old.number) }
        ensures acks { IfOk result (λ length. (sender : Party) →
            acks_if self.old.number sender self.new.state length ≡
            replicate table.now self.old.number self.old.state sender rep.epoch rep.place rep.request) }
        ensures err { OnErr result (self.new ≡ self.old) }
        ensures why { IfErr result (λ e. e ≡ HandleError.NoMemory) }
    {
        if !self.is_at(rep.epoch, Status::Installed) {
            return Ok(None);
        }
        // The log may grow, and by the invariant a list that is kept equals it.
        self.listed = Requests::none();
        match append_at(&mut self.group, table, rep) {
            Ok(length) => Ok(length),
            Err(error) => {
                if is_memory(error) {
                    return Err(HandleError::NoMemory);
                }
                Ok(None)
            }
        }
    }

    /// An Ack at the primary.
    pub(crate) fn acknowledge(
        &mut self,
        table: &ClassTable,
        ack: Ack,
    ) -> Result<Vec<Packet>, HandleError>
        requires { IsLegalBy table.now C.classes self.old.state.log }
        ensures done { IfOk result (λ sent. IsDone self.old self.new sent.items
            (acknowledge table.now self.old.number self.old.state (Party.Node ack.sender) ack.epoch ack.length)) }
        ensures err { OnErr result (self.new ≡ self.old) }
        ensures why { IfErr result (λ e. e ≡ HandleError.NoMemory) }
    {
        if !self.is_at(ack.epoch, Status::Active) {
            return Ok(Vec::new(self.alloc));
        }
        let acting = self.members.acting();
        let acked = raised(self.alloc, &self.acked, acting, ack.sender, ack.length)?;
        let point = self.committed.max(least_of(self.group.len(), &acked));
        let replier = Replier {
            alloc: self.alloc,
            number: self.number,
            table,
            group: &self.group,
        };
        let sent = replier.replies(self.committed, point)?;
        self.acked = acked;
        self.committed = point;
        Ok(sent)
    }
}

/// The least of a length and the acknowledged lengths.
#[tactic(auto, using(crate::proofs::Raising::least_same))]
fn least_of(length: usize, acked: &[usize]) -> usize
    ensures value { result ≡ least_of length acked.now }
    ensures within { result ≤ length }
{
    if acked.is_empty() {
        return length;
    }
    length.min(commit_point(acked))
}

/// The acknowledged lengths with that of a member raised.
#[tactic(auto, using(crate::proofs::Raising::raised_end))]
fn raised(
    alloc: Global,
    acked: &[usize],
    acting: &[NodeId],
    member: NodeId,
    length: usize,
) -> Result<Vec<usize>, HandleError>
    ensures ok { IfOk result (λ v. v.items ≡ raised member length acting.now acked.now) }
    ensures err { IfErr result (λ e. e ≡ HandleError.NoMemory) }
{
    let common = acting.len().min(acked.len());
    let mut lengths = Vec::new(alloc);
    for place in 0..common {
        lengths.push(greater_if(acting[place] == member, acked[place], length))?;
    }
    lengths.extend_from_slice(&acked[common..])?;
    Ok(lengths)
}

/// The greater of two lengths, or the first.
fn greater_if(same: bool, old: usize, length: usize) -> usize
    ensures { result ≡ (if same then max old length else old) }
{
    if same { old.max(length) } else { old }
}
