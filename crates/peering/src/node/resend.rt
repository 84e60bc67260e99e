//! The messages that a node sends again.
ghost use Rattle.std.specs.Prelude.{◌≡◌, ◌++◌, ◌+◌, ◌≤◌, ◌⊎◌, take, drop, IfOk, IfErr, OnOk};
ghost use Rattle.pg_log.specs.Entries.{requests_of};
ghost use Rattle.group_world.specs.Unanswered.{unanswered, unanswered_in, reps_unacked};
ghost use Rattle.peering.specs.inner.Arriving.{at_interval, reps_for, first, first_after};

use crate::node::GroupNode;
use group_world::{HandleError, Messages, Packet, Place, Status};
use peering_messages::{
    InstallRef, PrimaryLog, are_among, ask_if, install_to_missing, query_to_all, reps_to,
};
use pg_log::Classes;
use placement::NodeId;
use std::alloc::Global;

/// The members of a group in acting order, and how many entries each of them has acknowledged.
#[derive(Clone, Copy)]
struct Acknowledged<'a> {
    acting: &'a [NodeId],
    acked: &'a [usize],
}

impl<C: Classes> GroupNode<C> {
    /// The messages that it sent in its interval and that no answer covers, members in acting order
    /// (a Query goes to those of the interval before), places rising. It refuses by `NoMemory`
    /// alone.
    pub fn resend(&self) -> Result<Messages, HandleError>
        ensures ok { IfOk result (λ sent. sent ≡ unanswered self.now.number self.now.state) }
        ensures err { IfErr result (λ e. e ≡ HandleError.NoMemory) }
    {
        self.send_again(None)
    }

    /// The first `most` of the messages that `resend` gives. Of Reps it makes no more, however long
    /// the log is. It refuses by `NoMemory` alone.
    pub fn resend_first(&self, most: usize) -> Result<Messages, HandleError>
        ensures ok { IfOk result (λ sent. sent ≡ take most (unanswered self.now.number self.now.state)) }
        ensures err { IfErr result (λ e. e ≡ HandleError.NoMemory) }
    {
        self.send_again(Some(most))
    }

    /// The messages that `resend` gives, or the first ones, that many.
    fn send_again(&self, most: Option<usize>) -> Result<Messages, HandleError>
        ensures ok { IfOk result (λ sent. sent ≡ first most (unanswered self.now.number self.now.state)) }
        ensures err { IfErr result (λ e. e ≡ HandleError.NoMemory) }
    {
        let mut sent = self.unanswered(most)?;
        if let Some(most) = most {
            sent.truncate(most);
        }
        Ok(Messages::new(sent))
    }

    /// The same, with or without others behind them.
    #[tactic(auto, using(crate::proofs::Raising::reps_same))]
    fn unanswered(&self, most: Option<usize>) -> Result<Vec<Packet>, HandleError>
        ensures ok { IfOk result (λ v. first most v.items ≡
            first most (unanswered self.now.number self.now.state)) }
        ensures err { IfErr result (λ e. e ≡ HandleError.NoMemory) }
    {
        let (alloc, number) = (self.alloc, self.number);
        match self.status {
            Status::Out | Status::Waiting | Status::Installed => Ok(Vec::new(alloc)),
            Status::Asking => {
                query_to_all(alloc, number, self.members.prev_acting(), &self.members)
            }
            Status::Installing => self.installs_again(),
            Status::Active => {
                let log = PrimaryLog {
                    interval: self.interval,
                    entries: self.group.entries(),
                };
                let members = Acknowledged {
                    acting: self.members.acting(),
                    acked: &self.acked,
                };
                reps_unacked(alloc, number, &log, &members, most)
            }
        }
    }

    /// Install to the members that haven't installed, which share the list that was adopted, and
    /// AskActivate if all have.
    fn installs_again(&self) -> Result<Vec<Packet>, HandleError>
        ensures ok { IfOk result (λ v. v.items ≡ unanswered_in self.now.number self.now.state Status.Installing) }
        ensures err { IfErr result (λ e. e ≡ HandleError.NoMemory) }
    {
        let acting = self.members.acting();
        let list = self.list()?;
        let install = InstallRef {
            map: &self.members,
            list: &list,
        };
        let mut sent = install_to_missing(self.alloc, self.number, &self.joined, acting, &install)?;
        ask_if(
            self.number,
            self.interval,
            are_among(acting, &self.joined),
            &mut sent,
        )?;
        Ok(sent)
    }
}

/// A Rep to each of these members but the sender, of each place past its acknowledged length; or at
/// least the first ones of these, that many.
#[tactic(auto, using(crate::proofs::Raising::reps_end))]
fn reps_unacked(
    alloc: Global,
    number: NodeId,
    log: &PrimaryLog<'_>,
    members: &Acknowledged<'_>,
    most: Option<usize>,
) -> Result<Vec<Packet>, HandleError>
    ensures ok { IfOk result (λ v. first most v.items ≡ first most
        (reps_unacked number (at_interval log.now.interval (requests_of log.now.entries.now))
        members.now.acting.now members.now.acked.now)) }
    ensures err { IfErr result (λ e. e ≡ HandleError.NoMemory) }
{
    let (acting, acked) = (members.acting, members.acked);
    let mut sent = Vec::new(alloc);
    for place in 0..acting.len().min(acked.len()) {
        let from = acked[place];
        let wanted = wanted_from(log, from, most, sent.len());
        reps_for(number, acting[place], &wanted, from, &mut sent)?;
    }
    Ok(sent)
}

/// The log, or its beginning up to the last entry from a place on that is sent, if at most `most`
/// messages are wanted, of which `made` are made.
fn wanted_from<'a>(
    log: &PrimaryLog<'a>,
    from: Place,
    most: Option<usize>,
    made: usize,
) -> PrimaryLog<'a>
    ensures interval { result.interval ≡ log.now.interval }
    ensures entries { drop from result.entries.now ≡ first_after most made (drop from log.now.entries.now) }
{
    let entries = log.entries;
    let end = match most {
        None => entries.len(),
        Some(most) => end_of(from, entries.len(), most.saturating_sub(made)),
    };
    PrimaryLog {
        interval: log.interval,
        entries: &entries[..end],
    }
}

/// The end of `wanted` entries from a place on, in a list of that length.
fn end_of(from: Place, length: usize, wanted: usize) -> usize
    ensures within { result ≤ length }
    ensures end { (result ≡ from + wanted) ⊎ ((result ≡ length) × (length ≤ from + wanted)) }
{
    if from < length && wanted < length - from {
        from + wanted
    } else {
        length
    }
}

/// A Rep to a member of each place from one on, unless the member is the sender.
fn reps_for(
    number: NodeId,
    node: NodeId,
    log: &PrimaryLog<'_>,
    from: Place,
    sent: &mut Vec<Packet>,
) -> Result<(), HandleError>
    ensures ok { OnOk result (sent.new.items ≡ sent.old.items ++
        reps_for number node log.now.interval from (requests_of (drop from log.now.entries.now))) }
    ensures err { IfErr result (λ e. e ≡ HandleError.NoMemory) }
{
    if node == number {
        return Ok(());
    }
    reps_to(number, node, log, from, sent)
}
