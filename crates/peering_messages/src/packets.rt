//! The messages of a node.
ghost use Rattle.std.specs.Prelude.{◌≡◌, ◌∷◌, ◌++◌, [], drop, IfOk, IfErr, OnOk, OnErr};
ghost use Rattle.pg_log.specs.Entries.{requests_of};
ghost use Rattle.group_world.specs.Node.{packet, to_all, to_others};
ghost use Rattle.group_world.specs.Unanswered.{to_missing, reps_from};
ghost use Rattle.peering_messages.specs.Sending.{adopted_sent, asked_if};

use crate::compare::are_among;
use group_world::{
    Epoch, GroupMap, HandleError, Message, MessageKind, Packet, Party, Place, Requests,
};
use pg_log::{Entry, Request};
use placement::{NodeId, has};
use std::alloc::Global;

/// An Install, before it is copied for a receiver.
#[derive(Clone, Copy)]
pub struct InstallRef<'a> {
    /// The map in which the receiver installs.
    pub map: &'a GroupMap,
    /// The list that it takes as its log.
    pub list: &'a Requests,
}

/// A Rep, before it is copied for a receiver.
#[derive(Clone, Copy)]
pub struct RepRef<'a> {
    /// The sender's interval.
    pub interval: Epoch,
    /// The place in the log.
    pub place: Place,
    /// The request at that place.
    pub request: &'a Request,
}

/// A primary's log in its interval, whose entries it sends in Reps.
#[derive(Clone, Copy)]
pub struct PrimaryLog<'a> {
    /// The interval.
    pub interval: Epoch,
    /// The log's entries.
    pub entries: &'a [Entry],
}

/// A message of a node.
pub fn packet(number: NodeId, receiver: Party, kind: MessageKind) -> Packet
    ensures { result ≡ packet number receiver kind }
{
    Packet {
        receiver,
        message: Message {
            sender: Party::Node(number),
            kind,
        },
    }
}

/// Adds a message to those that are sent. If memory is refused, they stay as they were.
pub fn send(sent: &mut Vec<Packet>, packet: Packet) -> Result<(), HandleError>
    ensures ok { OnOk result (sent.new.items ≡ sent.old.items ++ packet ∷ []) }
    ensures err { IfErr result (λ e. e ≡ HandleError.NoMemory) }
    ensures kept { OnErr result (sent.new.items ≡ sent.old.items) }
{
    sent.push(packet)?;
    Ok(())
}

/// A Query to each of these nodes.
pub fn query_to_all(
    alloc: Global,
    number: NodeId,
    nodes: &[NodeId],
    map: &GroupMap,
) -> Result<Vec<Packet>, HandleError>
    ensures ok { IfOk result (λ v. v.items ≡ to_all number nodes.now (MessageKind.Query map.now)) }
    ensures err { IfErr result (λ e. e ≡ HandleError.NoMemory) }
{
    let mut sent = Vec::new(alloc);
    for node in nodes {
        send_query(alloc, number, *node, map, &mut sent)?;
    }
    Ok(sent)
}

/// Sends a Query to a node.
fn send_query(
    alloc: Global,
    number: NodeId,
    node: NodeId,
    map: &GroupMap,
    sent: &mut Vec<Packet>,
) -> Result<(), HandleError>
    ensures ok { OnOk result (sent.new.items ≡ sent.old.items ++
        packet number (Party.Node node) (MessageKind.Query map.now) ∷ []) }
    ensures err { IfErr result (λ e. e ≡ HandleError.NoMemory) }
{
    let kind = MessageKind::Query(map.copy(alloc)?);
    send(sent, packet(number, Party::Node(node), kind))
}

/// The same Install to each of these nodes that isn't the sender and hasn't joined. They share the
/// list.
pub fn install_to_missing(
    alloc: Global,
    number: NodeId,
    joined: &[NodeId],
    nodes: &[NodeId],
    install: &InstallRef<'_>,
) -> Result<Vec<Packet>, HandleError>
    ensures ok { IfOk result (λ v. v.items ≡
        to_missing number joined.now nodes.now (MessageKind.Install install.now.map.now install.now.list.now)) }
    ensures err { IfErr result (λ e. e ≡ HandleError.NoMemory) }
{
    let mut sent = Vec::new(alloc);
    for node in nodes {
        if has(*node, joined) {
            continue;
        }
        if *node == number {
            continue;
        }
        send_install(alloc, number, *node, install, &mut sent)?;
    }
    Ok(sent)
}

/// Sends an Install to a node.
fn send_install(
    alloc: Global,
    number: NodeId,
    node: NodeId,
    install: &InstallRef<'_>,
    sent: &mut Vec<Packet>,
) -> Result<(), HandleError>
    ensures ok { OnOk result (sent.new.items ≡ sent.old.items ++
        packet number (Party.Node node) (MessageKind.Install install.now.map.now install.now.list.now) ∷ []) }
    ensures err { IfErr result (λ e. e ≡ HandleError.NoMemory) }
{
    let kind = MessageKind::Install(install.map.copy(alloc)?, install.list.copy()?);
    send(sent, packet(number, Party::Node(node), kind))
}

/// The same Rep to each of these nodes but the sender.
pub fn rep_to_others(
    alloc: Global,
    number: NodeId,
    nodes: &[NodeId],
    rep: &RepRef<'_>,
) -> Result<Vec<Packet>, HandleError>
    ensures ok { IfOk result (λ v. v.items ≡
        to_others number nodes.now (MessageKind.Rep rep.now.interval rep.now.place rep.now.request.now)) }
    ensures err { IfErr result (λ e. e ≡ HandleError.NoMemory) }
{
    let mut sent = Vec::new(alloc);
    for node in nodes {
        if *node == number {
            continue;
        }
        send_rep(number, *node, rep, &mut sent)?;
    }
    Ok(sent)
}

/// Sends a Rep to a node.
fn send_rep(
    number: NodeId,
    node: NodeId,
    rep: &RepRef<'_>,
    sent: &mut Vec<Packet>,
) -> Result<(), HandleError>
    ensures ok { OnOk result (sent.new.items ≡ sent.old.items ++
        packet number (Party.Node node) (MessageKind.Rep rep.now.interval rep.now.place rep.now.request.now) ∷ []) }
    ensures err { IfErr result (λ e. e ≡ HandleError.NoMemory) }
{
    let kind = MessageKind::Rep(rep.interval, rep.place, rep.request.copy()?);
    send(sent, packet(number, Party::Node(node), kind))
}

/// A Rep to one node of each of the log's entries from a place on.
pub fn reps_to(
    number: NodeId,
    node: NodeId,
    log: &PrimaryLog<'_>,
    from: Place,
    sent: &mut Vec<Packet>,
) -> Result<(), HandleError>
    ensures ok { OnOk result (sent.new.items ≡ sent.old.items ++
        reps_from number node log.now.interval from (requests_of (drop from log.now.entries.now))) }
    ensures err { IfErr result (λ e. e ≡ HandleError.NoMemory) }
{
    let entries = log.entries;
    for place in from..entries.len() {
        let rep = RepRef {
            interval: log.interval,
            place,
            request: &entries[place].request,
        };
        send_rep(number, node, &rep, sent)?;
    }
    Ok(())
}

/// The messages of a primary that adopts a list: Install to the others, and if it acts alone
/// AskActivate to the monitor.
#[tactic(auto, using(crate::proofs::Messages::to_missing_none))]
pub fn adoption(
    alloc: Global,
    number: NodeId,
    interval: Epoch,
    members: &GroupMap,
    list: &Requests,
) -> Result<Vec<Packet>, HandleError>
    ensures ok { IfOk result (λ v. v.items ≡ adopted_sent number interval members.now list.now) }
    ensures err { IfErr result (λ e. e ≡ HandleError.NoMemory) }
{
    let acting = members.acting();
    let install = InstallRef { map: members, list };
    let mut sent = install_to_missing(alloc, number, &[], acting, &install)?;
    ask_if(number, interval, are_among(acting, &[number]), &mut sent)?;
    Ok(sent)
}

/// Asks the monitor to activate the interval, if all have installed.
pub fn ask_if(
    number: NodeId,
    interval: Epoch,
    all: bool,
    sent: &mut Vec<Packet>,
) -> Result<(), HandleError>
    ensures ok { OnOk result (sent.new.items ≡ sent.old.items ++ asked_if number interval all) }
    ensures err { IfErr result (λ e. e ≡ HandleError.NoMemory) }
{
    if all {
        let kind = MessageKind::AskActivate(interval);
        send(sent, packet(number, Party::Monitor, kind))?;
    }
    Ok(())
}
