//! A node at a map: it learns one, or answers a Query or an Install that carries one.
ghost use Rattle.std.specs.Prelude.{◌≡◌, ◌≤◌, ◌++◌, ◌∷◌, [], length, unwrap_or, false, Some, ◌&&◌, ◌==◌, IfOk, IfErr};
ghost use Rattle.std.specs.Prelude.{OnOk, OnErr};
ghost use denote.Enum.Bare.{sameb};
ghost use Rattle.group_world.specs.Node.{and_sends, is_waiting, packet};
ghost use Rattle.group_world.specs.contracts.status.Status.{the_type};
ghost use Rattle.group_world.specs.Rules.{would_forget, ignores, arrive, lead, learn_map, answer_query, install};
ghost use Rattle.peering.specs.Numbered.{IsDone};
ghost use Rattle.peering_messages.specs.Sending.{IsLegalBy, adopted_sent};
ghost use Rattle.peering.specs.inner.Arriving.{after_move, Makes, log_after, interval_after, install_first};
ghost use Rattle.peering.specs.inner.Arriving.{install_again};

use crate::node::GroupNode;
use crate::node::arrival::Arrival;
use group_world::{Epoch, GroupMap, HandleError, MessageKind, Packet, Party, Status};
use peering_messages::{adoption, leads, packet, query_to_all, send};
use pg_log::{ClassTable, Classes, Group, Requests};
use placement::{NodeId, has};
use std::alloc::Global;

/// The list of an Install, and the node that sent it.
#[derive(Clone, Copy)]
struct ListFrom<'a> {
    sender: Party,
    list: &'a Requests,
}

impl<C: Classes> GroupNode<C> {
    /// Learns a map.
    pub(crate) fn learn_map(&mut self, map: GroupMap) -> Result<Vec<Packet>, HandleError>
        ensures done { IfOk result
            (λ sent. IsDone self.old self.new sent.items (learn_map self.old.number self.old.state map)) }
        ensures err { OnErr result (self.new ≡ self.old) }
        ensures why { IfErr result (λ e. e ≡ HandleError.NoMemory) }
    {
        if self.would_forget(&map) {
            return Ok(Vec::new(self.alloc));
        }
        // The step takes all the memory, and the move none: a refusal leaves the node as it was.
        let arrival = self.arrival(&map)?;
        Ok(arrival.moves(self, map))
    }

    /// Answers a Query: moves to its map first, then sends its list to the asker.
    pub(crate) fn answer_query(
        &mut self,
        asker: Party,
        map: GroupMap,
    ) -> Result<Vec<Packet>, HandleError>
        ensures done { IfOk result
            (λ sent. IsDone self.old self.new sent.items (answer_query self.old.number self.old.state asker map)) }
        ensures err { OnErr result (self.new ≡ self.old) }
        ensures why { IfErr result (λ e. e ≡ HandleError.NoMemory) }
    {
        if self.ignores(&map) {
            return Ok(Vec::new(self.alloc));
        }
        let arrival = self.answering(asker, &map)?;
        Ok(arrival.moves(self, map))
    }

    /// The step at the map of a Query that it doesn't ignore, with its Log.
    fn answering(&self, asker: Party, map: &GroupMap) -> Result<Arrival, HandleError>
        requires { would_forget self.now.number self.now.state map.now ≡ false }
        ensures ok { IfOk result
            (λ a. Makes self.now.state map.now a (and_sends (arrive self.now.number self.now.state map.now)
            (packet self.now.number asker (MessageKind.Log (arrive self.now.number self.now.state map.now).node.interval
            (arrive self.now.number self.now.state map.now).node.log)))) }
        ensures within { IfOk result (λ a. self.now.state.committed ≤ length (log_after self.now.state a.status)) }
        ensures err { IfErr result (λ e. e ≡ HandleError.NoMemory) }
    {
        let mut arrival = self.arrival(map)?;
        self.send_log(asker, map, arrival.status, &mut arrival.sent)?;
        Ok(arrival)
    }

    /// Sends its list after a move.
    fn send_log(
        &self,
        receiver: Party,
        map: &GroupMap,
        status: Option<Status>,
        sent: &mut Vec<Packet>,
    ) -> Result<(), HandleError>
        ensures ok { OnOk result (sent.new.items ≡ sent.old.items ++ packet self.now.number receiver
            (MessageKind.Log (interval_after self.now.state map.now status) (log_after self.now.state status)) ∷ []) }
        ensures err { IfErr result (λ e. e ≡ HandleError.NoMemory) }
    {
        let list = self.log_after(status)?;
        let kind = MessageKind::Log(self.interval_after(map, status), list);
        send(sent, packet(self.number, receiver, kind))
    }

    /// Sends Installed after a move.
    fn send_installed(
        &self,
        receiver: Party,
        map: &GroupMap,
        status: Option<Status>,
        sent: &mut Vec<Packet>,
    ) -> Result<(), HandleError>
        ensures ok { OnOk result (sent.new.items ≡ sent.old.items ++ packet self.now.number receiver
            (MessageKind.Installed (interval_after self.now.state map.now status)) ∷ []) }
        ensures err { IfErr result (λ e. e ≡ HandleError.NoMemory) }
    {
        let kind = MessageKind::Installed(self.interval_after(map, status));
        send(sent, packet(self.number, receiver, kind))
    }

    /// Takes the list of an Install, or sends Installed again if it has taken it: moves to its map
    /// first.
    pub(crate) fn install(
        &mut self,
        table: &ClassTable,
        sender: Party,
        map: GroupMap,
        list: Requests,
    ) -> Result<Vec<Packet>, HandleError>
        requires { IsLegalBy table.now C.classes self.old.state.log }
        ensures done { IfOk result (λ sent. IsDone self.old self.new sent.items
            (install table.now self.old.number self.old.state sender map list)) }
        ensures err { OnErr result (self.new ≡ self.old) }
        ensures why { IfErr result (λ e. e ≡ HandleError.NoMemory) }
    {
        if self.ignores(&map) {
            return Ok(Vec::new(self.alloc));
        }
        let arrival = self.arrival(&map)?;
        if is_waiting(self.status_after(arrival.status)) {
            let from = ListFrom {
                sender,
                list: &list,
            };
            return self.install_first(table, &from, map, arrival);
        }
        // An Install with an unusable list is ignored whole, the move to its map too.
        if !self.can_take(table, list.items())? {
            return Ok(Vec::new(self.alloc));
        }
        self.install_again(sender, map, arrival)
    }

    /// Takes the list of an Install, if it waits once it has moved.
    fn install_first(
        &mut self,
        table: &ClassTable,
        from: &ListFrom<'_>,
        map: GroupMap,
        mut arrival: Arrival,
    ) -> Result<Vec<Packet>, HandleError>
        requires legal { IsLegalBy table.now C.classes self.old.state.log }
        requires waits { unwrap_or arrival.status self.old.state.status ≡ Status.Waiting }
        ensures done { IfOk result (λ sent. IsDone self.old self.new sent.items
            (install_first table.now self.old.number self.old.state from.now.sender map from.now.list.now arrival)) }
        ensures err { OnErr result (self.new ≡ self.old) }
        ensures why { IfErr result (λ e. e ≡ HandleError.NoMemory) }
    {
        self.send_installed(from.sender, &map, arrival.status, &mut arrival.sent)?;
        if !self.take_list(table, from.list)? {
            return Ok(Vec::new(self.alloc));
        }
        // For the proof: `committed` ensures that the committed length is within the log.
        let _ = self.committed();
        let sent = arrival.moves(self, map);
        self.status = Status::Installed;
        Ok(sent)
    }

    /// Sends Installed again, if it has installed after the move. It takes nothing of the list.
    fn install_again(
        &mut self,
        sender: Party,
        map: GroupMap,
        mut arrival: Arrival,
    ) -> Result<Vec<Packet>, HandleError>
        requires { self.old.state.committed ≤ length (log_after self.old.state arrival.status) }
        ensures done { IfOk result (λ sent. IsDone self.old self.new sent.items
            (install_again self.old.number self.old.state sender map arrival)) }
        ensures err { OnErr result (self.new ≡ self.old) }
        ensures why { IfErr result (λ e. e ≡ HandleError.NoMemory) }
    {
        if let Status::Installed = self.status_after(arrival.status) {
            self.send_installed(sender, &map, arrival.status, &mut arrival.sent)?;
        }
        Ok(arrival.moves(self, map))
    }
}

impl<C: Classes> GroupNode<C> {
    /// True if the map would have a node that has committed adopt the empty list, and so forget.
    fn would_forget(&self, map: &GroupMap) -> bool
        ensures { result ≡ would_forget self.now.number self.now.state map.now }
    {
        // With `prev` 0 no interval was activated before: the primary asks nobody, and installs the
        // empty list.
        self.interval.get() < map.interval().get()
            && leads(map.acting(), self.number)
            && map.prev().get() == 0
            && 0 < self.committed
    }

    /// True if a message with this map is ignored: it is of an older interval, or would make the
    /// node forget.
    fn ignores(&self, map: &GroupMap) -> bool
        ensures { result ≡ ignores self.now.number self.now.state map.now }
    {
        map.interval().get() < self.interval.get() || self.would_forget(map)
    }

    /// True if it is in that interval, with that status.
    pub(crate) fn is_at(&self, interval: Epoch, status: Status) -> bool
        ensures { result ≡ ((interval == self.now.state.interval) && sameb the_type self.now.state.status status) }
    {
        interval == self.interval && self.status == status
    }

    /// The step at a map that it doesn't ignore.
    fn arrival(&self, map: &GroupMap) -> Result<Arrival, HandleError>
        requires { would_forget self.now.number self.now.state map.now ≡ false }
        ensures ok { IfOk result (λ a. Makes self.now.state map.now a (arrive self.now.number self.now.state map.now)) }
        ensures within { IfOk result (λ a. self.now.state.committed ≤ length (log_after self.now.state a.status)) }
        ensures err { IfErr result (λ e. e ≡ HandleError.NoMemory) }
    {
        let arrival = self.decided(map)?;
        // For the proof: `committed` ensures that the committed length is within the log.
        let _ = self.committed();
        Ok(arrival)
    }

    /// The step at a map: of a higher interval it moves, else it stays.
    fn decided(&self, map: &GroupMap) -> Result<Arrival, HandleError>
        ensures ok { IfOk result (λ a. Makes self.now.state map.now a (arrive self.now.number self.now.state map.now)) }
        ensures err { IfErr result (λ e. e ≡ HandleError.NoMemory) }
    {
        if map.interval().get() <= self.interval.get() {
            return Ok(quiet(self.alloc, None));
        }
        if leads(map.acting(), self.number) {
            return self.leading(map);
        }
        if has(self.number, map.acting()) {
            return Ok(quiet(self.alloc, Some(Status::Waiting)));
        }
        Ok(quiet(self.alloc, Some(Status::Out)))
    }

    /// The step of the primary of a map: it asks the members of the interval before, or, if there
    /// was none, installs the empty list.
    fn leading(&self, map: &GroupMap) -> Result<Arrival, HandleError>
        ensures ok { IfOk result (λ a. Makes self.now.state map.now a (lead self.now.number self.now.state map.now)) }
        ensures err { IfErr result (λ e. e ≡ HandleError.NoMemory) }
    {
        if map.prev().get() == 0 {
            return installing(
                self.alloc,
                self.number,
                map.interval(),
                map,
                &Requests::none(),
            );
        }
        Ok(Arrival {
            status: Some(Status::Asking),
            joined: Vec::new(self.alloc),
            sent: query_to_all(self.alloc, self.number, map.prev_acting(), map)?,
        })
    }

    /// Its status after a move.
    fn status_after(&self, status: Option<Status>) -> Status
        ensures { result ≡ unwrap_or status self.now.state.status }
    {
        match status {
            None => self.status,
            Some(status) => status,
        }
    }

    /// Its interval after a move.
    fn interval_after(&self, map: &GroupMap, status: Option<Status>) -> Epoch
        ensures { result ≡ interval_after self.now.state map.now status }
    {
        match status {
            None => self.interval,
            Some(_) => map.interval(),
        }
    }

    /// Its list after a move.
    fn log_after(&self, status: Option<Status>) -> Result<Requests, HandleError>
        ensures ok { IfOk result (λ l. l ≡ log_after self.now.state status) }
        ensures err { IfErr result (λ e. e ≡ HandleError.NoMemory) }
    {
        match status {
            Some(Status::Installing) => Ok(Requests::none()),
            _ => self.list(),
        }
    }

    /// Moves to a map with a status, or stays. It takes no memory.
    pub(crate) fn move_to(&mut self, map: GroupMap, status: Option<Status>, joined: Vec<NodeId>)
        requires { self.old.state.committed ≤ length (log_after self.old.state status) }
        ensures number { self.new.number ≡ self.old.number }
        ensures state { self.new.state ≡ after_move self.old.state map status joined.items }
    {
        let Some(status) = status else {
            return;
        };
        self.interval = map.interval();
        self.members = map;
        self.status = status;
        self.joined = joined;
        self.acked.clear();
        self.listed = Requests::none();
        if let Status::Installing = status {
            self.group = Group::new(self.alloc);
        }
    }
}

/// The step of a primary that adopts a list: it has installed the list, and has the others install
/// it.
pub(crate) fn installing(
    alloc: Global,
    number: NodeId,
    interval: Epoch,
    members: &GroupMap,
    list: &Requests,
) -> Result<Arrival, HandleError>
    ensures status { IfOk result (λ a. a.status ≡ Some Status.Installing) }
    ensures joined { IfOk result (λ a. a.joined.items ≡ number ∷ []) }
    ensures sent { IfOk result (λ a. a.sent.items ≡ adopted_sent number interval members.now list.now) }
    ensures err { IfErr result (λ e. e ≡ HandleError.NoMemory) }
{
    let mut joined = Vec::with_capacity(alloc, 1)?;
    // The primary counts among the members that have installed.
    joined.push_reserved(number);
    let sent = adoption(alloc, number, interval, members, list)?;
    Ok(Arrival {
        status: Some(Status::Installing),
        joined,
        sent,
    })
}

/// A step that sends nothing, and after which nobody has installed.
fn quiet(alloc: Global, status: Option<Status>) -> Arrival
    ensures status { result.status ≡ status }
    ensures joined { result.joined.items ≡ [] }
    ensures sent { result.sent.items ≡ [] }
{
    Arrival {
        status,
        joined: Vec::new(alloc),
        sent: Vec::new(alloc),
    }
}

/// True if a node with that status waits for the primary's list.
fn is_waiting(status: Status) -> bool
    ensures { result ≡ is_waiting status }
{
    match status {
        Status::Waiting => true,
        _ => false,
    }
}
