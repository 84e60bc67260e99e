//! Does the steps of a test.

use crate::hold::{Hold, TURNS, pause, reaches};
use crate::logs::{Answered, entries, gets, have, is_full, is_log, node_with, nodes_with, stand};
use crate::requests::{Asked, answer_to, call, is_mail, lock, look, request};
use crate::row::Server;
use crate::steps::{Held, Mail, OfNodes, OfWorkers, Step, Who};
use map_book::MapError;
use object_store::ObjectName;
use osd::{AskError, ClusterName, Open, OpenedSession, Running};
use placement::NodeId;
use rados_client::Session;
use std::alloc::Global;
use std::sync::Wait;
use std::sync::atomic::Ordering;
use std::thread::yield_now;

/// The looks without an answer after which a request is sent again.
const LOOKS: u32 = 20;

/// The requests that are queued before a node is stopped amid them.
const QUEUED: u32 = 20;

/// The class of the fence's requests. There is no such class, so they are refused.
const NO_CLASS: usize = 9;

/// A test's cluster, what its workers serve with, and what the steps have come to.
#[derive(Drop)]
pub struct Table<'a, N: ClusterName, R> {
    pub alloc: Global,
    pub running: &'a Running<N, R>,
    pub server: &'a Server,
    senders: Vec<OpenedSession<N>>,
    /// The place of the newest sender.
    by: usize,
    pub sessions: Vec<Session<'a, N, R>>,
    /// The answers that were kept.
    pub answers: Vec<Answered>,
    pub object: &'static str,
    /// The number of the fence's newest request.
    fence: u32,
    /// The counts at the mark.
    came: u64,
    others: u64,
    messages: u64,
}

impl<'a, N: ClusterName, R: Wait> Table<'a, N, R> {
    /// A table without a sender or a session, whose steps are about the object `a`.
    pub fn new(alloc: Global, running: &'a Running<N, R>, server: &'a Server) -> Table<'a, N, R> {
        Table {
            alloc,
            running,
            server,
            senders: Vec::new(alloc),
            by: 0,
            sessions: Vec::new(alloc),
            answers: Vec::new(alloc),
            object: "a",
            fence: 0,
            came: 0,
            others: 0,
            messages: 0,
        }
    }

    /// Does a step. False if it fails.
    #[rattlefmt::skip]
    pub fn does(&mut self, step: Step) -> bool {
        match step {
            Step::Open(client) => self.opens(client),
            Step::By(client) => self.goes_by(client),
            Step::Abandon(count) => self.abandons(count) == count,
            Step::LastSenders(count) => self.abandons(100) == count,
            Step::Object(object, group) => self.goes_to(object, group),
            Step::Ask(number, want) => self.asked(self.client(), number) == Some(want),
            Step::AskAll(first, last) => self.asks_all(first, last),
            Step::Answered(number, place, code) => self.answer(number) == Some((place, code)),
            Step::Called(number, place, code) => self.called(number) == Some((place, code)),
            Step::Comes(number, place, code) => self.reply(number) == Some((place, code)),
            Step::Done(client, number) => self.asks(client, number) && self.passes(),
            Step::Accepts(count) => self.accepted() == count,
            Step::Settle => self.settles(),
            Step::Nudge(group) => self.nudges(group),
            Step::Nudges(times, groups) => self.nudges_all(times, groups),
            Step::Nudged(group, operations) => self.is_nudged(group, operations),
            Step::NudgedWhileHeld(requests, operations) => self.is_nudged_while_held(requests, operations),
            Step::NudgedUntil(operations) => self.is_nudged_until(operations),
            Step::Mail(client, want) => self.finds(client, want),
            Step::Workers(step) => self.does_with_workers(step),
            Step::Nodes(step) => self.does_with_nodes(step),
            Step::Session(session, step) => self.does_with_session(session, step),
        }
    }

    /// Does a step with the workers. False if it fails.
    #[rattlefmt::skip]
    fn does_with_workers(&mut self, step: OfWorkers) -> bool {
        let Server { gate, fate, ended } = self.server;
        match step {
            OfWorkers::BeginMode => fate.set_mode(true),
            OfWorkers::EndMode => fate.set_mode(false),
            OfWorkers::LoseNext => fate.lose_next(),
            OfWorkers::Mark => self.marks(),
            OfWorkers::Messages(count) => fate.messages().wrapping_sub(self.messages) == count,
            OfWorkers::InOrder => fate.is_in_order(),
            OfWorkers::Came(count) => gate.came().wrapping_sub(self.came) == count,
            OfWorkers::Taken(count) => self.taken() == count,
            OfWorkers::Takes(count) => gate.takes_others(self.others.wrapping_add(count)),
            OfWorkers::Order(digits, client) => gate.has_order(digits, client),
            OfWorkers::Passed(count) => gate.takes_requests(count),
            OfWorkers::HoldAfter(operations) => gate.hold_after(operations),
            OfWorkers::IsHeld => gate.holds(),
            OfWorkers::Free => gate.free(),
            OfWorkers::Hold(held) => self.hold(held).want(),
            OfWorkers::Holds(held) => self.hold(held).holds(),
            OfWorkers::LetGo(held) => self.hold(held).free(),
            OfWorkers::Linger => gate.linger(),
            OfWorkers::OneAtATime => gate.is_one_at_a_time(),
            OfWorkers::Pause => is_done(pause()),
            OfWorkers::Serve(worker) => is_done(self.running.serve(worker, &Open)),
            OfWorkers::Finish => is_done(self.running.finish()),
            OfWorkers::Ended(count) => reaches(ended, count),
            OfWorkers::NoneEnded => ended.load(Ordering::SeqCst) == 0,
        }
    }

    /// Does a step with nodes, maps and logs. False if it fails.
    #[rattlefmt::skip]
    fn does_with_nodes(&mut self, step: OfNodes) -> bool {
        let running = self.running;
        match step {
            OfNodes::Map(up, want) => self.new_map(up) == Some(want),
            OfNodes::MapsInTurn(count) => self.makes_in_turn(count),
            OfNodes::Stop(who) => self.stops(who),
            OfNodes::Go(who) => self.goes_on(who),
            OfNodes::Entries(node, count) => entries(running, node, 0) == count,
            OfNodes::Gets(node, count) => gets(running, node, count),
            OfNodes::NodesWith(count, nodes) => nodes_with(running, count) == nodes,
            OfNodes::AllEntries(group, want) => have(running, group, want),
            OfNodes::Log(node, want) => is_log(running, node, want),
            OfNodes::FullLog(first, second, last) => is_full(running, first, second, last),
            OfNodes::AnswersStand(node) => stand(running, node, &self.answers),
            OfNodes::StopAmidRequests(times) => self.stops_amid_requests(times),
        }
    }

    fn hold(&self, held: Held) -> &Hold {
        match held {
            Held::First => &self.server.gate.first,
            Held::Other => &self.server.gate.other,
            Held::Message => &self.server.fate.hold,
        }
    }

    fn opens(&mut self, client: u32) -> bool {
        self.by = self.senders.len();
        match self.running.open() {
            Some(opened) => opened.client.get() == client && self.senders.push(opened).is_ok(),
            None => false,
        }
    }

    fn goes_by(&mut self, client: u32) -> bool {
        match self.place_of(client) {
            Some(place) => {
                self.by = place;
                true
            }
            None => false,
        }
    }

    /// The place of a client's sender.
    fn place_of(&self, client: u32) -> Option<usize> {
        for (place, sender) in self.senders.iter().enumerate() {
            if sender.client.get() == client {
                return Some(place);
            }
        }
        None
    }

    /// Opens senders, at most that many, and drops each at once. The number of them.
    fn abandons(&self, count: u32) -> u32 {
        for opened in 0..count {
            if self.running.open().is_none() {
                return opened;
            }
        }
        count
    }

    fn goes_to(&mut self, object: &'static str, group: usize) -> bool {
        self.object = object;
        match ObjectName::new(self.alloc, object) {
            Ok(name) => self.running.group_of(&name) == group,
            Err(_) => false,
        }
    }

    /// The newest sender's client, or 0.
    fn client(&self) -> u32 {
        match self.senders.get(self.by) {
            Some(sender) => sender.client.get(),
            None => 0,
        }
    }

    /// Has the newest sender ask for a client's request. None if memory is refused, or if there is
    /// no sender.
    fn asked(&mut self, client: u32, number: u32) -> Option<Result<(), AskError>> {
        let request = lock(self.alloc, client, number, self.object)?;
        let sender = self.senders.get_mut(self.by)?;
        Some(self.running.ask(&mut sender.sends, &request))
    }

    fn asks(&mut self, client: u32, number: u32) -> bool {
        self.asked(client, number) == Some(Ok(()))
    }

    fn asks_all(&mut self, first: u32, last: u32) -> bool {
        let client = self.client();
        for number in first..=last {
            if !self.asks_until_taken(client, number) {
                return false;
            }
        }
        true
    }

    fn asks_until_taken(&mut self, client: u32, number: u32) -> bool {
        for _ in 0..TURNS {
            if self.asks(client, number) {
                return true;
            }
            yield_now();
        }
        false
    }

    fn accepted(&mut self) -> u32 {
        let client = self.client();
        for accepted in 0..2_000 {
            let asked = self.asked(client, 1);
            if asked == Some(Err(AskError::NoRoom)) {
                return accepted;
            }
            if asked != Some(Ok(())) {
                return 2_001;
            }
        }
        2_000
    }

    /// Nudges and asks for the newest sender's request of that number until there is a reply: its
    /// place and its code. None after `TURNS` looks.
    fn answer(&mut self, number: u32) -> Option<(usize, i64)> {
        let client = self.client();
        let request = lock(self.alloc, client, number, self.object)?;
        let group = self.running.group_of(request.object());
        for turn in 0..TURNS {
            if turn % LOOKS == 0 {
                let _ = self.nudges(group);
                let _ = self.asks(client, number);
            }
            if let Some(Some(answer)) = look(self.running, &request) {
                return Some(answer);
            }
            yield_now();
        }
        None
    }

    /// Waits for the reply to the newest sender's request of that number.
    fn reply(&self, number: u32) -> Option<(usize, i64)> {
        let request = lock(self.alloc, self.client(), number, self.object)?;
        answer_to(self.running, &request)?
    }

    /// The place and the code of the newest sender's request of that number, which is sent again
    /// only once it is refused.
    fn called(&mut self, number: u32) -> Option<(usize, i64)> {
        let request = lock(self.alloc, self.client(), number, self.object)?;
        let sender = self.senders.get_mut(self.by)?;
        call(self.running, &mut sender.sends, &request)
    }

    /// Asks for the fence's next request, and waits until a worker takes it.
    fn passes(&mut self) -> bool {
        self.fence = self.fence.wrapping_add(1);
        self.is_fence_asked() && self.server.gate.passes(self.fence)
    }

    /// Asks for the fence's newest request.
    fn is_fence_asked(&mut self) -> bool {
        let asked = Asked {
            client: 1,
            number: self.fence,
            object: "a",
            class: NO_CLASS,
        };
        let Some(request) = request(self.alloc, asked) else {
            return false;
        };
        match self.senders.first_mut() {
            Some(sender) => self.running.ask(&mut sender.sends, &request).is_ok(),
            None => false,
        }
    }

    /// Waits until the worker takes nothing between two requests of the fence. The second is sent
    /// when it has taken the first.
    fn settles(&mut self) -> bool {
        for _ in 0..TURNS {
            if !self.passes() {
                return false;
            }
            let before = self.server.gate.all();
            if !self.passes() {
                return false;
            }
            if self.server.gate.all() == before {
                return true;
            }
        }
        false
    }

    pub fn nudges(&mut self, group: usize) -> bool {
        match self.senders.get_mut(self.by) {
            Some(sender) => {
                self.running.nudge(&mut sender.sends, group);
                true
            }
            None => false,
        }
    }

    fn nudges_all(&mut self, times: u32, groups: usize) -> bool {
        for _ in 0..times {
            for group in 0..groups {
                if !self.nudges(group) {
                    return false;
                }
            }
        }
        true
    }

    fn is_nudged(&mut self, group: usize, operations: u64) -> bool {
        self.marks() && self.nudges(group) && self.settles() && self.taken() == operations
    }

    fn is_nudged_while_held(&mut self, requests: u32, operations: u64) -> bool {
        let gate = &self.server.gate;
        // The worker is held with one more.
        let all = gate
            .requests()
            .wrapping_add(u64::from(requests))
            .wrapping_add(1);
        self.marks()
            && gate.hold_after(0)
            && self.asks(self.client(), 1)
            && gate.holds()
            && self.asks_again(requests)
            && self.nudges_all(5, 1)
            && gate.free()
            // So that the fence has room.
            && gate.takes_requests(all)
            && self.settles()
            && self.taken() == operations
    }

    /// Asks for the newest sender's first request, that many times.
    fn asks_again(&mut self, times: u32) -> bool {
        let client = self.client();
        for _ in 0..times {
            if !self.asks(client, 1) {
                return false;
            }
        }
        true
    }

    fn is_nudged_until(&mut self, operations: u64) -> bool {
        for _ in 0..TURNS {
            if self.server.gate.others() >= operations {
                return true;
            }
            let _ = self.nudges(0);
            yield_now();
        }
        false
    }

    fn finds(&self, client: u32, want: Mail) -> bool {
        let number = match want {
            Mail::Reply(number) => number,
            Mail::Anything | Mail::Nothing | Mail::Refusal => 1,
        };
        match lock(self.alloc, client, number, self.object) {
            Some(request) => is_mail(self.running, &request, want),
            None => false,
        }
    }

    fn marks(&mut self) -> bool {
        self.came = self.server.gate.came();
        self.others = self.server.gate.others();
        self.messages = self.server.fate.messages();
        true
    }

    /// The number of operations taken since the mark that aren't clients' requests.
    fn taken(&self) -> u64 {
        self.server.gate.others().wrapping_sub(self.others)
    }

    /// Makes a map of these up nodes. None if memory is refused.
    fn new_map(&self, up: &[u64]) -> Option<Result<u32, MapError>> {
        let mut nodes = Vec::new(self.alloc);
        for number in up {
            nodes.push(NodeId::new(*number)).ok()?;
        }
        Some(self.running.new_map(&nodes))
    }

    fn makes_in_turn(&self, count: u32) -> bool {
        for number in 0..count {
            let up: &[u64] = if number % 2 == 0 { &[0, 1] } else { &[0] };
            if !matches!(self.new_map(up), Some(Ok(_))) {
                return false;
            }
        }
        true
    }

    fn node(&self, who: Who) -> Option<NodeId> {
        let node = match who {
            Who::Node(node) => node,
            Who::With(count) => node_with(self.running, count)?,
        };
        Some(NodeId::new(node))
    }

    fn stops(&self, who: Who) -> bool {
        match self.node(who) {
            Some(node) => self.running.stop(node).is_ok(),
            None => false,
        }
    }

    fn goes_on(&self, who: Who) -> bool {
        match self.node(who) {
            Some(node) => self.running.go(node).is_ok(),
            None => false,
        }
    }

    fn stops_amid_requests(&mut self, times: u32) -> bool {
        for stop in 0..times {
            let first = stop.wrapping_mul(QUEUED).wrapping_add(1);
            let last = first.wrapping_add(QUEUED - 1);
            if !self.asks_all(first, last) || !self.stops_amid() {
                return false;
            }
        }
        true
    }

    /// Stops node 0, and lets it go on once the worker has taken all requests. True if its log grew
    /// no more after `stop`. The reads before that take the lock that the worker then waits for.
    fn stops_amid(&mut self) -> bool {
        let node = NodeId::new(0);
        for _ in 0..3 {
            let _ = entries(self.running, 0, 0);
        }
        if self.running.stop(node).is_err() {
            return false;
        }
        let stopped = entries(self.running, 0, 0);
        let is_done = self.passes();
        is_done && stopped == entries(self.running, 0, 0) && self.running.go(node).is_ok()
    }
}

/// True once that was done.
fn is_done(_done: ()) -> bool {
    true
}
