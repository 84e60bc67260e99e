//! The plan of a run, as text: an item a line, its words with a blank between them.
//!
//! - `cluster NODES REPLICAS GROUPS SHARDS WORKERS TRIES`
//! - `trouble SEED LOST DOUBLED LATE KEPT ROUNDS`: how many of 1,024 messages are lost, doubled and
//!   late, and how many requests a gate keeps for a while, at random by the seed; and how often
//!   clients make their calls, unless the trouble is over or logs are full.
//! - `call CLIENT OBJECT CLASS METHOD HEX REPEATS AGAIN`: a call of a client, from 0 on, of a class
//!   by its id. It is repeated that often while it isn't answered, and so often once it is.
//! - `last CLIENT OBJECT CLASS METHOD HEX`: a call after the trouble.
//! - `pause MICROSECONDS`, `stop NODE`, `go NODE`, `nudge GROUP`, `map NODE ..`: an event.
//! - `calm`: clients make no more calls in the trouble, and it ends with the events from here on.

use file_words::{bytes_in, ended_lines, nodes_in, number_in, words};
use osd::Config;
use placement::NodeId;
use std::alloc::Global;

/// The numbers of a run.
#[derive(Clone, Copy)]
pub struct Numbers {
    pub config: Config,
    pub seed: u64,
    /// The shares of messages, of 1,024, that are lost, doubled and late; and of requests that a
    /// gate keeps for a while.
    pub lost: u64,
    pub doubled: u64,
    pub late: u64,
    pub kept: u64,
    /// How often clients make their calls.
    pub rounds: u64,
}

/// A call of a client, of the plan's line of that number from 0.
#[derive(Drop)]
pub struct PlannedCall {
    pub item: usize,
    pub object: String,
    pub class: usize,
    pub method: String,
    pub input: Vec<u8>,
    pub repeats: u64,
    pub again: u64,
}

/// The calls of a client, in the trouble and after it.
#[derive(Drop)]
pub struct PlannedClient {
    pub calls: Vec<PlannedCall>,
    pub last: Vec<PlannedCall>,
}

/// An event of the trouble.
#[derive(Drop)]
pub enum Event {
    Pause(u64),
    Stop(NodeId),
    Go(NodeId),
    Nudge(usize),
    Map(Vec<NodeId>),
}

/// An event, of the plan's line of that number from 0.
#[derive(Drop)]
pub struct PlannedEvent {
    pub item: usize,
    pub event: Event,
}

/// A plan.
#[derive(Drop)]
pub struct Plan {
    pub numbers: Numbers,
    pub clients: Vec<PlannedClient>,
    pub events: Vec<PlannedEvent>,
    pub calm: Vec<PlannedEvent>,
    pub is_calm: bool,
}

/// Reads a plan. None if it is wrong, or memory is refused.
pub fn read_plan(alloc: Global, text: &str) -> Option<Plan> {
    let lines = ended_lines(alloc, text).ok()?;
    let [cluster, trouble, rest @ ..] = lines.as_slice() else {
        return None;
    };
    let config = config_of(&numbers_after(alloc, "cluster", *cluster)?)?;
    let mut plan = Plan {
        numbers: numbers_of(config, &numbers_after(alloc, "trouble", *trouble)?)?,
        clients: Vec::new(alloc),
        events: Vec::new(alloc),
        calm: Vec::new(alloc),
        is_calm: false,
    };
    for (place, line) in rest.iter().enumerate() {
        let words = words(alloc, *line).ok()?;
        plan.add(alloc, place.saturating_add(2), &words)?;
    }
    Some(plan)
}

/// The numbers of a line after its first word.
fn numbers_after(alloc: Global, first: &str, line: &str) -> Option<Vec<u64>> {
    let words = words(alloc, line).ok()?;
    let (word, rest) = words.split_first()?;
    if *word != first {
        return None;
    }
    let mut numbers = Vec::new(alloc);
    for word in rest {
        numbers.push(number_in(*word)?).ok()?;
    }
    Some(numbers)
}

fn config_of(numbers: &[u64]) -> Option<Config> {
    let [nodes, replicas, groups, shards, workers, tries] = numbers else {
        return None;
    };
    Some(Config {
        nodes: *nodes,
        replicas: usize::try_from(*replicas).ok()?,
        groups: *groups,
        shards: usize::try_from(*shards).ok()?,
        workers: usize::try_from(*workers).ok()?,
        tries: u32::try_from(*tries).ok()?,
    })
}

fn numbers_of(config: Config, numbers: &[u64]) -> Option<Numbers> {
    let [seed, lost, doubled, late, kept, rounds] = numbers else {
        return None;
    };
    Some(Numbers {
        config,
        seed: *seed,
        lost: *lost,
        doubled: *doubled,
        late: *late,
        kept: *kept,
        rounds: *rounds,
    })
}

/// A number that is a place.
fn place_in(word: &str) -> Option<usize> {
    usize::try_from(number_in(word)?).ok()
}

fn node_in(word: &str) -> Option<NodeId> {
    Some(NodeId::new(number_in(word)?))
}

impl Plan {
    /// Adds the item of a line.
    fn add(&mut self, alloc: Global, item: usize, words: &[&str]) -> Option<()> {
        let (first, rest) = words.split_first()?;
        match *first {
            "call" => self.add_call(alloc, item, rest),
            "last" => self.add_last(alloc, item, rest),
            "calm" => {
                self.is_calm = true;
                Some(())
            }
            _ => {
                let event = event_in(alloc, *first, rest)?;
                self.add_event(PlannedEvent { item, event })
            }
        }
    }

    fn add_call(&mut self, alloc: Global, item: usize, words: &[&str]) -> Option<()> {
        let [client, object, class, method, input, repeats, again] = words else {
            return None;
        };
        let mut call = call_in(alloc, item, &[*object, *class, *method, *input])?;
        call.repeats = number_in(*repeats)?;
        call.again = number_in(*again)?;
        self.client(alloc, *client)?.calls.push(call).ok()
    }

    fn add_last(&mut self, alloc: Global, item: usize, words: &[&str]) -> Option<()> {
        let (client, rest) = words.split_first()?;
        let call = call_in(alloc, item, rest)?;
        self.client(alloc, *client)?.last.push(call).ok()
    }

    /// The client of a number: one of those so far, or the next one.
    fn client(&mut self, alloc: Global, word: &str) -> Option<&mut PlannedClient> {
        let place = place_in(word)?;
        if place == self.clients.len() {
            let client = PlannedClient {
                calls: Vec::new(alloc),
                last: Vec::new(alloc),
            };
            self.clients.push(client).ok()?;
        }
        self.clients.get_mut(place)
    }

    fn add_event(&mut self, event: PlannedEvent) -> Option<()> {
        if self.is_calm {
            self.calm.push(event).ok()
        } else {
            self.events.push(event).ok()
        }
    }
}

/// A call that is never repeated.
fn call_in(alloc: Global, item: usize, words: &[&str]) -> Option<PlannedCall> {
    let [object, class, method, input] = words else {
        return None;
    };
    Some(PlannedCall {
        item,
        object: String::from_str(alloc, *object).ok()?,
        class: place_in(*class)?,
        method: String::from_str(alloc, *method).ok()?,
        input: bytes_in(alloc, *input).ok()??.into_items(),
        repeats: 0,
        again: 0,
    })
}

fn event_in(alloc: Global, first: &str, rest: &[&str]) -> Option<Event> {
    match (first, rest) {
        ("pause", [micros]) => Some(Event::Pause(number_in(*micros)?)),
        ("stop", [node]) => Some(Event::Stop(node_in(*node)?)),
        ("go", [node]) => Some(Event::Go(node_in(*node)?)),
        ("nudge", [group]) => Some(Event::Nudge(place_in(*group)?)),
        ("map", nodes) => {
            let nodes = nodes_in(alloc, nodes).ok()??;
            Some(Event::Map(Vec::from_slice(alloc, nodes.items()).ok()?))
        }
        _ => None,
    }
}
