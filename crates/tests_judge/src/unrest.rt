//! The events of a run: nodes are stopped and let go, groups are nudged, and maps are made.

use crate::history::is_settled;
use crate::lines::{push_done, push_map};
use crate::plan::{Event, PlannedEvent};
use crate::trouble::Trouble;
use osd::{ClusterName, OpenedSession, Running};
use std::alloc::Global;
use std::sync::Wait;
use std::thread::sleep;
use std::time::{Clock, Duration};

/// The wait between two nudges after the trouble.
const NUDGE_MICROSECONDS: u64 = 200;

/// The most nudges after the trouble.
const NUDGES: u32 = 3_000_000;

/// The most looks at the nodes' lists after the last call, and the wait between two looks.
const LOOKS: u32 = 10_000;

const LOOK_MICROSECONDS: u64 = 2_000;

/// The events, and the lines of those that were.
#[derive(Drop)]
pub struct Unrest {
    alloc: Global,
    events: Vec<PlannedEvent>,
    calm: Vec<PlannedEvent>,
    text: String,
    /// What went wrong, if anything did.
    pub fault: Option<&'static str>,
}

impl Unrest {
    /// Before the first event.
    pub fn new(alloc: Global, events: Vec<PlannedEvent>, calm: Vec<PlannedEvent>) -> Unrest {
        Unrest {
            alloc,
            events,
            calm,
            text: String::new(alloc),
            fault: None,
        }
    }

    /// The lines of the events.
    pub fn into_text(self) -> String {
        let Unrest {
            alloc: _,
            events,
            calm,
            text,
            fault: _,
        } = self;
        drop(events);
        drop(calm);
        text
    }

    /// Goes on for as long as callers call in the trouble, but not for ever, and then makes all
    /// calm.
    pub fn play<N: ClusterName, R: Wait + Clock>(
        &mut self,
        running: &Running<N, R>,
        trouble: &Trouble,
    ) {
        let Some(mut opened) = running.open() else {
            self.fault = Some("no session is left");
            return;
        };
        let text = &mut self.text;
        let calling = Some(trouble);
        let is_told = happen_all(running, &mut opened, calling, &self.events, text).is_some()
            && happen_all(running, &mut opened, None, &self.calm, text).is_some();
        if !is_told {
            self.fault = Some("memory is refused");
        }
        trouble.be_calm();
        wait_for_callers(running, &mut opened, trouble);
        settle(self.alloc, running, &mut opened);
    }
}

/// The events, while callers call or to the end. None if memory for their lines is refused.
fn happen_all<N: ClusterName, R: Wait + Clock>(
    running: &Running<N, R>,
    opened: &mut OpenedSession<N>,
    calling: Option<&Trouble>,
    events: &[PlannedEvent],
    text: &mut String,
) -> Option<()> {
    for event in events {
        if let Some(trouble) = calling {
            if !trouble.is_calling() {
                break;
            }
        }
        happen(running, opened, event, text)?;
    }
    Some(())
}

/// An event. None if memory for its line is refused.
fn happen<N: ClusterName, R: Wait + Clock>(
    running: &Running<N, R>,
    opened: &mut OpenedSession<N>,
    event: &PlannedEvent,
    text: &mut String,
) -> Option<()> {
    let item = event.item;
    match &event.event {
        Event::Pause(micros) => {
            sleep(running.runtime(), Duration::from_micros(*micros));
            Some(())
        }
        Event::Stop(node) => push_done(text, "stop", item, running.stop(*node).is_ok()).ok(),
        Event::Go(node) => push_done(text, "go", item, running.go(*node).is_ok()).ok(),
        Event::Nudge(group) => {
            running.nudge(&mut opened.sends, *group);
            Some(())
        }
        Event::Map(nodes) => push_map(text, item, running.new_map(nodes)).ok(),
    }
}

/// Waits for the last call, and nudges the groups meanwhile where callers are impatient.
fn wait_for_callers<N: ClusterName, R: Wait + Clock>(
    running: &Running<N, R>,
    opened: &mut OpenedSession<N>,
    trouble: &Trouble,
) {
    for _ in 0..NUDGES {
        if !trouble.is_ending() {
            break;
        }
        // Where other programs use the processors, a thousand looks of a session take long.
        if !trouble.goes_on() {
            nudge_all(running, opened);
        }
        sleep(running.runtime(), Duration::from_micros(NUDGE_MICROSECONDS));
    }
}

/// Nudges until the nodes that act for each group keep one list. A last call may be answered in an
/// interval before that of the newest map, if a full queue lost the map: the nodes that this map
/// brings back get what was answered after a nudge.
fn settle<N: ClusterName, R: Wait + Clock>(
    alloc: Global,
    running: &Running<N, R>,
    opened: &mut OpenedSession<N>,
) {
    for _ in 0..LOOKS {
        if is_settled(alloc, running) {
            break;
        }
        nudge_all(running, opened);
        sleep(running.runtime(), Duration::from_micros(LOOK_MICROSECONDS));
    }
}

fn nudge_all<N: ClusterName, R: Wait>(running: &Running<N, R>, opened: &mut OpenedSession<N>) {
    for group in 0..running.config().groups.min(64) as usize {
        running.nudge(&mut opened.sends, group);
    }
}
