//! A client that calls without pause.

use crate::lines::{Sent, push_call};
use crate::plan::{PlannedCall, PlannedClient};
use crate::trouble::Trouble;
use object_store::ObjectName;
use osd::{ClusterName, Running};
use rados_client::{ClassId, ExecError, ExecReply, Session};
use std::alloc::Global;
use std::sync::Wait;
use std::time::Clock;

/// The most looks and submits of a call after the trouble, by all its repeats.
const LAST_TRIES: u32 = 20_000_000;

/// How often a client sees a full log before it goes on to its last calls.
const REFUSALS: u32 = 3;

/// A client, and the lines of what it called.
#[derive(Drop)]
pub struct Caller {
    client: PlannedClient,
    text: String,
    /// Why it ended early, if it did.
    pub fault: Option<&'static str>,
}

/// The end of a call, as far as it says what to do next.
#[derive(Clone, Copy, PartialEq, Eq)]
enum End {
    Answered,
    Full,
    Refused,
    /// Nobody knows whether it ran.
    Open,
}

/// A client at work.
#[derive(Drop)]
struct AtWork<'a, N: ClusterName, R> {
    alloc: Global,
    session: Session<'a, N, R>,
    trouble: &'a Trouble,
    /// The number of requests so far.
    number: u32,
    text: String,
}

impl Caller {
    /// A client that has called nothing.
    pub fn new(alloc: Global, client: PlannedClient) -> Caller {
        Caller {
            client,
            text: String::new(alloc),
            fault: None,
        }
    }

    /// The lines of its calls.
    pub fn into_text(self) -> String {
        let Caller {
            client,
            text,
            fault: _,
        } = self;
        drop(client);
        text
    }

    /// Makes all calls: those in the trouble, and the last ones.
    pub fn play<N: ClusterName, R: Wait + Clock>(
        &mut self,
        alloc: Global,
        running: &Running<N, R>,
        trouble: &Trouble,
    ) {
        match Session::open(running) {
            Ok(session) => {
                let mut work = AtWork {
                    alloc,
                    session,
                    trouble,
                    number: 0,
                    text: String::new(alloc),
                };
                self.play_both(&mut work, running.runtime());
                self.text = work.into_text();
            }
            Err(_) => {
                self.fault = Some("no session");
                trouble.end_calling();
            }
        }
        trouble.end();
    }

    fn play_both<N: ClusterName, R: Wait + Clock>(
        &mut self,
        work: &mut AtWork<'_, N, R>,
        clock: &R,
    ) {
        let is_told = work.in_trouble(&self.client.calls).is_some();
        work.trouble.end_calling();
        if !is_told {
            self.fault = Some("memory is refused");
        } else if !work.trouble.waits_for_calm(clock) {
            self.fault = Some("the trouble doesn't end");
        } else if work.after_trouble(&self.client.last) != Some(true) {
            self.fault = Some("a last call isn't answered");
        }
    }
}

impl<N: ClusterName, R: Wait> AtWork<'_, N, R> {
    /// The lines of its calls.
    fn into_text(self) -> String {
        let AtWork {
            alloc: _,
            session,
            trouble: _,
            number: _,
            text,
        } = self;
        drop(session);
        text
    }

    /// Makes the calls in the trouble. None if memory is refused, here and below.
    fn in_trouble(&mut self, calls: &[PlannedCall]) -> Option<()> {
        let mut refused: u32 = 0;
        for _ in 0..self.trouble.numbers.rounds {
            if !self.round(calls, &mut refused)? {
                break;
            }
        }
        Some(())
    }

    /// Makes each call. False if that is to be the end.
    fn round(&mut self, calls: &[PlannedCall], refused: &mut u32) -> Option<bool> {
        for call in calls {
            if self.call(call)? == End::Full {
                *refused = refused.saturating_add(1);
            }
            if *refused >= REFUSALS || self.trouble.is_over() {
                return Some(false);
            }
        }
        Some(true)
    }

    /// Makes the last calls. False if one isn't answered.
    fn after_trouble(&mut self, calls: &[PlannedCall]) -> Option<bool> {
        let mut are_all = true;
        for call in calls {
            are_all = self.insist(call)? != End::Open && are_all;
        }
        Some(are_all)
    }

    /// A call, which is repeated some times if it is unanswered, and if it is answered.
    fn call(&mut self, call: &PlannedCall) -> Option<End> {
        let mut end = self.exec(call)?;
        for repeat in 0..call.repeats.max(call.again) {
            let most = if end == End::Open {
                call.repeats
            } else {
                call.again
            };
            if repeat >= most {
                break;
            }
            end = self.retry(call)?;
        }
        Some(end)
    }

    /// A call, which is repeated until it is answered.
    fn insist(&mut self, call: &PlannedCall) -> Option<End> {
        let mut end = self.exec(call)?;
        for _ in 0..LAST_TRIES / self.trouble.numbers.config.tries.max(1) {
            if end != End::Open {
                break;
            }
            end = self.retry(call)?;
        }
        Some(end)
    }

    /// Makes a call.
    fn exec(&mut self, call: &PlannedCall) -> Option<End> {
        let object = ObjectName::new(self.alloc, &call.object).ok()?;
        let class = ClassId::new(call.class);
        self.number = self.number.wrapping_add(1);
        let began = self.trouble.tick();
        let answer = self
            .session
            .exec(self.alloc, &object, class, &call.method, &call.input);
        self.tell(call, began, &answer)
    }

    /// Makes the call again.
    fn retry(&mut self, call: &PlannedCall) -> Option<End> {
        let began = self.trouble.tick();
        let answer = self.session.retry();
        self.tell(call, began, &answer)
    }

    /// Adds the line of a call, and says how it ended.
    fn tell(
        &mut self,
        call: &PlannedCall,
        began: u64,
        answer: &Result<ExecReply, ExecError>,
    ) -> Option<End> {
        let sent = Sent {
            client: self.session.client().get(),
            number: self.number,
            item: call.item,
            began,
            ended: self.trouble.tick(),
        };
        push_call(&mut self.text, sent, answer).ok()?;
        Some(end_of(answer))
    }
}

fn end_of(answer: &Result<ExecReply, ExecError>) -> End {
    match answer {
        Ok(_) => End::Answered,
        Err(ExecError::Unanswered | ExecError::NotTaken) => End::Open,
        Err(ExecError::LogFull) => End::Full,
        Err(_) => End::Refused,
    }
}
