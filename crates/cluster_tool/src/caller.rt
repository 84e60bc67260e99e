ghost use Rattle.std.specs.Prelude.{◌≡◌, ◌∷◌, [], false, IfOk};
ghost use Rattle.cluster_tool.specs.Callers.{HasCalled, MadeCall};

use crate::figures::{Figures, now};
use cluster_file::{PlannedCall, PlannedStep};
use osd::ClusterName;
use rados_client::{ClassId, ExecError, ExecReply, Session};
use std::alloc::{AllocError, Global};
use std::marker::Model;
use std::sync::Wait;
use std::time::Clock;

/// A client: its session, how its calls ended so far, and whether memory was refused to keep one of
/// these ends.
#[derive(Drop)]
pub(crate) struct Caller<'a, N: ClusterName, R> {
    session: Session<'a, N, R>,
    ends: Vec<Result<ExecReply, ExecError>>,
    lost: bool,
}

impl<'a, N: ClusterName, R> Model for Caller<'a, N, R> {
    ghost use Rattle.cluster_tool.specs.Callers.{CallerState};

    ghost Value = { CallerState };

    ghost view = { λ c. record {
      session = c.session;
      ends = c.ends.items;
      lost = c.lost;
    } };
}

impl<'a, N: ClusterName, R: Wait> Caller<'a, N, R> {
    /// A client that has called nothing yet.
    pub fn new(alloc: Global, session: Session<'a, N, R>) -> Caller<'a, N, R>
        ensures { result ≡ record {
          session = session.entry;
          ends = [];
          lost = false;
        } }
    {
        Caller {
            session,
            ends: Vec::new(alloc),
            lost: false,
        }
    }

    /// The number of its nudges.
    pub fn nudges(&self) -> u64 {
        self.session.nudges()
    }
}

impl<'a, N: ClusterName, R: Wait + Clock> Caller<'a, N, R> {
    /// Makes its calls of these steps, one after another.
    pub fn call_all(&mut self, alloc: Global, clock: &R, figures: &Figures, steps: &[PlannedStep])
        ensures { HasCalled N.classes steps.now self.old self.new }
    {
        for step in steps {
            self.take_step(alloc, clock, figures, step);
        }
    }

    /// Makes the step's call, if it is a call of this client.
    fn take_step(&mut self, alloc: Global, clock: &R, figures: &Figures, step: &PlannedStep)
        ensures { HasCalled N.classes (step.now ∷ []) self.old self.new }
    {
        match step {
            PlannedStep::Call(call) => {
                if call.client() == self.session.client() {
                    let start = now(clock);
                    self.call(alloc, call);
                    figures.note_call(clock, start);
                }
            }
            PlannedStep::Map(_, _) => {}
        }
    }

    /// Makes a call, and keeps how it ended.
    fn call(&mut self, alloc: Global, call: &PlannedCall)
        ensures { MadeCall N.classes call.now self.old self.new }
    {
        let end = self.session.exec(
            alloc,
            call.object(),
            ClassId::new(call.class()),
            call.method(),
            call.input(),
        );
        // Its thread can refuse nothing: `into_ends` does, once all threads have ended.
        if self.ends.push(end).is_err() {
            self.lost = true;
        }
    }
}

impl<N: ClusterName, R> Caller<'_, N, R> {
    /// The end of its call of that number, from 0, if it was kept.
    pub fn end(&self, place: usize) -> Option<&Result<ExecReply, ExecError>> {
        self.ends.get(place)
    }

    /// The ends of its calls. It fails if memory was refused to keep one of them.
    pub fn into_ends(self) -> Result<Vec<Result<ExecReply, ExecError>>, AllocError>
        ensures { IfOk result (λ v. (v.items ≡ self.entry.ends) × (self.entry.lost ≡ false)) }
    {
        let Caller {
            session,
            ends,
            lost,
        } = self;
        drop(session);
        if lost {
            drop(ends);
            return Err(AllocError);
        }
        Ok(ends)
    }
}
