//! Does the steps with sessions.

use crate::hold::pause;
use crate::logs::Answered;
use crate::steps::{LOCK, OfSession, Op, Want};
use crate::table::Table;
use object_store::ObjectName;
use osd::{ClusterName, LoggedEntry};
use rados_client::{ClassId, ExecError, ExecReply, OpenError, Session};
use std::alloc::Global;
use std::sync::Wait;

/// Eight zero bytes and a length of five.
const FIRST_FIVE: [u8; 16] = [0, 0, 0, 0, 0, 0, 0, 0, 5, 0, 0, 0, 0, 0, 0, 0];

/// True if an answer is as wanted.
fn is_wanted(answer: &Result<ExecReply, ExecError>, want: Want) -> bool {
    match (answer, want) {
        (Ok(reply), Want::Code(code)) => reply.code() == code,
        (Ok(reply), Want::Output(code, output)) => {
            reply.code() == code && reply.output() == output
        }
        (Ok(reply), Want::At(place, code)) => reply.place() == place && reply.code() == code,
        (Err(error), Want::Refused(why)) => *error == why,
        _ => false,
    }
}

fn is_unanswered(answer: &Result<ExecReply, ExecError>) -> bool {
    matches!(answer, Err(ExecError::Unanswered))
}

/// The answer to a session.
fn asked<N: ClusterName, R: Wait>(
    session: &mut Session<'_, N, R>,
    alloc: Global,
    object: &ObjectName,
    op: Op,
) -> Result<ExecReply, ExecError> {
    match op {
        Op::Exec(class, method, input) => {
            session.exec(alloc, object, ClassId::new(class), method, input)
        }
        Op::Retry => session.retry(),
        Op::Write(offset, bytes) => session.write(alloc, object, offset, bytes),
        Op::SetXattr(name, value) => session.setxattr(alloc, object, name, value),
        Op::GetXattr(name) => session.getxattr(alloc, object, name),
        Op::Stat => session.stat(alloc, object),
        Op::Read(offset, length) => session.read(alloc, object, offset, length),
        Op::Remove => session.remove(alloc, object),
    }
}

impl<'a, N: ClusterName, R: Wait> Table<'a, N, R> {
    /// Does a step with the session `s`. False if it fails.
    #[rattlefmt::skip]
    pub fn does_with_session(&mut self, s: usize, step: OfSession) -> bool {
        match step {
            OfSession::Open(client) => self.opens_session(client),
            OfSession::Close => self.sessions.pop().is_some(),
            OfSession::Last(count) => self.opened_sessions() == count,
            OfSession::Call(op, want) => self.calls(s, op, want),
            OfSession::Calls(times, op, want) => self.calls_often(s, times, op, want),
            OfSession::CallNudging(op, want) => self.calls_nudging(s, op, want),
            OfSession::ReadInto(answer, bytes) => self.reads(s, answer, bytes),
            OfSession::Hear(other) => self.hears(s, other),
            OfSession::Nudges(least, most) => self.nudges_of(s).is_some_and(|n| least <= n && n <= most),
            OfSession::NudgesSoon => self.nudges_soon(s),
            OfSession::Insist(number, repeats) => self.insists(s, number, repeats) == Some(true),
            OfSession::TenEach(last, repeats) => self.ten_each(s, last, repeats).is_some(),
        }
    }

    fn opens_session(&mut self, client: u32) -> bool {
        match Session::open(self.running) {
            Ok(session) => {
                session.client().get() == client && self.sessions.push(session).is_ok()
            }
            Err(_) => false,
        }
    }

    /// Opens sessions, and drops each at once. The number of them.
    fn opened_sessions(&self) -> u32 {
        for opened in 0..100 {
            match Session::open(self.running) {
                Ok(session) => drop(session),
                Err(OpenError::TooMany) => return opened,
                Err(OpenError::NoMemory) => return 101,
            }
        }
        100
    }

    /// The answer to a call of the session. None if there is no such session, or memory is refused.
    fn call(&mut self, s: usize, op: Op) -> Option<Result<ExecReply, ExecError>> {
        let object = ObjectName::new(self.alloc, self.object).ok()?;
        let session = self.sessions.get_mut(s)?;
        Some(asked(session, self.alloc, &object, op))
    }

    fn calls(&mut self, s: usize, op: Op, want: Want) -> bool {
        match self.call(s, op) {
            Some(answer) => is_wanted(&answer, want),
            None => false,
        }
    }

    fn calls_often(&mut self, s: usize, times: u32, op: Op, want: Want) -> bool {
        for _ in 0..times {
            if !self.calls(s, op, want) {
                return false;
            }
        }
        true
    }

    fn calls_nudging(&mut self, s: usize, op: Op, want: Want) -> bool {
        let before = self.nudges_of(s);
        let is_wanted = self.calls(s, op, want);
        match (before, self.nudges_of(s)) {
            (Some(before), Some(after)) => is_wanted && before < after,
            _ => false,
        }
    }

    fn reads(&mut self, s: usize, answer: i64, bytes: &[u8]) -> bool {
        let mut buffer = [7u8; 8];
        let Some(part) = buffer.get_mut(..bytes.len()) else {
            return false;
        };
        let Ok(object) = ObjectName::new(self.alloc, self.object) else {
            return false;
        };
        let Some(session) = self.sessions.get_mut(s) else {
            return false;
        };
        let class = ClassId::new(1);
        let read = session.exec_into(self.alloc, &object, class, "read", &FIRST_FIVE, part);
        read == Ok(answer) && *part == *bytes
    }

    fn hears(&mut self, s: usize, other: usize) -> bool {
        let Some(told) = self.sessions.get_mut(other) else {
            return false;
        };
        let note = told.tell();
        match self.sessions.get_mut(s) {
            Some(session) => {
                session.hear(note);
                true
            }
            None => false,
        }
    }

    /// The number of nudges of the session.
    fn nudges_of(&self, s: usize) -> Option<u64> {
        match self.sessions.get(s) {
            Some(session) => Some(session.nudges()),
            None => None,
        }
    }

    fn nudges_soon(&mut self, s: usize) -> bool {
        let mut op = LOCK;
        for _ in 0..100_000 {
            if !self.calls(s, op, Want::Refused(ExecError::Unanswered)) {
                return false;
            }
            if self.nudges_of(s).is_some_and(|nudges| nudges != 0) {
                return true;
            }
            op = Op::Retry;
        }
        false
    }

    /// True if the session's lock, its call of that number, is answered, with that many repeats at
    /// most. None if there is no such session, or memory is refused.
    fn insists(&mut self, s: usize, number: u32, repeats: u32) -> Option<bool> {
        let mut answer = self.call(s, LOCK)?;
        for _ in 0..repeats {
            if !is_unanswered(&answer) {
                break;
            }
            let _ = self.nudges(0);
            pause();
            answer = self.call(s, Op::Retry)?;
        }
        let client = self.sessions.get(s)?.client().get();
        match answer {
            Ok(reply) => {
                let entry = LoggedEntry {
                    client,
                    number,
                    code: reply.code(),
                };
                let place = reply.place();
                self.answers.push(Answered { place, entry }).ok()?;
                Some(true)
            }
            Err(_) => Some(false),
        }
    }

    /// The sessions from the first to the last make ten such calls each. None if memory is refused.
    fn ten_each(&mut self, first: usize, last: usize, repeats: u32) -> Option<()> {
        for number in 1..=10 {
            for s in first..=last {
                let _ = self.insists(s, number, repeats)?;
            }
        }
        Some(())
    }
}
