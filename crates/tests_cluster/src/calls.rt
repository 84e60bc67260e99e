//! Calls of one session, and of two that tell each other.

use crate::fate::Rule;
use crate::play::{MANY, ONE, THREE};
use crate::row::{ROW, Row, are_so};
use crate::steps::{LOCK, Mail, OfNodes, OfSession, OfWorkers, Op, Step, Want, Who};
use osd::{DeliveryMode, LoggedEntry};
use rados_client::{Config, ExecError};
use std::process::Abort;

/// A cluster whose calls are answered.
const PATIENT: Config = Config { tries: MANY, ..ONE };

/// The refusal of a call that nobody answered.
const UNANSWERED: Want = Want::Refused(ExecError::Unanswered);

/// A row of a cluster whose calls are answered.
const CALLED: Row = Row {
    config: PATIENT,
    ..ROW
};

#[rattlefmt::skip]
const ROWS: [Row; 9] = [
    // five bytes are read into a buffer of four, and of five
    Row { name: "hello is read into five bytes and not into four", served: &[
        Step::Session(0, OfSession::Open(1)), Step::Session(0, OfSession::Call(Op::Write(0, b"hello"), Want::Code(5))),
        Step::Session(0, OfSession::ReadInto(-34, &[7; 4])), Step::Session(0, OfSession::ReadInto(5, b"hello")),
        Step::Nodes(OfNodes::Entries(0, 3)),
    ], ..CALLED },
    Row { name: "the six calls of obj", served: &[
        Step::Session(0, OfSession::Open(1)), Step::Session(0, OfSession::Call(Op::Write(0, b"hello"), Want::Code(5))),
        Step::Session(0, OfSession::Call(Op::SetXattr("k", b"v"), Want::Code(0))),
        Step::Session(0, OfSession::Call(Op::GetXattr("k"), Want::Output(1, b"v"))),
        Step::Session(0, OfSession::Call(Op::Stat, Want::Code(5))),
        Step::Session(0, OfSession::Call(Op::Read(1, 3), Want::Output(3, b"ell"))),
        Step::Session(0, OfSession::Call(Op::Remove, Want::Code(0))),
        Step::Session(0, OfSession::Call(Op::Stat, Want::Code(-2))),
    ], ..CALLED },
    // a class that isn't loaded, a method that isn't there, an input that is too long; and the
    // answer again
    Row { name: "refusals by class, method and input", served: &[
        Step::Session(0, OfSession::Open(1)),
        Step::Session(0, OfSession::Call(Op::Retry, Want::Refused(ExecError::NothingSent))),
        Step::Session(0, OfSession::Call(Op::Exec(64, "lock", b""), Want::Refused(ExecError::NoClass))),
        Step::Session(0, OfSession::Call(Op::Exec(0, "look", b""), Want::Refused(ExecError::NoMethod))),
        Step::Session(0, OfSession::Call(Op::Exec(0, "lock", b"1"), Want::Refused(ExecError::InputTooLong))),
        Step::Session(0, OfSession::Call(Op::Retry, Want::Refused(ExecError::InputTooLong))),
        Step::Session(0, OfSession::Call(LOCK, Want::At(0, 0))),
        Step::Session(0, OfSession::Call(Op::Retry, Want::At(0, 0))),
    ], ..CALLED },
    // it stands in the log, and neither it nor a repeat is answered
    Row { name: "one try is the submit", config: Config { tries: 1, ..ONE }, served: &[
        Step::Open(1), Step::Settle, Step::Session(0, OfSession::Open(2)),
        Step::Session(0, OfSession::Call(LOCK, UNANSWERED)), Step::Nodes(OfNodes::Gets(0, 1)),
        Step::Session(0, OfSession::Calls(100, Op::Retry, UNANSWERED)), Step::Nodes(OfNodes::Entries(0, 1)),
    ], ..ROW },
    // another one uses the session's client number: the session's second call is stale after number
    // 3. (The fence has that number too, so it passes the session's own call first.)
    Row { name: "a number below a logged one is stale", served: &[
        Step::Session(0, OfSession::Open(1)), Step::Session(0, OfSession::Call(LOCK, Want::At(0, 0))), Step::Open(2),
        Step::Settle, Step::Done(1, 3), Step::Nodes(OfNodes::Gets(0, 2)),
        Step::Session(0, OfSession::Call(LOCK, Want::Refused(ExecError::StaleNumber))),
    ], ..CALLED },
    // the second session hears what the first has seen, and its next call stands after it
    Row { name: "a session that heard of a call finds its own after it", served: &[
        Step::Session(0, OfSession::Open(1)), Step::Session(1, OfSession::Open(2)),
        Step::Session(0, OfSession::Call(LOCK, Want::At(0, 0))), Step::Session(1, OfSession::Hear(0)),
        Step::Session(1, OfSession::Call(LOCK, Want::At(1, -16))),
    ], ..CALLED },
    // a call is unanswered until fewer than 256 of the queue's 1,024 places are free; then none is
    // taken any more. One place has the first map, so 768 requests are taken
    Row { name: "a call without a worker", config: Config { tries: 1, ..ONE }, workers: &[], served: &[
        Step::Session(0, OfSession::Open(1)), Step::Session(0, OfSession::Call(LOCK, UNANSWERED)),
        Step::Session(0, OfSession::Call(Op::Retry, UNANSWERED)),
        Step::Session(0, OfSession::Calls(766, LOCK, UNANSWERED)),
        Step::Session(0, OfSession::Calls(334, LOCK, Want::Refused(ExecError::NotTaken))),
        Step::Session(0, OfSession::Call(Op::Retry, Want::Refused(ExecError::NotTaken))),
    ], ..ROW },
    Row { name: "sixty-four sessions and one more", workers: &[], served: &[
        Step::Session(0, OfSession::Last(64)),
    ], ..ROW },
    // a session's call is the node's only one: its node is stopped, so it is lost
    Row { name: "a session is dropped with its call unanswered", config: Config { tries: 50, ..ONE }, before: &[
        Step::Nodes(OfNodes::Stop(Who::Node(0))),
    ], served: &[
        Step::Open(1), Step::Session(0, OfSession::Open(2)), Step::Session(0, OfSession::Call(LOCK, UNANSWERED)),
        Step::Session(0, OfSession::Close), Step::Settle, Step::Nodes(OfNodes::Go(Who::Node(0))),
        Step::Session(0, OfSession::Open(3)), Step::Session(0, OfSession::Insist(1, 100_000)),
        Step::Nodes(OfNodes::Log(0, &[LoggedEntry { client: 3, number: 1, code: 0 }])),
    ], ..ROW },
];

/// A cluster of three nodes, of which 2 is the primary.
const THREE_PATIENT: Config = Config {
    tries: MANY,
    ..THREE
};

const DROP: Rule = Rule::Mode(DeliveryMode::Drop);

#[rattlefmt::skip]
const LOSSES: [Row; 4] = [
    // the primary is stopped and left out of a new map. The second client's lock stands after the
    // first
    Row { name: "a lock outlives its primary", config: THREE_PATIENT, served: &[
        Step::Session(0, OfSession::Open(1)), Step::Session(1, OfSession::Open(2)),
        Step::Session(0, OfSession::Call(LOCK, Want::At(0, 0))), Step::Nodes(OfNodes::Stop(Who::Node(2))),
        Step::Nodes(OfNodes::Map(&[0, 1], Ok(2))), Step::Session(1, OfSession::Call(LOCK, Want::At(1, -16))),
    ], ..ROW },
    // the session nudges, asks again, and is answered from the log
    Row { name: "a lost reply is sent again", served: &[
        Step::Open(1), Step::Settle, Step::Session(0, OfSession::Open(2)),
        Step::Session(0, OfSession::Call(LOCK, Want::At(0, 0))), Step::Settle, Step::Workers(OfWorkers::LoseNext),
        Step::Session(0, OfSession::CallNudging(LOCK, Want::At(1, 0))), Step::Nodes(OfNodes::Entries(0, 2)),
    ], ..CALLED },
    // a call has fewer tries than the thousand looks after which any call nudges
    Row { name: "a refusal by peering nudges at once", config: Config { tries: 900, ..THREE }, rule: DROP,
        before: &[Step::Workers(OfWorkers::BeginMode)],
        served: &[Step::Session(0, OfSession::Open(1)), Step::Session(0, OfSession::NudgesSoon)], ..ROW },
    // a call has two tries, a submit and a look: its answer comes once these are over, and is found
    // by the look of the repeat, of which no queue takes the submit
    Row { name: "a session looks also while its queue is full", config: Config { tries: 2, ..ONE }, served: &[
        Step::Open(1), Step::Settle, Step::Session(0, OfSession::Open(2)), Step::Workers(OfWorkers::HoldAfter(0)),
        Step::Session(0, OfSession::Call(LOCK, UNANSWERED)), Step::Workers(OfWorkers::IsHeld),
        Step::Workers(OfWorkers::Free), Step::Settle, Step::Workers(OfWorkers::Finish),
        Step::Workers(OfWorkers::Ended(1)), Step::Accepts(769),
        Step::Session(0, OfSession::Call(Op::Retry, Want::At(0, 0))),
    ], ..ROW },
];

#[test]
fn sessions_call(rt: HostRuntime) {
    are_so(rt, rt.alloc(), &ROWS);
}

#[test]
fn sessions_call_under_losses(rt: HostRuntime) {
    are_so(rt, rt.alloc(), &LOSSES);
}

/// Client 2 takes the lock, and requests of client 3 fill the log without a wait for their answers,
/// but for its last place; the last of them is answered. A session's call gets that place. Then it
/// calls once more, and asks again.
#[rattlefmt::skip]
const FULL_LOG: Row = Row {
    name: "a full log refuses",
    served: &[
        Step::Open(1), Step::Open(2), Step::Answered(1, 0, 0), Step::Open(3), Step::AskAll(1, 65_533),
        Step::Answered(65_534, 65_534, -16), Step::Session(0, OfSession::Open(4)),
        Step::Session(0, OfSession::Call(LOCK, Want::At(65_535, -16))),
        Step::Session(0, OfSession::Call(LOCK, Want::Refused(ExecError::LogFull))),
        Step::Session(0, OfSession::Call(Op::Retry, Want::Refused(ExecError::LogFull))),
        Step::Nodes(OfNodes::FullLog(2, 3, 4)), Step::Mail(2, Mail::Anything),
    ],
    ..CALLED
};

// It takes a second as `rt test` builds it; `rt try --test` checks each access, and wants
// `--seconds 300`.
#[test]
fn a_full_log_refuses(rt: HostRuntime) {
    are_so(rt, rt.alloc(), &[FULL_LOG]);
}
