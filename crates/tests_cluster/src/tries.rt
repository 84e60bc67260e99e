//! A call's tries: each submit and each look is one, and a session nudges before each repeat. If no
//! worker serves, the counts are exact.

use crate::fate::Rule;
use crate::play::{ONE, THREE};
use crate::row::{ROW, Row, are_so};
use crate::steps::{LOCK, OfSession, OfWorkers, Step, Want};
use osd::DeliveryMode;
use rados_client::{Config, ExecError};
use std::process::Abort;

const UNANSWERED: Step = Step::Session(
    0,
    OfSession::Call(LOCK, Want::Refused(ExecError::Unanswered)),
);

const NOT_TAKEN: Step = Step::Session(0, OfSession::Call(LOCK, Want::Refused(ExecError::NotTaken)));

const OPEN: Step = Step::Session(0, OfSession::Open(1));

/// A row of a cluster that no worker serves.
const ALONE: Row = Row {
    workers: &[],
    ..ROW
};

const NEVER: Step = Step::Session(0, OfSession::Nudges(0, 0));

const ONCE: Step = Step::Session(0, OfSession::Nudges(1, 1));

const TWICE: Step = Step::Session(0, OfSession::Nudges(2, 2));

// Where the queue took the request, 1,000 looks come before the first nudge, and the submit after
// it is one more try. Where the queue is full, each nudge and submit comes after one look: of
// eleven tries the first is a submit, and five looks and five submits follow.
#[rattlefmt::skip]
const ROWS: [Row; 10] = [
    Row { name: "1 try", config: Config { tries: 1, ..ONE }, served: &[OPEN, UNANSWERED, NEVER], ..ALONE },
    Row { name: "1,001", config: Config { tries: 1_001, ..ONE }, served: &[OPEN, UNANSWERED, NEVER], ..ALONE },
    Row { name: "1,002", config: Config { tries: 1_002, ..ONE }, served: &[OPEN, UNANSWERED, ONCE], ..ALONE },
    Row { name: "2,002", config: Config { tries: 2_002, ..ONE }, served: &[OPEN, UNANSWERED, ONCE], ..ALONE },
    Row { name: "2,003", config: Config { tries: 2_003, ..ONE }, served: &[OPEN, UNANSWERED, TWICE], ..ALONE },
    Row { name: "10 at a full queue", config: Config { tries: 10, ..ONE }, served: &[
        OPEN, Step::Open(2), Step::Accepts(768), NOT_TAKEN, Step::Session(0, OfSession::Nudges(4, 4)),
    ], ..ALONE },
    Row { name: "11 at a full queue", config: Config { tries: 11, ..ONE }, served: &[
        OPEN, Step::Open(2), Step::Accepts(768), NOT_TAKEN, Step::Session(0, OfSession::Nudges(5, 5)),
    ], ..ALONE },
    // no call gives up before the tries that it was given
    Row { name: "100,011 at a full queue", config: Config { tries: 100_011, ..ONE }, served: &[
        OPEN, Step::Open(2), Step::Accepts(768), NOT_TAKEN, Step::Session(0, OfSession::Nudges(50_005, 50_005)),
    ], ..ALONE },
    // it nudges the group of its request, and once. Each queue has its group's first map; that of
    // group 1 has also the request twice, and the map that the nudge hands on
    Row { name: "an object of group 1", config: Config { groups: 2, shards: 2, tries: 1_002, ..ONE }, served: &[
        OPEN, Step::Object("b", 1), UNANSWERED, ONCE, Step::Open(2), Step::Object("a", 0), Step::Accepts(768),
        Step::Object("b", 1), Step::Accepts(765),
    ], ..ALONE },
    // it is refused all the time, since its group stays in peering. After the first refusal comes
    // one look, after the next one two, and so on up to 62 from the seventh on: each gives 64 turns
    // then, and all 4,000 at most. So ten nudges cost at least 332 of 20,000 tries (the first
    // submit; 311 looks; and a submit, and the look that finds the refusal, each time), and each
    // further one 64; and at most 124 and a submit, if refusals come late, once 64 turns are given.
    // Looks that give one turn are a thousand, and there are fewer nudges than forty
    Row { name: "refused again and again", config: Config { tries: 20_000, ..THREE },
        rule: Rule::Mode(DeliveryMode::Drop), before: &[Step::Workers(OfWorkers::BeginMode)],
        served: &[OPEN, UNANSWERED, Step::Session(0, OfSession::Nudges(60, 317))], ..ROW },
];

#[test]
fn each_look_and_each_submit_is_one_try(rt: HostRuntime) {
    are_so(rt, rt.alloc(), &ROWS);
}
