//! The operations that workers take, and how they are woken and end.

use crate::play::ONE;
use crate::row::{ROW, Row, are_so};
use crate::steps::{OfNodes, OfWorkers, Step, Who};
use rados_client::Config;
use std::process::Abort;

const FOUR: Config = Config {
    groups: 4,
    shards: 4,
    workers: 2,
    ..ONE
};

#[rattlefmt::skip]
const ROWS: [Row; 6] = [
    // three requests of each group are queued before worker 1 serves, who begins at queue 1. Each
    // queue has the group's first map before its requests, and if a queue has more requests, the
    // worker takes none of them until the others had their turn. Its messages are its own
    Row { name: "a worker takes from all queues in rotation", config: FOUR, workers: &[1], before: &[
        Step::Open(1), Step::Open(2),
        Step::Object("b", 1), Step::Ask(1, Ok(())), Step::Object("c", 2), Step::Ask(2, Ok(())),
        Step::Object("d", 3), Step::Ask(3, Ok(())), Step::Object("a", 0), Step::Ask(4, Ok(())),
        Step::Object("b", 1), Step::Ask(5, Ok(())), Step::Object("c", 2), Step::Ask(6, Ok(())),
        Step::Object("d", 3), Step::Ask(7, Ok(())), Step::Object("a", 0), Step::Ask(8, Ok(())),
        Step::Object("b", 1), Step::Ask(9, Ok(())), Step::Object("c", 2), Step::Ask(10, Ok(())),
        Step::Object("d", 3), Step::Ask(11, Ok(())), Step::Object("a", 0), Step::Ask(12, Ok(())),
    ], served: &[
        Step::Workers(OfWorkers::Order(0x1234_5678_9abc, 2)),
    ], after: &[Step::Workers(OfWorkers::InOrder)], ..ROW },
    // each request is sent once, to a worker that waits
    Row { name: "a submit wakes a worker that waits", served: &[
        Step::Open(1), Step::Open(2), Step::Called(1, 0, 0),
        Step::Workers(OfWorkers::Pause), Step::Ask(2, Ok(())), Step::Comes(2, 1, 0),
        Step::Workers(OfWorkers::Pause), Step::Ask(3, Ok(())), Step::Comes(3, 2, 0),
        Step::Workers(OfWorkers::Pause), Step::Ask(4, Ok(())), Step::Comes(4, 3, 0),
    ], ..ROW },
    Row { name: "the end wakes all workers", config: Config { groups: 2, shards: 2, workers: 3, ..ONE },
        workers: &[0, 1, 2], served: &[
        Step::Workers(OfWorkers::Pause), Step::Workers(OfWorkers::Finish), Step::Workers(OfWorkers::Ended(3)),
    ], ..ROW },
    // who serves with a number that is served, or is no worker's, would wait for the end that comes
    // after it
    Row { name: "a number is served once", served: &[
        Step::Open(1), Step::Settle, Step::Workers(OfWorkers::Serve(0)), Step::Workers(OfWorkers::Serve(1)),
    ], ..ROW },
    Row { name: "a number of no worker is not served", workers: &[], served: &[
        Step::Workers(OfWorkers::Serve(1)),
    ], ..ROW },
    Row { name: "a worker that begins after the end ends", workers: &[], served: &[
        Step::Workers(OfWorkers::Finish), Step::Workers(OfWorkers::Serve(0)),
    ], ..ROW },
];

#[test]
fn workers_serve_and_end(rt: HostRuntime) {
    are_so(rt, rt.alloc(), &ROWS);
}

/// The clusters that are begun and ended.
const CLUSTERS: u32 = 60;

/// The nudges that keep the workers awake before the end, one row each. The one node is stopped, so
/// that it never has a map: each nudge submits one, which wakes the workers and does nothing else.
/// Were it to send messages, these would wake who slept through the end.
#[rattlefmt::skip]
const ENDS: [&[Step]; 4] = [
    &[Step::Open(1), Step::Workers(OfWorkers::Finish), Step::Workers(OfWorkers::Ended(8))],
    &[Step::Open(1), Step::Nudge(0), Step::Workers(OfWorkers::Finish), Step::Workers(OfWorkers::Ended(8))],
    &[Step::Open(1), Step::Nudges(2, 1), Step::Workers(OfWorkers::Finish), Step::Workers(OfWorkers::Ended(8))],
    &[Step::Open(1), Step::Nudges(3, 1), Step::Workers(OfWorkers::Finish), Step::Workers(OfWorkers::Ended(8))],
];

/// Eight workers.
const EIGHT: Row = Row {
    name: "no worker sleeps through the end",
    config: Config { workers: 8, ..ONE },
    workers: &[0, 1, 2, 3, 4, 5, 6, 7],
    before: &[Step::Nodes(OfNodes::Stop(Who::Node(0)))],
    ..ROW
};

#[test]
fn no_worker_sleeps_through_the_end(rt: HostRuntime) {
    for _ in 0..CLUSTERS / 4 {
        for served in ENDS {
            are_so(rt, rt.alloc(), &[Row { served, ..EIGHT }]);
        }
    }
}
