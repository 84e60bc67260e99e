//! Two workers side by side: an operation with which one is held doesn't keep the other from the
//! rest.

use crate::play::ONE;
use crate::row::{ROW, Row, are_so};
use crate::steps::{Held, OfNodes, OfWorkers, Step, Who};
use rados_client::Config;
use std::process::Abort;

/// One group with a queue, and two with a queue each.
const ONE_SHARD: Config = Config { workers: 2, ..ONE };

const TWO_SHARDS: Config = Config {
    groups: 2,
    shards: 2,
    ..ONE_SHARD
};

/// A row of two workers.
const BOTH: Row = Row {
    workers: &[0, 1],
    config: ONE_SHARD,
    ..ROW
};

#[rattlefmt::skip]
const ROWS: [Row; 6] = [
    // client 2's call is held until client 3's is answered
    Row { name: "a call of another shard is answered meanwhile", config: TWO_SHARDS, served: &[
        Step::Open(1), Step::Open(2), Step::Open(3), Step::Workers(OfWorkers::Hold(Held::First)),
        Step::By(2), Step::Object("a", 0), Step::Ask(1, Ok(())), Step::Workers(OfWorkers::Holds(Held::First)),
        Step::By(3), Step::Object("b", 1), Step::Called(2, 0, 0), Step::Workers(OfWorkers::LetGo(Held::First)),
        Step::By(2), Step::Object("a", 0), Step::Answered(1, 0, 0),
    ], ..BOTH },
    // the other call comes to the one log first
    Row { name: "a call of the same shard is answered meanwhile", served: &[
        Step::Open(1), Step::Open(2), Step::Open(3), Step::Workers(OfWorkers::Hold(Held::First)),
        Step::By(2), Step::Ask(1, Ok(())), Step::Workers(OfWorkers::Holds(Held::First)),
        Step::By(3), Step::Object("b", 0), Step::Called(2, 0, 0), Step::Workers(OfWorkers::LetGo(Held::First)),
        Step::By(2), Step::Object("a", 0), Step::Answered(1, 1, 0),
    ], ..BOTH },
    // no lock is held while messages go out, nor one round all turns
    Row { name: "a message of one shard keeps no other waiting", config: TWO_SHARDS, served: &[
        Step::Open(1), Step::Open(2), Step::Open(3), Step::By(2), Step::Object("a", 0), Step::Called(1, 0, 0),
        Step::By(3), Step::Object("b", 1), Step::Called(1, 0, 0), Step::Workers(OfWorkers::Hold(Held::Message)),
        Step::By(2), Step::Object("a", 0), Step::Ask(2, Ok(())), Step::Workers(OfWorkers::Holds(Held::Message)),
        Step::By(3), Step::Object("b", 1), Step::Called(2, 1, 0), Step::Workers(OfWorkers::LetGo(Held::Message)),
        Step::By(2), Step::Object("a", 0), Step::Comes(2, 1, 0),
    ], ..BOTH },
    // both requests are queued while a worker is held with a map, which sends nothing, since its
    // node is stopped. The other worker skips the shard, finds nothing else, and waits. Then the
    // second request passes while the first is held: which of the two came to the gate first
    // nothing says, since the shard is free before
    Row { name: "a worker that skipped a shard is woken for it", before: &[Step::Nodes(OfNodes::Stop(Who::Node(0)))],
        served: &[
        Step::Open(1), Step::Open(2),
        // the workers lose the first map
        Step::Workers(OfWorkers::Takes(1)), Step::Workers(OfWorkers::Pause),
        Step::Workers(OfWorkers::Hold(Held::First)), Step::Workers(OfWorkers::Hold(Held::Other)),
        Step::Nudge(0), Step::Workers(OfWorkers::Holds(Held::Other)), Step::Ask(1, Ok(())), Step::Ask(2, Ok(())),
        Step::Workers(OfWorkers::Pause), Step::Workers(OfWorkers::LetGo(Held::Other)),
        Step::Workers(OfWorkers::Holds(Held::First)), Step::Workers(OfWorkers::Passed(1)),
        Step::Workers(OfWorkers::LetGo(Held::First)),
    ], ..BOTH },
    // a worker that is held with an answer has the shard again since the gate let the request pass:
    // no other one comes to the gate meanwhile
    Row { name: "a request that is served has its shard", served: &[
        Step::Open(1), Step::Open(2), Step::Open(3), Step::By(2), Step::Called(1, 0, 0),
        Step::Workers(OfWorkers::Hold(Held::Message)), Step::Ask(2, Ok(())),
        Step::Workers(OfWorkers::Holds(Held::Message)), Step::Workers(OfWorkers::Mark),
        Step::By(3), Step::Ask(1, Ok(())), Step::Workers(OfWorkers::Pause), Step::Workers(OfWorkers::Came(0)),
        Step::Workers(OfWorkers::LetGo(Held::Message)), Step::Comes(1, 2, -16),
    ], ..BOTH },
    // the maps of two nodes come one after the other, both the first ones and those that a nudge
    // hands on
    Row { name: "a shard is served by one worker at a time", config: Config { nodes: 2, replicas: 2, ..ONE_SHARD },
        before: &[
        Step::Nodes(OfNodes::Stop(Who::Node(0))), Step::Nodes(OfNodes::Stop(Who::Node(1))),
        Step::Workers(OfWorkers::Linger),
    ], served: &[
        Step::Open(1), Step::NudgedUntil(4), Step::Workers(OfWorkers::Pause), Step::Workers(OfWorkers::OneAtATime),
    ], ..BOTH },
];

#[test]
fn workers_run_side_by_side(rt: HostRuntime) {
    are_so(rt, rt.alloc(), &ROWS);
}
