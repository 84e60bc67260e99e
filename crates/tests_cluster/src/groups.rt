//! Groups whose acting lists differ, before and after a map that changes some of them. With nodes 0
//! to 3 up and two replicas groups 0 to 3 are kept by 2 and 1, 2 and 0, 1 and 0, 3 and 2; without
//! node 0 by 2 and 1, 2 and 1, 1 and 2, 3 and 2. So the second map begins an interval of groups 1
//! and 2, and keeps that of groups 0 and 3. Object `a` is of group 0, `b` of group 1, and so on.

use crate::fate::Rule;
use crate::play::{MANY, ONE};
use crate::row::{ROW, Row, are_so};
use crate::steps::{LOCK, OfNodes, OfSession, OfWorkers, Step, Want, Who};
use osd::DeliveryMode;
use rados_client::Config;
use std::process::Abort;

/// A cluster of those groups.
const FOUR: Config = Config {
    nodes: 4,
    replicas: 2,
    groups: 4,
    ..ONE
};

/// The largest cluster. By FNV-1a objects `a`, `b`, `c` and `cw` are of groups 12, 37, 50 and 63.
const LARGEST: Config = Config {
    nodes: 16,
    replicas: 3,
    groups: 64,
    ..ONE
};

#[rattlefmt::skip]
const ROWS: [Row; 6] = [
    // a call of each group's object, a map without node 0, and a call of each again: node 0 has
    // what it had then
    Row { name: "each group has its own nodes and maps", config: Config { shards: 2, ..FOUR }, served: &[
        Step::Open(1), Step::Object("a", 0), Step::Answered(1, 0, 0), Step::Object("b", 1), Step::Answered(2, 0, 0),
        Step::Object("c", 2), Step::Answered(3, 0, 0), Step::Object("d", 3), Step::Answered(4, 0, 0),
        Step::Nodes(OfNodes::Map(&[1, 2, 3], Ok(2))),
        Step::Object("a", 0), Step::Answered(5, 1, 0), Step::Object("b", 1), Step::Answered(6, 1, 0),
        Step::Object("c", 2), Step::Answered(7, 1, 0), Step::Object("d", 3), Step::Answered(8, 1, 0),
    ], after: &[
        Step::Nodes(OfNodes::AllEntries(0, &[0, 2, 2, 0])), Step::Nodes(OfNodes::AllEntries(1, &[1, 2, 2, 0])),
        Step::Nodes(OfNodes::AllEntries(2, &[1, 2, 2, 0])), Step::Nodes(OfNodes::AllEntries(3, &[0, 0, 2, 2])),
    ], ..ROW },
    // the second map is handed to nodes 1 and 2, and lost, since they are stopped, and so is each
    // one that a nudge hands on. So nudges hand on the maps of groups 1 and 2 alone: the nodes of
    // the others have theirs. The second nudge of group 1 hands them on again
    Row { name: "a nudge hands on the map of its group", config: FOUR, served: &[
        Step::Open(1), Step::Open(2), Step::Settle, Step::Workers(OfWorkers::Mark),
        Step::Nodes(OfNodes::Stop(Who::Node(1))), Step::Nodes(OfNodes::Stop(Who::Node(2))),
        Step::Nodes(OfNodes::Map(&[1, 2, 3], Ok(2))), Step::Settle, Step::Workers(OfWorkers::Taken(4)),
        Step::Nudged(0, 0), Step::Nudged(1, 2), Step::Nudged(2, 2), Step::Nudged(1, 2), Step::Nudged(3, 0),
    ], ..ROW },
    // a second map is made before a worker serves, by which another node acts: of nodes 0 and 1 it
    // is 1 by the first map. So that one's interval isn't activated: the worker takes two maps and
    // one activation
    Row { name: "a node is told of activations alone", config: Config { nodes: 2, ..ONE },
        before: &[Step::Nodes(OfNodes::Map(&[0], Ok(2)))],
        served: &[Step::Open(1), Step::Settle, Step::Workers(OfWorkers::Taken(3))], ..ROW },
    // no primary hears from the monitors until its group is nudged
    Row { name: "the last of 64 groups is nudged", config: LARGEST, rule: Rule::Mode(DeliveryMode::Drop),
        before: &[Step::Workers(OfWorkers::BeginMode)], served: &[
        Step::Open(1), Step::Open(2), Step::Settle, Step::Workers(OfWorkers::EndMode), Step::Object("cw", 63),
        Step::Nudge(63), Step::Settle, Step::Ask(1, Ok(())), Step::Comes(1, 0, 0),
    ], ..ROW },
    // the same by a session, whose request is refused until it has nudged
    Row { name: "a session nudges the last of 64 groups", config: Config { tries: MANY, ..LARGEST },
        rule: Rule::Mode(DeliveryMode::Drop), before: &[Step::Workers(OfWorkers::BeginMode)], served: &[
        Step::Open(1), Step::Settle, Step::Workers(OfWorkers::EndMode), Step::Object("cw", 63),
        Step::Session(0, OfSession::Open(2)), Step::Session(0, OfSession::CallNudging(LOCK, Want::At(0, 0))),
    ], ..ROW },
    // a worker that doesn't serve ends at once
    Row { name: "with all workers", config: Config { shards: 64, workers: 16, ..LARGEST },
        workers: &[0, 1, 2, 3, 4, 5, 6, 7, 8, 9, 10, 11, 12, 13, 14, 15], served: &[
        Step::Open(1), Step::Object("cw", 63), Step::Answered(1, 0, 0), Step::Object("a", 12), Step::Answered(2, 0, 0),
        Step::Object("b", 37), Step::Answered(3, 0, 0), Step::Object("c", 50), Step::Answered(4, 0, 0),
        Step::Workers(OfWorkers::Pause), Step::Workers(OfWorkers::NoneEnded),
    ], ..ROW },
];

#[test]
fn each_group_has_its_own_maps(rt: HostRuntime) {
    are_so(rt, rt.alloc(), &ROWS);
}
