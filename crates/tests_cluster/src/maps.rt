//! Maps, and nodes that stop.

use crate::play::{ONE, THREE};
use crate::row::{ROW, Row, are_so};
use crate::steps::{OfNodes, Step, Who};
use map_book::MapError;
use osd::LoggedEntry;
use rados_client::Config;
use std::process::Abort;

/// Four groups of nodes 0 to 3: by a map without node 0 an interval of groups 1 and 2 begins
/// (`groups`).
const FOUR: Config = Config {
    nodes: 4,
    replicas: 2,
    groups: 4,
    ..ONE
};

const TWO: Config = Config { nodes: 2, ..ONE };

// No worker serves in these rows, so each operation keeps its place in the one queue, which has
// 1,024. A request is given back once fewer than 256 are free: with the last one there are 769
// operations, maps among them.
#[rattlefmt::skip]
const UNSERVED: [Row; 11] = [
    // the answers of calls that need no worker
    Row { name: "maps are refused by their limits", config: Config { replicas: 2, ..THREE }, served: &[
        Step::Nodes(OfNodes::Map(&[], Err(MapError::NoneUp))), Step::Nodes(OfNodes::Map(&[3], Err(MapError::Limit))),
        Step::Nodes(OfNodes::Map(&[1, 1], Err(MapError::Limit))), Step::Nodes(OfNodes::Map(&[2, 0], Ok(2))),
        Step::Nodes(OfNodes::Map(&[2, 0], Ok(3))),
    ], ..ALONE },
    Row { name: "a queue and the clients are used up", served: &[
        Step::Open(1), Step::Accepts(768), Step::LastSenders(63),
    ], ..ALONE },
    // two nodes of each of four groups get the first map
    Row { name: "the first map is told", config: FOUR, served: &[Step::Open(1), Step::Accepts(761)], ..ALONE },
    Row { name: "maps of new intervals are told", config: FOUR, served: &[
        Step::Open(1), Step::Nodes(OfNodes::Map(&[1, 2, 3], Ok(2))), Step::Accepts(757),
    ], ..ALONE },
    // no node has a map yet, so a nudge takes two. There is no group 4
    Row { name: "nudges tell of the newest map", config: FOUR, served: &[
        Step::Open(1), Step::Nodes(OfNodes::Map(&[1, 2, 3], Ok(2))), Step::Nudges(1, 5), Step::Accepts(749),
    ], ..ALONE },
    Row { name: "the map of a kept interval isn't told", served: &[
        Step::Open(1), Step::Nodes(OfNodes::Map(&[0], Ok(2))), Step::Nodes(OfNodes::Map(&[0], Ok(3))),
        Step::Nodes(OfNodes::Map(&[0], Ok(4))), Step::Accepts(768),
    ], ..ALONE },
    // the four nudges that come while the map of the first one waits add nothing
    Row { name: "a nudge tells a late node of it", served: &[
        Step::Open(1), Step::Nodes(OfNodes::Map(&[0], Ok(2))), Step::Nodes(OfNodes::Map(&[0], Ok(3))),
        Step::Nodes(OfNodes::Map(&[0], Ok(4))), Step::Nudges(5, 2), Step::Accepts(767),
    ], ..ALONE },
    Row { name: "a nudge tells both acting nodes", config: Config { replicas: 2, ..THREE }, served: &[
        Step::Open(1), Step::Nudges(5, 2), Step::Accepts(765),
    ], ..ALONE },
    // by the second map one acts: the map is handed to it, and once more by the nudge
    Row { name: "a nudge tells the one acting node", config: Config { replicas: 2, ..THREE }, served: &[
        Step::Open(1), Step::Nodes(OfNodes::Map(&[0], Ok(2))), Step::Nudges(5, 2), Step::Accepts(765),
    ], ..ALONE },
    // by the first map node 1 acts, and by each further map the other node
    Row { name: "each new interval is told", config: TWO, served: &[
        Step::Open(1), Step::Nodes(OfNodes::Map(&[0], Ok(2))), Step::Nodes(OfNodes::Map(&[1], Ok(3))),
        Step::Nodes(OfNodes::Map(&[0], Ok(4))), Step::Accepts(765),
    ], ..ALONE },
    // the second map keeps the interval, and the two after it begin one each
    Row { name: "a kept interval and two new ones", config: TWO, served: &[
        Step::Open(1), Step::Nodes(OfNodes::Map(&[1], Ok(2))), Step::Nodes(OfNodes::Map(&[0], Ok(3))),
        Step::Nodes(OfNodes::Map(&[1], Ok(4))), Step::Accepts(766),
    ], ..ALONE },
];

/// A row that no worker serves.
const ALONE: Row = Row {
    workers: &[],
    ..ROW
};

const FIRST_LOCK: LoggedEntry = LoggedEntry {
    client: 1,
    number: 1,
    code: 0,
};

const REFUSED_LOCK: LoggedEntry = LoggedEntry {
    client: 2,
    number: 1,
    code: -16,
};

#[rattlefmt::skip]
const STOPPED: [Row; 3] = [
    // after a call node 0 is stopped and left out of the next map. Another client calls, and
    // doesn't get the lock
    Row { name: "a stopped node is done without", config: THREE, served: &[
        Step::Open(1), Step::Answered(1, 0, 0), Step::Nodes(OfNodes::Stop(Who::Node(0))),
        Step::Nodes(OfNodes::Map(&[1, 2], Ok(2))), Step::Open(2), Step::Answered(1, 1, -16),
        Step::Nodes(OfNodes::Log(1, &[FIRST_LOCK, REFUSED_LOCK])),
    ], ..ROW },
    // the second call is logged by the two that aren't stopped, and answered once node 0, a backup,
    // is left out; that goes on, and gets what it lacks by the next map
    Row { name: "a stopped node gets nothing until it goes on", config: THREE, served: &[
        Step::Open(1), Step::Answered(1, 0, 0), Step::Nodes(OfNodes::Gets(0, 1)), Step::Nodes(OfNodes::Gets(1, 1)),
        Step::Nodes(OfNodes::Gets(2, 1)), Step::Nodes(OfNodes::Stop(Who::Node(0))), Step::Ask(2, Ok(())),
        Step::Nodes(OfNodes::Gets(2, 2)), Step::Nodes(OfNodes::Gets(1, 2)),
        Step::Nodes(OfNodes::Map(&[1, 2], Ok(2))), Step::Answered(2, 1, 0), Step::Nodes(OfNodes::Entries(0, 1)),
        Step::Nodes(OfNodes::Go(Who::Node(0))), Step::Nodes(OfNodes::Map(&[0, 1, 2], Ok(3))),
        Step::Answered(3, 2, 0), Step::Nodes(OfNodes::Gets(0, 3)),
    ], ..ROW },
    // a turn that a worker began before the stop ends before the log is read, and none begins after
    // it
    Row { name: "no turn begins once a node is stopped", served: &[
        Step::Open(1), Step::Open(2), Step::Settle, Step::Nodes(OfNodes::StopAmidRequests(100)),
    ], ..ROW },
];

#[test]
fn maps_are_told_and_nodes_stop(rt: HostRuntime) {
    are_so(rt, rt.alloc(), &UNSERVED);
    are_so(rt, rt.alloc(), &STOPPED);
}
