//! What a nudge sends again, and when it adds nothing. In most rows all messages of the nodes are
//! lost for a while, so that the gate counts what nudges submit and nothing else.

use crate::fate::Rule;
use crate::play::{ONE, THREE};
use crate::row::{ROW, Row, are_so};
use crate::steps::{Held, Mail, OfNodes, OfWorkers, Step, Who};
use osd::{AskError, DeliveryMode};
use rados_client::Config;
use std::process::Abort;

const DROP: Rule = Rule::Mode(DeliveryMode::Drop);

/// Of two groups with one queue node 0 acts for group 1. For group 0 node 1 acts if it is up, and
/// else node 0.
const TWO: Config = Config {
    nodes: 2,
    groups: 2,
    ..ONE
};

/// The maps that the worker takes: the first of both groups, the one with which it is held, and
/// those of a full queue.
const MAPS: u64 = 2 + 1 + 1_024;

#[rattlefmt::skip]
const ROWS: [Row; 7] = [
    // the first request is on all three nodes, and the second on the primary alone. A nudge sends
    // it to both others. Then both have taken it, and their acknowledgements wait: four more nudges
    // would send it to both once more
    Row { name: "a nudge adds nothing while answers to the last one wait", config: THREE, rule: DROP, served: &[
        Step::Open(1), Step::Open(2), Step::Answered(1, 0, 0), Step::Settle, Step::Workers(OfWorkers::BeginMode),
        Step::Done(2, 2), Step::Workers(OfWorkers::EndMode), Step::Nodes(OfNodes::NodesWith(2, 1)),
        Step::Workers(OfWorkers::Mark),
        // held here, the worker answers neither of the nudge's messages before both are queued
        Step::Workers(OfWorkers::HoldAfter(0)), Step::Nudge(0), Step::Workers(OfWorkers::IsHeld),
        Step::Workers(OfWorkers::HoldAfter(2)), Step::Workers(OfWorkers::IsHeld), Step::Workers(OfWorkers::Taken(2)),
        Step::Nudges(4, 1), Step::Workers(OfWorkers::Free), Step::Settle, Step::Workers(OfWorkers::Taken(4)),
        Step::Nodes(OfNodes::NodesWith(2, 3)),
    ], ..ROW },
    // the same with one other node: its one message is being served, and its answer held at the
    // fate
    Row { name: "a nudge adds nothing while a message of the last one is served",
        config: Config { nodes: 2, replicas: 2, ..ONE }, rule: DROP, served: &[
        Step::Open(1), Step::Open(2), Step::Answered(1, 0, 0), Step::Settle, Step::Workers(OfWorkers::BeginMode),
        Step::Done(2, 2), Step::Workers(OfWorkers::EndMode), Step::Nodes(OfNodes::NodesWith(2, 1)),
        Step::Workers(OfWorkers::Mark), Step::Workers(OfWorkers::Hold(Held::Message)), Step::Nudge(0),
        Step::Workers(OfWorkers::Holds(Held::Message)), Step::Nudges(4, 1),
        Step::Workers(OfWorkers::LetGo(Held::Message)), Step::Settle, Step::Workers(OfWorkers::Taken(2)),
        Step::Nodes(OfNodes::NodesWith(2, 2)),
    ], ..ROW },
    // the primary has a request that no other node got. It is stopped: it sends nothing again, and
    // loses a request. It goes on with the log that it had, and sends the request again to both
    // others. Their acknowledgements are lost, so the next nudge sends it once more
    Row { name: "a stopped node takes nothing and sends nothing again", config: THREE, rule: DROP, served: &[
        Step::Open(1), Step::Open(2), Step::Answered(1, 0, 0), Step::Settle, Step::Workers(OfWorkers::BeginMode),
        Step::Done(2, 2), Step::Nodes(OfNodes::NodesWith(2, 1)), Step::Nodes(OfNodes::NodesWith(1, 2)),
        Step::Nodes(OfNodes::Stop(Who::With(2))), Step::Nudged(0, 0), Step::Done(2, 3), Step::Nudged(0, 0),
        Step::Nodes(OfNodes::NodesWith(2, 1)), Step::Nodes(OfNodes::NodesWith(1, 2)),
        Step::Nodes(OfNodes::Go(Who::With(2))), Step::Nudged(0, 2), Step::Nodes(OfNodes::NodesWith(2, 3)),
        Step::Nudged(0, 2),
    ], ..ROW },
    // with 768 requests 256 of the 1,024 places are free: enough for the first message to another
    // node, and not for the second. Of five nudges one submits something
    Row { name: "nudges leave the last places to the nodes", config: THREE, rule: DROP, served: &[
        Step::Open(1), Step::Open(2), Step::Answered(1, 0, 0), Step::Settle, Step::Workers(OfWorkers::BeginMode),
        Step::Done(2, 2), Step::NudgedWhileHeld(0, 2), Step::NudgedWhileHeld(768, 1), Step::NudgedWhileHeld(769, 0),
    ], ..ROW },
    // the second map begins an interval of group 0. Its node loses the map, since it is stopped
    Row { name: "maps leave them the last places too", config: TWO, served: &[
        Step::Open(1), Step::Open(2), Step::Settle, Step::Nodes(OfNodes::Stop(Who::Node(0))),
        Step::Nodes(OfNodes::Map(&[0], Ok(2))), Step::Settle, Step::NudgedWhileHeld(769, 0),
        Step::NudgedWhileHeld(768, 1),
    ], ..ROW },
    // the one node doesn't hear from the monitors. A nudge brings their answer, and it serves from
    // then on. With 769 requests 255 places are free, which are kept for such an answer. The nudges
    // that come while it waits add none
    Row { name: "what ends a peering finds a place", rule: DROP, before: &[Step::Workers(OfWorkers::BeginMode)],
        served: &[
        Step::Open(1), Step::Open(2), Step::Settle, Step::NudgedWhileHeld(769, 1), Step::Workers(OfWorkers::EndMode),
        Step::Answered(2, 0, 0),
    ], ..ROW },
    // no primary hears from the monitors. Maps fill the queue while the worker is held: by each one
    // group 0 goes from one node to the other, and its map takes a place; group 1 stays. Group 1 is
    // nudged, and its primary asks the monitors again, but the full queue gives their answer back.
    // So the group is still in peering once the worker has taken all, and refuses a request.
    // Another nudge ends that
    Row { name: "a nudge that a full queue gave back is followed by another", config: TWO, rule: DROP,
        before: &[Step::Workers(OfWorkers::BeginMode)], served: &[
        Step::Open(1), Step::Open(2), Step::Settle, Step::Workers(OfWorkers::HoldAfter(0)),
        Step::Nodes(OfNodes::Map(&[0], Ok(2))), Step::Workers(OfWorkers::IsHeld),
        Step::Nodes(OfNodes::MapsInTurn(1_100)), Step::Object("b", 1), Step::Nudge(1),
        Step::Ask(1, Err(AskError::NoRoom)), Step::Workers(OfWorkers::Free), Step::Workers(OfWorkers::Takes(MAPS)),
        Step::Settle, Step::Workers(OfWorkers::Taken(MAPS)), Step::Done(2, 2), Step::Mail(2, Mail::Refusal),
        Step::Workers(OfWorkers::EndMode), Step::Nudge(1), Step::Settle, Step::Done(2, 3),
        Step::Mail(2, Mail::Reply(3)),
    ], ..ROW },
];

#[test]
fn nudges_send_again_what_was_lost(rt: HostRuntime) {
    are_so(rt, rt.alloc(), &ROWS);
}
