//! Messages that are lost, doubled or late, counted exactly; and clients' mailboxes.

use crate::fate::Rule;
use crate::play::{ONE, THREE};
use crate::row::{ROW, Row, are_so};
use crate::steps::{Mail, OfNodes, OfSession, OfWorkers, Step};
use osd::DeliveryMode;
use rados_client::Config;
use std::process::Abort;

const DROP: Rule = Rule::Mode(DeliveryMode::Drop);

#[rattlefmt::skip]
const ROWS: [Row; 9] = [
    // all messages are lost after the first call: the second request reaches one node alone, and
    // isn't answered
    Row { name: "losses change no other node", config: THREE, rule: DROP, served: &[
        Step::Open(1), Step::Open(2), Step::Answered(1, 0, 0), Step::Nodes(OfNodes::NodesWith(1, 3)), Step::Settle,
        // the first request may have been sent and answered again
        Step::Mail(2, Mail::Anything), Step::Workers(OfWorkers::BeginMode), Step::Done(2, 2), Step::Settle,
        Step::Nodes(OfNodes::NodesWith(2, 1)), Step::Nodes(OfNodes::NodesWith(1, 2)), Step::Mail(2, Mail::Nothing),
    ], ..ROW },
    Row { name: "each call gets one place under losses", config: THREE, rule: Rule::Mixed, served: &[
        Step::Open(1), Step::Answered(1, 0, 0), Step::Answered(2, 1, 0), Step::Answered(3, 2, 0),
        Step::Answered(4, 3, 0), Step::Answered(5, 4, 0),
    ], ..ROW },
    // four clients lock one object ten times each, taking turns; a call has few tries, and a sender
    // of its own nudges after each that is unanswered. Node 2 acts as the primary
    Row { name: "answered calls stand in the log under losses",
        config: Config { tries: 16, ..THREE }, rule: Rule::Lossy, served: &[
        Step::Open(1), Step::Session(0, OfSession::Open(2)), Step::Session(0, OfSession::Insist(1, 10_000)),
        Step::Session(1, OfSession::Open(3)), Step::Session(2, OfSession::Open(4)),
        Step::Session(3, OfSession::Open(5)), Step::Session(4, OfSession::Open(6)),
        Step::Session(1, OfSession::TenEach(4, 5)), Step::Nodes(OfNodes::AnswersStand(2)),
    ], ..ROW },
    // the second request's two messages arrive as four, and their four answers as eight
    Row { name: "a doubled message comes twice", config: THREE, rule: Rule::Mode(DeliveryMode::Twice), served: &[
        Step::Open(1), Step::Open(2), Step::Answered(1, 0, 0), Step::Settle, Step::Workers(OfWorkers::Mark),
        Step::Workers(OfWorkers::BeginMode), Step::Done(2, 2), Step::Settle, Step::Workers(OfWorkers::Taken(12)),
    ], ..ROW },
    // the first map reaches the two nodes that act by it, and the second node 0, which acts alone
    // by it; the third begins no interval. A request is refused, and the fate isn't asked about the
    // refusal
    Row { name: "maps and refusals aren't lost", config: Config { replicas: 2, ..THREE }, rule: DROP,
        before: &[Step::Workers(OfWorkers::BeginMode)], served: &[
        Step::Open(1), Step::Settle, Step::Workers(OfWorkers::Taken(2)), Step::Nodes(OfNodes::Map(&[0], Ok(2))),
        Step::Settle, Step::Workers(OfWorkers::Taken(3)), Step::Nodes(OfNodes::Map(&[0], Ok(3))), Step::Settle,
        Step::Workers(OfWorkers::Taken(3)), Step::Open(2), Step::Workers(OfWorkers::Mark), Step::Done(2, 1),
        Step::Mail(2, Mail::Refusal), Step::Workers(OfWorkers::Messages(0)),
    ], ..ROW },
    // an answer is late, and no message follows. Of a node that acts alone message 0 asks to
    // activate the map, and those after it are answers
    Row { name: "a late message is lost at the end", config: ONE, rule: Rule::Mode(DeliveryMode::Late), served: &[
        Step::Open(1), Step::Open(2), Step::Settle, Step::Workers(OfWorkers::BeginMode), Step::Done(2, 1),
        Step::Mail(2, Mail::Nothing),
    ], after: &[Step::Workers(OfWorkers::Messages(2)), Step::Mail(2, Mail::Nothing)], ..ROW },
    // the answer to the first request is late, so it comes after that to the second, and is the
    // newest
    Row { name: "a late answer comes after the next", config: ONE, rule: Rule::LateOne(1), served: &[
        Step::Open(1), Step::Open(2), Step::Settle, Step::Done(2, 1), Step::Mail(2, Mail::Nothing), Step::Done(2, 2),
        Step::Mail(2, Mail::Reply(1)), Step::Workers(OfWorkers::InOrder),
    ], ..ROW },
    // a client asks twice before it looks. A request comes in the name of client 3, which has no
    // sender yet
    Row { name: "a mailbox has the newest answer, and none from before its client", config: ONE, served: &[
        Step::Open(1), Step::Open(2), Step::Settle, Step::Done(2, 1), Step::Done(2, 2), Step::Mail(2, Mail::Reply(2)),
        Step::Done(3, 1), Step::Open(3), Step::Mail(3, Mail::Nothing),
    ], ..ROW },
    Row { name: "the 64th client is answered", config: ONE, served: &[
        Step::Abandon(63), Step::Open(64), Step::Answered(1, 0, 0), Step::LastSenders(0),
    ], ..ROW },
];

#[test]
fn messages_are_delivered_as_the_fate_has_it(rt: HostRuntime) {
    are_so(rt, rt.alloc(), &ROWS);
}
