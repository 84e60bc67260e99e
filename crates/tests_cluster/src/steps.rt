//! The steps of the tests: what is done with a cluster, and what must come of it.
//!
//! Client 1 is the fence, in tests with steps that need one: workers refuse its requests, and once
//! they take one, they are done with all that was submitted before. The newest sender asks and
//! nudges. Sessions are those of `rados_client`, from 0 on as they stand open. Requests are of the
//! lock on one object, `a` at first.

use map_book::MapError;
use osd::{AskError, LoggedEntry};
use rados_client::ExecError;

/// The only answer in a client's mailbox. The step takes it out.
#[derive(Clone, Copy)]
pub enum Mail {
    /// Any answer, or none.
    Anything,
    Nothing,
    Refusal,
    /// A reply to the client's request of that number.
    Reply(u32),
}

/// A node.
#[derive(Clone, Copy)]
pub enum Who {
    /// The node of that number.
    Node(u64),
    /// The node that has that many entries of group 0.
    With(usize),
}

/// An operation or a message with which a worker is held.
#[derive(Clone, Copy)]
pub enum Held {
    /// A client's request number 1, at the gate.
    First,
    /// An operation that isn't a client's request, at the gate.
    Other,
    /// A message, at the fate.
    Message,
}

/// A call that a session makes.
#[derive(Clone, Copy)]
pub enum Op {
    /// A call of the class of that id: the method and the input.
    Exec(usize, &'static str, &'static [u8]),
    /// The last request again.
    Retry,
    Write(u64, &'static [u8]),
    SetXattr(&'static str, &'static [u8]),
    GetXattr(&'static str),
    Stat,
    Read(u64, u64),
    Remove,
}

/// The call that takes the lock.
pub const LOCK: Op = Op::Exec(0, "lock", b"");

/// The answer that a call should get.
#[derive(Clone, Copy)]
pub enum Want {
    /// A reply with that code.
    Code(i64),
    /// A reply with that code and that output.
    Output(i64, &'static [u8]),
    /// A reply of that place in the log, with that code.
    At(usize, i64),
    Refused(ExecError),
}

/// A step. It fails if something else comes of it than it says.
#[derive(Clone, Copy)]
pub enum Step {
    /// Opens a sender, which is that client's.
    Open(u32),
    /// The sender of that client is the newest one from now on.
    By(u32),
    /// Opens that many senders, and drops each before the next.
    Abandon(u32),
    /// Opens senders and drops each, until no further one is opened: that many.
    LastSenders(u32),
    /// From now on the steps are about that object, which is of that group.
    Object(&'static str, usize),
    /// Asks for the sender's request of that number.
    Ask(u32, Result<(), AskError>),
    /// Asks for the sender's requests of the numbers from one to another, each until its queue
    /// takes it.
    AskAll(u32, u32),
    /// Nudges and asks for the sender's request of that number until there is a reply: the number,
    /// the place and the code.
    Answered(u32, usize, i64),
    /// Asks for the sender's request of that number, again only once it is refused, so that nothing
    /// of it is under way afterwards: the number, the place and the code.
    Called(u32, usize, i64),
    /// Waits for the reply to the sender's request of that number: the place and the code.
    Comes(u32, usize, i64),
    /// Asks for a request, and waits until the worker is done with it: the client, which may be
    /// another one than the sender's, and the number.
    Done(u32, u32),
    /// Asks until the queue is full. It takes that many requests.
    Accepts(u32),
    /// Waits until the worker is done with all that was submitted, and with all that follows from
    /// it.
    Settle,
    /// Nudges that group.
    Nudge(usize),
    /// Nudges each group below a number in turn: the rounds, and that number.
    Nudges(u32, usize),
    /// Nudges a group, and settles: the group, and the number of operations that the nudge submits.
    Nudged(usize, u64),
    /// Holds the worker with a request, queues further requests, nudges group 0 five times, frees
    /// the worker and settles: the number of those requests, and the number of operations that the
    /// nudges submit.
    NudgedWhileHeld(u32, u64),
    /// Nudges group 0 until that many operations are taken that aren't requests.
    NudgedUntil(u64),
    /// Looks into that client's mailbox.
    Mail(u32, Mail),
    /// What is done with workers, nodes or a session.
    Workers(OfWorkers),
    Nodes(OfNodes),
    Session(usize, OfSession),
}

/// A step with the workers, their gate and their fate.
#[derive(Clone, Copy)]
pub enum OfWorkers {
    /// From now on the mode of the test's rule is each message's.
    BeginMode,
    /// From now on all messages pass.
    EndMode,
    /// The next message is lost.
    LoseNext,
    /// Sets the mark, from which messages and operations are counted.
    Mark,
    /// The fate was asked about that many messages since the mark.
    Messages(u64),
    /// The fate was asked about all messages of the worker in their order, and about no others.
    InOrder,
    /// That many operations came to the gate since the mark.
    Came(u64),
    /// The worker took that many operations since the mark, not counting requests.
    Taken(u64),
    /// Waits until it has taken at least that many.
    Takes(u64),
    /// Requests came in the order of these digits to base 16, the last one of that client.
    Order(u64, u64),
    /// Waits until that many clients' requests have passed the gate.
    Passed(u64),
    /// Lets the worker take that many more operations, and holds it with the next one.
    HoldAfter(u64),
    /// Waits until it is held.
    IsHeld,
    /// Lets it go on.
    Free,
    /// Holds a worker with the next one of these.
    Hold(Held),
    /// Waits until it is held.
    Holds(Held),
    /// Lets it go on. It must have been held up to now.
    LetGo(Held),
    /// Operations stay at the gate for a pause from now on.
    Linger,
    /// No two stayed there at one time.
    OneAtATime,
    /// Gives the workers some turns.
    Pause,
    /// Serves as the worker of that number. It must return.
    Serve(usize),
    /// Has the workers end.
    Finish,
    /// Waits until that many have ended.
    Ended(u64),
    /// None has ended.
    NoneEnded,
}

/// A step with nodes, maps and logs.
#[derive(Clone, Copy)]
pub enum OfNodes {
    /// Makes a map of these up nodes: its epoch, or the refusal.
    Map(&'static [u64], Result<u32, MapError>),
    /// Makes that many maps, the first of nodes 0 and 1, the next of node 0 alone, and so on.
    MapsInTurn(u32),
    /// Stops the node.
    Stop(Who),
    /// Lets the node go on.
    Go(Who),
    /// The node has that many entries of group 0.
    Entries(u64, usize),
    /// Waits until the node has that many.
    Gets(u64, usize),
    /// Counts the nodes that have a number of entries of group 0: that number, and the count.
    NodesWith(usize, usize),
    /// The numbers of entries of a group, from node 0 on: the group, and these.
    AllEntries(usize, &'static [usize]),
    /// The entries of a node's log of group 0: the node, and these.
    Log(u64, &'static [LoggedEntry]),
    /// Node 0 has a full log of group 0: a lock of the first client, then requests of the second by
    /// rising numbers, and the third's first request, all refused the lock.
    FullLog(u32, u32, u32),
    /// All answers that were kept stand in the node's log of group 0 at their places, and no pair
    /// of client and number stands there twice.
    AnswersStand(u64),
    /// Queues twenty requests, reads node 0's log three times, stops the node, sees that its log
    /// grows no more, and lets it go on: that many times.
    StopAmidRequests(u32),
}

/// A step with a session.
#[derive(Clone, Copy)]
pub enum OfSession {
    /// Opens it, which is that client's.
    Open(u32),
    /// Drops it. It is the last one.
    Close,
    /// Opens sessions and drops each, until no further one is opened: that many.
    Last(u32),
    /// It calls once.
    Call(Op, Want),
    /// It calls that often in a row, and each call gets that answer.
    Calls(u32, Op, Want),
    /// It calls once, and nudges at least once meanwhile.
    CallNudging(Op, Want),
    /// It reads five bytes of the object into a buffer of sevens: the answer, and what the buffer
    /// has then.
    ReadInto(i64, &'static [u8]),
    /// It hears what the other one has seen.
    Hear(usize),
    /// The number of its nudges, at least and at most.
    Nudges(u64, u64),
    /// Its first call is unanswered, and so are its repeats until it has nudged.
    NudgesSoon,
    /// It locks the object as its call of that number, and repeats it after a nudge so often at
    /// most while it is unanswered. An answer is kept.
    Insist(u32, u32),
    /// This session and those up to the other one make ten such calls each, taking turns.
    TenEach(usize, u32),
}
