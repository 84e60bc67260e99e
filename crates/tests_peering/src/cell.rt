//! The cell of a group that has one node, or of the first of three: what a turn sends out, and the
//! replies and notes that leave it, up to the last place of a log.
ghost use Rattle.std.specs.Prelude.{◌≡◌, ◌<◌, []};

use crate::account::{Call, request};
use builtin_classes::load_lock;
use carried::{Carried, CarriedKind, CarriedMessage};
use commit_board::{Board, Seen, Writer};
use group_cell::{BoardName, GroupCell, Outgoing, Post, Reply};
use group_world::{Epoch, Event, GroupMap, HandleError, Party};
use peering::GroupNode;
use pg_log::{ClassTable, Request};
use placement::NodeId;
use std::alloc::Global;
use std::marker::Brand;
use std::process::Abort;

/// An item that was sent out.
#[derive(Clone, Copy, PartialEq, Eq, Drop)]
enum Out {
    Nothing,
    Node(u64),
    Monitor(u32),
    /// The client, the place and the code.
    Answered(u32, usize, i64),
    Refused(u32, HandleError),
}

/// An item, as the test compares it.
fn out_of<N: BoardName>(item: &Option<Outgoing<N>>) -> Out {
    match item {
        None => Out::Nothing,
        Some(Outgoing::ToNode(node, _)) => Out::Node(node.get()),
        Some(Outgoing::ToMonitor(interval)) => Out::Monitor(interval.get()),
        Some(Outgoing::ToClient(client, Post::Reply(reply))) => {
            Out::Answered(client.get(), reply.place(), reply.code())
        }
        Some(Outgoing::ToClient(client, Post::Refused(refused))) => {
            Out::Refused(client.get(), refused.why())
        }
    }
}

/// True if exactly these items were sent out.
fn are<N: BoardName>(items: &[Option<Outgoing<N>>], wanted: &[Out]) -> bool {
    items.len() == wanted.len()
        && items
            .iter()
            .zip(wanted)
            .all(|(item, out)| out_of(item) == *out)
}

/// True if a turn sends exactly these items. It doesn't if memory is refused.
fn sends<N: BoardName>(
    alloc: Global,
    board: &Board,
    table: &ClassTable,
    cell: &mut GroupCell<N>,
    carried: Carried,
    wanted: &[Out],
) -> bool
    requires board { board.now ≡ N.board }
    requires table { table.now ≡ N.classes }
{
    match cell.turn(alloc, board, table, carried) {
        Ok(items) => are(&items, wanted),
        Err(_) => false,
    }
}

/// A client's request of the class `lock`.
fn lock<R: Abort>(rt: &R, alloc: Global, client: u32, number: u32, method: &str) -> Request {
    let input = b"".as_slice();
    let call = Call {
        class: 0,
        method,
        input,
    };
    request(rt, alloc, client, number, call)
}

/// The map of epoch 1 with these acting nodes.
fn first_map<R: Abort>(rt: &R, alloc: Global, acting: &[u64]) -> Carried {
    let one = Epoch::new(1);
    let mut nodes = Vec::new(alloc);
    for number in acting {
        nodes.push(NodeId::new(*number)).expect(rt, "memory");
    }
    Carried::Map(GroupMap::new(one, one, nodes, Epoch::new(0), Vec::new(alloc)))
}

/// The monitor has activated epoch 1.
fn activated() -> Carried {
    Carried::Message(CarriedMessage {
        sender: Party::Monitor,
        kind: CarriedKind::Activated(Epoch::new(1)),
    })
}

/// True if a node that acts alone asks the monitor, asks again if nobody answered, and refuses a
/// client until the monitor answers.
fn opens<N: BoardName, R: Abort>(
    rt: &R,
    alloc: Global,
    board: &Board,
    table: &ClassTable,
    cell: &mut GroupCell<N>,
) -> bool
    requires board { board.now ≡ N.board }
    requires table { table.now ≡ N.classes }
{
    let asked = [Out::Monitor(1)];
    let refused = [Out::Refused(7, HandleError::Peering)];
    let early = Carried::Request(lock(rt, alloc, 7, 1, "lock"));
    let map = first_map(rt, alloc, &[0]);
    let mut right = sends(alloc, board, table, cell, map, &asked);
    right = right && are(&cell.resend(alloc, board, 1).expect(rt, "memory"), &asked);
    right = right && sends(alloc, board, table, cell, early, &refused);
    right && sends(alloc, board, table, cell, activated(), &[])
}

/// Calls of two clients, and their codes: the first takes the lock, which the second is denied
/// until the first gives it up.
const CALLS: [(u32, u32, &str, i64); 4] = [
    (1, 1, "lock", 0),
    (2, 1, "lock", -16),
    (1, 2, "unlock", 0),
    (2, 2, "lock", 0),
];

/// True if the calls are answered, each at the next place.
fn answers<N: BoardName, R: Abort>(
    rt: &R,
    alloc: Global,
    board: &Board,
    table: &ClassTable,
    cell: &mut GroupCell<N>,
) -> bool
    requires board { board.now ≡ N.board }
    requires table { table.now ≡ N.classes }
{
    let mut place = 0usize;
    let mut right = true;
    for (client, number, method, code) in CALLS {
        let call = Carried::Request(lock(rt, alloc, client, number, method));
        let answered = [Out::Answered(client, place, code)];
        right = right && sends(alloc, board, table, cell, call, &answered);
        place = place.wrapping_add(1);
    }
    right
}

/// True if the lock's owner is answered at each further place of the log, at 65,535 the last, and
/// then refused.
fn fills<N: BoardName, R: Abort>(
    rt: &R,
    alloc: Global,
    board: &Board,
    table: &ClassTable,
    cell: &mut GroupCell<N>,
) -> bool
    requires board { board.now ≡ N.board }
    requires table { table.now ≡ N.classes }
{
    let mut right = true;
    for number in 3..65_535u32 {
        let call = Carried::Request(lock(rt, alloc, 2, number, "lock"));
        let answered = [Out::Answered(2, number as usize + 1, 0)];
        right = right && sends(alloc, board, table, cell, call, &answered);
    }
    let more = Carried::Request(lock(rt, alloc, 2, 65_535, "lock"));
    let refused = [Out::Refused(2, HandleError::LogFull)];
    right && sends(alloc, board, table, cell, more, &refused)
}

/// True if a reply is that of the second call, which it answers alone.
fn is_denial<N: BoardName>(reply: Reply<N>, same: &Request, other: &Request) -> bool {
    let is_right = reply.place() == 1 && reply.code() == -16 && reply.output().is_empty();
    let is_whole = reply.request().is(same);
    let post = Post::Reply(reply);
    is_right && is_whole && post.answers(same) && !post.answers(other)
}

/// True if the reply of a committed place is there, none past the end, and an unknown method is
/// refused.
fn replies<N: BoardName, R: Abort>(
    rt: &R,
    alloc: Global,
    board: &Board,
    table: &ClassTable,
    cell: &mut GroupCell<N>,
) -> bool
    requires board { board.now ≡ N.board }
    requires table { table.now ≡ N.classes }
{
    let unknown = Event::Request(lock(rt, alloc, 3, 1, "unknown"));
    let refused = cell.handle(board, table, unknown).err() == Some(HandleError::NoMethod);
    let past = cell.reply(alloc, board, 4).expect(rt, "memory");
    let Some(denial) = cell.reply(alloc, board, 1).expect(rt, "memory") else {
        return false;
    };
    let same = lock(rt, alloc, 2, 1, "lock");
    let other = lock(rt, alloc, 2, 1, "other");
    refused && past.is_none() && is_denial(denial, &same, &other)
}

/// The tokens of a board: the writer of the first row, and one that looks.
#[derive(Drop)]
struct Tokens {
    writer: Writer,
    seen: Seen,
}

/// The number of requests that a token sees once it heard of the cell, if all went as it should.
fn seen_after<N: BoardName, R: Abort>(
    rt: &R,
    alloc: Global,
    board: &Board,
    table: &ClassTable,
    tokens: Tokens,
) -> Option<u64>
    requires board { board.now ≡ N.board }
    requires table { table.now ≡ N.classes }
    requires writer { (tokens.writer.board ≡ board.now) × (tokens.writer.list ≡ []) }
    requires seen { tokens.seen.board ≡ board.now }
    requires rows { 0 < board.now.words }
{
    let Tokens { writer, mut seen } = tokens;
    let mut cell = GroupCell::new(GroupNode::<N>::new(alloc, NodeId::new(0)), writer);
    let is_right = opens(rt, alloc, board, table, &mut cell)
        && answers(rt, alloc, board, table, &mut cell)
        && replies(rt, alloc, board, table, &mut cell)
        && fills(rt, alloc, board, table, &mut cell);
    if !is_right || cell.node().len() != 65_536 {
        return None;
    }
    let note = cell.note(board);
    board.meet(&mut seen, note);
    Some(board.look(&mut seen, 0))
}

/// True if the first of three acting nodes sends its empty list to the others, and refuses a client
/// until they have it.
fn leads_three<N: BoardName, R: Abort>(
    rt: &R,
    alloc: Global,
    board: &Board,
    table: &ClassTable,
    writer: Writer,
) -> bool
    requires board { board.now ≡ N.board }
    requires table { table.now ≡ N.classes }
    requires writer { (writer.board ≡ board.now) × (writer.list ≡ []) }
{
    let mut cell = GroupCell::new(GroupNode::<N>::new(alloc, NodeId::new(1)), writer);
    let installs = [Out::Node(2), Out::Node(3)];
    let refused = [Out::Refused(7, HandleError::Peering)];
    let map = first_map(rt, alloc, &[1, 2, 3]);
    let early = Carried::Request(lock(rt, alloc, 7, 1, "lock"));
    sends(alloc, board, table, &mut cell, map, &installs)
        && sends(alloc, board, table, &mut cell, early, &refused)
}

#[test]
fn turns_up_to_the_last_place(rt: HostRuntime) {
    let alloc = rt.alloc();
    let mut table = ClassTable::new(alloc);
    let lock = load_lock(alloc).expect(&rt, "a class");
    table.add(lock).expect(&rt, "memory");
    let (board, mut writers, seen) = Board::new(alloc, 2).expect(&rt, "memory");
    let second = writers.pop().expect(&rt, "a writer");
    let writer = writers.pop().expect(&rt, "a writer");
    let tokens = Tokens { writer, seen };
    assert!(rt; leads_three::<Brand, HostRuntime>(&rt, alloc, &board, &table, second));
    let seen = seen_after::<Brand, HostRuntime>(&rt, alloc, &board, &table, tokens);
    assert!(rt; seen == Some(65_536));
}
