//! The row of a worker's turn, NoMemory: the event never came, or all that goes out is lost, or one
//! message is; `resend` gives what was lost.
ghost use Rattle.std.specs.Prelude.{◌≡◌, []};

use builtin_classes::LOCK;
use carried::Carried;
use commit_board::{Board, Writer};
use group_cell::{BoardName, GroupCell, Outgoing};
use group_world::{Epoch, GroupMap};
use osd::NoMemory;
use peering::GroupNode;
use pg_log::ClassTable;
use placement::NodeId;
use std::alloc::Global;
use std::marker::Brand;
use tests_memory_table::{Ending, nodes_of, table_of};

/// The map of epoch 1, by which nodes 1 to 3 act.
fn map_of(alloc: Global) -> Option<GroupMap> {
    let (one, none) = (Epoch::new(1), Epoch::new(0));
    let acting = nodes_of(alloc, &[1, 2, 3])?;
    Some(GroupMap::new(one, one, acting, none, Vec::new(alloc)))
}

/// True if it goes to that node.
fn is_to<N: BoardName>(item: &Option<Outgoing<N>>, number: u64) -> bool {
    match item {
        Some(Outgoing::ToNode(node, _)) => node.get() == number,
        Some(Outgoing::ToMonitor(_)) => false,
        Some(Outgoing::ToClient(_, _)) => false,
        None => false,
    }
}

/// The end of a turn. It is as wanted if both members get the empty list. It was refused if the
/// event never came, so nothing is sent, or if a part of what is sent is lost, or all of it.
fn end_of<N: BoardName>(
    node: &GroupNode<N>,
    sent: &Result<Vec<Option<Outgoing<N>>>, NoMemory>,
) -> Ending {
    match sent {
        Err(NoMemory) => Ending::Refused,
        Ok(items) => match items.as_slice() {
            [] => Ending::refused(node.epoch().get() == 0),
            [first, second] => {
                if is_to(first, 2) && is_to(second, 3) {
                    Ending::Answered
                } else {
                    Ending::refused(first.is_none() || second.is_none())
                }
            }
            _ => Ending::Differs,
        },
    }
}

/// The map gets to the node.
fn turn<N: BoardName>(
    alloc: Global,
    board: &Board,
    table: &ClassTable,
    cell: &mut GroupCell<N>,
) -> Option<Ending>
    requires board { board.now ≡ N.board }
    requires table { table.now ≡ N.classes }
{
    let map = Carried::Map(map_of(alloc)?);
    let sent = cell.turn(alloc, board, table, map);
    Some(end_of(cell.node(), &sent))
}

/// The end of a turn, and of a second one if memory is refused: the same event, if it never came,
/// else `resend`.
fn turns<N: BoardName>(
    alloc: Global,
    board: &Board,
    table: &ClassTable,
    writer: Writer,
) -> Option<Ending>
    requires board { board.now ≡ N.board }
    requires table { table.now ≡ N.classes }
    requires writer { (writer.board ≡ board.now) × (writer.list ≡ []) }
{
    let mut cell = GroupCell::new(GroupNode::<N>::new(alloc, NodeId::new(1)), writer);
    match turn(alloc, board, table, &mut cell) {
        Some(Ending::Refused) if cell.node().epoch().get() == 0 => {
            Some(Ending::Refused.then(turn(alloc, board, table, &mut cell)))
        }
        Some(Ending::Refused) => {
            let sent = cell.resend(alloc, board, 2);
            Some(Ending::Refused.then(Some(end_of(cell.node(), &sent))))
        }
        ending => ending,
    }
}

/// `GroupCell::turn`, of a cell with the writer of a new board's one row.
pub fn turned(alloc: Global) -> Option<Ending> {
    let table = table_of(alloc, LOCK)?;
    let (board, mut writers, _) = Board::new(alloc, 1).ok()?;
    turns::<Brand>(alloc, &board, &table, writers.pop()?)
}
