//! Which of the values here may go to another thread, for the proofs of the crates above. The
//! functions do nothing.
ghost use denote.Param.Send.{IsSend};
ghost use Rattle.map_book.specs.contracts.book.MapBook as book;
ghost use Rattle.map_book.specs.contracts.new_map.NewMap as new_map;

use crate::book::MapBook;
use crate::new_map::NewMap;
use group_world::map_crosses;
use peering::monitor_crosses;

/// A book and its new maps may go to another thread. So threads may share a lock on a book.
pub fn book_crosses()
    ensures book { IsSend book.the_row }
    ensures new_map { IsSend new_map.the_row }
{
    monitor_crosses();
    map_crosses();
    can_send::<MapBook>();
    can_send::<NewMap>()
}

/// Values of the type may go to another thread.
fn can_send<T: Send>()
    ensures { IsSend T.row }
{}
