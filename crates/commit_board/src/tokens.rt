//! The tokens of a board: who may write a row, and who knows what of the rows.

ghost use Rattle.std.specs.Prelude.{◌≡◌};

use crate::view::View;
use atomic_table::Seat;
use std::marker::Model;

/// The one that may write a row. To a contract it is its board, its row and that row's list.
pub struct Writer {
    pub(crate) row: usize,
    pub(crate) seat: Seat<u8, View>,
}

impl Drop for Writer {
    fn drop(self) {
        let Writer { row: _, seat } = self;
        drop(seat);
    }
}

impl Model for Writer {
    ghost use Rattle.std.specs.Prelude.{◌≡◌, ◌<◌, suc, []};
    ghost use Rattle.commit_board.specs.Tokens.{Row, writer_of};
    ghost use Rattle.commit_board.specs.Rows.{writes};

    ghost Value = { Row };

    ghost view = { λ w. writer_of w.seat.table_id w.row w.seat.me.0.written };

    ghost invariant = { λ w. (w.row < w.seat.table_id.words) ×
        (w.seat.me ≡ (writes w.row (suc w.row) w.seat.me.0.written, [])) };
}

impl Writer {
    /// The row that it writes.
    pub fn row(&self) -> usize
        ensures { result ≡ self.now.row }
    {
        self.row
    }
}

/// A token that has seen a beginning of each row's list. It has no bytes.
pub struct Seen {
    pub(crate) seat: Seat<u8, View>,
}

impl Drop for Seen {
    fn drop(self) {
        let Seen { seat } = self;
        drop(seat);
    }
}

impl Model for Seen {
    ghost use Rattle.std.specs.Prelude.{◌≡◌, []};
    ghost use Rattle.commit_board.specs.Tokens.{Knows, knows};
    ghost use Rattle.commit_board.specs.Rows.{sees};

    ghost Value = { Knows };

    ghost view = { λ s. knows s.seat.table_id s.seat.me.0.known };

    ghost invariant = { λ s. s.seat.me ≡ (sees s.seat.me.0.known [], []) };
}

/// A note by which one token hands on its knowledge to another. It has no bytes.
#[derive(Drop)]
pub struct Note {
    pub(crate) seat: Seat<u8, View>,
}

impl Model for Note {
    ghost use Rattle.std.specs.Prelude.{◌≡◌, []};
    ghost use Rattle.commit_board.specs.Tokens.{Knows, knows};
    ghost use Rattle.commit_board.specs.Rows.{sees};

    ghost Value = { Knows };

    ghost view = { λ s. knows s.seat.table_id s.seat.me.0.known };

    ghost invariant = { λ s. s.seat.me ≡ (sees s.seat.me.0.known [], []) };
}
