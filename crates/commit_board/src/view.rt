// The knowledge of a seat at the board, and the rule.
use atomic_table::TableRule;
use pg_log::Request;
use std::collections::LinkedList;

/// The rows from `first` up to `end` are its own to write, and each has the list `written`. It
/// knows a beginning of each row's list, and has received one. No value of it is made.
pub struct View {
    pub first: u64,
    pub end: u64,
    pub written: LinkedList<Request>,
    pub known: LinkedList<LinkedList<Request>>,
    pub received: LinkedList<LinkedList<Request>>,
}

/// The rule of a board with that number of rows.
pub struct Rows;

impl TableRule<u8, View, usize> for Rows {
    ghost use Rattle.commit_board.specs.Rows.{Kept, owner};

    ghost holds = { Kept };

    ghost first = { owner };
}
