//! The columns with stopped nodes.

use crate::drawn::column::Column;
use crate::drawn::columns::place_of;
use crate::drawn::drawn_step::What;

/// Notes for the column of a place if its node is stopped, if there is such a column.
fn set(stopped: &mut [bool], place: usize, is_stopped: bool) {
    if place < stopped.len() {
        stopped[place] = is_stopped;
    }
}

/// Notes that a node stops, or goes on.
pub(crate) fn note_stop(columns: &[Column], what: What, stopped: &mut [bool]) {
    match what {
        What::At(_) => {}
        What::Asked(_, _) => {}
        What::Arrived(_) => {}
        What::Bounced(_) => {}
        What::Stopped(column) => set(stopped, place_of(columns, column), true),
        What::Resumed(column) => set(stopped, place_of(columns, column), false),
    }
}
