//! The messages that are delivered.

use crate::drawn::drawn_message::DrawnMessage;
use crate::drawn::drawn_step::{DrawnStep, What};
use std::alloc::{AllocError, Global};

/// For each message, true if some step delivers it, or tries to.
pub(crate) fn delivered(
    alloc: Global,
    messages: &[DrawnMessage],
    steps: &[DrawnStep],
) -> Result<Vec<bool>, AllocError> {
    let mut arrived = vec![in alloc; false; messages.len()]?;
    note_all(&mut arrived, steps);
    Ok(arrived)
}

/// Notes the messages that steps deliver.
fn note_all(arrived: &mut [bool], steps: &[DrawnStep]) {
    for step in steps {
        note(arrived, step.what);
    }
}

/// Notes the message that a step delivers, if it does.
fn note(arrived: &mut [bool], what: What) {
    match what {
        What::At(_) => {}
        What::Asked(_, _) => {}
        What::Arrived(number) => note_number(arrived, number),
        What::Bounced(number) => note_number(arrived, number),
        What::Stopped(_) => {}
        What::Resumed(_) => {}
    }
}

/// Notes the message of a number, if there is one.
fn note_number(arrived: &mut [bool], number: usize) {
    // Messages are numbered from 1.
    if 0 < number && number <= arrived.len() {
        arrived[number - 1] = true;
    }
}
