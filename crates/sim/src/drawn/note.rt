//! Notes the step of a line for a drawing.

use crate::drawn::column::Column;
use crate::drawn::drawn_step::{DrawnStep, What};
use escaped_text::push_escaped;
use group_world::Party;
use placement::NodeId;
use sim_world::{Line, Taken, said_text};
use std::alloc::{AllocError, Global};

/// The column of a node; a number past 255 counts as that, and no node has it.
fn column_of_node(node: NodeId) -> Column {
    Column::Node(node.get().min(255) as u8)
}

/// The column of a party.
pub(crate) fn column(party: Party) -> Column {
    match party {
        Party::Node(node) => column_of_node(node),
        Party::Monitor => Column::Monitor,
        Party::Client(client) => Column::Client(client.get()),
    }
}

/// The step that a line is to make, if any; of a delivery, that the message arrives.
#[rattlefmt::skip]
pub(crate) fn meant(line: &Line) -> Option<What>
{
    match line {
        Line::Empty => None,
        Line::Bad => None,
        Line::Map(_) => Some(What::At(Column::Monitor)),
        Line::Ask(node, request) => Some(What::Asked(Column::Client(request.client().get()), column_of_node(*node))),
        Line::Deliver(number) => Some(What::Arrived(*number as usize)),
        Line::See(node, _) => Some(What::At(column_of_node(*node))),
        Line::Show(node) => Some(What::At(column_of_node(*node))),
        Line::Stop(node) => Some(What::Stopped(column_of_node(*node))),
        Line::Go(node) => Some(What::Resumed(column_of_node(*node))),
        Line::Resend(node) => Some(What::At(column_of_node(*node))),
    }
}

/// A message comes to its receiver, or to one that is stopped.
fn delivery(number: usize, taken: &Taken) -> What {
    if let Taken::Stopped = taken {
        return What::Bounced(number);
    }
    What::Arrived(number)
}

/// The step that happened if that one was to happen, by what came of the line.
fn done(meant: What, taken: &Taken) -> What {
    match meant {
        What::At(_) => meant,
        What::Asked(_, _) => meant,
        What::Arrived(number) => delivery(number, taken),
        What::Bounced(_) => meant,
        What::Stopped(_) => meant,
        What::Resumed(_) => meant,
    }
}

/// The number of messages that a line sent.
fn sent_by(taken: &Taken) -> usize {
    if let Taken::Sent(count) = taken {
        return *count;
    }
    0
}

/// Messages that are sent again, after each other, with `: ` before the first and `, ` before each
/// further one.
fn again_after(alloc: Global, numbers: &[usize]) -> Result<String, AllocError> {
    let mut text = String::new(alloc);
    let mut before = ": ";
    for number in numbers {
        let again = format!(in alloc; "{before}again m{number}")?;
        text.push_str(again.as_str())?;
        before = ", ";
    }
    Ok(text)
}

/// The text that is said in a line, after a colon.
fn after_colon(alloc: Global, taken: &Taken) -> Result<String, AllocError> {
    let said = said_text(alloc, taken)?;
    format!(in alloc; ": {said}")
}

/// The text of what came of a line; empty if it sent messages or says nothing.
fn said_after(alloc: Global, taken: &Taken) -> Result<String, AllocError> {
    match taken {
        Taken::Bad => Ok(String::new(alloc)),
        Taken::Skipped => Ok(String::new(alloc)),
        Taken::Stopped => after_colon(alloc, taken),
        Taken::Sent(_) => Ok(String::new(alloc)),
        Taken::Refused(_) => after_colon(alloc, taken),
        Taken::MonitorRefused(_) => after_colon(alloc, taken),
        Taken::Made(_) => after_colon(alloc, taken),
        Taken::Shown(_) => after_colon(alloc, taken),
        Taken::Again(numbers) => again_after(alloc, numbers.items()),
    }
}

/// The line of a step, but none of a delivery.
fn line_of_step(what: What, line: &str) -> &str {
    match what {
        What::At(_) => line,
        What::Asked(_, _) => line,
        What::Arrived(_) => "",
        What::Bounced(_) => "",
        What::Stopped(_) => line,
        What::Resumed(_) => line,
    }
}

/// The text of a step.
fn said(alloc: Global, line: &str, what: What, taken: &Taken) -> Result<String, AllocError> {
    let mut text = String::new(alloc);
    push_escaped(&mut text, line_of_step(what, line))?;
    let after = said_after(alloc, taken)?;
    text.push_str(after.as_str())?;
    Ok(text)
}

/// Notes what a line made happen, if anything was to.
pub(crate) fn note(
    alloc: Global,
    meant: Option<What>,
    text: &str,
    taken: &Taken,
    steps: &mut Vec<DrawnStep>,
) -> Result<(), AllocError> {
    if let Some(meant) = meant {
        let what = done(meant, taken);
        let said = said(alloc, text, what, taken)?;
        let sent = sent_by(taken);
        steps.push(DrawnStep {
            what,
            text: said,
            sent,
        })?;
    }
    Ok(())
}
