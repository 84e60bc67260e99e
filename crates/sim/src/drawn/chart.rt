//! The drawing, line by line.
ghost use Rattle.std.specs.Prelude.{◌≤◌, ◌<◌, ◌+◌, length};

use crate::drawn::column::Column;
use crate::drawn::columns::{columns_of, place_of};
use crate::drawn::delivered::delivered;
use crate::drawn::drawn_message::DrawnMessage;
use crate::drawn::drawn_step::{DrawnStep, What};
use crate::drawn::rows::{Arrow, push_arrow, push_mark};
use crate::drawn::stopped::note_stop;
use crate::drawn::text::push_repeated;
use std::alloc::{AllocError, Global};

/// The inputs for drawing a step: the columns, the messages, for each message if some step delivers
/// it, and for each column if its node is stopped then.
#[derive(Drop)]
struct Chart<'a> {
    alloc: Global,
    columns: &'a [Column],
    messages: &'a [DrawnMessage],
    arrived: &'a [bool],
    stopped: &'a [bool],
}

/// The run as a message sequence: the names of the columns, then a line for each step. A message is
/// drawn at each arrival. One that no step delivers is drawn below the step that sent it, a reply
/// as it reaches its client, any other as lost. The line of a step ends with the numbers of the
/// messages that it sent. It fails for want of memory alone.
pub fn draw(
    alloc: Global,
    messages: &[DrawnMessage],
    steps: &[DrawnStep],
) -> Result<String, AllocError> {
    let mut out = String::new(alloc);
    push_drawing(alloc, &mut out, messages, steps)?;
    Ok(out)
}

/// The names of the columns and the lines of all steps.
fn push_drawing(
    alloc: Global,
    out: &mut String,
    messages: &[DrawnMessage],
    steps: &[DrawnStep],
) -> Result<(), AllocError> {
    let columns = columns_of(alloc, messages, steps)?;
    push_names(alloc, out, &columns)?;
    push_steps(alloc, out, &columns, messages, steps)
}

/// The lines of all steps, and below them those of the messages that no step delivers.
fn push_steps(
    alloc: Global,
    out: &mut String,
    columns: &[Column],
    messages: &[DrawnMessage],
    steps: &[DrawnStep],
) -> Result<(), AllocError> {
    let arrived = delivered(alloc, messages, steps)?;
    let mut stopped = vec![in alloc; false; columns.len()]?;
    let mut first = 0;
    for step in steps {
        // Before the line is drawn, so that a stop shows in the line of its own step.
        note_stop(columns, step.what, &mut stopped);
        let chart = Chart {
            alloc,
            columns,
            messages,
            arrived: &arrived,
            stopped: &stopped,
        };
        let count = sent_by(messages, first, step);
        chart.push_step(out, first, count, step)?;
        chart.push_all_lost(out, first, count)?;
        first += count;
    }
    Ok(())
}

/// The names of the columns.
fn push_names(alloc: Global, out: &mut String, columns: &[Column]) -> Result<(), AllocError> {
    for column in columns {
        push_heading(alloc, out, *column)?;
    }
    out.push_str("event\n")
}

/// The name of a column.
fn push_heading(alloc: Global, out: &mut String, column: Column) -> Result<(), AllocError> {
    let text = name(alloc, column)?;
    push_filled(out, text.as_str())
}

/// A text, filled to the width of a column.
fn push_filled(out: &mut String, text: &str) -> Result<(), AllocError> {
    out.push_str(text)?;
    push_repeated(out, 12usize.saturating_sub(text.len()), " ")
}

/// A column's name as a text.
fn name(alloc: Global, column: Column) -> Result<String, AllocError> {
    let mut text = String::new(alloc);
    column.push_name(&mut text)?;
    Ok(text)
}

/// The message of a number, if there is one.
fn message_at(messages: &[DrawnMessage], number: usize) -> Option<&DrawnMessage> {
    // Messages are numbered from 1.
    if number == 0 {
        return None;
    }
    messages.get(number - 1)
}

/// The numbers of the `count` messages that a step sent, from one on.
fn push_sends(out: &mut String, first: usize, count: usize) -> Result<(), AllocError>
    requires { first + count ≤ usize.MAX }
{
    if count == 0 {
        return Ok(());
    }
    out.push_str(" =>")?;
    for k in 0..count {
        write!(out, " m{}", first + k + 1)?;
    }
    Ok(())
}

/// A message's kind: the first word of its text.
fn kind(text: &str) -> &str {
    match text.split_once(' ') {
        Some((kind, _)) => kind,
        None => text,
    }
}

/// The label of a message on an arrow that is long enough.
fn long_label(alloc: Global, number: usize, message: &DrawnMessage) -> Result<String, AllocError> {
    let kind = kind(message.text.as_str());
    format!(in alloc; "m{number} {kind}")
}

/// True if some step delivers the message of a place.
fn has_arrived(arrived: &[bool], place: usize) -> bool {
    match arrived.get(place) {
        Some(has_arrived) => *has_arrived,
        None => false,
    }
}

/// The number of messages from `first` on that a step sent.
fn sent_by(messages: &[DrawnMessage], first: usize, step: &DrawnStep) -> usize
    requires { first ≤ length messages.now }
    ensures { first + result ≤ length messages.now }
{
    // A step may claim more messages than there are.
    step.sent.min(messages.len() - first)
}

impl Chart<'_> {
    /// A message from its sender to its receiver.
    fn push_message(
        &self,
        out: &mut String,
        number: usize,
        arrives: bool,
        message: &DrawnMessage,
    ) -> Result<(), AllocError> {
        let short = format!(in self.alloc; "m{number}")?;
        let long = long_label(self.alloc, number, message)?;
        let arrow = Arrow {
            start: place_of(self.columns, message.from),
            end: place_of(self.columns, message.to),
            arrives,
            long: long.as_str(),
            short: short.as_str(),
        };
        push_arrow(out, self.stopped, arrow)
    }

    /// A message that is delivered, and its text.
    fn push_delivery(
        &self,
        out: &mut String,
        number: usize,
        arrives: bool,
    ) -> Result<(), AllocError> {
        match message_at(self.messages, number) {
            Some(message) => self.push_said(out, number, arrives, message),
            None => Ok(()),
        }
    }

    /// A message, and its text.
    fn push_said(
        &self,
        out: &mut String,
        number: usize,
        arrives: bool,
        message: &DrawnMessage,
    ) -> Result<(), AllocError> {
        self.push_message(out, number, arrives, message)?;
        out.push_str(message.text.as_str())
    }

    /// Appends the picture of a step's event.
    fn push_picture(&self, out: &mut String, what: What) -> Result<(), AllocError> {
        let columns = self.columns;
        match what {
            What::At(column) => push_mark(out, self.stopped, place_of(columns, column)),
            What::Stopped(column) => push_mark(out, self.stopped, place_of(columns, column)),
            What::Resumed(column) => push_mark(out, self.stopped, place_of(columns, column)),
            What::Asked(client, node) => {
                let arrow = Arrow {
                    start: place_of(columns, client),
                    end: place_of(columns, node),
                    arrives: true,
                    long: "req",
                    short: "req",
                };
                push_arrow(out, self.stopped, arrow)
            }
            What::Arrived(number) => self.push_delivery(out, number, true),
            What::Bounced(number) => self.push_delivery(out, number, false),
        }
    }

    /// A message that no step delivers.
    fn push_lost(
        &self,
        out: &mut String,
        number: usize,
        message: &DrawnMessage,
    ) -> Result<(), AllocError> {
        let arrives = message.to.is_client();
        self.push_message(out, number, arrives, message)?;
        out.push_str(message.text.as_str())?;
        out.push_str(message.to.fate())
    }

    /// The message of a place, if no step delivers it.
    fn push_if_lost(&self, out: &mut String, place: usize) -> Result<(), AllocError>
        requires { place < length self.now.messages.now }
    {
        if has_arrived(self.arrived, place) {
            return Ok(());
        }
        let messages = self.messages;
        self.push_lost(out, place + 1, &messages[place])
    }

    /// Of `count` messages from `first` on, those that no step delivers.
    fn push_all_lost(&self, out: &mut String, first: usize, count: usize) -> Result<(), AllocError>
        requires { first + count ≤ length self.now.messages.now }
    {
        for k in 0..count {
            self.push_if_lost(out, first + k)?;
        }
        Ok(())
    }

    /// The line of a step.
    fn push_step(
        &self,
        out: &mut String,
        first: usize,
        count: usize,
        step: &DrawnStep,
    ) -> Result<(), AllocError>
        requires { first + count ≤ length self.now.messages.now }
    {
        self.push_picture(out, step.what)?;
        out.push_str(step.text.as_str())?;
        push_sends(out, first, count)?;
        out.push_str("\n")
    }
}
