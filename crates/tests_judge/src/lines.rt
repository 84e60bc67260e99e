//! The lines of a history. A number from 0 on is that of a line of the plan, an item.
//!
//! - `call CLIENT NUMBER ITEM BEGAN ENDED place PLACE code CODE output HEX`, or `.. refused REASON`:
//!   a request of that number, sent and answered between these ticks of the run's one clock. It has
//!   a line for each time it was sent.
//! - `map ITEM EPOCH`, or `map ITEM refused REASON`; `stop ITEM`, `go ITEM`, or `.. refused`.
//! - `messages LOST DOUBLED LATE`.
//! - `log NODE GROUP`, and an entry after it as `CLIENT.NUMBER.CODE`.

use crate::trouble::Trouble;
use map_book::MapError;
use osd::LoggedEntry;
use rados_client::{ExecError, ExecReply};
use std::alloc::{AllocError, Global};
use std::fmt::Write;

/// Which request was sent, and between which ticks.
#[derive(Clone, Copy)]
pub struct Sent {
    pub client: u32,
    pub number: u32,
    pub item: usize,
    pub began: u64,
    pub ended: u64,
}

/// Adds the line of a call.
pub fn push_call(
    text: &mut String,
    sent: Sent,
    answer: &Result<ExecReply, ExecError>,
) -> Result<(), AllocError> {
    let Sent {
        client,
        number,
        item,
        began,
        ended,
    } = sent;
    write!(text, "call {client} {number} {item} {began} {ended} ")?;
    match answer {
        Ok(reply) => push_reply(text, reply),
        Err(why) => write!(text, "refused {why}\n"),
    }
}

fn push_reply(text: &mut String, reply: &ExecReply) -> Result<(), AllocError> {
    let place = reply.place();
    let code = reply.code();
    write!(text, "place {place} code {code} output ")?;
    push_hex(text, reply.output())?;
    write!(text, "\n")
}

/// Adds bytes, two digits each, or `-` if there are none.
fn push_hex(text: &mut String, bytes: &[u8]) -> Result<(), AllocError> {
    for byte in bytes {
        write!(text, "{byte:02x}")?;
    }
    if bytes.is_empty() {
        write!(text, "-")?;
    }
    Ok(())
}

/// Adds the line of a map.
pub fn push_map(
    text: &mut String,
    item: usize,
    made: Result<u32, MapError>,
) -> Result<(), AllocError> {
    match made {
        Ok(epoch) => write!(text, "map {item} {epoch}\n"),
        Err(why) => write!(text, "map {item} refused {why}\n"),
    }
}

/// Adds the line of a node that is stopped or let go.
pub fn push_done(
    text: &mut String,
    word: &str,
    item: usize,
    is_done: bool,
) -> Result<(), AllocError> {
    let end = if is_done { "" } else { " refused" };
    write!(text, "{word} {item}{end}\n")
}

/// The line of the messages.
pub fn messages_line(alloc: Global, trouble: &Trouble) -> Result<String, AllocError> {
    let (lost, doubled, late) = trouble.counts();
    format!(in alloc; "messages {lost} {doubled} {late}\n")
}

/// The line of a node's log of a group.
pub fn log_line(
    alloc: Global,
    node: u64,
    group: u64,
    entries: &[LoggedEntry],
) -> Result<String, AllocError> {
    let mut text = format!(in alloc; "log {node} {group}")?;
    for entry in entries {
        let LoggedEntry {
            client,
            number,
            code,
        } = *entry;
        write!(text, " {client}.{number}.{code}")?;
    }
    write!(text, "\n")?;
    Ok(text)
}
