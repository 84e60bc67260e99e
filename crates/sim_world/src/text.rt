//! Prints what came of a line.
ghost use Rattle.std.specs.Prelude.{◌≡◌, IfOk, string_bytes};
ghost use Rattle.sim_world.specs.Texts.{said_text};
ghost use Rattle.sim_world.specs.inner.Parts.{ended, kept_lines, kept_taken, kept_text, last_kept};

use crate::kept::KeptMessage;
use crate::message_text::message_line;
use crate::sent::next_number;
use crate::taken::Taken;
use crate::taken_text::{again_text, said_text};
use std::alloc::{AllocError, Global};

/// Messages, from a number on.
fn kept_lines(alloc: Global, number: usize, messages: &[KeptMessage]) -> Result<String, AllocError>
    ensures { IfOk result (λ t. string_bytes t ≡ kept_lines number messages.now) }
{
    let mut text = String::new(alloc);
    let mut next = number;
    for kept in messages {
        let line = message_line(alloc, next, kept.receiver, &kept.message)?;
        text.push_str(line.as_str())?;
        next = next_number(next)?;
    }
    Ok(text)
}

/// Messages, or that there are none.
fn kept_text(alloc: Global, number: usize, messages: &[KeptMessage]) -> Result<String, AllocError>
    ensures { IfOk result (λ t. string_bytes t ≡ kept_text number messages.now) }
{
    if messages.is_empty() {
        return String::from_str(alloc, "nothing\n");
    }
    kept_lines(alloc, number, messages)
}

/// The last `count` messages.
fn last_kept(alloc: Global, sent: &[KeptMessage], count: usize) -> Result<String, AllocError>
    ensures { IfOk result (λ t. string_bytes t ≡ last_kept sent.now count) }
{
    let before = sent.len().saturating_sub(count);
    let number = next_number(before)?;
    kept_text(alloc, number, &sent[before..])
}

/// The text of it, ended by a line feed.
fn said_line(alloc: Global, taken: &Taken) -> Result<String, AllocError>
    ensures { IfOk result (λ t. string_bytes t ≡ ended (said_text taken.now)) }
{
    let mut text = said_text(alloc, taken)?;
    text.push_str("\n")?;
    Ok(text)
}

/// The text that is printed of a line, by the messages that were sent up to it.
pub(crate) fn taken_text(
    alloc: Global,
    sent: &[KeptMessage],
    taken: &Taken,
) -> Result<String, AllocError>
    ensures { IfOk result (λ t. string_bytes t ≡ kept_taken sent.now taken.now) }
{
    match taken {
        Taken::Bad => Ok(String::new(alloc)),
        Taken::Skipped => Ok(String::new(alloc)),
        Taken::Stopped => said_line(alloc, taken),
        Taken::Sent(count) => last_kept(alloc, sent, *count),
        Taken::Refused(_) => said_line(alloc, taken),
        Taken::MonitorRefused(_) => said_line(alloc, taken),
        Taken::Made(_) => said_line(alloc, taken),
        Taken::Shown(_) => said_line(alloc, taken),
        Taken::Again(numbers) => again_text(alloc, numbers.items()),
    }
}
