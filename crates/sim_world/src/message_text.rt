//! The texts of messages.
ghost use Rattle.std.specs.Prelude.{◌≡◌, ◌+◌, IfOk, length, string_bytes};
ghost use Rattle.sim_world.specs.Kept.{carried_text, kept_line, log_text};
ghost use Rattle.sim_world.specs.Texts.{digits_or_dash, party_text, reply_text, word_and_number, word_and_two_numbers};

use carried::{CarriedKind as Kind, CarriedMessage};
use group_world::{CallReply, Epoch, Party};
use replication::PackedLog;
use std::alloc::{AllocError, Global};

/// Who sends or receives: a node's number, `mon`, or a client as `c1`.
fn party_text(alloc: Global, party: Party) -> Result<String, AllocError>
    ensures { IfOk result (λ t. string_bytes t ≡ party_text party) }
{
    match party {
        Party::Node(node) => format!(in alloc; "{}", node.get()),
        Party::Monitor => String::from_str(alloc, "mon"),
        Party::Client(client) => format!(in alloc; "c{}", client.get()),
    }
}

fn word_and_number(alloc: Global, word: &str, n: u32) -> Result<String, AllocError>
    ensures { IfOk result (λ t. string_bytes t ≡ word_and_number word.now n) }
{
    format!(in alloc; "{word} {n}")
}

fn word_and_two_numbers(alloc: Global, word: &str, n: u32, k: usize) -> Result<String, AllocError>
    ensures { IfOk result (λ t. string_bytes t ≡ word_and_two_numbers word.now n k) }
{
    format!(in alloc; "{word} {n} {k}")
}

/// Hexadecimal digits, or `-` for none.
fn or_dash(digits: &str) -> &str
    ensures { result.now ≡ digits_or_dash digits.now }
{
    if digits.is_empty() { "-" } else { digits }
}

fn reply_text(
    alloc: Global,
    number: u32,
    place: usize,
    answer: &CallReply,
) -> Result<String, AllocError>
    ensures { IfOk result (λ t. string_bytes t ≡ reply_text number place answer.now) }
{
    let digits = hex::encode(alloc, answer.output())?;
    let (code, output) = (answer.code(), or_dash(digits.as_str()));
    format!(in alloc; "Reply {number} {place} {code} {output}")
}

/// The length of a packed list. There is no memory for one that is longer than numbers go.
fn length_of(log: &PackedLog) -> Result<usize, AllocError>
    ensures { IfOk result (λ n. n ≡ log.now.common + length log.now.rest) }
{
    log.common().checked_add(log.rest().len()).ok_or(AllocError)
}

fn log_text(alloc: Global, interval: Epoch, log: &PackedLog) -> Result<String, AllocError>
    ensures { IfOk result (λ t. string_bytes t ≡ log_text interval log.now) }
{
    let length = length_of(log)?;
    word_and_two_numbers(alloc, "Log", interval.get(), length)
}

/// The text of a message's kind, as it is carried. It fails for want of memory alone.
#[rattlefmt::skip]
pub fn carried_text(alloc: Global, kind: &Kind) -> Result<String, AllocError>
    ensures { IfOk result (λ t. string_bytes t ≡ carried_text kind.now) }
{
    match kind {
        Kind::Query(map, _) => word_and_number(alloc, "Query", map.interval().get()),
        Kind::Log(interval, log) => log_text(alloc, *interval, log),
        Kind::Install(map, list) => word_and_two_numbers(alloc, "Install", map.interval().get(), list.items().len()),
        Kind::Installed(interval) => word_and_number(alloc, "Installed", interval.get()),
        Kind::AskActivate(interval) => word_and_number(alloc, "AskActivate", interval.get()),
        Kind::Activated(interval) => word_and_number(alloc, "Activated", interval.get()),
        Kind::Rep(interval, place, _) => word_and_two_numbers(alloc, "Rep", interval.get(), *place),
        Kind::Ack(interval, length) => word_and_two_numbers(alloc, "Ack", interval.get(), *length),
        Kind::Reply(_, number, place, answer) => reply_text(alloc, number.get(), *place, answer),
    }
}

/// A message with its number, ended by a line feed. It fails for want of memory alone.
pub fn message_line(
    alloc: Global,
    number: usize,
    receiver: Party,
    message: &CarriedMessage,
) -> Result<String, AllocError>
    ensures { IfOk result (λ t. string_bytes t ≡ kept_line number receiver message.now) }
{
    let from = party_text(alloc, message.sender)?;
    let to = party_text(alloc, receiver)?;
    let says = carried_text(alloc, &message.kind)?;
    format!(in alloc; "m{number} {from}->{to} {says}\n")
}
