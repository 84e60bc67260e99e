//! The lines that are printed of a cluster's calls, and of a refused line.

ghost use Rattle.std.specs.Prelude.{◌≡◌, ◌++◌, IfOk, IfSome, IsTrue, OnOk, string_bytes};
ghost use Rattle.std.specs.Int.{w64, cast_unsigned};
ghost use Rattle.placement.specs.Placement.{is_group_count};
ghost use Rattle.escaped_text.specs.Escaped.{escaped};
ghost use Rattle.cluster_file.specs.Text.{Replied, Refused, asked_text, bad_line, digits_or_dash, end_text, head_text};
ghost use Rattle.cluster_file.specs.Text.{refused_line};

use crate::planned_call::PlannedCall;
use escaped_text::push_escaped;
use placement::group_of;
use std::alloc::{AllocError, Global};
use std::fmt::Display;

/// The line that says that a line is malformed.
pub fn bad_line(alloc: Global, number: usize) -> Result<String, AllocError>
    ensures { IfOk result (λ t. string_bytes t ≡ bad_line number) }
{
    format!(in alloc; "line {number}: bad\n")
}

/// The line that says why a line is refused: the refusal, which prints as number and name.
pub fn refused_line<E: Display + Drop>(
    alloc: Global,
    number: usize,
    why: E,
) -> Result<String, AllocError>
    ensures { IfOk result (λ t. IfSome (E.output why) (λ reason. string_bytes t ≡ refused_line number reason)) }
{
    format!(in alloc; "line {number}: refused {why}\n")
}

/// The digits, or `-` if there are none.
fn or_dash(digits: &str) -> &str
    ensures { result.now ≡ digits_or_dash digits.now }
{
    if digits.is_empty() { "-" } else { digits }
}

/// A word in printable ASCII alone.
fn escaped(alloc: Global, word: &str) -> Result<String, AllocError>
    ensures { IfOk result (λ t. string_bytes t ≡ escaped word.now) }
{
    let mut text = String::new(alloc);
    push_escaped(&mut text, word)?;
    Ok(text)
}

/// Adds the client of a call, and the call's number among those of its client.
pub fn push_head(text: &mut String, client: usize, number: usize) -> Result<(), AllocError>
    ensures { OnOk result (string_bytes text.new ≡ string_bytes text.old ++ head_text client number) }
{
    write!(text, "client {client} call {number}")
}

/// Adds the request of a call: the group of its object, of `groups` groups, and the request in the
/// words of the file.
pub fn push_asked(
    alloc: Global,
    text: &mut String,
    groups: u64,
    call: &PlannedCall,
) -> Result<(), AllocError>
    requires { IsTrue (is_group_count groups) }
    ensures { OnOk result (string_bytes text.new ≡ string_bytes text.old ++ asked_text groups call.now) }
{
    let object = call.object().text();
    let group = group_of(object.as_bytes(), groups);
    let object = escaped(alloc, object)?;
    let (class, method) = (escaped(alloc, call.word())?, escaped(alloc, call.method())?);
    let digits = hex::encode(alloc, call.input())?;
    let input = or_dash(&digits);
    let asked = format!(in alloc; " group {group} request {object} {class} {method} {input}")?;
    text.push_str(&asked)
}

/// Adds the end of a call that was replied to: place, code and output.
pub fn push_replied(
    alloc: Global,
    text: &mut String,
    place: usize,
    code: i64,
    output: &[u8],
) -> Result<(), AllocError>
    ensures { OnOk result (string_bytes text.new ≡ string_bytes text.old ++
        end_text (Replied place (cast_unsigned w64 code) output.now)) }
{
    let digits = hex::encode(alloc, output)?;
    let shown = or_dash(&digits);
    let line = format!(in alloc; " place {place} code {code} output {shown}\n")?;
    text.push_str(&line)
}

/// Adds the end of a call that was refused.
pub fn push_refused<E: Display + Drop>(
    alloc: Global,
    text: &mut String,
    why: E,
) -> Result<(), AllocError>
    ensures { OnOk result (IfSome (E.output why)
        (λ reason. string_bytes text.new ≡ string_bytes text.old ++ end_text (Refused reason))) }
{
    let line = format!(in alloc; " refused {why}\n")?;
    text.push_str(&line)
}
