//! Calls of helpers: the name, the arguments with their bytes, the answer, and the bytes that were
//! written to the method's memory.

use crate::paired::{Both, Paired};
use crate::values::{push_bytes, push_value};
use helpers::{Argument, Helper, signature};
use std::alloc::AllocError;

/// The name of a helper, as docs/ASSEMBLY.md has it.
fn name(helper: Helper) -> &'static str {
    match helper {
        Helper::Stat => "stat",
        Helper::Read => "read",
        Helper::Write => "write",
        Helper::Truncate => "truncate",
        Helper::Remove => "remove",
        Helper::GetXattr => "getxattr",
        Helper::SetXattr => "setxattr",
        Helper::RmXattr => "rmxattr",
        Helper::MapGet => "map_get",
        Helper::MapSet => "map_set",
        Helper::MapRm => "map_rm",
        Helper::MapNext => "map_next",
        Helper::OutLen => "out_len",
        Helper::Create => "create",
        Helper::Caller => "caller",
        Helper::Compare => "compare",
        Helper::Copy => "copy",
        Helper::XattrNext => "xattr_next",
    }
}

/// The name of an error, with a space before it; nothing of a number that is none.
fn error_name(error: u64) -> &'static str {
    let names = [
        (helpers::ENOENT, " ENOENT"),
        (helpers::EIO, " EIO"),
        (helpers::ENOMEM, " ENOMEM"),
        (helpers::EBUSY, " EBUSY"),
        (helpers::EEXIST, " EEXIST"),
        (helpers::EINVAL, " EINVAL"),
        (helpers::EFBIG, " EFBIG"),
        (helpers::ENOSPC, " ENOSPC"),
        (helpers::ERANGE, " ERANGE"),
        (helpers::ENODATA, " ENODATA"),
    ];
    for (number, name) in names {
        if number == error {
            return name;
        }
    }
    ""
}

/// Adds a range of bytes: its place, and its bytes if it is read, else how many it has room for.
fn push_range(
    out: &mut String,
    states: Paired<'_, '_>,
    at: Both,
    count: u64,
    is_read: bool,
) -> Result<(), AllocError> {
    out.push_str("[")?;
    push_value(out, states, at)?;
    if is_read {
        out.push_str("] = ")?;
        push_bytes(out, states.first, at.first, count)
    } else {
        write!(out, "] of {count}")
    }
}

/// Adds the argument in a register, or in two from it on.
fn push_argument(
    out: &mut String,
    states: Paired<'_, '_>,
    argument: Argument,
    register: u8,
) -> Result<(), AllocError> {
    let Some(value) = states.register(register) else {
        return Ok(());
    };
    let count = states
        .first
        .register(register.saturating_add(1))
        .unwrap_or(0);
    match argument {
        Argument::Number | Argument::OutputLength => push_value(out, states, value),
        Argument::Readable => push_range(out, states, value, count, true),
        Argument::Writable => push_range(out, states, value, count, false),
    }
}

/// The registers that an argument takes.
fn registers(argument: Argument) -> u8 {
    match argument {
        Argument::Number | Argument::OutputLength => 1,
        Argument::Readable | Argument::Writable => 2,
    }
}

/// Adds the name of the helper of an id and its arguments, before the call.
pub(crate) fn push_call(
    out: &mut String,
    states: Paired<'_, '_>,
    id: u32,
) -> Result<(), AllocError> {
    let (Some(helper), Some(takes)) = (Helper::of(id), signature(id)) else {
        return Ok(());
    };
    write!(out, "; {}(", name(helper))?;
    let mut register = 1u8;
    for argument in takes.arguments {
        if register > 1 {
            out.push_str(", ")?;
        }
        push_argument(out, states, *argument, register)?;
        register = register.saturating_add(registers(*argument));
    }
    out.push_str(")")
}

/// The address of the range that the helper of an id writes, if it writes one.
pub(crate) fn room_of(states: Paired<'_, '_>, id: u32) -> Option<Both> {
    let mut register = 1u8;
    for argument in signature(id)?.arguments {
        if let Argument::Writable = argument {
            return states.register(register);
        }
        register = register.saturating_add(registers(*argument));
    }
    None
}

/// Adds what a helper answered, and the bytes that it wrote to its range, of which the answer is
/// the count.
pub(crate) fn push_answer(
    out: &mut String,
    states: Paired<'_, '_>,
    room: Option<Both>,
) -> Result<(), AllocError> {
    let answer = states.first.register(0).unwrap_or(0);
    write!(out, " = {}", answer.cast_signed())?;
    if answer >= 1 << 63 {
        return out.push_str(error_name(answer.wrapping_neg()));
    }
    match room {
        Some(at) if answer > 0 => {
            out.push_str("; ")?;
            push_range(out, states, at, answer, true)
        }
        _ => Ok(()),
    }
}
