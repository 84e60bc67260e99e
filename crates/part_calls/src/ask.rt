//! Calls of helpers from a run on a part of an object.

ghost use Rattle.std.specs.Prelude.{◌≡◌, ◌+◌, ◌≤◌, ◌^◌, IfOk, IfErr, OnOk, length};
ghost use Rattle.object_store.specs.Limits.{IsLimits};
ghost use Rattle.object_store.specs.Object.{PlainObject};
ghost use Rattle.helpers.specs.declared.helper.Helper.{Helper};
ghost use Rattle.helpers.specs.Table.{row, helper_of, read_answer};
ghost use Rattle.helpers.specs.View.{IsWithin, filled};
ghost use Rattle.parts.specs.Known.{Stands};
ghost use Rattle.parts.specs.Needs.{AreRead, NeedsBlocks};
ghost use Rattle.parts.specs.Stops.{IsWantOrNeed};
ghost use Rattle.bpf_machine.specs.declared.limits.TheConstants.{STACK_SIZE};
ghost use Rattle.bpf_machine.specs.Flat.{help};
ghost use Rattle.bpf_machine.specs.Safe.{first_layout};
ghost use Rattle.part_calls.specs.Needed.{StopsOn};
ghost use Rattle.part_calls.specs.Learned.{Answered};
ghost use Rattle.interp.specs.inner.Asked.{CanAsk};
ghost use Rattle.part_calls.specs.inner.PartRun.{AreCounted, PartAnswers, PartCan, PartDoes, StaysCounted, asked_of};
ghost use Rattle.part_calls.specs.inner.PartRun.{AskLearns, IsCopied};

use crate::run::PartRun;
use bpf_machine::{Caps, STACK_SIZE, blind_steps};
use helpers::{Helper, HelperAnswer, Span, bytes_in, fill};
use part_bytes::Need;
use parts::{StagedPart, Stop};
use std::alloc::Global;

/// Copies what was looked up to the beginning of a range, and gives the answer's number.
fn copy_found(
    found: Result<HelperAnswer<'_>, Need>,
    memory: &mut [u8],
    room: Span,
) -> Result<u64, Stop>
    requires within { IsWithin memory.old room }
    requires short { IfOk found (λ a. length a.bytes.now ≤ room.len) }
    ensures { IsCopied found.entry memory.old room memory.new result }
{
    let answer = found?;
    fill(memory, room, answer.bytes);
    Ok(answer.number)
}

/// Copies the data from a place on into a range, until the data or the range ends.
fn read_part(part: &StagedPart, at: u64, memory: &mut [u8], room: Span) -> Result<u64, Stop>
    requires within { IsWithin memory.old room }
    requires small { length memory.old ≤ 2 ^ 18 }
    ensures answer { IfOk result (λ n. (o : PlainObject) → Stands part.now o →
        n ≡ (read_answer o at room.len).number) }
    ensures bytes { OnOk result ((o : PlainObject) → Stands part.now o →
        memory.new ≡ filled memory.old room (read_answer o at room.len).bytes) }
    ensures stopped { IfErr result (IsWantOrNeed (NeedsBlocks part.now at room.len)) }
    ensures known { OnOk result (AreRead part.now at room.len) }
{
    // A range of length 0 may have any address, so memory isn't indexed by it.
    if room.len == 0 {
        return Ok(part.read(at, &mut memory[..0])?);
    }
    Ok(part.read(
        at,
        &mut memory[room.at as usize..(room.at + room.len) as usize],
    )?)
}

/// Does what a helper does, on what is known of the object, the output's length and the memory, and gives its answer.
#[rattlefmt::skip]
fn answer_part(
    alloc: Global,
    helper: Helper,
    run: &mut PartRun,
    memory: &mut [u8],
) -> Result<u64, Stop>
    requires limits { IsLimits run.old.limits }
    requires counted { AreCounted run.old.limits run.old.part }
    requires some { (o : PlainObject) × Stands run.old.part o }
    requires small { length memory.old ≤ 2 ^ 18 }
    requires can { CanAsk run.old.registers memory.old (row helper).takes.arguments 1 }
    ensures done { IfOk result (λ n.
        PartAnswers helper run.old memory.old memory.new run.new.part run.new.out_len n) }
    ensures rest { IfOk result (λ _.
        run.new ≡ record run.old { part = run.new.part; out_len = run.new.out_len }) }
    ensures stopped { IfErr result (StopsOn helper run.old.part (asked_of helper run.old memory.old)) }
    ensures learns { IfOk result
        (Answered helper (asked_of helper run.old memory.old) run.old.part run.new.part) }
{
    let number = run.registers.number();
    let first = run.registers.span(1);
    let behind = run.registers.span(2);
    let second = run.registers.span(3);
    let limits = run.limits;
    match helper {
        Helper::Stat => Ok(run.part.stat()),
        Helper::Read => read_part(&run.part, number, memory, behind),
        Helper::Write => run.part.write(alloc, &limits, number, bytes_in(memory, behind)),
        Helper::Truncate => run.part.truncate(alloc, &limits, number),
        Helper::Remove => run.part.remove(alloc),
        Helper::GetXattr =>
            copy_found(run.part.xattr_value(&limits, bytes_in(memory, first), second.len), memory, second),
        Helper::SetXattr => run.part.set_xattr(alloc, &limits, bytes_in(memory, first), bytes_in(memory, second)),
        Helper::RmXattr => run.part.remove_xattr(alloc, &limits, bytes_in(memory, first)),
        Helper::MapGet =>
            copy_found(run.part.map_value(&limits, bytes_in(memory, first), second.len), memory, second),
        Helper::MapSet => run.part.set_key(alloc, &limits, bytes_in(memory, first), bytes_in(memory, second)),
        Helper::MapRm => run.part.remove_key(alloc, &limits, bytes_in(memory, first)),
        Helper::MapNext =>
            copy_found(run.part.key_above(&limits, bytes_in(memory, first), second.len), memory, second),
        Helper::OutLen => Ok(helpers::out_len(&mut run.out_len, number)),
        Helper::Create => run.part.create(alloc, number),
        Helper::Caller => Ok(helpers::caller(run.caller)),
        Helper::Compare => Ok(helpers::compare(memory, first, second)),
        Helper::Copy => Ok(helpers::copy(memory, first, second)),
        Helper::XattrNext =>
            copy_found(run.part.xattr_above(&limits, bytes_in(memory, first), second.len), memory, second),
    }
}

/// How many bytes the memory of a run has: those of the input, the output and the stack.
fn memory_size(caps: &Caps) -> usize
    ensures size { result ≡ caps.now.in_cap + (caps.now.out_cap + STACK_SIZE) }
    ensures small { result ≤ 2 ^ 18 }
{
    usize::from(caps.in_cap) + (usize::from(caps.out_cap) + STACK_SIZE)
}

/// A call of the helper of an id, as `ask`, on what is known of the object.
#[inline(never)]
pub fn ask_part(alloc: Global, run: &mut PartRun, memory: &mut [u8], id: u32) -> Result<(), Stop>
    requires limits { IsLimits run.old.limits }
    requires counted { AreCounted run.old.limits run.old.part }
    requires can { PartCan run.old memory.old (help run.old.caps (first_layout run.old.caps) id) }
    ensures done { IfOk result (λ _. PartDoes run.old memory.old run.new memory.new
        (help run.old.caps (first_layout run.old.caps) id)) }
    ensures stays { IfOk result (λ _. StaysCounted run.old run.new) }
    ensures stopped { IfErr result (λ e.
        (h : Helper) × (helper_of id ≡ Some h) × StopsOn h run.old.part (asked_of h run.old memory.old) e) }
    ensures learns { OnOk result (AskLearns id run.old memory.old run.new.part) }
{
    match Helper::of(id) {
        Some(helper) => {
            // For the proof: a read of so few bytes needs fewer blocks than a byte can count.
            let _ = memory_size(&run.caps);
            blind_steps();
            let answer = answer_part(alloc, helper, run, memory)?;
            run.registers.set_answer(answer);
            Ok(())
        }
        None => unreachable!(),
    }
}
