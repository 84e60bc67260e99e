//! Calls of helpers from a run.

ghost use Rattle.std.specs.Prelude.{IfOk};
ghost use Rattle.helpers.specs.Table.{row};
ghost use Rattle.bpf_machine.specs.Flat.{help};
ghost use Rattle.bpf_machine.specs.Safe.{first_layout};
ghost use Rattle.interp.specs.inner.Asked.{CanAsk, HasAnswered};
ghost use Rattle.interp.specs.inner.Run.{CanDo, Does};

use crate::registers::Registers;
use crate::run::Run;
use helpers::{Helper, bytes_in};
use std::alloc::Global;
use txn::{NoMemory, Staged};

/// Does what a helper does, on the newest object, the output's length and the memory, and gives its
/// answer. Names and values are read out of the memory, and so is what is copied into it.
fn answer(
    alloc: Global,
    helper: Helper,
    registers: &Registers,
    caller: u32,
    staged: &mut Staged,
    out_len: &mut usize,
    memory: &mut [u8],
) -> Result<u64, NoMemory>
    requires { CanAsk registers.now memory.old (row helper).takes.arguments 1 }
    ensures { IfOk result (λ n.
        HasAnswered helper caller registers.now memory.old staged.old out_len.old memory.new staged.new out_len.new n) }
{
    let number = registers.number();
    let first = registers.span(1);
    let behind = registers.span(2);
    let second = registers.span(3);
    match helper {
        Helper::Stat => Ok(helpers::stat(staged)),
        Helper::Read => Ok(helpers::read(staged, number, memory, behind)),
        Helper::Write => helpers::write(alloc, staged, number, bytes_in(memory, behind)),
        Helper::Truncate => helpers::truncate(alloc, staged, number),
        Helper::Remove => helpers::remove(alloc, staged),
        Helper::GetXattr => Ok(helpers::getxattr(staged, memory, first, second)),
        Helper::SetXattr => helpers::setxattr(
            alloc,
            staged,
            bytes_in(memory, first),
            bytes_in(memory, second),
        ),
        Helper::RmXattr => helpers::rmxattr(alloc, staged, bytes_in(memory, first)),
        Helper::MapGet => Ok(helpers::map_get(staged, memory, first, second)),
        Helper::MapSet => helpers::map_set(
            alloc,
            staged,
            bytes_in(memory, first),
            bytes_in(memory, second),
        ),
        Helper::MapRm => helpers::map_rm(alloc, staged, bytes_in(memory, first)),
        Helper::MapNext => Ok(helpers::map_next(staged, memory, first, second)),
        Helper::OutLen => Ok(helpers::out_len(out_len, number)),
        Helper::Create => helpers::create(alloc, staged, number),
        Helper::Caller => Ok(helpers::caller(caller)),
        Helper::Compare => Ok(helpers::compare(memory, first, second)),
        Helper::Copy => Ok(helpers::copy(memory, first, second)),
        Helper::XattrNext => Ok(helpers::xattr_next(staged, memory, first, second)),
    }
}

/// A call of the helper of an id (RFC 9669 section 4.3.1). No register is unset after it: the
/// machine leaves registers 1 to 5 unset.
#[inline(never)]
pub fn ask(alloc: Global, run: &mut Run, memory: &mut [u8], id: u32) -> Result<(), NoMemory>
    requires { CanDo run.old.caps run.old.staged.before run.old memory.old
        (help run.old.caps (first_layout run.old.caps) id) }
    ensures { IfOk result (λ _. Does run.old.caps run.old.staged.before run.old memory.old run.new memory.new
        (help run.old.caps (first_layout run.old.caps) id)) }
{
    match Helper::of(id) {
        Some(helper) => {
            let answer = answer(
                alloc,
                helper,
                &run.registers,
                run.caller,
                &mut run.staged,
                &mut run.out_len,
                memory,
            )?;
            run.registers.set_answer(answer);
            Ok(())
        }
        None => unreachable!(),
    }
}
