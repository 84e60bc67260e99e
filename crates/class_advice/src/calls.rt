//! The helpers' calls, by their names.

use crate::advice::Advice;
use bpf_decode::Insn;
use std::alloc::AllocError;
use text_advice::call_of;
use verifier::{Callee, callee_of};

/// The argument's register that advice is of, if it is of one.
#[rattlefmt::skip]
fn argument_of(advice: Advice) -> Option<usize> {
    match advice {
        Advice::Length(range) => Some(range.register),
        Advice::Late(register, _, _, _) | Advice::Early(register, _, _) => Some(register),
        Advice::ReadOnlyRange(register) | Advice::TakesNumber(register)
        | Advice::TakesPointer(register) => Some(register),
        Advice::OutLength(register, _, _, _) => Some(register),
        Advice::Forward | Advice::CountSlots | Advice::PastEnd(_, _) | Advice::EndByExit | Advice::Inline => None,
        Advice::Unset(_, _) | Advice::StoreWhole | Advice::CopyOfR10 | Advice::NumbersFirst(_)
        | Advice::NeverNull(_) => None,
        Advice::TakeRules | Advice::AtMultiple | Advice::NoPlace(_) | Advice::Outside(_)
        | Advice::ReadOnlyStore(_) => None,
        Advice::HelpersOnly(_) | Advice::MayWrite(_) | Advice::CodeIsNumber | Advice::LoadWhole
        | Advice::PassNoPointer => None,
    }
}

/// Adds which helper is called, and which of its arguments advice is of, if it is of one.
pub(crate) fn push_call(out: &mut String, insn: &Insn, advice: Advice) -> Result<(), AllocError> {
    let (Callee::Helper(helper), Some(register)) = (callee_of(insn), argument_of(advice)) else {
        return Ok(());
    };
    let Some((name, arguments)) = call_of(helper) else {
        return Ok(());
    };
    match arguments.split(", ").nth(register.saturating_sub(1)) {
        Some(argument) => {
            write!(
                out,
                "  `call {helper}` is `{name}({arguments})`: r{register} is `{argument}`\n"
            )
        }
        None => Ok(()),
    }
}
