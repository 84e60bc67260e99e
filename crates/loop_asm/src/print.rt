//! The canonical text of a class.

ghost use Rattle.std.specs.Prelude.{◌≡◌, ◌++◌, OnOk, IfOk, string_bytes};
ghost use Rattle.std.specs.List.{flat_map};
ghost use Rattle.std.specs.Option.{option_copied};
ghost use Rattle.loop_heads.specs.Loops.{head_at};
ghost use Rattle.loop_asm.specs.Canonical.{alone, with_slot, head_text, code_text, looped_code};
ghost use Rattle.loop_asm.specs.Canonical.{method_text, class_text};
ghost use Rattle.loop_asm.specs.Printing.{written, heads_of};

use asm_lines::{push_at_slot, push_directive, push_insn, rules_line};
use bpf_decode::{ClassImage, Insn, Method, width};
use loop_heads::Loops;
use loop_lines::{push_budget, push_head};
use std::alloc::{AllocError, Global};

/// How the lines of instructions are written.
#[derive(Clone, Copy, PartialEq, Eq)]
enum Slots {
    /// Without their slots.
    Hidden,
    /// Each with its slot in a comment.
    Shown,
}

fn push_line(out: &mut String, slots: Slots, insn: Insn, slot: usize) -> Result<(), AllocError>
    ensures { OnOk result (string_bytes out.new ≡ string_bytes out.old ++ written slots slot insn) }
{
    match slots {
        Slots::Hidden => push_insn(out, insn),
        Slots::Shown => push_at_slot(out, insn, slot),
    }
}

/// The line of the head at a slot, if one is declared there.
fn push_head_at(out: &mut String, loops: Option<&Loops>, slot: usize) -> Result<(), AllocError>
    ensures { OnOk result (string_bytes out.new ≡
        string_bytes out.old ++ head_text (head_at (heads_of (option_copied loops.entry)) slot)) }
{
    let Some(loops) = loops else {
        return Ok(());
    };
    match loops.at(slot) {
        None => Ok(()),
        Some(places) => {
            push_head(out, places)?;
            out.push_str("\n")
        }
    }
}

/// Instructions, each after the line of its head.
fn push_code(
    out: &mut String,
    slots: Slots,
    loops: Option<&Loops>,
    insns: &[Insn],
) -> Result<(), AllocError>
    ensures { OnOk result (string_bytes out.new ≡
        string_bytes out.old ++ code_text (written slots) (heads_of (option_copied loops.entry)) 0 insns.now) }
{
    let mut slot = 0;
    for insn in insns {
        push_head_at(out, loops, slot)?;
        push_line(out, slots, *insn, slot)?;
        out.push_str("\n")?;
        slot += width(insn);
    }
    Ok(())
}

fn push_looped_code(
    out: &mut String,
    slots: Slots,
    loops: Option<&Loops>,
    insns: &[Insn],
) -> Result<(), AllocError>
    ensures { OnOk result (string_bytes out.new ≡
        string_bytes out.old ++ looped_code (written slots) (option_copied loops.entry) insns.now) }
{
    match loops {
        None => push_code(out, slots, None, insns),
        Some(loops) => {
            push_budget(out, loops.budget())?;
            out.push_str("\n")?;
            push_code(out, slots, Some(loops), insns)
        }
    }
}

fn push_method(out: &mut String, slots: Slots, method: &Method) -> Result<(), AllocError>
    ensures { OnOk result (string_bytes out.new ≡ string_bytes out.old ++ method_text (written slots) method.now) }
{
    push_directive(out, method)?;
    out.push_str("\n")?;
    push_looped_code(out, slots, method.loops(), method.instructions())
}

fn push_methods(out: &mut String, slots: Slots, methods: &[Method]) -> Result<(), AllocError>
    ensures { OnOk result (string_bytes out.new ≡
        string_bytes out.old ++ flat_map (method_text (written slots)) methods.now) }
{
    for method in methods {
        push_method(out, slots, method)?;
    }
    Ok(())
}

fn text_of(alloc: Global, slots: Slots, class: &ClassImage) -> Result<String, AllocError>
    ensures { IfOk result (λ s. string_bytes s ≡ class_text (written slots) class.now) }
{
    let mut out = String::new(alloc);
    out.push_str(rules_line(class.rules()))?;
    push_methods(&mut out, slots, class.methods())?;
    Ok(out)
}

/// The canonical text of a class. It is refused for want of memory alone.
pub fn disassemble_class(alloc: Global, class: &ClassImage) -> Result<String, AllocError>
    ensures { IfOk result (λ s. string_bytes s ≡ class_text alone class.now) }
{
    text_of(alloc, Slots::Hidden, class)
}

/// The canonical text of a class, with ` ; slot N` at the end of each instruction's line. A refusal
/// names the instruction by the slot N. It assembles to the same class (`one_class_text`). It is
/// refused for want of memory alone.
pub fn disassemble_with_slots(alloc: Global, class: &ClassImage) -> Result<String, AllocError>
    ensures { IfOk result (λ s. string_bytes s ≡ class_text with_slot class.now) }
{
    text_of(alloc, Slots::Shown, class)
}
