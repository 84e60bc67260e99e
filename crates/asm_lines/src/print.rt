//! The one text of instructions and classes: what the disassembler gives.

ghost use Rattle.std.specs.Prelude.{◌≡◌, ◌++◌, ◌<◌, IfOk, OnOk, string_bytes, codes};
ghost use Rattle.asm_lines.specs.Canonical.{register_text, source_text, offset_text, memory_text, hex_digits};
ghost use Rattle.asm_lines.specs.Canonical.{wide_text, line_of, canonical_text, with_one, with_two, with_three};
ghost use Rattle.asm_lines.specs.Canonical.{directive_line, methods_text, rules_text, class_text, slot_line};
ghost use Rattle.asm_lines.specs.Canonical.{code_with_slots, methods_with_slots, class_with_slots};
ghost use Rattle.asm_lines.specs.Printing.{item_text};
ghost use Rattle.asm_lines.specs.Words.{word_of};

use crate::flag_words::flags_word;
use crate::form::Form;
use bpf_decode::{ClassImage, Insn, Method, Operand, Register, RuleSet, width};
use std::alloc::{AllocError, Global};

fn push_register(out: &mut String, register: Register) -> Result<(), AllocError>
    ensures { OnOk result (string_bytes out.new ≡ string_bytes out.old ++ register_text register) }
{
    write!(out, "r{}", register.number())
}

fn push_source(out: &mut String, source: Operand) -> Result<(), AllocError>
    ensures { OnOk result (string_bytes out.new ≡ string_bytes out.old ++ source_text source) }
{
    match source {
        Operand::Immediate(imm) => write!(out, "{imm}"),
        Operand::Register(src) => push_register(out, src),
    }
}

/// An offset or a distance, with its sign.
fn push_offset(out: &mut String, offset: i32) -> Result<(), AllocError>
    ensures { OnOk result (string_bytes out.new ≡ string_bytes out.old ++ offset_text offset) }
{
    if offset >= 0 {
        write!(out, "+{offset}")
    } else {
        write!(out, "{offset}")
    }
}

fn push_memory(out: &mut String, base: Register, offset: i16) -> Result<(), AllocError>
    ensures { OnOk result (string_bytes out.new ≡ string_bytes out.old ++ memory_text base offset) }
{
    out.push_str("[")?;
    push_register(out, base)?;
    push_offset(out, i32::from(offset))?;
    out.push_str("]")
}

/// The low `count` digits to base 16, in lower case.
#[tactic(auto, unfolding(crate::specs::Canonical::hex_digits))]
fn push_hex(out: &mut String, count: usize, n: u64) -> Result<(), AllocError>
    ensures { OnOk result (string_bytes out.new ≡ string_bytes out.old ++ hex_digits count n) }
{
    if count == 0 {
        return Ok(());
    }
    push_hex(out, count - 1, n / 16)?;
    let digit = (n % 16) as u8;
    let letter = if digit < 10 { 48 + digit } else { 87 + digit };
    out.push(char::from(letter))
}

/// A number of 64 bits: 16 digits to base 16.
fn push_wide(out: &mut String, value: u64) -> Result<(), AllocError>
    ensures { OnOk result (string_bytes out.new ≡ string_bytes out.old ++ wide_text value) }
{
    out.push_str("0x")?;
    push_hex(out, 16, value)
}

/// A local call's distance.
fn push_local(out: &mut String, distance: i32) -> Result<(), AllocError>
    ensures { OnOk result (string_bytes out.new ≡ string_bytes out.old ++ codes "local " ++ offset_text distance) }
{
    out.push_str("local ")?;
    push_offset(out, distance)
}

/// An operand as its line has it. A register that comes first is handed over by itself.
#[derive(Clone, Copy)]
pub(crate) enum Item {
    Source(Operand),
    Memory(Register, i16),
    Wide(u64),
    Offset(i32),
    Local(i32),
    Helper(u32),
}

fn push_item(out: &mut String, item: Item) -> Result<(), AllocError>
    ensures { OnOk result (string_bytes out.new ≡ string_bytes out.old ++ item_text item) }
{
    match item {
        Item::Source(source) => push_source(out, source),
        Item::Memory(base, offset) => push_memory(out, base, offset),
        Item::Wide(value) => push_wide(out, value),
        Item::Offset(offset) => push_offset(out, offset),
        Item::Local(distance) => push_local(out, distance),
        Item::Helper(helper) => write!(out, "{helper}"),
    }
}

/// A form's word and a space.
fn push_word(out: &mut String, form: Form) -> Result<(), AllocError>
    ensures { OnOk result (string_bytes out.new ≡ string_bytes out.old ++ word_of form ++ codes " ") }
{
    out.push_str(form.word())?;
    out.push_str(" ")
}

/// A further operand.
fn push_next(out: &mut String, item: Item) -> Result<(), AllocError>
    ensures { OnOk result (string_bytes out.new ≡ string_bytes out.old ++ codes ", " ++ item_text item) }
{
    out.push_str(", ")?;
    push_item(out, item)
}

/// A word and an operand.
fn push_lone(out: &mut String, form: Form, item: Item) -> Result<(), AllocError>
    ensures { OnOk result (string_bytes out.new ≡ string_bytes out.old ++ with_one (word_of form) (item_text item)) }
{
    push_word(out, form)?;
    push_item(out, item)
}

/// A word and a register.
fn push_one(out: &mut String, form: Form, dst: Register) -> Result<(), AllocError>
    ensures { OnOk result (string_bytes out.new ≡ string_bytes out.old ++ with_one (word_of form) (register_text dst)) }
{
    push_word(out, form)?;
    push_register(out, dst)
}

/// A word, a register and an operand.
fn push_two(out: &mut String, form: Form, dst: Register, item: Item) -> Result<(), AllocError>
    ensures { OnOk result (string_bytes out.new ≡ string_bytes out.old ++
        with_two (word_of form) (register_text dst) (item_text item)) }
{
    push_one(out, form, dst)?;
    push_next(out, item)
}

/// A word and two registers.
fn push_registers(
    out: &mut String,
    form: Form,
    dst: Register,
    src: Register,
) -> Result<(), AllocError>
    ensures { OnOk result (string_bytes out.new ≡ string_bytes out.old ++
        with_two (word_of form) (register_text dst) (register_text src)) }
{
    push_one(out, form, dst)?;
    out.push_str(", ")?;
    push_register(out, src)
}

/// A conditional jump.
fn push_branch(
    out: &mut String,
    form: Form,
    dst: Register,
    source: Operand,
    offset: i16,
) -> Result<(), AllocError>
    ensures { OnOk result (string_bytes out.new ≡ string_bytes out.old ++
        with_three (word_of form) (register_text dst) (source_text source) (offset_text offset)) }
{
    push_two(out, form, dst, Item::Source(source))?;
    push_next(out, Item::Offset(i32::from(offset)))
}

/// A store's word, place and source.
fn push_store(
    out: &mut String,
    form: Form,
    base: Register,
    offset: i16,
    source: Operand,
) -> Result<(), AllocError>
    ensures { OnOk result (string_bytes out.new ≡ string_bytes out.old ++
        with_two (word_of form) (memory_text base offset) (source_text source)) }
{
    push_lone(out, form, Item::Memory(base, offset))?;
    push_next(out, Item::Source(source))
}

/// Writes an instruction's line at the end, without a line feed. It fails for want of memory alone,
/// and a part of it may then be written.
#[rattlefmt::skip]
pub fn push_insn(out: &mut String, insn: Insn) -> Result<(), AllocError>
    ensures { OnOk result (string_bytes out.new ≡ string_bytes out.old ++ line_of insn) }
{
    match insn {
        Insn::Alu { bits, operation, dst, source } =>
            push_two(out, Form::Alu(bits, operation), dst, Item::Source(source)),
        Insn::Neg { bits, dst } => push_one(out, Form::Neg(bits), dst),
        Insn::Mov { bits, dst, source } => push_two(out, Form::Mov(bits), dst, Item::Source(source)),
        Insn::MovSigned { extension, dst, src } => push_registers(out, Form::MovSigned(extension), dst, src),
        Insn::End { order, width, dst } => push_one(out, Form::End(order, width), dst),
        Insn::LoadWide { dst, value } => push_two(out, Form::LoadWide, dst, Item::Wide(value)),
        Insn::Load { width, dst, base, offset } => push_two(out, Form::Load(width), dst, Item::Memory(base, offset)),
        Insn::LoadSigned { width, dst, base, offset } =>
            push_two(out, Form::LoadSigned(width), dst, Item::Memory(base, offset)),
        Insn::Store { width, base, offset, source } => {
            let form = match source {
                Operand::Immediate(_) => Form::StoreNumber(width),
                Operand::Register(_) => Form::StoreRegister(width),
            };
            push_store(out, form, base, offset, source)
        }
        Insn::Jump { offset } => push_lone(out, Form::Jump, Item::Offset(i32::from(offset))),
        Insn::JumpLong { distance } => push_lone(out, Form::JumpLong, Item::Offset(distance)),
        Insn::Branch { bits, comparison, dst, source, offset } =>
            push_branch(out, Form::Branch(bits, comparison), dst, source, offset),
        Insn::Call { helper } => push_lone(out, Form::Call, Item::Helper(helper)),
        Insn::CallLocal { distance } => push_lone(out, Form::Call, Item::Local(distance)),
        Insn::Exit => out.push_str(Form::Exit.word()),
    }
}

fn push_insns(out: &mut String, insns: &[Insn]) -> Result<(), AllocError>
    ensures { OnOk result (string_bytes out.new ≡ string_bytes out.old ++ canonical_text insns.now) }
{
    for insn in insns {
        push_insn(out, *insn)?;
        out.push_str("\n")?;
    }
    Ok(())
}

/// Writes the line that begins a method at the end, without a line feed. It fails for want of memory
/// alone, and a part of it may then be written.
pub fn push_directive(out: &mut String, method: &Method) -> Result<(), AllocError>
    ensures { OnOk result (string_bytes out.new ≡ string_bytes out.old ++ directive_line method.now) }
{
    write!(
        out,
        ".method {} {} ",
        method.name(),
        flags_word(method.flags())
    )?;
    let in_cap = method.in_cap();
    let out_cap = method.out_cap();
    write!(out, "{in_cap} {out_cap}")
}

fn push_methods(out: &mut String, methods: &[Method]) -> Result<(), AllocError>
    ensures { OnOk result (string_bytes out.new ≡ string_bytes out.old ++ methods_text methods.now) }
{
    for method in methods {
        push_directive(out, method)?;
        out.push_str("\n")?;
        push_insns(out, method.instructions())?;
    }
    Ok(())
}

/// Writes an instruction's line with its slot in a comment at the end, without a line feed. It fails
/// for want of memory alone, and a part of it may then be written.
pub fn push_at_slot(out: &mut String, insn: Insn, slot: usize) -> Result<(), AllocError>
    ensures { OnOk result (string_bytes out.new ≡ string_bytes out.old ++ slot_line slot insn) }
{
    push_insn(out, insn)?;
    write!(out, " ; slot {slot}")
}

fn push_code_with_slots(out: &mut String, insns: &[Insn]) -> Result<(), AllocError>
    ensures { OnOk result (string_bytes out.new ≡ string_bytes out.old ++ code_with_slots 0 insns.now) }
{
    let mut slot = 0;
    for insn in insns {
        push_at_slot(out, *insn, slot)?;
        out.push_str("\n")?;
        slot += width(insn);
    }
    Ok(())
}

fn push_methods_with_slots(out: &mut String, methods: &[Method]) -> Result<(), AllocError>
    ensures { OnOk result (string_bytes out.new ≡ string_bytes out.old ++ methods_with_slots methods.now) }
{
    for method in methods {
        push_directive(out, method)?;
        out.push_str("\n")?;
        push_code_with_slots(out, method.instructions())?;
    }
    Ok(())
}

/// The canonical text of instructions. It is refused for want of memory alone.
pub fn insns_text(alloc: Global, insns: &[Insn]) -> Result<String, AllocError>
    ensures { IfOk result (λ s. string_bytes s ≡ canonical_text insns.now) }
{
    let mut out = String::new(alloc);
    push_insns(&mut out, insns)?;
    Ok(out)
}

/// The line of a rule set, with its line feed: rule set 1 has none.
pub fn rules_line(rules: RuleSet) -> &'static str
    ensures { result.now ≡ rules_text rules }
{
    match rules {
        RuleSet::One => "",
        RuleSet::Two => ".rules 2\n",
        RuleSet::Three => ".rules 3\n",
    }
}

/// The canonical text of a class. It is refused for want of memory alone.
pub fn class_text(alloc: Global, class: &ClassImage) -> Result<String, AllocError>
    ensures { IfOk result (λ s. string_bytes s ≡ class_text class.now) }
{
    let mut out = String::new(alloc);
    out.push_str(rules_line(class.rules()))?;
    push_methods(&mut out, class.methods())?;
    Ok(out)
}

/// The canonical text of a class, with each instruction's slot in a comment. It is refused for want
/// of memory alone.
pub fn class_with_slots(alloc: Global, class: &ClassImage) -> Result<String, AllocError>
    ensures { IfOk result (λ s. string_bytes s ≡ class_with_slots class.now) }
{
    let mut out = String::new(alloc);
    out.push_str(rules_line(class.rules()))?;
    push_methods_with_slots(&mut out, class.methods())?;
    Ok(out)
}
