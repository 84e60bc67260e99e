//! Laws of the definitions that the contracts cite.

ghost use Rattle.bpf_asm.specs.Laws.{TextsGiveBack, TextsAreInGrammar, ClassTextsGiveBack, ClassTextsAreInGrammar};
ghost use Rattle.bpf_asm.specs.Laws.{SlotTextsGiveBack, SlotTextsAreInGrammar, TextsSayLines};

/// The canonical text of instructions within the limits is read as those instructions, and is in
/// the grammar: `assemble` inverts `disassemble`, and no two lists have one canonical text.
pub fn one_text()
    ensures { TextsGiveBack × TextsAreInGrammar }
{}

/// The canonical text of a class without loops is read as that class, and is in the grammar:
/// `assemble_class` inverts `disassemble_class` there, and no two such classes have one canonical
/// text.
pub fn one_class_text()
    ensures { ClassTextsGiveBack × ClassTextsAreInGrammar }
{}

/// The text of a class without loops, with slots, is read as that class, and is in the grammar:
/// `assemble_class` inverts `disassemble_with_slots` there.
pub fn one_slot_text()
    ensures { SlotTextsGiveBack × SlotTextsAreInGrammar }
{}

/// Each text has one list of statements: each line is empty, or has a label, a `.method` or an
/// instruction, or has the fault for which it is refused.
pub fn one_reading()
    ensures { TextsSayLines }
{}
