//! Laws of the definitions that the contracts cite.

ghost use Rattle.loop_asm.specs.Canonical.{alone, with_slot};
ghost use Rattle.loop_asm.specs.Classes.{GivesBack, OneText};

/// The canonical text of a class is read as that class, and so is the text with slots:
/// `assemble_class` inverts `disassemble_class` and `disassemble_with_slots`. No two classes have one
/// canonical text.
pub fn one_class_text()
    ensures alone { GivesBack alone }
    ensures with_slots { GivesBack with_slot }
    ensures one { OneText }
{}
