//! Laws of the grammars, proved as contracts of functions that do nothing.

ghost use Rattle.std.specs.Prelude.{◌≡◌, ◌+◌, ◌<◌, ◌≤◌, ◌↔◌, ℕ, List, get_or, length, take, Some, IsSome, Ok};
ghost use Rattle.bpf_decode.specs.declared.insn.Insn.{Insn};
ghost use Rattle.bpf_decode.specs.declared.limits.TheConstants.{IMAGE_LIMIT};
ghost use Rattle.bpf_decode.specs.declared.row.OpcodeRow.{OpcodeRow};
ghost use Rattle.bpf_decode.specs.Instruction.{IsCode};
ghost use Rattle.bpf_decode.specs.Class.{Class, IsImage};
ghost use Rattle.bpf_decode.specs.Table.{opcode, row_of};
ghost use Rattle.bpf_decode.specs.Reading.{code_of};
ghost use Rattle.bpf_decode.specs.ImageReading.{image_of};

/// The table by opcode has exactly the opcodes of the rows: none is missed, and none is another's.
pub fn every_row()
    ensures found { (r : OpcodeRow) → IsSome (row_of (opcode r)) }
    ensures only { (n : ℕ) (r : OpcodeRow) → row_of n ≡ Some r → n ≡ opcode r }
{}

/// Bytes are the code of one list of instructions, and the image of one class.
pub fn one_class()
    ensures code { (bytes : List ℕ) (is js : List Insn) → IsCode bytes is → IsCode bytes js → is ≡ js }
    ensures image { (bytes : List ℕ) (c d : Class) → IsImage bytes c → IsImage bytes d → c ≡ d }
{}

/// A list of instructions has one spelling, and a class one image.
pub fn one_spelling()
    ensures code { (a b : List ℕ) (is : List Insn) → IsCode a is → IsCode b is → a ≡ b }
    ensures image { (a b : List ℕ) (c : Class) → IsImage a c → IsImage b c → a ≡ b }
{}

/// A class that was written is read as the same class, and bytes that were read as a class are
/// written as the same bytes.
pub fn round_trip()
    ensures written { (bytes : List ℕ) (c : Class) → IsImage bytes c → image_of bytes ≡ Ok c }
    ensures read { (bytes written : List ℕ) (c : Class) → ((i : ℕ) → get_or bytes i 0 < 256) → image_of bytes ≡ Ok c →
        IsImage written c → written ≡ bytes }
    ensures written_code { (bytes : List ℕ) (is : List Insn) → IsCode bytes is → code_of bytes ≡ Ok is }
    ensures read_code { (bytes written : List ℕ) (is : List Insn) → ((i : ℕ) → get_or bytes i 0 < 256) →
        code_of bytes ≡ Ok is → IsCode written is → written ≡ bytes }
{}

/// No image has more than `IMAGE_LIMIT` bytes. So it is enough to read `IMAGE_LIMIT + 1` bytes of a
/// file: those after them change neither the class nor the refusal.
pub fn beginning()
    ensures longest { (bytes : List ℕ) (c : Class) → IsImage bytes c → length bytes ≤ IMAGE_LIMIT }
    ensures image { (bytes : List ℕ) (c : Class) → IsImage (take (IMAGE_LIMIT + 1) bytes) c ↔ IsImage bytes c }
    ensures read { (bytes : List ℕ) → image_of (take (IMAGE_LIMIT + 1) bytes) ≡ image_of bytes }
{}
