//! Laws of the spelling, proved as contracts of functions that do nothing.

ghost use Rattle.std.specs.Prelude.{◌≡◌, ◌<◌, ◌++◌, ℕ, Bool, List, Option, Ok, get_or};
ghost use Rattle.loop_heads.specs.Loops.{PlainLoops};
ghost use Rattle.loop_bytes.specs.HeadBytes.{loops_bytes, AreLoopsOf};
ghost use Rattle.loop_bytes.specs.Reading.{loops_from};

/// Loops that were written are read as the same loops, whatever follows them, and what was read as loops
/// is their spelling. So bytes begin with the spelling of one method's loops at most.
pub fn round_trip()
    ensures written { (starts : List Bool) (loops : Option PlainLoops) (rest : List ℕ) → AreLoopsOf starts loops →
        loops_from starts (loops_bytes loops ++ rest) ≡ Ok (loops, rest) }
    ensures read { (starts : List Bool) (bytes : List ℕ) (loops : Option PlainLoops) (rest : List ℕ) →
        ((i : ℕ) → get_or bytes i 0 < 256) → loops_from starts bytes ≡ Ok (loops, rest) →
        (bytes ≡ loops_bytes loops ++ rest) × AreLoopsOf starts loops }
    ensures one { (starts : List Bool) (l m : Option PlainLoops) (x y : List ℕ) → AreLoopsOf starts l →
        AreLoopsOf starts m → loops_bytes l ++ x ≡ loops_bytes m ++ y → (l ≡ m) × (x ≡ y) }
{}
