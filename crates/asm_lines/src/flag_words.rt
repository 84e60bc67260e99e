//! A method's flags: the numbers of an image, 1 to 3, and their words in texts.
ghost use Rattle.std.specs.Prelude.{◌≡◌, IfSome, IsTrue};
ghost use Rattle.bpf_decode.specs.Limits.{between};
ghost use Rattle.asm_lines.specs.Canonical.{flags_text};
ghost use Rattle.asm_lines.specs.Statements.{flags_of};

/// Flags by their word: 1 reads (`r`), 2 writes (`w`), 3 both (`rw`). Any other word has none.
#[tactic(auto, unfolding(crate::specs::Statements::flags_of))]
pub fn flags(text: &[u8]) -> Option<u8>
    ensures read { result ≡ flags_of text.now }
    ensures known { IfSome result (λ n. IsTrue (between 1 3 n)) }
{
    if text == b"r".as_slice() {
        Some(1)
    } else if text == b"w".as_slice() {
        Some(2)
    } else if text == b"rw".as_slice() {
        Some(3)
    } else {
        None
    }
}

/// The word of flags, 1 to 3.
pub(crate) fn flags_word(flags: u8) -> &'static str
    ensures { result.now ≡ flags_text flags }
{
    match flags {
        1 => "r",
        2 => "w",
        _ => "rw",
    }
}
