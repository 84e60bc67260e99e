//! Any text in printable ASCII.

ghost use Rattle.std.specs.Prelude.{◌≡◌, ◌++◌, ◌∷◌, [], ◌<◌, OnOk, string_bytes};
ghost use Rattle.std.specs.Char.{digit_char};
ghost use Rattle.escaped_text.specs.Escaped.{escape, escaped, escaped_byte, is_printable};

use std::alloc::AllocError;

/// A letter, a digit or a sign of ASCII, or the space.
fn is_printable(byte: u8) -> bool
    ensures { result ≡ is_printable byte }
{
    0x20 <= byte && byte <= 0x7e
}

/// Adds a hexadecimal digit, in lower case.
fn push_digit(out: &mut String, value: u8) -> Result<(), AllocError>
    requires { value < 16 }
    ensures { OnOk result (string_bytes out.new ≡ string_bytes out.old ++ digit_char value ∷ []) }
{
    let letter = if value < 10 {
        b'0' + value
    } else {
        b'a' - 10 + value
    };
    out.push(char::from(letter))
}

/// Adds `\x` and the two digits of a byte.
fn push_escape(out: &mut String, byte: u8) -> Result<(), AllocError>
    ensures { OnOk result (string_bytes out.new ≡ string_bytes out.old ++ escape byte) }
{
    out.push_str("\\x")?;
    push_digit(out, byte / 16)?;
    push_digit(out, byte % 16)
}

/// Adds a byte as it is shown.
fn push_byte(out: &mut String, byte: u8) -> Result<(), AllocError>
    ensures { OnOk result (string_bytes out.new ≡ string_bytes out.old ++ escaped_byte byte) }
{
    if is_printable(byte) {
        out.push(char::from(byte))
    } else {
        push_escape(out, byte)
    }
}

/// Adds a text as it is shown: a byte other than 0x20 to 0x7e as `\x` and two hexadecimal digits in
/// lower case, so a letter of UTF-8 byte by byte; a backslash stays. It fails only if memory is
/// refused, and may have added a beginning then.
pub fn push_escaped(out: &mut String, text: &str) -> Result<(), AllocError>
    ensures { OnOk result (string_bytes out.new ≡ string_bytes out.old ++ escaped text.now) }
{
    for byte in text.as_bytes() {
        push_byte(out, *byte)?;
    }
    Ok(())
}
