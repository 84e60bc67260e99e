//! The input of a call, as hexadecimal digits spell it.

ghost use Rattle.std.specs.Prelude.{◌≡◌, ◌⊎◌, IfOk, IfErr, IsErr, Ok};
ghost use Rattle.hex.specs.Hex.{decode_of};

use hex::FromHexError;
use program_files::Failure;
use std::alloc::Global;

/// The bytes that pairs of hexadecimal digits stand for, in either case. Of no digits it gives no
/// bytes.
pub fn decode_input(alloc: Global, text: &str) -> Result<Vec<u8>, Failure>
    ensures ok { IfOk result (λ bytes. decode_of text.now ≡ Ok bytes.items) }
    ensures err { IfErr result (λ e. (e ≡ Failure.NoMemory) ⊎
        ((e ≡ Failure.InputNotHex) × IsErr (decode_of text.now))) }
{
    match hex::decode(alloc, text) {
        Ok(bytes) => Ok(bytes),
        Err(FromHexError::OutOfMemory) => Err(Failure::NoMemory),
        Err(_) => Err(Failure::InputNotHex),
    }
}
