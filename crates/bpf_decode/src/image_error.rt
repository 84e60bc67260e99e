ghost use Rattle.std.specs.Prelude.{◌≡◌};

use crate::decode_error::DecodeError;
use std::fmt;
use thiserror::Error;

/// The refusal of an image, and the number of methods that were read whole before. It prints as
/// `image refused after 0 methods: 1 Truncated`, and with a slot as `image refused after 0 methods,
/// slot 3: 3 Opcode`.
#[derive(Clone, Copy, Debug, PartialEq, Eq, Error)]
pub struct ImageError {
    pub methods: usize,
    pub error: DecodeError,
}

impl ImageError {
    /// That refusal after that many methods.
    pub(crate) fn after(methods: usize, error: DecodeError) -> ImageError
        ensures { result ≡ record { methods = methods; error = error } }
    {
        ImageError { methods, error }
    }
}

impl fmt::Display for ImageError {
    ghost use Rattle.std.specs.Prelude.{Some};
    ghost use Rattle.bpf_decode.specs.Refusal.{image_text_of};

    ghost output = { λ e. Some (image_text_of e) };

    fn fmt<W: fmt::Write>(&self, f: &mut fmt::Formatter<W>) -> fmt::Result {
        let ImageError { methods, error } = *self;
        let place = AtSlot(error.slot());
        write!(f, "image refused after {methods} methods{place}: {error}")
    }
}

/// Prints `, slot 3`, or nothing.
#[derive(Clone, Copy)]
struct AtSlot(Option<usize>);

impl fmt::Display for AtSlot {
    ghost use Rattle.std.specs.Prelude.{Some};
    ghost use Rattle.bpf_decode.specs.Refusal.{slot_text};

    ghost output = { λ p. Some (slot_text p.0) };

    fn fmt<W: fmt::Write>(&self, f: &mut fmt::Formatter<W>) -> fmt::Result {
        match self.0 {
            Some(slot) => write!(f, ", slot {slot}"),
            None => Ok(()),
        }
    }
}
