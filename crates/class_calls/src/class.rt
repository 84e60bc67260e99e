//! A verified class from an image, and its methods by name.

ghost use Rattle.std.specs.Prelude.{◌≡◌, IfOk, IfErr, IfSome, None};
ghost use Rattle.bpf_decode.specs.Class.{IsImage};
ghost use Rattle.verifier.specs.Verified.{method_named};
ghost use Rattle.class_calls.specs.Answers.{IsLoaded, RefusesImage, RefusesReading, IsOfImage, IsOfVerdict};
ghost use Rattle.class_calls.specs.Handle.{IsPlace};

use bpf_decode::{ClassImage, DecodeError, ImageError, read_image};
use std::alloc::Global;
use verifier::{Refusal, Rule, VerifiedClass, verify};

/// Why an image gives no verified class.
#[derive(Clone, Copy, Debug)]
pub enum ClassError {
    /// The bytes are no image.
    Image(ImageError),
    /// A rule refuses the class.
    Verdict(Refusal),
    /// Memory was refused.
    NoMemory,
}

/// The refusal of a class for a refusal of its image; want of memory is its own.
fn of_image(error: ImageError) -> ClassError
    ensures { IsOfImage error result }
{
    match error.error {
        DecodeError::NoMemory => ClassError::NoMemory,
        // Every other error is of the image, whichever it is.
        _ => ClassError::Image(error),
    }
}

/// The refusal of a class for a verdict. Want of memory is its own: it says nothing of the class.
pub fn verdict_refusal(refusal: Refusal) -> ClassError
    ensures { IsOfVerdict refusal result }
{
    match refusal.rule {
        Rule::NoMemory => ClassError::NoMemory,
        // Every other rule is broken by the class, whichever it is.
        _ => ClassError::Verdict(refusal),
    }
}

/// The class that an image spells.
pub fn read_class(alloc: Global, image: &[u8]) -> Result<ClassImage, ClassError>
    ensures found { IfOk result (λ class. IsImage image.now class) }
    ensures refused { IfErr result (RefusesReading image.now) }
{
    match read_image(alloc, image) {
        Ok(class) => Ok(class),
        Err(error) => Err(of_image(error)),
    }
}

/// The verified class of an image that spells this one.
pub(crate) fn judged(
    alloc: Global,
    image: &[u8],
    class: &ClassImage,
) -> Result<VerifiedClass, ClassError>
    requires { IsImage image.now class.now }
    ensures found { IfOk result (IsLoaded image.now) }
    ensures same { IfOk result (λ v. v ≡ class.now.methods) }
    ensures refused { IfErr result (RefusesImage image.now) }
{
    match verify(alloc, class) {
        Ok(verified) => Ok(verified),
        Err(refusal) => Err(verdict_refusal(refusal)),
    }
}

/// The class of an image, if no rule refuses it.
pub fn load(alloc: Global, image: &[u8]) -> Result<VerifiedClass, ClassError>
    ensures found { IfOk result (IsLoaded image.now) }
    ensures refused { IfErr result (RefusesImage image.now) }
{
    let class = read_class(alloc, image)?;
    judged(alloc, image, &class)
}

/// The number of the method of a name, from 0 on, if the class has one. The name may be any bytes.
pub fn place_of(class: &VerifiedClass, name: &[u8]) -> Option<usize>
    ensures found { IfSome result (IsPlace class.now name.now) }
    ensures none { result ≡ None → method_named class.now name.now ≡ None }
{
    for (n, method) in class.methods().iter().enumerate() {
        if method.name().as_bytes() == name {
            return Some(n);
        }
    }
    None
}
