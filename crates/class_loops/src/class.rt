//! A class whose methods may loop from an image, and its methods by name.

ghost use Rattle.std.specs.Prelude.{◌≡◌, IfOk, IfErr, IfSome, None};
ghost use Rattle.bpf_decode.specs.Class.{IsImage};
ghost use Rattle.verifier.specs.Verified.{method_named};
ghost use Rattle.class_calls.specs.Handle.{IsPlace};
ghost use Rattle.class_loops.specs.Opened.{IsAcceptedByLoops, IsLoadedByLoops, RefusesByLoops, RefusesImageByLoops};
ghost use Rattle.class_loops.specs.Opened.{first_over};

use bpf_decode::ClassImage;
use class_calls::{ClassError, read_class, verdict_refusal};
use loop_classes::{LoopClass, verify_loops};
use std::alloc::Global;

/// A method that declares a greater budget than a host gives.
#[derive(Clone, Copy, Debug)]
pub struct OverBudget {
    /// Its number in the class, from 0 on.
    pub method: usize,
    /// The budget that it declares.
    pub budget: u32,
}

/// Why an image gives no class for a host that gives so great a budget: the first that applies.
#[derive(Clone, Copy, Debug)]
pub enum LoopClassError {
    /// The bytes are no image, the verdict on loops refuses the class, or memory was refused.
    Class(ClassError),
    /// The first method that declares a greater budget.
    TooLarge(OverBudget),
}

/// The first method that declares a greater budget than this.
fn over_budget(class: &ClassImage, most: u32) -> Option<OverBudget>
    ensures { result ≡ first_over most 0 class.now.methods }
{
    for (number, method) in class.methods().iter().enumerate() {
        if let Some(loops) = method.loops() {
            if loops.budget() > most {
                return Some(OverBudget {
                    method: number,
                    budget: loops.budget(),
                });
            }
        }
    }
    None
}

/// The class of an image that spells this one, if the verdict on loops accepts it.
fn accepted(alloc: Global, image: &[u8], class: &ClassImage) -> Result<LoopClass, ClassError>
    requires { IsImage image.now class.now }
    ensures found { IfOk result (IsAcceptedByLoops image.now) }
    ensures same { IfOk result (λ v. v ≡ class.now.methods) }
    ensures refused { IfErr result (RefusesByLoops image.now) }
{
    match verify_loops(alloc, class) {
        Ok(verified) => Ok(verified),
        Err(refusal) => Err(verdict_refusal(refusal)),
    }
}

/// The class of an image, if the verdict on loops accepts it.
pub fn load_loops(alloc: Global, image: &[u8]) -> Result<LoopClass, ClassError>
    ensures found { IfOk result (IsAcceptedByLoops image.now) }
    ensures refused { IfErr result (RefusesByLoops image.now) }
{
    match read_class(alloc, image) {
        Ok(class) => accepted(alloc, image, &class),
        Err(error) => Err(error),
    }
}

/// The class of an image that spells this one, if it is accepted and no method declares a greater
/// budget than the host's.
pub(crate) fn judged(
    alloc: Global,
    image: &[u8],
    class: &ClassImage,
    most: u32,
) -> Result<LoopClass, LoopClassError>
    requires { IsImage image.now class.now }
    ensures found { IfOk result (IsLoadedByLoops image.now most) }
    ensures same { IfOk result (λ v. v ≡ class.now.methods) }
    ensures refused { IfErr result (RefusesImageByLoops image.now most) }
{
    match accepted(alloc, image, class) {
        Ok(found) => match over_budget(class, most) {
            None => Ok(found),
            Some(over) => Err(LoopClassError::TooLarge(over)),
        },
        Err(error) => Err(LoopClassError::Class(error)),
    }
}

/// The number of the method of a name, from 0 on, if the class has one. The name may be any bytes.
pub(crate) fn place_of(class: &LoopClass, name: &[u8]) -> Option<usize>
    ensures found { IfSome result (IsPlace class.now name.now) }
    ensures none { result ≡ None → method_named class.now name.now ≡ None }
{
    for (n, method) in class.methods().iter().enumerate() {
        if method.name().as_bytes() == name {
            return Some(n);
        }
    }
    None
}
