//! The verdict on a class.

ghost use Rattle.std.specs.Prelude.{◌≡◌, ◌⊎◌, ◌++◌, ◌∷◌, [], IfOk, IfErr, OnOk, Some, None};
ghost use Rattle.bpf_decode.specs.Class.{IsMethod};
ghost use Rattle.std.specs.List.{AllByRecursion};
ghost use Rattle.bpf_machine.specs.Safe.{IsSafe, IsSafeWithin};
ghost use Rattle.verifier.specs.Verdict.{class_verdict, method_verdict, out_of_memory, IsDeserved, IsFirst};

use crate::method::verify_method;
use crate::refusal::Refusal;
use crate::verified::{VerifiedClass, VerifiedMethod};
use bpf_decode::{ClassImage, Method, RuleSet};
use std::alloc::Global;

/// Accepts a class, each of whose methods then runs to its exit on every object and input, or gives
/// the first refusal: the first method with one, its lowest refused slot, and there the lowest
/// rule. `Rule::NoMemory`, with method and slot 0, says that memory was refused. One pass over the
/// slots of each method.
pub fn verify(alloc: Global, image: &ClassImage) -> Result<VerifiedClass, Refusal>
    ensures value { IfOk result (λ v. v ≡ image.now.methods) }
    // Accepted means safe: never stuck, in every layout of the regions.
    ensures safe { IfOk result (λ _. AllByRecursion IsSafe image.now.methods) }
    // The same by any host's limits, on every well-formed object.
    ensures within { IfOk result (λ _. AllByRecursion IsSafeWithin image.now.methods) }
    ensures accepted { IfOk result (λ _. class_verdict image.now ≡ None) }
    // The refusal is the verdict, and its rule refuses the instruction at its slot.
    ensures refused { IfErr result (λ r. (r ≡ out_of_memory) ⊎ (class_verdict image.now ≡ Some r)) }
    ensures deserved { IfErr result (λ r. (r ≡ out_of_memory) ⊎ IsDeserved image.now r) }
{
    let mut methods = Vec::new(alloc);
    for (number, method) in image.methods().iter().enumerate() {
        push_verified(alloc, image.rules(), &mut methods, number, method)?;
    }
    Ok(VerifiedClass::new(methods))
}

/// Verifies the method of a number, and puts it after those before it.
fn push_verified(
    alloc: Global,
    rules: RuleSet,
    methods: &mut Vec<VerifiedMethod>,
    number: usize,
    method: &Method,
) -> Result<(), Refusal>
    requires { IsMethod method.now }
    ensures pushed { OnOk result (methods.new.items ≡ methods.old.items ++ method.now ∷ []) }
    ensures safe { IfOk result (λ _. IsSafe method.now) }
    ensures within { IfOk result (λ _. IsSafeWithin method.now) }
    ensures accepted { IfOk result (λ _. method_verdict rules method.now ≡ None) }
    ensures refused { IfErr result (λ r. (r ≡ out_of_memory) ⊎ IsFirst rules number method.now r) }
{
    let verified = verify_method(alloc, rules, number, method)?;
    Ok(methods.push(verified)?)
}
