//! The verdict on a class whose methods may loop.

ghost use Rattle.std.specs.Prelude.{◌≡◌, ◌⊎◌, ◌++◌, ◌∷◌, [], IfOk, IfErr, OnOk, Some, None};
ghost use Rattle.std.specs.List.{AllByRecursion};
ghost use Rattle.bpf_decode.specs.Class.{IsMethod, IsClass};
ghost use Rattle.verifier.specs.Verdict.{out_of_memory};
ghost use Rattle.verifier.specs.Verified.{method_named, given_method};
ghost use Rattle.loop_classes.specs.Verdict.{IsFirstLooped, IsSafeLooped, loops_verdict, looped_verdict};

use crate::method::LoopClassMethod;
use bpf_decode::{ClassImage, Method, RuleSet};
use loop_verdict::verify_by_heads;
use std::alloc::Global;
use std::marker::Model;
use verifier::{Refusal, verify_method};

/// A class that `verify_loops` accepted. Contracts see the list of its methods.
pub struct LoopClass {
    methods: Vec<LoopClassMethod>,
}

impl Drop for LoopClass {
    fn drop(self) {
        let LoopClass { methods } = self;
        drop(methods);
    }
}

impl Model for LoopClass {
    ghost use Rattle.std.specs.Prelude.{List};
    ghost use Rattle.bpf_decode.specs.Class.{ClassMethod};
    ghost use Rattle.loop_classes.specs.Verdict.{IsLoopedClass};

    ghost Value = { List ClassMethod };

    ghost view = { λ c. c.methods.items };

    ghost invariant = { λ c. IsLoopedClass c.methods.items };
}

impl LoopClass {
    /// A class of accepted methods.
    fn new(methods: Vec<LoopClassMethod>) -> LoopClass
        requires class { IsClass methods.items }
        requires safe { AllByRecursion IsSafeLooped methods.items }
        ensures { result ≡ methods.items }
    {
        LoopClass { methods }
    }

    /// Its methods, by rising names; each of them is safe.
    pub fn methods(&self) -> &[LoopClassMethod]
        ensures methods { result.now ≡ self.now }
        ensures class { IsClass self.now }
        ensures safe { AllByRecursion IsSafeLooped self.now }
    {
        &self.methods
    }

    /// The method of that name, if there is one.
    pub fn method(&self, name: &str) -> Option<&LoopClassMethod>
        ensures { given_method result ≡ method_named self.now name.now }
    {
        for m in &self.methods {
            if m.name() == name {
                return Some(m);
            }
        }
        None
    }
}

/// Accepts a class, or gives the first refusal: the first method with one, its lowest refused slot,
/// and there the lowest rule. `Rule::NoMemory`, with method and slot 0, says that memory was refused.
/// One pass over the slots of each method.
///
/// A method that declares no loops is judged as by `verifier::verify`, and is safe as there. One that
/// does is judged by its heads: every run of it is never stuck, and reaches its exit or uses up its
/// budget.
pub fn verify_loops(alloc: Global, image: &ClassImage) -> Result<LoopClass, Refusal>
    ensures value { IfOk result (λ v. v ≡ image.now.methods) }
    // Accepted means safe: never stuck, in every layout of the regions, whatever the heads say.
    ensures safe { IfOk result (λ _. AllByRecursion IsSafeLooped image.now.methods) }
    ensures accepted { IfOk result (λ _. loops_verdict image.now ≡ None) }
    ensures refused { IfErr result (λ r. (r ≡ out_of_memory) ⊎ (loops_verdict image.now ≡ Some r)) }
{
    let mut methods = Vec::new(alloc);
    for (number, method) in image.methods().iter().enumerate() {
        push_verified(alloc, image.rules(), &mut methods, number, method)?;
    }
    Ok(LoopClass::new(methods))
}

/// Verifies the method of a number, and puts it after those before it.
fn push_verified(
    alloc: Global,
    rules: RuleSet,
    methods: &mut Vec<LoopClassMethod>,
    number: usize,
    method: &Method,
) -> Result<(), Refusal>
    requires { IsMethod method.now }
    ensures pushed { OnOk result (methods.new.items ≡ methods.old.items ++ method.now ∷ []) }
    ensures safe { IfOk result (λ _. IsSafeLooped method.now) }
    ensures accepted { IfOk result (λ _. looped_verdict rules method.now ≡ None) }
    ensures refused { IfErr result (λ r. (r ≡ out_of_memory) ⊎ IsFirstLooped rules number method.now r) }
{
    let verified = verified(alloc, rules, number, method)?;
    Ok(methods.push(verified)?)
}

/// Verifies the method of a number.
fn verified(
    alloc: Global,
    rules: RuleSet,
    number: usize,
    method: &Method,
) -> Result<LoopClassMethod, Refusal>
    requires { IsMethod method.now }
    ensures ok { IfOk result (λ v. v ≡ method.now) }
    ensures safe { IfOk result (λ _. IsSafeLooped method.now) }
    ensures accepted { IfOk result (λ _. looped_verdict rules method.now ≡ None) }
    ensures refused { IfErr result (λ r. (r ≡ out_of_memory) ⊎ IsFirstLooped rules number method.now r) }
{
    match method.loops() {
        None => Ok(LoopClassMethod::plain(verify_method(alloc, rules, number, method)?)),
        Some(loops) => {
            let run = verify_by_heads(alloc, number, method, loops)?;
            Ok(LoopClassMethod::looped(method.copy(alloc)?, run))
        }
    }
}
