//! A class that is held, by the verdict that it was opened by.

ghost use Rattle.std.specs.Prelude.{◌≡◌, IfOk, IfErr, IfSome, None, slice_get};
ghost use Rattle.std.specs.Option.{option_map};
ghost use Rattle.verifier.specs.Verified.{method_named};
ghost use Rattle.class_calls.specs.Answers.{RefusesMethod};
ghost use Rattle.class_calls.specs.Handle.{IsPlace, told, told_of};
ghost use Rattle.class_loops.specs.Held.{IsAnsweredByHeld, IsAnsweredByHeldPart, RefusesHeldPart, methods_of};

use crate::handle::LoopHandle;
use class_calls::{Answer, ClassCall, ClassHandle, Declared, MethodError, PartCall, PartCallError};
use part_calls::PartAnswer;
use std::alloc::{AllocError, Global};

/// A handle of a class, of either kind.
pub enum HeldClass {
    /// No method loops: `verify` accepts the class.
    Plain(ClassHandle),
    /// Methods may loop: `verify_loops` accepts it.
    Looped(LoopHandle),
}

// Written out, so that a crate that drops one calls this and needn't prove again how it is dropped.
impl Drop for HeldClass {
    fn drop(self) {
        match self {
            HeldClass::Plain(class) => drop(class),
            HeldClass::Looped(class) => drop(class),
        }
    }
}

impl HeldClass {
    /// Another handle of the same class, which both share.
    pub fn share(&self, alloc: Global) -> Result<HeldClass, AllocError>
        ensures { IfOk result (λ h. h ≡ self.now) }
    {
        match self {
            HeldClass::Plain(class) => Ok(HeldClass::Plain(class.share(alloc)?)),
            HeldClass::Looped(class) => Ok(HeldClass::Looped(class.share(alloc)?)),
        }
    }

    /// Calls a method of the class on an object in its flat form.
    pub fn call(&mut self, alloc: Global, request: ClassCall) -> Result<Answer, MethodError>
        ensures ok { IfOk result
            (IsAnsweredByHeld self.old request.entry.method.now request.entry.object.now request.entry.caller
            request.entry.input.now) }
        ensures refused { IfErr result
            (RefusesMethod (methods_of self.old) request.entry.method.now request.entry.object.now
            request.entry.caller request.entry.input.now) }
        ensures held { self.new ≡ self.old }
    {
        match self {
            HeldClass::Plain(class) => class.call(alloc, request),
            HeldClass::Looped(class) => class.call(alloc, request),
        }
    }

    /// Calls a method of the class on a part of an object, by a host's limits.
    pub fn call_part(
        &mut self,
        alloc: Global,
        request: PartCall,
    ) -> Result<PartAnswer, PartCallError>
        ensures ok { IfOk result
            (IsAnsweredByHeldPart self.old request.entry.method.now request.entry.part.now request.entry.caller
            request.entry.limits request.entry.input.now) }
        ensures refused { IfErr result
            (RefusesHeldPart self.old request.entry.method.now request.entry.part.now request.entry.caller
            request.entry.limits request.entry.input.now) }
        ensures held { self.new ≡ self.old }
    {
        match self {
            HeldClass::Plain(class) => class.call_part(alloc, request),
            HeldClass::Looped(class) => class.call_part(alloc, request),
        }
    }

    /// The name of the method of a number, from 0 on, and what it declares; none past the last.
    pub fn method_at(&self, n: usize) -> Option<(&[u8], Declared)>
        ensures { told result ≡ option_map told_of (slice_get (methods_of self.now) n) }
    {
        match self {
            HeldClass::Plain(class) => class.method_at(n),
            HeldClass::Looped(class) => class.method_at(n),
        }
    }

    /// The number of the method of a name, if the class has one.
    pub fn place_of(&self, name: &[u8]) -> Option<usize>
        ensures found { IfSome result (IsPlace (methods_of self.now) name.now) }
        ensures none { result ≡ None → method_named (methods_of self.now) name.now ≡ None }
    {
        match self {
            HeldClass::Plain(class) => class.place_of(name),
            HeldClass::Looped(class) => class.place_of(name),
        }
    }
}
