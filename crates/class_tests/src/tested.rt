ghost use Rattle.std.specs.Prelude.{◌≡◌, ◌↔◌, None, Err, IfOk};
ghost use Rattle.bpf_machine.specs.Safe.{call_outcome};
ghost use Rattle.interp.specs.Plain.{InputPasses};
ghost use Rattle.verifier.specs.Verified.{method_named};
ghost use Rattle.class_tests.specs.Calls.{loop_outcome};
ghost use Rattle.class_tests.specs.inner.Made.{IsMade, calls_of, methods_of};

use crate::case::Case;
use crate::laws::loop_outcomes;
use bpf_machine::outcomes;
use interp::{CallError, Outcome, call};
use loop_classes::LoopClass;
use loop_objects::call_loops;
use std::alloc::Global;
use verifier::VerifiedClass;

/// A class that is tested.
#[derive(Clone, Copy)]
pub(crate) enum Tested<'a> {
    /// Each method runs to its exit.
    Plain(&'a VerifiedClass),
    /// A method may loop, and then runs by its budget.
    Looped(&'a LoopClass),
}

/// A call of a method that runs to its exit.
fn call_plain(
    alloc: Global,
    class: &VerifiedClass,
    method: &str,
    case: &Case,
    input: &[u8],
) -> Result<Outcome, CallError>
    ensures ok { IfOk result (IsMade call_outcome class.now method.now case.now input.now) }
    ensures no_method { (result ≡ Err CallError.NoMethod) ↔ (method_named class.now method.now ≡ None) }
    ensures too_long { (result ≡ Err CallError.InputTooLong) ↔ InputPasses class.now method.now input.now }
{
    // A run has one outcome, which is proved of the machine, of each method of the class; the calls do nothing.
    outcomes();
    let _methods = class.methods();
    let object = case.object.as_ref();
    call(alloc, class, method, object, case.caller, input)
}

/// A call of a method that may loop.
fn call_looped(
    alloc: Global,
    class: &LoopClass,
    method: &str,
    case: &Case,
    input: &[u8],
) -> Result<Outcome, CallError>
    ensures ok { IfOk result (IsMade loop_outcome class.now method.now case.now input.now) }
    ensures no_method { (result ≡ Err CallError.NoMethod) ↔ (method_named class.now method.now ≡ None) }
    ensures too_long { (result ≡ Err CallError.InputTooLong) ↔ InputPasses class.now method.now input.now }
{
    // The same of runs by a budget.
    loop_outcomes();
    let _methods = class.methods();
    let object = case.object.as_ref();
    call_loops(alloc, class, method, object, case.caller, input)
}

impl Tested<'_> {
    /// A call of a method on a case's object, for its client.
    pub(crate) fn call(
        &self,
        alloc: Global,
        method: &str,
        case: &Case,
        input: &[u8],
    ) -> Result<Outcome, CallError>
        ensures ok { IfOk result (IsMade (calls_of self.now) (methods_of self.now) method.now case.now input.now) }
        ensures no_method { (result ≡ Err CallError.NoMethod) ↔ (method_named (methods_of self.now) method.now ≡ None) }
        ensures too_long { (result ≡ Err CallError.InputTooLong) ↔
            InputPasses (methods_of self.now) method.now input.now }
    {
        match self {
            Tested::Plain(class) => call_plain(alloc, *class, method, case, input),
            Tested::Looped(class) => call_looped(alloc, *class, method, case, input),
        }
    }
}
