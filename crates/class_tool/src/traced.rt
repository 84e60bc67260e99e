//! The trace of a call, if it is asked for.

ghost use Rattle.std.specs.Prelude.{◌≡◌, ◌≤◌, Some, true, IfErr, IfOk, length, string_bytes};
ghost use Rattle.std.specs.List.{AllByRecursion};
ghost use Rattle.std.specs.Option.{option_copied};
ghost use Rattle.bpf_decode.specs.Class.{ClassMethod};
ghost use Rattle.bpf_machine.specs.Safe.{IsCall, IsSafe};
ghost use Rattle.object_store.specs.Object.{AreBytes, IsObject};
ghost use Rattle.verifier.specs.Verified.{given_method, method_named};
ghost use Rattle.program_files.specs.Image.{class_of};
ghost use Rattle.class_tool.specs.RunReport.{IsTraceText};

use bpf_decode::{ClassImage, Method};
use class_trace::{RunStart, slot_lines, trace, trace_text};
use object_store::Object;
use object_texts::MethodCall;
use program_files::{ClassSource, Failure};
use std::alloc::{AllocError, Global};

/// The method of a name, if the class has one.
fn method_in<'a>(class: &'a ClassImage, name: &str) -> Option<&'a Method>
    ensures { given_method result ≡ method_named class.entry.now.methods name.now }
{
    for m in class.methods() {
        if m.name() == name {
            return Some(m);
        }
    }
    None
}

/// The lines of a method's slots in the text of its class; none if it was read from an image.
fn lines_of(alloc: Global, source: &ClassSource, name: &str) -> Result<Vec<usize>, AllocError> {
    let ClassSource::Text(class, text) = source else {
        return Ok(Vec::new(alloc));
    };
    let mut number = 0usize;
    for method in class.methods() {
        if method.name() == name {
            break;
        }
        number = number.saturating_add(1);
    }
    slot_lines(alloc, text, number)
}

/// An object is within the limits. It does nothing.
fn is_object(object: Option<&Object>)
    ensures { IsObject (option_copied object.entry) }
{
    if let Some(object) = object {
        object.within();
    }
}

/// Bytes are below 256. It does nothing.
fn are_bytes(xs: &[u8])
    ensures { AreBytes xs.now }
{
    let _len = xs.len();
}

/// A method may be called on an object, for a client, with an input that it takes. It does nothing.
fn is_call(method: &Method, object: Option<&Object>, caller: u32, input: &[u8])
    requires { length input.now ≤ method.now.in_cap }
    ensures { IsCall method.now (option_copied object.entry) caller input.now }
{
    is_object(object);
    are_bytes(input);
}

/// The text of the trace of a call of a safe method.
fn text_of(
    alloc: Global,
    method: &Method,
    start: &RunStart<'_>,
    lines: &[usize],
) -> Result<String, Failure>
    requires short { length start.now.input.now ≤ method.now.in_cap }
    requires safe { IsSafe method.now }
    ensures text { IfOk result (λ text. IsTraceText true method.now
        (option_copied start.now.object) start.now.caller start.now.input.now (string_bytes text)) }
    ensures fails { IfErr result (λ e. e ≡ Failure.NoMemory) }
{
    is_call(method, start.object, start.caller, start.input);
    match trace(alloc, method, start, lines) {
        Ok(lines) => Ok(trace_text(alloc, &lines)?),
        Err(_) => Err(Failure::NoMemory),
    }
}

/// The text of the trace of a call of a safe class, as `run --trace` prints it, each step with its
/// line if the class was read from a text; no text if the class has no such method, or the input is
/// too long. It fails for want of memory alone.
pub fn traced_call(
    alloc: Global,
    source: &ClassSource,
    name: &str,
    start: &RunStart<'_>,
) -> Result<String, Failure>
    requires { AllByRecursion IsSafe (class_of source.now).methods }
    ensures text { IfOk result (λ text. (m : ClassMethod) →
        method_named (class_of source.now).methods name.now ≡ Some m → length start.now.input.now ≤ m.in_cap →
        IsTraceText true m (option_copied start.now.object) start.now.caller start.now.input.now
        (string_bytes text)) }
    ensures fails { IfErr result (λ e. e ≡ Failure.NoMemory) }
{
    let Some(method) = method_in(source.class(), name) else {
        return Ok(String::new(alloc));
    };
    if start.input.len() > usize::from(method.in_cap()) {
        return Ok(String::new(alloc));
    }
    let lines = lines_of(alloc, source, name)?;
    text_of(alloc, method, start, &lines)
}

/// The text of the trace of a call of a class, if one is asked for and the call will not be
/// refused; else none.
pub(crate) fn traced(
    alloc: Global,
    source: &ClassSource,
    asked: &MethodCall<'_>,
    object: Option<&Object>,
    input: &[u8],
) -> Result<String, Failure>
    requires { AllByRecursion IsSafe (class_of source.now).methods }
    ensures text { IfOk result (λ text. (m : ClassMethod) →
        method_named (class_of source.now).methods asked.now.method.now ≡ Some m → length input.now ≤ m.in_cap →
        IsTraceText asked.now.is_traced m (option_copied object.entry) asked.now.caller input.now (string_bytes text)) }
    ensures fails { IfErr result (λ e. e ≡ Failure.NoMemory) }
{
    if !asked.is_traced {
        return Ok(String::new(alloc));
    }
    let caller = asked.caller.get();
    let start = RunStart {
        object,
        caller,
        input,
    };
    traced_call(alloc, source, asked.method, &start)
}
