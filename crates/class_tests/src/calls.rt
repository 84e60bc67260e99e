//! Lines that make a call.
ghost use Rattle.std.specs.Prelude.{◌≡◌, IfOk, Some, map};
ghost use Rattle.interp.specs.Plain.{outcome_of_answer};
ghost use Rattle.verifier.specs.Verified.{method_named};
ghost use Rattle.class_tests.specs.Tests.{answered, call_line, called};
ghost use Rattle.class_tests.specs.inner.Made.{calls_of, methods_of};

use crate::case::{Case, copy_of};
use crate::checks::{answer_said, judged};
use crate::spelled::value_in;
use crate::step::Step;
use crate::test_bytes::TestBytes;
use crate::test_said::TestSaid;
use crate::tested::Tested;
use interp::{CallError, Outcome};
use std::alloc::{AllocError, Global};

/// The case and the answer after an outcome.
fn after(case: &Case, outcome: Outcome) -> Result<(Case, TestSaid), AllocError>
    ensures { IfOk result (λ r. (r.0 ≡ answered case.now (outcome_of_answer outcome)) ×
        (r.1 ≡ TestSaid.Answer (outcome_of_answer outcome).code (outcome_of_answer outcome).output)) }
{
    let object = copy_of(outcome.change.after())?;
    let next = Case {
        object,
        caller: case.caller,
    };
    let code = outcome.code.cast_unsigned();
    Ok((next, TestSaid::Answer(code, TestBytes::new(outcome.output))))
}

/// What a line calls, and by which input.
#[derive(Clone, Copy)]
struct Asked<'a> {
    method: &'a str,
    input: &'a [u8],
}

/// A call.
fn called(
    alloc: Global,
    class: &Tested<'_>,
    case: &Case,
    asked: Asked,
    said: TestSaid,
) -> Result<Step, AllocError>
    ensures { IfOk result (λ step. step ≡ called (calls_of class.now)
        (method_named (methods_of class.now) asked.entry.method.now) case.now asked.entry.input.now (Some said)) }
{
    match class.call(alloc, asked.method, case, asked.input) {
        Ok(outcome) => {
            let (next, there) = after(case, outcome)?;
            Ok(judged(next, said, there))
        }
        Err(CallError::NoMethod) => Ok(judged(case.copy()?, said, TestSaid::NoMethod)),
        Err(CallError::InputTooLong) => Ok(judged(case.copy()?, said, TestSaid::InputTooLong)),
        Err(CallError::NoMemory) => Err(AllocError),
    }
}

/// `call`.
pub(crate) fn call_line(
    alloc: Global,
    class: &Tested<'_>,
    case: &Case,
    args: &[&str],
) -> Result<Step, AllocError>
    ensures { IfOk result (λ step. step ≡
        call_line (calls_of class.now) (methods_of class.now) case.now (map (λ w. w.now) args.now)) }
{
    match args {
        [method, input, arrow, words @ ..] => {
            if *arrow != "->" {
                return Ok(Step::Bad);
            }
            let Some(input) = value_in(alloc, *input)? else {
                return Ok(Step::Bad);
            };
            let Some(said) = answer_said(alloc, words)? else {
                return Ok(Step::Bad);
            };
            let asked = Asked {
                method: *method,
                input: input.items(),
            };
            called(alloc, class, case, asked, said)
        }
        _ => Ok(Step::Bad),
    }
}
