//! Lines that say what there is but for calls, and what is said.
ghost use Rattle.std.specs.Prelude.{◌≡◌, IfOk, Some, map};
ghost use Rattle.std.specs.Option.{option_copied};
ghost use Rattle.class_tests.specs.Cases.{answer_said, data_of, is_data, is_line, is_part, judged, said_held, value_of};
ghost use Rattle.class_tests.specs.Cases.{with_output};

use crate::case::Case;
use crate::spelled::{code_in, held_in, name_in, value_in};
use crate::step::{Step, TestPart};
use crate::test_bytes::TestBytes;
use crate::test_said::TestSaid;
use object_store::Object;
use std::alloc::{AllocError, Global};

/// What a line that says something comes to.
pub(crate) fn judged(case: Case, said: TestSaid, there: TestSaid) -> Step
    ensures { result ≡ judged case (Some said) there }
{
    if said.is(&there) {
        Step::Holds(case)
    } else {
        Step::Differs(said, there)
    }
}

/// The answer of a code and the output that words say.
fn with_output(alloc: Global, code: u64, words: &[&str]) -> Result<Option<TestSaid>, AllocError>
    ensures { IfOk result (λ said. said ≡ with_output code (map (λ w. w.now) words.now)) }
{
    match words {
        [] => Ok(Some(TestSaid::Answer(code, TestBytes::new(Vec::new(alloc))))),
        [output] => match value_in(alloc, *output)? {
            Some(bytes) => Ok(Some(TestSaid::Answer(code, bytes))),
            None => Ok(None),
        },
        _ => Ok(None),
    }
}

/// The answer that words say.
pub(crate) fn answer_said(alloc: Global, words: &[&str]) -> Result<Option<TestSaid>, AllocError>
    ensures { IfOk result (λ said. said ≡ answer_said (map (λ w. w.now) words.now)) }
{
    match words {
        [] => Ok(None),
        [code, rest @ ..] => match code_in(*code) {
            Some(code) => with_output(alloc, code, rest),
            None => Ok(None),
        },
    }
}

/// The data or the value that a word says, or that there is none.
fn said_held(alloc: Global, word: &str) -> Result<Option<TestSaid>, AllocError>
    ensures { IfOk result (λ said. said ≡ said_held word.now) }
{
    match held_in(alloc, word)? {
        Some(held) => Ok(Some(TestSaid::Held(held))),
        None => Ok(None),
    }
}

/// An object's data.
fn data_of(alloc: Global, object: Option<&Object>) -> Result<Option<TestBytes>, AllocError>
    ensures { IfOk result (λ bytes. bytes ≡ data_of (option_copied object.entry)) }
{
    match object {
        Some(object) => {
            let mut bytes = vec![in alloc; 0; object.len()]?;
            object.read(0, &mut bytes);
            Ok(Some(TestBytes::new(bytes)))
        }
        None => Ok(None),
    }
}

/// A copy of a value that is there.
fn copied(alloc: Global, value: Option<&[u8]>) -> Result<Option<TestBytes>, AllocError>
    ensures { IfOk result (λ copy. copy ≡ option_copied value.entry) }
{
    match value {
        Some(value) => Ok(Some(TestBytes::new(Vec::from_slice(alloc, value)?))),
        None => Ok(None),
    }
}

/// The value of an object's xattr or key.
fn value_of(
    alloc: Global,
    part: TestPart,
    object: Option<&Object>,
    name: &[u8],
) -> Result<Option<TestBytes>, AllocError>
    ensures { IfOk result (λ value. value ≡ value_of part (option_copied object.entry) name.now) }
{
    match object {
        Some(object) => match part {
            TestPart::Xattrs => copied(alloc, object.xattr(name)),
            TestPart::Keys => copied(alloc, object.key(name)),
        },
        None => Ok(None),
    }
}

/// `is data`.
fn is_data(alloc: Global, case: &Case, args: &[&str]) -> Result<Step, AllocError>
    ensures { IfOk result (λ step. step ≡ is_data case.now (map (λ w. w.now) args.now)) }
{
    match args {
        [value] => {
            let Some(said) = said_held(alloc, *value)? else {
                return Ok(Step::Bad);
            };
            let there = TestSaid::Held(data_of(alloc, case.object.as_ref())?);
            Ok(judged(case.copy()?, said, there))
        }
        _ => Ok(Step::Bad),
    }
}

/// `is xattr` and `is key`.
fn is_part(alloc: Global, part: TestPart, case: &Case, args: &[&str]) -> Result<Step, AllocError>
    ensures { IfOk result (λ step. step ≡ is_part part case.now (map (λ w. w.now) args.now)) }
{
    match args {
        [name, value] => {
            let Some(name) = name_in(alloc, *name)? else {
                return Ok(Step::Bad);
            };
            let Some(said) = said_held(alloc, *value)? else {
                return Ok(Step::Bad);
            };
            let there = TestSaid::Held(value_of(alloc, part, case.object.as_ref(), name.items())?);
            Ok(judged(case.copy()?, said, there))
        }
        _ => Ok(Step::Bad),
    }
}

/// `is`.
pub(crate) fn is_line(alloc: Global, case: &Case, args: &[&str]) -> Result<Step, AllocError>
    ensures { IfOk result (λ step. step ≡ is_line case.now (map (λ w. w.now) args.now)) }
{
    match args {
        [] => Ok(Step::Bad),
        [word, args @ ..] => match *word {
            "data" => is_data(alloc, case, args),
            "xattr" => is_part(alloc, TestPart::Xattrs, case, args),
            "key" => is_part(alloc, TestPart::Keys, case, args),
            _ => Ok(Step::Bad),
        },
    }
}
