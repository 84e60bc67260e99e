//! Lines that set up a case.
ghost use Rattle.std.specs.Prelude.{◌≡◌, IfOk, Result, map};
ghost use Rattle.std.specs.Option.{option_copied};
ghost use Rattle.object_store.specs.Object.{Content};
ghost use Rattle.object_store.specs.Returned.{Gives};
ghost use Rattle.object_store.specs.declared.store_error.StoreError.{StoreError as AStoreError};
ghost use Rattle.class_tests.specs.Cases.{as_line, begun, next_if, object_line, set_in, set_line, set_value};
ghost use Rattle.class_tests.specs.Cases.{with_object};
ghost use Rattle.class_tests.specs.declared.case.Case.{Case as ACase};

use crate::case::Case;
use crate::spelled::{held_in, name_in, value_in};
use crate::step::{Step, TestPart};
use crate::test_bytes::TestBytes;
use file_words::id_in;
use object_store::{Object, StoreError, calls};
use std::alloc::{AllocError, Global};

/// The case of a line that sets up, if it is one.
fn next_if(case: Option<Case>) -> Step
    ensures { result ≡ next_if case }
{
    match case {
        Some(case) => Step::Next(case),
        None => Step::Bad,
    }
}

/// A client's case with that object, unless the store refused it.
fn with_object(caller: u32, made: Result<Object, StoreError>) -> Result<Option<Case>, AllocError>
    ensures { (answer : Result Content AStoreError) → Gives (λ o. o) made answer →
        IfOk result (λ next. (case : ACase) → case.caller ≡ caller → next ≡ with_object case answer) }
{
    match made {
        Ok(object) => Ok(Some(Case {
            object: Some(object),
            caller,
        })),
        Err(StoreError::NoMemory) => Err(AllocError),
        Err(_) => Ok(None),
    }
}

/// A case as it begins, with an object of that data or without.
fn begun(alloc: Global, held: &Option<TestBytes>) -> Result<Option<Case>, AllocError>
    ensures { IfOk result (λ next. next ≡ begun held.now) }
{
    match held {
        None => Ok(Some(Case::opening())),
        Some(bytes) => with_object(1, calls::write(alloc, None, 0, bytes.items())),
    }
}

/// `object`.
pub(crate) fn object_line(alloc: Global, args: &[&str]) -> Result<Step, AllocError>
    ensures { IfOk result (λ step. step ≡ object_line (map (λ w. w.now) args.now)) }
{
    match args {
        [word] => match held_in(alloc, *word)? {
            Some(held) => Ok(next_if(begun(alloc, &held)?)),
            None => Ok(Step::Bad),
        },
        _ => Ok(Step::Bad),
    }
}

/// An object with an xattr or a key set.
fn set_in(
    alloc: Global,
    part: TestPart,
    object: Option<&Object>,
    name: &[u8],
    value: &[u8],
) -> Result<Object, StoreError>
    ensures { Gives (λ o. o) result (set_in part (option_copied object.entry) name.now value.now) }
{
    match part {
        TestPart::Xattrs => calls::set_xattr(alloc, object, name, value),
        TestPart::Keys => calls::set_key(alloc, object, name, value),
    }
}

/// Sets the value that words spell.
fn set_value(
    alloc: Global,
    part: TestPart,
    case: &Case,
    name: &TestBytes,
    words: &[&str],
) -> Result<Step, AllocError>
    ensures { IfOk result (λ step. step ≡ set_value part case.now name.now (map (λ w. w.now) words.now)) }
{
    match words {
        [word] => match value_in(alloc, *word)? {
            Some(value) => {
                let object = case.object.as_ref();
                let made = set_in(alloc, part, object, name.items(), value.items());
                Ok(next_if(with_object(case.caller, made)?))
            }
            None => Ok(Step::Bad),
        },
        _ => Ok(Step::Bad),
    }
}

/// `xattr` and `key`.
pub(crate) fn set_line(
    alloc: Global,
    part: TestPart,
    case: &Case,
    args: &[&str],
) -> Result<Step, AllocError>
    ensures { IfOk result (λ step. step ≡ set_line part case.now (map (λ w. w.now) args.now)) }
{
    match args {
        [] => Ok(Step::Bad),
        [word, rest @ ..] => match name_in(alloc, *word)? {
            Some(name) => set_value(alloc, part, case, &name, rest),
            None => Ok(Step::Bad),
        },
    }
}

/// `as`.
pub(crate) fn as_line(case: &Case, args: &[&str]) -> Result<Step, AllocError>
    ensures { IfOk result (λ step. step ≡ as_line case.now (map (λ w. w.now) args.now)) }
{
    match args {
        [word] => match id_in(*word) {
            Some(caller) => {
                let mut next = case.copy()?;
                next.caller = caller;
                Ok(Step::Next(next))
            }
            None => Ok(Step::Bad),
        },
        _ => Ok(Step::Bad),
    }
}
