//! The values of a call: digits as words have them, no byte for `-`, or after `@` a file's bytes.
ghost use Rattle.std.specs.Prelude.{◌≡◌, ◌⊎◌, Option, IfErr, IfOk, map, option_map, string_bytes};
ghost use Rattle.program_files.specs.Files.{Disk, IsUnreadable};
ghost use Rattle.program_files.specs.declared.failure.Failure.TheVariants.{CannotRead, NoMemory};
ghost use Rattle.radoscls_program.specs.Values.{AreValues, EntriesFail, FillFails, HasValues, IsFileValue, IsFilled};
ghost use Rattle.radoscls_program.specs.Values.{IsMaybeValue, IsValue, MaybeFails, ValueFails, data_read};
ghost use Rattle.radoscls_program.specs.Values.{entry_texts};
ghost use Rattle.radoscls_program.specs.Values.{InputFails, IsInput, filled_texts};
ghost use Rattle.radoscls_program.specs.Inputs.{after_at, file_of};

use crate::task::{GivenCall, GivenInput};
use object_texts::{MethodCall, SpelledEntry};
use program_files::{Failure, ReadableFiles};
use std::alloc::{AllocError, Global};

/// The most bytes that are read of a value's file: one more than an object may have, so that a
/// longer file is seen to be too long.
const VALUE_READ: usize = 65_537;

/// The same of the data of an object by an OSD's limits.
const LARGE_READ: usize = 134_217_729;

/// The most bytes that are read of the data's file.
fn data_read(is_large: bool) -> usize
    ensures { result ≡ data_read is_large }
{
    if is_large { LARGE_READ } else { VALUE_READ }
}

/// The text after the first `@`.
fn after_at<'a>(text: &'a str) -> &'a str
    ensures { result.now ≡ after_at text.now }
{
    match text.split_once('@') {
        Some((_, rest)) => rest,
        None => "",
    }
}

/// The file that a value names, if it begins with `@`.
pub(crate) fn file_of<'a>(text: &'a str) -> Option<&'a str>
    ensures { option_map (λ n. n.now) result ≡ file_of text.now }
{
    match text.as_bytes() {
        [b'@', ..] => Some(after_at(text)),
        _ => None,
    }
}

/// The bytes of a file in hexadecimal.
fn file_digits<F: ReadableFiles>(
    alloc: Global,
    files: &F,
    most: usize,
    file: &str,
) -> Result<String, Failure>
    ensures ok { IfOk result (λ digits. IsFileValue (F.disk files.now) most file.now (string_bytes digits)) }
    ensures err { IfErr result (λ e. (e ≡ NoMemory) ⊎ ((e ≡ CannotRead) × IsUnreadable (F.disk files.now) file.now)) }
{
    match files.read_first(alloc, file, most) {
        Ok(bytes) => Ok(hex::encode(alloc, &bytes)?),
        Err(error) => Err(Failure::of_read(&error)),
    }
}

/// A value in hexadecimal. Digits are taken as they stand, whether they are any or not.
fn digits_of<F: ReadableFiles>(
    alloc: Global,
    files: &F,
    most: usize,
    text: &str,
) -> Result<String, Failure>
    ensures ok { IfOk result (λ digits. IsValue (F.disk files.now) most text.now (string_bytes digits)) }
    ensures err { IfErr result (ValueFails (F.disk files.now) text.now) }
{
    if text == "-" {
        return Ok(String::new(alloc));
    }
    match file_of(text) {
        Some(file) => file_digits(alloc, files, most, file),
        None => Ok(String::from_str(alloc, text)?),
    }
}

/// An input in hexadecimal.
fn input_digits<F: ReadableFiles>(
    alloc: Global,
    files: &F,
    input: &GivenInput<'_>,
) -> Result<String, Failure>
    ensures ok { IfOk result (λ digits. IsInput (F.disk files.now) input.now (string_bytes digits)) }
    ensures err { IfErr result (InputFails (F.disk files.now) input.now) }
{
    match input {
        GivenInput::Value(text) => digits_of(alloc, files, VALUE_READ, text),
        GivenInput::Bytes(bytes) => Ok(hex::encode(alloc, bytes.items())?),
    }
}

/// A name and its value, in hexadecimal.
#[derive(Drop)]
pub(crate) struct FilledEntry {
    name: String,
    value: String,
}

/// A name and its value.
fn filled_entry<F: ReadableFiles>(
    alloc: Global,
    files: &F,
    entry: &SpelledEntry<'_>,
) -> Result<FilledEntry, Failure>
    ensures name { IfOk result (λ f. string_bytes f.name ≡ entry.now.name.now) }
    ensures value { IfOk result (λ f. IsValue (F.disk files.now) 65537 entry.now.value.now (string_bytes f.value)) }
    ensures err { IfErr result (ValueFails (F.disk files.now) entry.now.value.now) }
{
    let value = digits_of(alloc, files, VALUE_READ, entry.value)?;
    let name = String::from_str(alloc, entry.name)?;
    Ok(FilledEntry { name, value })
}

/// Names and their values, in their order.
fn filled_entries<F: ReadableFiles>(
    alloc: Global,
    files: &F,
    entries: &[SpelledEntry<'_>],
) -> Result<Vec<FilledEntry>, Failure>
    ensures ok { IfOk result
        (λ filled. AreValues (F.disk files.now) (map entry_texts entries.now) (map filled_texts filled.items)) }
    ensures err { IfErr result (EntriesFail (F.disk files.now) (map entry_texts entries.now)) }
{
    let mut filled = Vec::new(alloc);
    for entry in entries {
        match filled_entry(alloc, files, entry) {
            Ok(one) => filled.push(one)?,
            Err(failure) => return Err(failure),
        }
    }
    Ok(filled)
}

/// A call's values, in hexadecimal.
#[derive(Drop)]
pub(crate) struct FilledCall {
    input: String,
    data: Option<String>,
    xattrs: Vec<FilledEntry>,
    keys: Vec<FilledEntry>,
}

/// A value that may be missing, in hexadecimal.
fn maybe_digits<F: ReadableFiles>(
    alloc: Global,
    files: &F,
    most: usize,
    text: Option<&str>,
) -> Result<Option<String>, Failure>
    ensures ok { IfOk result (λ digits. IsMaybeValue (F.disk files.now) most (option_map (λ t. t.now) text.entry)
        (option_map string_bytes digits)) }
    ensures err { IfErr result (MaybeFails (F.disk files.now) (option_map (λ t. t.now) text.entry)) }
{
    match text {
        Some(text) => Ok(Some(digits_of(alloc, files, most, text)?)),
        None => Ok(None),
    }
}

/// A call's values in hexadecimal. The first file that can't be read is refused: the input's, then
/// the data's, then those of xattrs and of keys, each in order.
pub(crate) fn filled<F: ReadableFiles>(
    alloc: Global,
    files: &F,
    call: &GivenCall<'_>,
) -> Result<FilledCall, Failure>
    ensures ok { IfOk result (HasValues (F.disk files.now) call.now) }
    ensures err { IfErr result (FillFails (F.disk files.now) call.now) }
{
    let input = input_digits(alloc, files, &call.input)?;
    let data = maybe_digits(alloc, files, data_read(call.is_large), call.data)?;
    let xattrs = filled_entries(alloc, files, &call.xattrs)?;
    let keys = filled_entries(alloc, files, &call.keys)?;
    Ok(FilledCall {
        input,
        data,
        xattrs,
        keys,
    })
}

/// The names and values, as a call has them.
fn entries_of<'b>(
    alloc: Global,
    filled: &'b [FilledEntry],
) -> Result<Vec<SpelledEntry<'b>>, AllocError>
    ensures { IfOk result (λ entries. map entry_texts entries.items ≡ map filled_texts filled.entry.now) }
{
    let mut entries = Vec::new(alloc);
    for one in filled {
        entries.push(SpelledEntry {
            name: one.name.as_str(),
            value: one.value.as_str(),
        })?;
    }
    Ok(entries)
}

/// A missing or present text.
fn text_of<'b>(text: &'b Option<String>) -> Option<&'b str>
    ensures { option_map (λ t. t.now) result ≡ option_map string_bytes text.entry.now }
{
    match text {
        Some(text) => Some(text.as_str()),
        None => None,
    }
}

/// The call with those values.
pub(crate) fn call_with<'a: 'b, 'b>(
    alloc: Global,
    call: &GivenCall<'a>,
    filled: &'b FilledCall,
) -> Result<MethodCall<'b>, AllocError>
    ensures { IfOk result (λ made. (disk : Option Disk) → HasValues disk call.now filled.entry.now →
        IsFilled disk call.now made) }
{
    Ok(MethodCall {
        image: call.image,
        method: call.method,
        input: filled.input.as_str(),
        caller: call.caller,
        data: text_of(&filled.data),
        xattrs: entries_of(alloc, &filled.xattrs)?,
        keys: entries_of(alloc, &filled.keys)?,
        load: call.load,
        save: call.save,
        is_shown: call.is_shown,
        is_traced: call.is_traced,
    })
}
