//! The object that a call by an OSD's limits begins with, as words and a text spell it.

ghost use Rattle.std.specs.Prelude.{◌≡◌, Result, Some, None, map, option_map};
ghost use Rattle.object_store.specs.Object.{PlainObject};
ghost use Rattle.object_store.specs.Returned.{Gives as Answered};
ghost use Rattle.object_store.specs.declared.store_error.StoreError.{StoreError as AStoreError};
ghost use Rattle.txn.specs.Staging.{edit_of};
ghost use Rattle.file_words.specs.Words.{words};
ghost use Rattle.object_texts.specs.Given.{Gives};
ghost use Rattle.object_texts.specs.LargeGiven.{at_number, data_in, entry_in, large_before, large_content, large_data};
ghost use Rattle.object_texts.specs.LargeGiven.{large_entries, large_line, large_words, of_store, set_edit};
ghost use Rattle.object_texts.specs.LargeGiven.{spelled_large, texts_of};

use crate::given::{Part, bytes_in, name_in};
use crate::method_call::{MethodCall, SpelledEntry};
use crate::saved::{digits_of, lines_in, part_named};
use file_words::words;
use large_objects::{LargeObject, make};
use object_store::StoreError;
use program_files::Failure;
use std::alloc::Global;
use txn::Edit;

/// The changed object, or why the change was refused.
fn changed(made: Result<Option<LargeObject>, StoreError>) -> Result<Option<LargeObject>, Failure>
    ensures { (answer : Result PlainObject AStoreError) → Answered (λ o. o) made answer →
        Gives (λ o. o) result (of_store answer) }
{
    match made {
        Ok(object) => Ok(object),
        Err(StoreError::NoMemory) => Err(Failure::NoMemory),
        Err(error) => Err(Failure::Object(error)),
    }
}

/// The edit that sets an xattr, or a key.
fn set_edit<'a>(part: Part, name: &'a [u8], value: &'a [u8]) -> Edit<'a>
    ensures { edit_of result ≡ set_edit part name.now value.now }
{
    match part {
        Part::Xattrs => Edit::SetXattr(name, value),
        Part::Keys => Edit::SetKey(name, value),
    }
}

/// An object with one xattr, or one key, set, as words spell it.
fn with_words(
    alloc: Global,
    part: Part,
    object: Option<LargeObject>,
    name: &str,
    value: &str,
) -> Result<Option<LargeObject>, Failure>
    ensures { Gives (λ o. o) result (large_words part object name.now value.now) }
{
    let name = name_in(alloc, name.as_bytes())?;
    let value = bytes_in(alloc, value.as_bytes())?;
    changed(make(alloc, object, set_edit(part, &name, &value)))
}

/// An object with several set, one after the other.
fn with_entries(
    alloc: Global,
    part: Part,
    object: Option<LargeObject>,
    entries: &[SpelledEntry<'_>],
) -> Result<Option<LargeObject>, Failure>
    ensures { Gives (λ o. o) result (large_entries part object entries.now) }
{
    let mut object = object;
    for entry in entries {
        object = with_words(alloc, part, object, entry.name, entry.value)?;
    }
    Ok(object)
}

/// An object of that data.
fn with_data(alloc: Global, text: &str) -> Result<Option<LargeObject>, Failure>
    ensures { Gives (λ o. o) result (large_data text.now) }
{
    let bytes = bytes_in(alloc, text.as_bytes())?;
    changed(make(alloc, None, Edit::Write(0, &bytes)))
}

/// An object of that data, those xattrs and those keys.
fn content_in(
    alloc: Global,
    text: &str,
    xattrs: &[SpelledEntry<'_>],
    keys: &[SpelledEntry<'_>],
) -> Result<Option<LargeObject>, Failure>
    ensures { Gives (λ o. o) result (large_content text.now xattrs.now keys.now) }
{
    let object = with_data(alloc, text)?;
    let object = with_entries(alloc, Part::Xattrs, object, xattrs)?;
    with_entries(alloc, Part::Keys, object, keys)
}

/// The object before a call, or the first refusal: of its data, then of its xattrs, then of its
/// keys.
pub fn large_before(alloc: Global, asked: &MethodCall<'_>) -> Result<Option<LargeObject>, Failure>
    ensures { Gives (λ o. o) result (large_before asked.now) }
{
    let text = match asked.data {
        Some(text) => text,
        None => {
            if asked.xattrs.is_empty() && asked.keys.is_empty() {
                return Ok(None);
            }
            ""
        }
    };
    content_in(alloc, text, &asked.xattrs, &asked.keys)
}

/// The digits of a first line.
fn data_in<'a>(words: &[&'a str]) -> Option<&'a str>
    ensures { option_map (λ t. t.now) result ≡ data_in (map (λ w. w.now) words.now) }
{
    match words {
        [word, value] if *word == "data" => Some(digits_of(value)),
        _ => None,
    }
}

/// An xattr, or a key, as a line spells it.
#[derive(Clone, Copy)]
struct LineEntry<'a> {
    part: Part,
    name: &'a str,
    value: &'a str,
}

/// The entry of a further line.
fn entry_in<'a>(words: &[&'a str]) -> Option<LineEntry<'a>>
    ensures { option_map texts_of result ≡ entry_in (map (λ w. w.now) words.now) }
{
    match words {
        [word, name, value] => match part_named(word) {
            Some(part) => Some(LineEntry {
                part,
                name,
                value: digits_of(value),
            }),
            None => None,
        },
        _ => None,
    }
}

/// Does a line's words to the object that the lines before made.
fn of_words(
    alloc: Global,
    object: Option<LargeObject>,
    words: &[&str],
) -> Result<Option<LargeObject>, Failure>
    ensures { Gives (λ o. o) result (large_line object (map (λ w. w.now) words.now)) }
{
    match object {
        None => match data_in(words) {
            Some(digits) => with_data(alloc, digits),
            None => Err(Failure::ObjectNotHex),
        },
        Some(object) => match entry_in(words) {
            Some(entry) => {
                let LineEntry { part, name, value } = entry;
                with_words(alloc, part, Some(object), name, value)
            }
            None => Err(Failure::ObjectNotHex),
        },
    }
}

/// Does the line of that number to the object that the lines before made.
fn of_line(
    alloc: Global,
    number: usize,
    object: Option<LargeObject>,
    line: &str,
) -> Result<Option<LargeObject>, Failure>
    ensures { Gives (λ o. o) result (at_number number (large_line object (words line.now))) }
{
    let words = words(alloc, line)?;
    match of_words(alloc, object, &words) {
        Ok(object) => Ok(object),
        Err(Failure::NoMemory) => Err(Failure::NoMemory),
        Err(_) => Err(Failure::ObjectLine(number)),
    }
}

/// The object that a text spells; refused is the first line that spells none.
pub fn spelled_large(alloc: Global, text: &str) -> Result<Option<LargeObject>, Failure>
    ensures { Gives (λ o. o) result (spelled_large text.now) }
{
    let lines = lines_in(alloc, text)?;
    let mut object = None;
    for n in 0..lines.len() {
        object = of_line(alloc, n + 1, object, lines[n])?;
    }
    Ok(object)
}
