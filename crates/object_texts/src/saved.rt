//! An object as a text: its lines, as `--show` prints them, and none for an absent object.
ghost use Rattle.std.specs.Prelude.{◌≡◌, ◌⊎◌, IfErr, IfOk, IsTrue, ◌↔◌, Ok, map, option_map, string_bytes, true};
ghost use Rattle.std.specs.Option.{option_copied};
ghost use Rattle.program_files.specs.Files.{storage};
ghost use Rattle.object_texts.specs.Given.{Gives};
ghost use Rattle.object_texts.specs.Saved.{SaveFails, Saves, at_line, digits_of, lines_in, of_data, of_entry, of_name};
ghost use Rattle.object_texts.specs.Saved.{of_part, of_value, of_words, part_named, spelled_object};
ghost use Rattle.object_texts.specs.Shown.{shown_text};
ghost use Rattle.file_words.specs.Words.{words};

use crate::given::{Part, with_data, with_words};
use crate::shown::shown_text;
use file_words::{ended_lines, words};
use object_store::Object;
use program_files::{Failure, Files};
use std::alloc::{AllocError, Global};

/// Digits, or none for `-`.
pub(crate) fn digits_of<'a>(word: &'a str) -> &'a str
    ensures { result.now ≡ digits_of word.now }
{
    if word == "-" { "" } else { word }
}

/// The object that the first line makes.
fn of_data(alloc: Global, words: &[&str]) -> Result<Object, Failure>
    ensures { Gives (λ o. o) result (of_data (map (λ w. w.now) words.now)) }
{
    match words {
        [word, value] if *word == "data" => with_data(alloc, digits_of(value)),
        _ => Err(Failure::ObjectNotHex),
    }
}

/// The part that a line's first word has set.
pub(crate) fn part_named(word: &str) -> Option<Part>
    ensures { result ≡ part_named word.now }
{
    if word == "xattr" {
        return Some(Part::Xattrs);
    }
    if word == "key" {
        return Some(Part::Keys);
    }
    None
}

/// Sets the one value that a name and the words after it spell.
fn of_value(
    alloc: Global,
    part: Part,
    object: &Object,
    name: &str,
    words: &[&str],
) -> Result<Object, Failure>
    ensures { Gives (λ o. o) result (of_value part object.now name.now (map (λ w. w.now) words.now)) }
{
    match words {
        [] => Err(Failure::ObjectNotHex),
        [value, ..] => {
            if words[1..].is_empty() {
                with_words(alloc, part, object, name, digits_of(value))
            } else {
                Err(Failure::ObjectNotHex)
            }
        }
    }
}

/// Sets the value that a name and the next word spell.
fn of_name(alloc: Global, part: Part, object: &Object, words: &[&str]) -> Result<Object, Failure>
    ensures { Gives (λ o. o) result (of_name part object.now (map (λ w. w.now) words.now)) }
{
    match words {
        [] => Err(Failure::ObjectNotHex),
        [name, ..] => of_value(alloc, part, object, name, &words[1..]),
    }
}

fn of_part(
    alloc: Global,
    part: Option<Part>,
    object: &Object,
    words: &[&str],
) -> Result<Object, Failure>
    ensures { Gives (λ o. o) result (of_part part object.now (map (λ w. w.now) words.now)) }
{
    match part {
        None => Err(Failure::ObjectNotHex),
        Some(part) => of_name(alloc, part, object, words),
    }
}

/// Does another line to an object.
fn of_entry(alloc: Global, object: &Object, words: &[&str]) -> Result<Object, Failure>
    ensures { Gives (λ o. o) result (of_entry object.now (map (λ w. w.now) words.now)) }
{
    match words {
        [] => Err(Failure::ObjectNotHex),
        [word, ..] => of_part(alloc, part_named(word), object, &words[1..]),
    }
}

/// Does a line's words to the object that the lines before made.
fn of_words(alloc: Global, object: Option<&Object>, words: &[&str]) -> Result<Object, Failure>
    ensures { Gives (λ o. o) result (of_words (option_copied object.entry) (map (λ w. w.now) words.now)) }
{
    match object {
        None => of_data(alloc, words),
        Some(object) => of_entry(alloc, object, words),
    }
}

/// Does the line of that number to the object that the lines before made.
fn of_line(
    alloc: Global,
    number: usize,
    object: Option<&Object>,
    line: &str,
) -> Result<Object, Failure>
    ensures { Gives (λ o. o) result (at_line number (of_words (option_copied object.entry) (words line.now))) }
{
    let words = words(alloc, line)?;
    match of_words(alloc, object, &words) {
        Ok(object) => Ok(object),
        Err(Failure::NoMemory) => Err(Failure::NoMemory),
        Err(_) => Err(Failure::ObjectLine(number)),
    }
}

/// The lines of a text; an empty one has none.
pub(crate) fn lines_in(alloc: Global, text: &str) -> Result<Vec<&str>, AllocError>
    ensures { IfOk result (λ v. map (λ l. l.now) v.items ≡ lines_in text.now) }
{
    if text.is_empty() {
        return Ok(Vec::new(alloc));
    }
    ended_lines(alloc, text)
}

/// The object that a text spells; refused is the first line that spells none.
pub fn spelled_object(alloc: Global, text: &str) -> Result<Option<Object>, Failure>
    ensures { Gives (λ o. o) result (spelled_object text.now) }
{
    let lines = lines_in(alloc, text)?;
    let mut object = None;
    for n in 0..lines.len() {
        object = Some(of_line(alloc, n + 1, object.as_ref(), lines[n])?);
    }
    Ok(object)
}

/// True if two are both absent, or hold the same.
fn are_same(a: Option<&Object>, b: Option<&Object>) -> bool
    ensures { IsTrue result ↔ (option_copied a.entry ≡ option_copied b.entry) }
{
    match (a, b) {
        (None, None) => true,
        (Some(a), Some(b)) => a.is_same(b),
        (None, Some(_)) | (Some(_), None) => false,
    }
}

/// True if a text spells that object.
fn spells(alloc: Global, text: &str, object: Option<&Object>) -> Result<bool, Failure>
    ensures some { IfOk result (λ same. IsTrue same ↔ (spelled_object text.now ≡ Ok (option_copied object.entry))) }
    ensures none { IfErr result (λ e. e ≡ Failure.NoMemory) }
{
    match spelled_object(alloc, text) {
        Ok(back) => Ok(are_same(back.as_ref(), object)),
        Err(Failure::NoMemory) => Err(Failure::NoMemory),
        Err(_) => Ok(false),
    }
}

/// Writes an object's text to the file that is named for it. The text is read back first, and not
/// written if it spells another object: what was saved is loaded as it was.
pub fn save<F: Files>(
    alloc: Global,
    files: &mut F,
    file: Option<&str>,
    object: Option<&Object>,
) -> Result<(), Failure>
    ensures ok { IfOk result (λ _. Saves (storage F.disk F.failed F.in_place files.old)
        (storage F.disk F.failed F.in_place files.new) file.entry (option_copied object.entry)) }
    ensures err { IfErr result (SaveFails (storage F.disk F.failed F.in_place files.old)
        (storage F.disk F.failed F.in_place files.new) file.entry (option_copied object.entry)) }
{
    let Some(file) = file else {
        return Ok(());
    };
    let text = shown_text(alloc, true, object)?;
    if !spells(alloc, &text, object)? {
        return Err(Failure::CannotWrite);
    }
    match files.write(file, text.as_bytes()) {
        Ok(()) => Ok(()),
        Err(_) => Err(Failure::CannotWrite),
    }
}
