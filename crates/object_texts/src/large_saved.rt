//! An object by an OSD's limits as a text: its lines, as `--show` prints them.

ghost use Rattle.std.specs.Prelude.{◌≡◌, ◌↔◌, IfErr, IfOk, IsTrue, Ok, string_bytes, true};
ghost use Rattle.std.specs.FinMap as fin;
ghost use Rattle.std.specs.List.{flat_map};
ghost use Rattle.std.specs.Option.{option_copied};
ghost use Rattle.program_files.specs.Files.{storage};
ghost use Rattle.object_texts.specs.LargeGiven.{LargeSaveFails, LargeSaves, spelled_large};
ghost use Rattle.object_texts.specs.Shown.{content_text, data_line, entry_line, shown_text};

use crate::large_given::spelled_large;
use crate::shown::{push_bytes, push_entry};
use large_objects::{LargeNames, LargeObject};
use program_files::{Failure, Files};
use std::alloc::{AllocError, Global};

/// The line of data.
fn data_line(alloc: Global, bytes: &[u8]) -> Result<String, AllocError>
    ensures { IfOk result (λ text. string_bytes text ≡ data_line bytes.now) }
{
    let mut text = String::from_str(alloc, "data ")?;
    push_bytes(alloc, &mut text, bytes)?;
    text.push_str("\n")?;
    Ok(text)
}

/// The lines of xattrs, or of keys, each after a word.
fn entry_lines(alloc: Global, word: &str, names: &LargeNames) -> Result<String, AllocError>
    ensures { IfOk result (λ text. string_bytes text ≡ flat_map (entry_line word.now) (fin.entries names.now)) }
{
    let mut text = String::new(alloc);
    for n in 0..names.len() {
        if let Some((name, value)) = names.nth(n) {
            push_entry(alloc, &mut text, word, name, value.bytes())?;
        }
    }
    Ok(text)
}

/// The lines of all that an object holds.
fn content_lines(alloc: Global, object: &LargeObject) -> Result<String, AllocError>
    ensures { IfOk result (λ text. string_bytes text ≡ content_text object.now) }
{
    let mut text = data_line(alloc, object.bytes())?;
    text.push_str(&entry_lines(alloc, "xattr ", object.xattrs())?)?;
    text.push_str(&entry_lines(alloc, "key ", object.keys())?)?;
    Ok(text)
}

/// The lines that show an object, if they are asked for.
pub fn large_text(
    alloc: Global,
    is_shown: bool,
    object: Option<&LargeObject>,
) -> Result<String, AllocError>
    ensures { IfOk result (λ text. string_bytes text ≡ shown_text is_shown (option_copied object.entry)) }
{
    match object {
        Some(object) if is_shown => content_lines(alloc, object),
        _ => Ok(String::new(alloc)),
    }
}

/// True if two are both absent, or hold the same.
fn are_same(a: Option<&LargeObject>, b: Option<&LargeObject>) -> bool
    ensures { IsTrue result ↔ (option_copied a.entry ≡ option_copied b.entry) }
{
    match (a, b) {
        (None, None) => true,
        (Some(a), Some(b)) => a.is_same(b),
        (None, Some(_)) | (Some(_), None) => false,
    }
}

/// True if a text spells that object.
fn spells(alloc: Global, text: &str, object: Option<&LargeObject>) -> Result<bool, Failure>
    ensures some { IfOk result (λ same. IsTrue same ↔ (spelled_large text.now ≡ Ok (option_copied object.entry))) }
    ensures none { IfErr result (λ e. e ≡ Failure.NoMemory) }
{
    match spelled_large(alloc, text) {
        Ok(back) => Ok(are_same(back.as_ref(), object)),
        Err(Failure::NoMemory) => Err(Failure::NoMemory),
        Err(_) => Ok(false),
    }
}

/// Writes an object's text to the file that is named for it. The text is read back first, and not
/// written if it spells another object.
pub fn save_large<F: Files>(
    alloc: Global,
    files: &mut F,
    file: Option<&str>,
    object: Option<&LargeObject>,
) -> Result<(), Failure>
    ensures ok { IfOk result (λ _. LargeSaves (storage F.disk F.failed F.in_place files.old)
        (storage F.disk F.failed F.in_place files.new) file.entry (option_copied object.entry)) }
    ensures err { IfErr result (LargeSaveFails (storage F.disk F.failed F.in_place files.old)
        (storage F.disk F.failed F.in_place files.new) file.entry (option_copied object.entry)) }
{
    let Some(file) = file else {
        return Ok(());
    };
    let text = large_text(alloc, true, object)?;
    if !spells(alloc, &text, object)? {
        return Err(Failure::CannotWrite);
    }
    match files.write(file, text.as_bytes()) {
        Ok(()) => Ok(()),
        Err(_) => Err(Failure::CannotWrite),
    }
}
