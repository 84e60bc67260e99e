//! The commands `asm` and `dis`: from a text to an image, and back.

ghost use Rattle.std.specs.Prelude.{◌≡◌, ◌⊎◌, IfErr, IfOk, string_bytes};
ghost use Rattle.program_files.specs.Assembly.{Assembles, AssembleFails, IsSourceIn, IsTextOf, SourceFails, Spells};
ghost use Rattle.program_files.specs.Assembly.{TextFails, ClassTextFails, ImageFails, text_of};
ghost use Rattle.program_files.specs.Files.{Holds, storage};
ghost use Rattle.program_files.specs.Image.{ReadFails};

use crate::failed::{About, Failed};
use crate::failure::Failure;
use crate::files::{Files, ReadableFiles};
use crate::image::{TEXT_LIMIT, read_class};
use bpf_decode::ClassImage;
use std::alloc::Global;

/// The text of a file, if that is UTF-8.
pub fn read_text<F: ReadableFiles>(alloc: Global, files: &F, name: &str) -> Result<String, Failure>
    ensures held { IfOk result (λ text. Holds (F.disk files.now) name.now (string_bytes text)) }
    ensures fails { IfErr result (TextFails (F.disk files.now) name.now) }
{
    let bytes = match files.read(alloc, name) {
        Ok(bytes) => bytes,
        Err(error) => return Err(Failure::of_read(&error)),
    };
    match String::from_utf8(bytes) {
        Ok(text) => Ok(text),
        Err(_) => Err(Failure::CannotRead),
    }
}

/// The text of a class that a file holds, if that is UTF-8 and not too long.
fn read_class_text<F: ReadableFiles>(
    alloc: Global,
    files: &F,
    name: &str,
) -> Result<String, Failure>
    ensures held { IfOk result (λ text. Holds (F.disk files.now) name.now (string_bytes text)) }
    ensures fails { IfErr result (ClassTextFails (F.disk files.now) name.now) }
{
    let bytes = match files.read_first(alloc, name, TEXT_LIMIT + 1) {
        Ok(bytes) => bytes,
        Err(error) => return Err(Failure::of_read(&error)),
    };
    if bytes.len() > TEXT_LIMIT {
        return Err(Failure::TextTooLong);
    }
    match String::from_utf8(bytes) {
        Ok(text) => Ok(text),
        Err(_) => Err(Failure::CannotRead),
    }
}

/// The image of the class that a text is.
fn image_of(alloc: Global, text: &str) -> Result<Vec<u8>, Failure>
    ensures spells { IfOk result (λ bytes. Spells text.now bytes.items) }
    ensures fails { IfErr result (ImageFails text.now) }
{
    let class = match loop_asm::assemble_class(alloc, text) {
        Ok(class) => class,
        Err(error) => return Err(Failure::Text(error)),
    };
    match bpf_decode::write_image(alloc, &class) {
        Ok(bytes) => Ok(bytes),
        Err(_) => Err(Failure::NoMemory),
    }
}

/// The image of the class whose text a file holds.
fn image_in<F: ReadableFiles>(alloc: Global, files: &F, name: &str) -> Result<Vec<u8>, Failed>
    ensures source { IfOk result (λ bytes. IsSourceIn (F.disk files.now) name.now bytes.items) }
    ensures fails { IfErr result (λ e. ClassTextFails (F.disk files.now) name.now e.failure ⊎
        SourceFails (F.disk files.now) name.now e.failure) }
{
    let text = read_class_text(alloc, files, name)?;
    match image_of(alloc, &text) {
        Ok(bytes) => Ok(bytes),
        Err(failure) => Err(Failed {
            failure,
            about: About::Text(text),
        }),
    }
}

/// Writes the image of the class whose text the one file holds to the other, which may be the same
/// one. Nothing is written before the text is read whole and known to be right.
pub fn assemble<F: Files>(
    alloc: Global,
    files: &mut F,
    text: &str,
    image: &str,
) -> Result<(), Failed>
    ensures ok { IfOk result (λ _. Assembles (storage F.disk F.failed F.in_place files.old)
        (storage F.disk F.failed F.in_place files.new) text.now image.now) }
    ensures err { IfErr result (λ e. AssembleFails (storage F.disk F.failed F.in_place files.old)
        (storage F.disk F.failed F.in_place files.new) text.now image.now e.failure) }
{
    let bytes = image_in(alloc, files, text)?;
    match files.write(image, &bytes) {
        Ok(()) => Ok(()),
        // Want of memory is this failure too: the line says which step failed.
        Err(_) => Err(Failed::from(Failure::CannotWrite)),
    }
}

/// The canonical text of a class, with each instruction's slot or without.
fn text_of(alloc: Global, class: &ClassImage, has_slots: bool) -> Result<String, Failure>
    ensures text { IfOk result (λ text. string_bytes text ≡ text_of has_slots class.now) }
    ensures fails { IfErr result (λ e. e ≡ Failure.NoMemory) }
{
    let text = if has_slots {
        loop_asm::disassemble_with_slots(alloc, class)
    } else {
        loop_asm::disassemble_class(alloc, class)
    };
    match text {
        Ok(text) => Ok(text),
        Err(_) => Err(Failure::NoMemory),
    }
}

/// The canonical text of the class that a file holds, with each instruction's slot or without.
pub fn disassemble<F: ReadableFiles>(
    alloc: Global,
    files: &F,
    image: &str,
    has_slots: bool,
) -> Result<String, Failed>
    ensures ok { IfOk result (λ text. IsTextOf has_slots (F.disk files.now) image.now (string_bytes text)) }
    ensures err { IfErr result (λ e. ReadFails (F.disk files.now) image.now e.failure) }
{
    let class = read_class(alloc, files, image)?;
    Ok(text_of(alloc, &class, has_slots)?)
}
