//! The class that a file holds, as an image or as a text.

ghost use Rattle.std.specs.Prelude.{◌≡◌, ◌⊎◌, ◌↔◌, IfErr, IfNone, IfOk, IfSome, IsTrue, string_bytes};
ghost use Rattle.loop_asm.specs.Classes.{SaysClass};
ghost use Rattle.program_files.specs.Image.{IsClassIn, IsLongText, IsMemory, IsSafeIn, IsSourceOf, IsText, LoadFails};
ghost use Rattle.program_files.specs.Image.{ReadFails, SayNone, Says, class_of, is_for_image};

use crate::failed::{About, Failed, about_image};
use crate::failure::Failure;
use crate::files::ReadableFiles;
use bpf_decode::{ClassImage, beginning, read_image};
use loop_asm::assemble_class;
use std::alloc::{AllocError, Global};
use verifier::{VerifiedClass, verify};

/// The most bytes that a class's text may have: more than the canonical text of any class has.
pub const TEXT_LIMIT: usize = 16_777_216;

/// A class that was read, from its image, or from a text, which is kept.
#[derive(Drop)]
pub enum ClassSource {
    /// The class of an image.
    Image(ClassImage),
    /// The class of a text, and the text.
    Text(ClassImage, String),
}

impl ClassSource {
    ghost use Rattle.std.specs.Prelude.{◌≡◌};
    ghost use Rattle.program_files.specs.Image.{class_of};

    /// The class.
    pub fn class(&self) -> &ClassImage
        ensures { result.now ≡ class_of self.now }
    {
        match self {
            ClassSource::Image(class) => class,
            ClassSource::Text(class, _) => class,
        }
    }
}

/// True if bytes begin as an image does, are too few for a text, or have a zero among them.
fn is_for_image(bytes: &[u8]) -> bool
    ensures { result ≡ is_for_image bytes.now }
{
    bytes.len() < 4
        || (bytes[0] == b'R' && bytes[1] == b'C' && bytes[2] == b'L')
        || bytes.contains(&0)
}

/// True if bytes are those of a text that is too long.
fn is_long_text(bytes: &[u8]) -> bool
    ensures { IsTrue result ↔ IsLongText bytes.now }
{
    bytes.len() > TEXT_LIMIT && !is_for_image(&bytes[..TEXT_LIMIT + 1])
}

/// The text that bytes are, if they are read as one.
fn text_in(alloc: Global, bytes: &[u8]) -> Result<Option<String>, AllocError>
    ensures some { IfOk result (λ found. IfSome found (λ text. (string_bytes text ≡ bytes.now) × IsText bytes.now)) }
    ensures none { IfOk result (λ found. IfNone found (IsText bytes.now → ⊥)) }
{
    if is_for_image(bytes) || bytes.len() > TEXT_LIMIT {
        return Ok(None);
    }
    match str::from_utf8(bytes) {
        Ok(text) => Ok(Some(String::from_str(alloc, text)?)),
        Err(_) => Ok(None),
    }
}

/// The class that a text says.
fn class_of_text(alloc: Global, text: &str) -> Result<ClassImage, Failure>
    requires { IsText text.now }
    ensures says { IfOk result (SaysClass text.now) }
    ensures fails { IfErr result (λ e. IsMemory e ⊎ SayNone text.now e) }
{
    match assemble_class(alloc, text) {
        Ok(class) => Ok(class),
        Err(error) => Err(Failure::Text(error)),
    }
}

/// The class of a text, with the text.
fn source_of_text(alloc: Global, text: String) -> Result<ClassSource, Failed>
    requires { IsText (string_bytes text) }
    ensures says { IfOk result (Says (string_bytes text)) }
    ensures fails { IfErr result (λ e. IsMemory e.failure ⊎ SayNone (string_bytes text) e.failure) }
{
    match class_of_text(alloc, &text) {
        Ok(class) => Ok(ClassSource::Text(class, text)),
        Err(failure) => Err(Failed {
            failure,
            about: About::Text(text),
        }),
    }
}

/// The class of an image's bytes.
fn source_of_image(alloc: Global, bytes: &[u8]) -> Result<ClassSource, Failed>
    requires image { IsText bytes.now → ⊥ }
    requires short { IsLongText bytes.now → ⊥ }
    ensures says { IfOk result (Says bytes.now) }
    ensures fails { IfErr result (λ e. IsMemory e.failure ⊎ SayNone bytes.now e.failure) }
{
    match read_image(alloc, bytes) {
        Ok(class) => Ok(ClassSource::Image(class)),
        Err(error) => Err(Failed {
            failure: Failure::Image(error),
            about: about_image(alloc, bytes),
        }),
    }
}

/// The class that bytes say.
fn source_of(alloc: Global, bytes: &[u8]) -> Result<ClassSource, Failed>
    ensures says { IfOk result (Says bytes.now) }
    ensures fails { IfErr result (λ e. IsMemory e.failure ⊎ SayNone bytes.now e.failure) }
{
    if is_long_text(bytes) {
        return Err(Failed::from(Failure::TextTooLong));
    }
    match text_in(alloc, bytes)? {
        Some(text) => source_of_text(alloc, text),
        None => source_of_image(alloc, bytes),
    }
}

/// The class whose image or text a file holds. Of a longer file one byte more than a text may have
/// is read, which changes no answer: no image is as long.
pub fn read_source<F: ReadableFiles>(
    alloc: Global,
    files: &F,
    name: &str,
) -> Result<ClassSource, Failed>
    ensures read { IfOk result (IsSourceOf (F.disk files.now) name.now) }
    ensures fails { IfErr result (λ e. ReadFails (F.disk files.now) name.now e.failure) }
{
    // Bytes after those make no difference, which this call proves; it does nothing.
    beginning();
    let bytes = match files.read_first(alloc, name, TEXT_LIMIT + 1) {
        Ok(bytes) => bytes,
        Err(error) => return Err(Failed::from(Failure::of_read(&error))),
    };
    source_of(alloc, &bytes)
}

/// The class whose image or text a file holds.
pub fn read_class<F: ReadableFiles>(
    alloc: Global,
    files: &F,
    image: &str,
) -> Result<ClassImage, Failed>
    ensures read { IfOk result (IsClassIn (F.disk files.now) image.now) }
    ensures fails { IfErr result (λ e. ReadFails (F.disk files.now) image.now e.failure) }
{
    match read_source(alloc, files, image)? {
        ClassSource::Image(class) => Ok(class),
        ClassSource::Text(class, _) => Ok(class),
    }
}

/// The class whose image or text a file holds, if it is safe: each method runs to its exit on
/// every object and input.
pub fn load<F: ReadableFiles>(
    alloc: Global,
    files: &F,
    image: &str,
) -> Result<VerifiedClass, Failed>
    ensures safe { IfOk result (IsSafeIn (F.disk files.now) image.now) }
    ensures fails { IfErr result (λ e. LoadFails (F.disk files.now) image.now e.failure) }
{
    let (class, _) = load_with_source(alloc, files, image)?;
    Ok(class)
}

/// The same, and what it was read from.
pub fn load_with_source<F: ReadableFiles>(
    alloc: Global,
    files: &F,
    image: &str,
) -> Result<(VerifiedClass, ClassSource), Failed>
    ensures safe { IfOk result (λ r. IsSafeIn (F.disk files.now) image.now r.0) }
    ensures source { IfOk result (λ r. r.0 ≡ (class_of r.1).methods) }
    ensures fails { IfErr result (λ e. LoadFails (F.disk files.now) image.now e.failure) }
{
    let source = read_source(alloc, files, image)?;
    match verify(alloc, source.class()) {
        Ok(verified) => Ok((verified, source)),
        Err(refusal) => Err(Failed {
            failure: Failure::Verdict(refusal),
            about: About::Class(source),
        }),
    }
}
