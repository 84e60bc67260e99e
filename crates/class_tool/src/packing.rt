//! The command `pack`: from files of raw code to an image.

ghost use Rattle.std.specs.Prelude.{◌≡◌, IfOk, IfErr};
ghost use Rattle.program_files.specs.Files.{storage};
ghost use Rattle.class_tool.specs.Packing.{AreMethodsIn, ClassFails, CodeFails, IsClassIn, IsCodeIn, IsMethodIn};
ghost use Rattle.class_tool.specs.Packing.{IsPackedOf, MethodsFail, PackFails, Packs, ReadingFails};

use crate::action::{Packing, RawMethod};
use bpf_decode::{ClassImage, ImageError, Insn, Method, RuleSet, decode, write_image};
use program_files::{About, Failed, Failure, Files, ReadableFiles};
use std::alloc::Global;

/// The instructions of the raw code that a file holds. A refusal of the code is an image's, after
/// `done` methods.
fn code_in<F: ReadableFiles>(
    alloc: Global,
    files: &F,
    name: &str,
    done: usize,
) -> Result<Vec<Insn>, Failure>
    ensures code { IfOk result (λ code. IsCodeIn (F.disk files.now) name.now code.items) }
    ensures fails { IfErr result (CodeFails (F.disk files.now) name.now done) }
{
    let bytes = match files.read(alloc, name) {
        Ok(bytes) => bytes,
        Err(error) => return Err(Failure::of_read(&error)),
    };
    match decode(alloc, &bytes) {
        Ok(code) => Ok(code),
        Err(error) => Err(Failure::Image(ImageError {
            methods: done,
            error,
        })),
    }
}

/// The method whose raw code a file holds, after `done` methods.
fn method_in<F: ReadableFiles>(
    alloc: Global,
    files: &F,
    raw: &RawMethod<'_>,
    done: usize,
) -> Result<Method, Failure>
    ensures method { IfOk result (IsMethodIn (F.disk files.now) raw.now) }
    ensures fails { IfErr result (CodeFails (F.disk files.now) raw.now.code.now done) }
{
    let code = code_in(alloc, files, raw.code, done)?;
    let name = String::from_str(alloc, raw.name)?;
    Ok(Method::new(name, raw.flags, raw.in_cap, raw.out_cap, code))
}

/// The methods whose raw code files hold, in their order.
fn methods_in<F: ReadableFiles>(
    alloc: Global,
    files: &F,
    raws: &[RawMethod<'_>],
) -> Result<Vec<Method>, Failure>
    ensures methods { IfOk result (λ methods. AreMethodsIn (F.disk files.now) raws.now methods.items) }
    ensures fails { IfErr result (MethodsFail (F.disk files.now) raws.now) }
{
    let mut methods = Vec::new(alloc);
    for raw in raws {
        let method = method_in(alloc, files, raw, methods.len())?;
        methods.push(method)?;
    }
    Ok(methods)
}

/// The class of those methods, verified by those rules.
fn class_of(rules: RuleSet, methods: Vec<Method>) -> Result<ClassImage, Failure>
    ensures class { IfOk result (λ c. c ≡ record { rules = rules; methods = methods.items }) }
    ensures fails { IfErr result (ClassFails rules methods.items) }
{
    match ClassImage::new(methods, rules) {
        Ok(class) => Ok(class),
        Err(error) => Err(Failure::Image(error)),
    }
}

/// The class of the methods whose raw code files hold.
fn class_in<F: ReadableFiles>(
    alloc: Global,
    files: &F,
    rules: RuleSet,
    raws: &[RawMethod<'_>],
) -> Result<ClassImage, Failure>
    ensures class { IfOk result (IsClassIn (F.disk files.now) rules raws.now) }
    ensures fails { IfErr result (ReadingFails (F.disk files.now) rules raws.now) }
{
    let methods = methods_in(alloc, files, raws)?;
    class_of(rules, methods)
}

/// The method that was not read, of those that `pack` packs.
fn about_method(alloc: Global, raws: &[RawMethod<'_>], failure: Failure) -> About {
    let Failure::Image(error) = failure else {
        return About::Nothing;
    };
    let Some(raw) = raws.get(error.methods) else {
        return About::Methods;
    };
    match (
        String::from_str(alloc, raw.name),
        String::from_str(alloc, raw.code),
    ) {
        (Ok(name), Ok(file)) => About::Method(name, file, raw.in_cap, raw.out_cap),
        _ => About::Nothing,
    }
}

/// The class that `pack` makes an image: of each method that was asked for, in their order, with the
/// raw code that its file holds. Its methods are within the limits of the rule set, and nothing tells
/// whether they are safe. The first file that can't be read or is no code is refused, with the
/// methods before it; then the first refusal in the order of a class's fields. Nothing is written.
pub fn packed_class<F: ReadableFiles>(
    alloc: Global,
    files: &F,
    asked: &Packing<'_>,
) -> Result<ClassImage, Failed>
    ensures class { IfOk result (IsClassIn (F.disk files.now) asked.now.rules asked.now.methods.items) }
    ensures fails { IfErr result (λ e. ReadingFails (F.disk files.now) asked.now.rules asked.now.methods.items
        e.failure) }
{
    match class_in(alloc, files, asked.rules, &asked.methods) {
        Ok(class) => Ok(class),
        Err(failure) => {
            let about = about_method(alloc, &asked.methods, failure);
            Err(Failed { failure, about })
        }
    }
}

/// The image of the class of the methods whose raw code files hold.
fn packed<F: ReadableFiles>(
    alloc: Global,
    files: &F,
    asked: &Packing<'_>,
) -> Result<Vec<u8>, Failed>
    ensures packed { IfOk result (λ bytes. IsPackedOf (F.disk files.now) asked.now.rules asked.now.methods.items
        bytes.items) }
    ensures fails { IfErr result (λ e. ReadingFails (F.disk files.now) asked.now.rules asked.now.methods.items
        e.failure) }
{
    let class = packed_class(alloc, files, asked)?;
    match write_image(alloc, &class) {
        Ok(bytes) => Ok(bytes),
        Err(_) => Err(Failed::from(Failure::NoMemory)),
    }
}

/// Writes the image of the class of those methods, whose raw code files hold. Nothing is written
/// before all files are read and the class is known to be right; the image may take the place of
/// one of them.
pub fn pack<F: Files>(alloc: Global, files: &mut F, asked: &Packing<'_>) -> Result<(), Failed>
    ensures ok { IfOk result (λ _. Packs (storage F.disk F.failed F.in_place files.old)
        (storage F.disk F.failed F.in_place files.new) asked.now) }
    ensures err { IfErr result (λ e. PackFails (storage F.disk F.failed F.in_place files.old)
        (storage F.disk F.failed F.in_place files.new) asked.now e.failure) }
{
    let bytes = packed(alloc, files, asked)?;
    match files.write(asked.image, &bytes) {
        Ok(()) => Ok(()),
        // Want of memory is this failure too: the line says which step failed.
        Err(_) => Err(Failed::from(Failure::CannotWrite)),
    }
}
