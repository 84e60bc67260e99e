//! The command `heads`: an image with the heads that are found for a class's loops.

ghost use Rattle.std.specs.Prelude.{IfErr, IfOk};
ghost use Rattle.bpf_decode.specs.Class.{IsImage};
ghost use Rattle.class_tool.specs.Packing.{ClassFails};
ghost use Rattle.program_files.specs.Files.{storage};
ghost use Rattle.program_files.specs.Image.{class_of};
ghost use Rattle.loop_tool.specs.Heads.{AreHeaded, HasHeadedImage, HasNone, HeadsFail, IsHeaded, IsHeadedImage};
ghost use Rattle.loop_tool.specs.Heads.{IsUnheaded, MakesNone, WritesHeads};
ghost use Rattle.loop_tool.specs.WriteHeadsError.{IsUnheadedOf};

use crate::asked::HeadsAsked;
use crate::no_heads::NoHeads;
use crate::write_heads_error::WriteHeadsError;
use bpf_decode::{ClassImage, Method, RuleSet, write_image};
use loop_finder::{FindError, find_heads};
use program_files::{ClassSource, Failed, Failure, Files, ReadableFiles, read_source};
use std::alloc::{AllocError, Global};

/// A method with the heads that are found for it; with none if it doesn't jump back.
fn with_heads(
    alloc: Global,
    rules: RuleSet,
    method: &Method,
    budget: u32,
) -> Result<Method, FindError>
    ensures { IfOk result (IsHeaded budget method.now) }
{
    let loops = find_heads(alloc, rules, method, budget)?;
    let copy = method.copy(alloc)?;
    Ok(copy.with_loops(loops))
}

/// Why a method gets no heads.
fn unheaded(alloc: Global, method: &Method, error: FindError) -> WriteHeadsError
    ensures { IsUnheadedOf method.now result }
{
    if let FindError::NoMemory = error {
        return WriteHeadsError::from(AllocError);
    }
    match String::from_str(alloc, method.name()) {
        Ok(method) => WriteHeadsError::NotFound(NoHeads { method, error }),
        Err(error) => WriteHeadsError::from(error),
    }
}

/// A method with its heads, or why it gets none.
fn headed_method(
    alloc: Global,
    rules: RuleSet,
    method: &Method,
    budget: u32,
) -> Result<Method, WriteHeadsError>
    ensures headed { IfOk result (IsHeaded budget method.now) }
    ensures unheaded { IfErr result (IsUnheadedOf method.now) }
{
    match with_heads(alloc, rules, method, budget) {
        Ok(headed) => Ok(headed),
        Err(error) => Err(unheaded(alloc, method, error)),
    }
}

/// The methods with their heads, in their order.
fn headed_methods(
    alloc: Global,
    rules: RuleSet,
    methods: &[Method],
    budget: u32,
) -> Result<Vec<Method>, WriteHeadsError>
    ensures headed { IfOk result (λ headed. AreHeaded budget methods.now headed.items) }
    ensures unheaded { IfErr result (IsUnheaded methods.now) }
{
    let mut headed = Vec::new(alloc);
    for method in methods {
        let one = headed_method(alloc, rules, method, budget)?;
        headed.push(one)?;
    }
    Ok(headed)
}

/// The image of the class of those methods.
fn image_of(alloc: Global, rules: RuleSet, methods: Vec<Method>) -> Result<Vec<u8>, Failure>
    ensures image { IfOk result (λ bytes. IsImage bytes.items (record { rules = rules; methods = methods.items })) }
    ensures fails { IfErr result (ClassFails rules methods.items) }
{
    let class = match ClassImage::new(methods, rules) {
        Ok(class) => class,
        Err(error) => return Err(Failure::Image(error)),
    };
    match write_image(alloc, &class) {
        Ok(bytes) => Ok(bytes),
        Err(_) => Err(Failure::NoMemory),
    }
}

/// The image of a class with the heads that are found for its methods.
pub(crate) fn headed_image(
    alloc: Global,
    class: &ClassImage,
    budget: u32,
) -> Result<Vec<u8>, WriteHeadsError>
    ensures made { IfOk result (λ bytes. HasHeadedImage budget class.now bytes.items) }
    ensures none { IfErr result (HasNone budget class.now) }
{
    let methods = headed_methods(alloc, class.rules(), class.methods(), budget)?;
    match image_of(alloc, class.rules(), methods) {
        Ok(bytes) => Ok(bytes),
        Err(failure) => Err(WriteHeadsError::Failed(Failed::from(failure))),
    }
}

/// The same of the class whose image or text a file holds.
fn image_in<F: ReadableFiles>(
    alloc: Global,
    files: &F,
    asked: &HeadsAsked<'_>,
) -> Result<Vec<u8>, WriteHeadsError>
    ensures made { IfOk result (λ bytes. IsHeadedImage (F.disk files.now) asked.now bytes.items) }
    ensures none { IfErr result (MakesNone (F.disk files.now) asked.now) }
{
    match read_source(alloc, files, asked.class) {
        Ok(source) => headed_image(alloc, source.class(), asked.budget),
        Err(failed) => Err(WriteHeadsError::Failed(failed)),
    }
}

/// Writes the image of the class that a file holds, with the heads that are found for its methods:
/// the same methods but for their loops. One that doesn't jump back gets none. Nothing is written
/// before all heads are found and the image is known to be right; it may take the class's place. The
/// verdict on loops may still refuse what is found.
pub fn write_heads<F: Files>(
    alloc: Global,
    files: &mut F,
    asked: &HeadsAsked<'_>,
) -> Result<(), WriteHeadsError>
    ensures ok { IfOk result (λ _. WritesHeads (storage F.disk F.failed F.in_place files.old)
        (storage F.disk F.failed F.in_place files.new) asked.now) }
    ensures err { IfErr result (HeadsFail (storage F.disk F.failed F.in_place files.old)
        (storage F.disk F.failed F.in_place files.new) asked.now) }
{
    let bytes = image_in(alloc, files, asked)?;
    match files.write(asked.image, &bytes) {
        Ok(()) => Ok(()),
        // Want of memory is this failure too: the line says which step failed.
        Err(_) => Err(WriteHeadsError::Failed(Failed::from(Failure::CannotWrite))),
    }
}
