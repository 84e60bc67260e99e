//! From the text of a whole class to its image and the loops of each of its methods.

ghost use Rattle.std.specs.Prelude.{◌≡◌, ◌⊎◌, ◌+◌, ◌<◌, ◌^◌, ◌*◌, List, [], ◌∷◌, Option, None, Result, Ok, Err};
ghost use Rattle.std.specs.Prelude.{IfOk, MatchResult, length, map, replicate};
ghost use Rattle.bpf_decode.specs.Class.{Class};
ghost use Rattle.loop_heads.specs.Loops.{PlainLoops};
ghost use Rattle.asm_lines.specs.Fault.{no_memory};
ghost use Rattle.asm_lines.specs.Statements.{statement_of};
ghost use Rattle.bpf_asm.specs.Classes.{class_assembled};
ghost use Rattle.loop_asm.specs.Answers.{Gives, contents};
ghost use Rattle.loop_asm.specs.Starts.{AreAtInstructions};
ghost use Rattle.loop_asm.specs.Reading.{loops_from, first_of, without_loops, looped, other, read_looped_text};

use crate::line::{
    contents_of, is_loop_line, is_method, is_of_three, lines_of_method, others, statements,
};
use crate::method::method_loops;
use asm_lines::{AsmError, AsmFault};
use bpf_asm::assemble_lines;
use bpf_decode::ClassImage;
use loop_heads::Loops;
use std::alloc::{AllocError, Global};

/// A class, and for each of its methods its loops, or `None` where it has none.
pub(crate) struct LoopedText {
    pub class: ClassImage,
    pub loops: Vec<Option<Loops>>,
}

impl Drop for LoopedText {
    fn drop(self) {
        let LoopedText { class, loops } = self;
        drop(class);
        drop(loops);
    }
}

impl LoopedText {
    ghost use Rattle.std.specs.Prelude.{◌≡◌};

    /// The class alone.
    pub(crate) fn into_class(self) -> ClassImage
        ensures { result ≡ self.class }
    {
        let LoopedText { class, loops } = self;
        drop(loops);
        class
    }
}

/// Reads a line after the loops of the methods above it, and puts those of a method that begins
/// there at their end.
#[tactic(auto, unfolding(crate::specs::Reading::loops_from))]
fn push_loops(
    alloc: Global,
    line: usize,
    all: &mut Vec<Option<Loops>>,
    text: &[u8],
    below: &[&[u8]],
) -> Result<(), AsmError>
    requires { line + 1 + 2 * length below.now + 2 < 2 ^ 64 }
    ensures { MatchResult result (λ _. loops_from all.old.items line (text.now ∷ contents below.now) ≡
        loops_from all.new.items (line + 1) (contents below.now)) (λ e. (e ≡ no_memory) ⊎
        (loops_from all.old.items line (text.now ∷ contents below.now) ≡ Err e)) }
{
    if is_method(text) {
        match method_loops(alloc, line + 1, &below[..lines_of_method(below)]) {
            Ok(loops) => all.push(loops)?,
            Err(error) => return Err(error),
        }
    } else if all.is_empty() && is_loop_line(text) {
        return Err(AsmError {
            line,
            fault: AsmFault::Word,
        });
    }
    Ok(())
}

/// The loops of each method of a class's lines.
#[tactic(auto, unfolding(crate::specs::Reading::loops_from))]
fn loops_from(alloc: Global, texts: &[&[u8]]) -> Result<Vec<Option<Loops>>, AsmError>
    requires { 2 * length texts.now + 3 < 2 ^ 64 }
    ensures { Gives (λ v. v.items) result (loops_from [] 1 (contents texts.now)) }
{
    let mut all = Vec::new(alloc);
    let mut line = 1;
    let mut rest = texts;
    while let [text, below @ ..] = rest {
        push_loops(alloc, line, &mut all, text, below)?;
        line += 1;
        rest = below;
    }
    Ok(all)
}

/// A class and its loops, or the refusal of the line that stands first.
fn first_of(
    class: Result<ClassImage, AsmError>,
    loops: Result<Vec<Option<Loops>>, AsmError>,
) -> Result<LoopedText, AsmError>
    ensures { (c : Result Class AsmError) (l : Result (List (Option PlainLoops)) AsmError) → Gives (λ x. x) class c →
        Gives (λ v. v.items) loops l → Gives (λ r. (r.class, r.loops.items)) result (first_of c l) }
{
    match class {
        Ok(class) => match loops {
            Ok(loops) => Ok(LoopedText { class, loops }),
            Err(error) => Err(error),
        },
        Err(error) => match loops {
            Err(earlier) if earlier.line < error.line => Err(earlier),
            _ => Err(error),
        },
    }
}

/// The class of lines in rule set 3.
fn with_loops(alloc: Global, texts: &[&[u8]]) -> Result<LoopedText, AsmError>
    requires { 2 * length texts.now + 3 < 2 ^ 64 }
    ensures { Gives (λ r. (r.class, r.loops.items)) result
        (first_of (class_assembled (map other (contents texts.now))) (loops_from [] 1 (contents texts.now))) }
{
    let lines = others(alloc, texts)?;
    first_of(assemble_lines(alloc, &lines), loops_from(alloc, texts))
}

/// No loops for each of that many methods.
fn none_of(alloc: Global, methods: usize) -> Result<Vec<Option<Loops>>, AllocError>
    ensures { IfOk result (λ v. v.items ≡ replicate methods None) }
{
    let mut all = Vec::new(alloc);
    for _ in 0..methods {
        all.push(None)?;
    }
    Ok(all)
}

/// The class of lines in another rule set: it has no loops.
fn without_loops(alloc: Global, texts: &[&[u8]]) -> Result<LoopedText, AsmError>
    requires { 2 * length texts.now + 3 < 2 ^ 64 }
    ensures { Gives (λ r. (r.class, r.loops.items)) result
        (without_loops (class_assembled (map statement_of (contents texts.now)))) }
{
    let lines = statements(alloc, texts)?;
    match assemble_lines(alloc, &lines) {
        Ok(class) => {
            let loops = none_of(alloc, class.methods().len())?;
            Ok(LoopedText { class, loops })
        }
        Err(error) => Err(error),
    }
}

/// The class of a text and its loops, as `read_looped_text` reads them.
#[tactic(auto, unfolding(crate::specs::Reading::read_looped_text))]
fn read_looped_text(alloc: Global, text: &str) -> Result<LoopedText, AsmError>
    ensures { Gives (λ r. (r.class, r.loops.items)) result (read_looped_text text.now) }
{
    let texts = contents_of(alloc, text)?;
    if is_of_three(&texts) {
        with_loops(alloc, &texts)
    } else {
        without_loops(alloc, &texts)
    }
}

/// The class of a text, and the loops of each of its methods. A refusal names the first line that
/// has a fault, and the least fault there; want of memory may come in place of any answer.
///
/// In rule set 3 the lines `.budget` and `.head` say loops; in sets 1 and 2 no word is theirs.
pub(crate) fn assemble_looped(alloc: Global, text: &str) -> Result<LoopedText, AsmError>
    ensures read { MatchResult result (λ r. read_looped_text text.now ≡ Ok (r.class, r.loops.items))
        (λ e. (e ≡ no_memory) ⊎ (read_looped_text text.now ≡ Err e)) }
    // Each head stands at an instruction of its method.
    ensures heads { IfOk result (λ r. AreAtInstructions r.class.methods r.loops.items) }
    ensures each { IfOk result (λ r. length r.loops.items ≡ length r.class.methods) }
{
    read_looped_text(alloc, text)
}
