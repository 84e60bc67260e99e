//! From the text of a class to the class, whose methods may declare loops.

ghost use Rattle.std.specs.Prelude.{◌≡◌, ◌⊎◌, true, Ok, Err, IfOk, IfErr, length};
ghost use Rattle.std.specs.List.{AllByRecursion};
ghost use Rattle.bpf_decode.specs.Class.{Class, IsClass, AreWithinSet, LoopsHold};
ghost use Rattle.bpf_decode.specs.declared.rule_set.RuleSet.TheVariants.{Three};
ghost use Rattle.asm_lines.specs.Fault.{no_memory};
ghost use Rattle.loop_asm.specs.Answers.{Gives};
ghost use Rattle.loop_asm.specs.Classes.{SaysClass, attached, joined, read_class};
ghost use Rattle.loop_asm.specs.Starts.{AreAtInstructions};

use crate::class::{LoopedText, assemble_looped};
use asm_lines::AsmError;
use bpf_decode::{ClassImage, Method, RuleSet};
use loop_heads::Loops;
use std::alloc::{AllocError, Global};

/// The same loops, or none.
fn copied(alloc: Global, loops: &Option<Loops>) -> Result<Option<Loops>, AllocError>
    ensures { IfOk result (λ l. l ≡ loops.now) }
{
    match loops {
        None => Ok(None),
        Some(loops) => Ok(Some(loops.copy(alloc)?)),
    }
}

/// The methods, each with its loops.
fn attached(
    alloc: Global,
    methods: &[Method],
    loops: &[Option<Loops>],
) -> Result<Vec<Method>, AllocError>
    requires { length loops.now ≡ length methods.now }
    ensures { IfOk result (λ v. v.items ≡ attached methods.now loops.now) }
{
    let mut all = Vec::new(alloc);
    for index in 0..methods.len() {
        let method = methods[index].copy(alloc)?;
        let loops = copied(alloc, &loops[index])?;
        all.push(method.with_loops(loops))?;
    }
    Ok(all)
}

/// For the prover alone: loops that are made are loops, and their numbers fit. Nothing of it runs.
fn holds(loops: &Option<Loops>) -> bool
    ensures always { result ≡ true }
    ensures hold { LoopsHold loops.now }
{
    match loops {
        None => true,
        Some(loops) => loop_bytes::fits(loops.heads()),
    }
}

fn all_hold(loops: &[Option<Loops>]) -> bool
    ensures always { result ≡ true }
    ensures hold { AllByRecursion LoopsHold loops.now }
{
    for one in loops {
        prove!(holds(one));
    }
    true
}

/// The class that was read, with its loops.
fn joined(alloc: Global, read: LoopedText) -> Result<ClassImage, AsmError>
    requires each { length read.loops.items ≡ length read.class.methods }
    requires stand { AreAtInstructions read.class.methods read.loops.items }
    ensures { Gives (λ c. c) result (Ok (joined read.class.rules (read.class, read.loops.items))) }
{
    match read.class.rules() {
        RuleSet::One | RuleSet::Two => Ok(read.into_class()),
        RuleSet::Three => with_loops(alloc, read.class.methods(), &read.loops),
    }
}

/// The class of rule set 3 of methods and their loops.
fn with_loops(
    alloc: Global,
    methods: &[Method],
    loops: &[Option<Loops>],
) -> Result<ClassImage, AsmError>
    requires each { length loops.now ≡ length methods.now }
    requires stand { AreAtInstructions methods.now loops.now }
    requires class { IsClass methods.now }
    requires within { AreWithinSet Three methods.now }
    ensures { Gives (λ c. c) result (Ok (record { rules = Three; methods = attached methods.now loops.now })) }
{
    prove!(all_hold(loops));
    let methods = attached(alloc, methods, loops)?;
    match ClassImage::new(methods, RuleSet::Three) {
        Ok(class) => Ok(class),
        // Each head stands at an instruction.
        Err(_) => unreachable!(),
    }
}

/// The class of a text. A refusal names the first line that has a fault, and the least fault there;
/// want of memory may come in place of any answer.
///
/// In rule set 3 the lines `.budget` and `.head` say what a method declares of its loops; in sets 1
/// and 2 no word is theirs. All else is read as by `bpf_asm::assemble_class`.
pub fn assemble_class(alloc: Global, text: &str) -> Result<ClassImage, AsmError>
    ensures found { IfOk result (SaysClass text.now) }
    ensures refused { IfErr result (λ e. (e ≡ no_memory) ⊎ (read_class text.now ≡ Err e)) }
    ensures only { IfErr result (λ e. (e ≡ no_memory) ⊎ ((c : Class) → ¬ SaysClass text.now c)) }
{
    class_of(alloc, text)
}

/// The class of a text, as `read_class` reads it.
#[tactic(auto, unfolding(crate::specs::Classes::read_class))]
fn class_of(alloc: Global, text: &str) -> Result<ClassImage, AsmError>
    ensures { Gives (λ c. c) result (read_class text.now) }
{
    match assemble_looped(alloc, text) {
        Ok(read) => joined(alloc, read),
        Err(error) => Err(error),
    }
}
