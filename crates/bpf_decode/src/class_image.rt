ghost use Rattle.std.specs.Prelude.{◌≡◌, true, IfOk};
ghost use Rattle.std.specs.Option.{option_copied};
ghost use Rattle.bpf_decode.specs.Class.{IsClass, AreWithinSet, LoopsHold, starts};
ghost use Rattle.bpf_decode.specs.Instruction.{AllFit};
ghost use Rattle.bpf_decode.specs.Reading.{Reads};
ghost use Rattle.bpf_decode.specs.ImageReading.{unless, heads_refusal, loops_refusal, method_after, methods_of};
ghost use Rattle.bpf_decode.specs.ImageReading.{class_of};

use crate::code::{is_start, slots};
use crate::decode_error::DecodeError;
use crate::image_error::ImageError;
use crate::insn::Insn;
use crate::limits;
use crate::method::Method;
use crate::rule_set::RuleSet;
use loop_heads::{Head, Loops};
use std::marker::Model;

/// A class: its rule set, and 1 to 32 methods within the limits and those of the rule set, by
/// rising names. Contracts see a `Class`.
pub struct ClassImage {
    rules: RuleSet,
    methods: Vec<Method>,
}

impl Drop for ClassImage {
    fn drop(self) {
        let ClassImage { rules: _, methods } = self;
        drop(methods);
    }
}

impl Model for ClassImage {
    ghost use Rattle.bpf_decode.specs.Class.{Class, IsClass, AreWithinSet};

    ghost Value = { Class };

    ghost view = { λ c. record { rules = c.rules; methods = c.methods.items } };

    ghost invariant = { λ c. IsClass c.methods.items × AreWithinSet c.rules c.methods.items };
}

impl ClassImage {
    ghost use Rattle.std.specs.Prelude.{◌↔◌, IsOk, Ok};

    /// The class of those methods that is verified by that rule set. It takes no memory.
    ///
    /// Refusals, in the order of the image's fields, with the number of methods that are right
    /// before it: `Limit` for their count; of a method `Name`, `Order`, `Flags`, and `Limit` for a
    /// capacity above the rule set's `capacity_limit`, its slots, or loops in rule sets 1 and 2, and
    /// `Head` for the first head at which no instruction begins. Such methods may have no image (a
    /// name of 300 bytes has no length byte), so this order is a definition of its own.
    pub fn new(methods: Vec<Method>, rules: RuleSet) -> Result<ClassImage, ImageError>
        ensures exact { result ≡ class_of rules methods.items }
        ensures accepts { IsOk result ↔ (IsClass methods.items × AreWithinSet rules methods.items) }
        ensures value { IfOk result (λ c. c ≡ record { rules = rules; methods = methods.items }) }
    {
        match check_methods(rules, &methods) {
            Ok(()) => Ok(ClassImage { rules, methods }),
            Err(error) => Err(error),
        }
    }

    /// The class of methods that were tested while they were read, as `new` tests them: nothing is
    /// tested again.
    pub fn tested(methods: Vec<Method>, rules: RuleSet) -> ClassImage
        requires { methods_of rules methods.items ≡ Ok methods.items }
        ensures { result ≡ record { rules = rules; methods = methods.items } }
    {
        // For the proof: `check_methods` gives `IsClass` and `AreWithinSet` of the methods, the
        // invariant. Nothing of it runs.
        prove!(check_methods(rules, &methods).is_ok());
        ClassImage { rules, methods }
    }

    /// A class of methods that are within the limits and those of the rule set, by rising names.
    pub(crate) fn of(rules: RuleSet, methods: Vec<Method>) -> ClassImage
        requires class { IsClass methods.items }
        requires within { AreWithinSet rules methods.items }
        ensures { result ≡ record { rules = rules; methods = methods.items } }
    {
        ClassImage { rules, methods }
    }

    /// The rules by which it is verified.
    pub fn rules(&self) -> RuleSet
        ensures { result ≡ self.now.rules }
    {
        self.rules
    }

    /// Its methods, by rising names.
    pub fn methods(&self) -> &[Method]
        ensures methods { result.now ≡ self.now.methods }
        ensures class { IsClass self.now.methods }
        ensures within { AreWithinSet self.now.rules self.now.methods }
    {
        &self.methods
    }
}

/// Tests that the methods may form a class of that rule set. Returns the first refusal otherwise.
fn check_methods(rules: RuleSet, methods: &[Method]) -> Result<(), ImageError>
    ensures read { Reads (λ _. methods.now) result (methods_of rules methods.now) }
    ensures class { IfOk result (λ _. IsClass methods.now) }
    ensures within { IfOk result (λ _. AreWithinSet rules methods.now) }
{
    if !limits::is_method_count(methods.len()) {
        return Err(ImageError::after(0, DecodeError::Limit));
    }
    let mut before: &[u8] = &[];
    for done in 0..methods.len() {
        let method = &methods[done];
        match check_method(rules, before, method) {
            Ok(()) => before = method.name().as_bytes(),
            Err(error) => return Err(ImageError::after(done, error)),
        }
    }
    Ok(())
}

/// Tests a method of that rule set, which follows one of the name `before`. Returns its first
/// refusal otherwise.
fn check_method(rules: RuleSet, before: &[u8], method: &Method) -> Result<(), DecodeError>
    ensures read { Reads (λ _. method.now) result (method_after rules before.now method.now) }
    ensures fit { AllFit method.now.instructions }
    ensures hold { LoopsHold method.now.loops }
{
    let loops = method.loops();
    prove!(hold(loops));
    let name = method.name().as_bytes();
    let slots = slots(method.instructions());
    if !limits::is_name_length(name.len()) {
        return Err(DecodeError::Name);
    }
    if !limits::are_name_bytes(name) {
        return Err(DecodeError::Name);
    }
    if !limits::is_above(before, name) {
        return Err(DecodeError::Order);
    }
    if !limits::are_flags(method.flags()) {
        return Err(DecodeError::Flags);
    }
    if !limits::is_capacity(rules, method.in_cap()) {
        return Err(DecodeError::Limit);
    }
    if !limits::is_capacity(rules, method.out_cap()) {
        return Err(DecodeError::Limit);
    }
    if !limits::is_slot_count(slots) {
        return Err(DecodeError::Limit);
    }
    check_loops(rules, method.instructions(), loops)
}

/// For the prover alone: loops that are made are loops, and their numbers are within their types'
/// ranges. Nothing of it runs.
fn hold(loops: Option<&Loops>) -> bool
    ensures always { result ≡ true }
    ensures hold { LoopsHold (option_copied loops.entry) }
{
    match loops {
        None => true,
        Some(loops) => loop_bytes::fits(loops.heads()),
    }
}

/// Tests the loops of a method with that code: in sets 1 and 2 it may have none. Returns the first
/// refusal otherwise.
fn check_loops(
    rules: RuleSet,
    instructions: &[Insn],
    loops: Option<&Loops>,
) -> Result<(), DecodeError>
    ensures { result ≡ unless (loops_refusal rules instructions.now (option_copied loops.entry)) tt }
{
    let Some(loops) = loops else {
        return Ok(());
    };
    match rules {
        RuleSet::One | RuleSet::Two => Err(DecodeError::Limit),
        RuleSet::Three => check_heads(instructions, loops.heads()),
    }
}

/// Tests that an instruction of the code begins at each head.
fn check_heads(instructions: &[Insn], heads: &[Head]) -> Result<(), DecodeError>
    ensures { result ≡ unless (heads_refusal (starts instructions.now) heads.now) tt }
{
    for head in heads {
        if !is_start(instructions, head.slot()) {
            return Err(DecodeError::Head(head.slot() as usize));
        }
    }
    Ok(())
}
