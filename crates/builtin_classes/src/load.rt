//! Reads and verifies the built-in classes, for a program that starts.

ghost use Rattle.std.specs.Prelude.{IfOk, IfErr};
ghost use Rattle.builtin_classes.specs.BuiltIn.{IsLoaded, LoadFails};

use crate::failure::BuiltInFailure;
use crate::lock::LOCK;
use crate::obj::OBJ;
use bpf_asm::{AsmFault, assemble_class};
use std::alloc::Global;
use verifier::{Rule, VerifiedClass, verify};

/// The class that a text spells, if each of its methods is safe.
// It is assembled at each load: an image next to the text could differ from it.
fn load(alloc: Global, text: &str) -> Result<VerifiedClass, BuiltInFailure>
    ensures class { IfOk result (IsLoaded text.now) }
    ensures fails { IfErr result (LoadFails text.now) }
{
    let image = match assemble_class(alloc, text) {
        Ok(image) => image,
        Err(error) => match error.fault {
            AsmFault::NoMemory => return Err(BuiltInFailure::NoMemory),
            // Every other fault is of the text, whichever it is; so below of the rule.
            _ => return Err(BuiltInFailure::Text(error)),
        },
    };
    match verify(alloc, &image) {
        Ok(class) => Ok(class),
        Err(refusal) => match refusal.rule {
            Rule::NoMemory => Err(BuiltInFailure::NoMemory),
            _ => Err(BuiltInFailure::Verdict(refusal)),
        },
    }
}

/// The class `lock`: its text is read and verified.
pub fn load_lock(alloc: Global) -> Result<VerifiedClass, BuiltInFailure>
    ensures class { IfOk result (IsLoaded LOCK.now) }
    ensures fails { IfErr result (LoadFails LOCK.now) }
{
    load(alloc, LOCK)
}

/// The class `obj`: its text is read and verified.
pub fn load_obj(alloc: Global) -> Result<VerifiedClass, BuiltInFailure>
    ensures class { IfOk result (IsLoaded OBJ.now) }
    ensures fails { IfErr result (LoadFails OBJ.now) }
{
    load(alloc, OBJ)
}
