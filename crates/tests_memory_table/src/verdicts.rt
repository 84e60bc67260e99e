//! The rows of `verify`, by both rule sets: 16 NoMemory, at method 0 and slot 0.

use crate::ending::Ending;
use bpf_asm::assemble_class;
use std::alloc::Global;
use verifier::{Rule, VerifiedClass, verify};

/// Two methods whose paths fork and join, over registers, stores and a helper.
const FORKS: &str = ".method f r 8 8\njgt r2, 4, far\n\
    stxdw [r10-8], r2\nldxb r0, [r1+0]\nja meet\n\
    far:\nldxb r0, [r1+7]\njset r0, 1, meet\nmov r0, 0\n\
    meet:\nand r0, 7\nmov r1, r0\ncall 13\n\
    mov r0, 0\nexit\n\
    .method g r 0 0\njeq r2, 0, end\n\
    mov r0, 1\nexit\n\
    end:\nmov r0, 0\nexit\n";

/// Two methods of rule set 2. The first loads a pointer from the stack where paths join; one of the
/// paths alone stores another one in a second slot.
const SPILLS: &str = ".rules 2\n.method f r 8 8\nstxdw [r10-8], r3\njgt r2, 4, far\n\
    stxdw [r10-16], r1\nldxdw r4, [r10-16]\nldxb r0, [r4+7]\nja meet\n\
    far:\nmov r0, 0\n\
    meet:\nldxdw r3, [r10-8]\nstb [r3+0], 1\nmov r1, 1\ncall 13\n\
    mov r0, 0\nexit\n\
    .method g r 0 0\nstxdw [r10-8], r3\njeq r2, 0, end\n\
    mov r0, 1\nexit\n\
    end:\nldxdw r3, [r10-8]\nmov r0, 0\nexit\n";

/// A text, and how many instructions its methods `f` and `g` have.
pub type Case = (&'static str, usize, usize);

pub const ONE: Case = (FORKS, 12, 5);

pub const TWO: Case = (SPILLS, 13, 7);

/// True if a class has the two methods of a text, with that many instructions.
fn is_whole(class: &VerifiedClass, case: Case) -> bool {
    match class.methods() {
        [f, g] => {
            f.count() == case.1
                && f.ops().len() == case.1
                && g.count() == case.2
                && g.ops().len() == case.2
        }
        _ => false,
    }
}

/// `verify`.
pub fn verified(alloc: Global, case: Case) -> Option<Ending> {
    let image = assemble_class(alloc, case.0).ok()?;
    Some(match verify(alloc, &image) {
        Ok(class) => Ending::of(is_whole(&class, case)),
        Err(refusal) => {
            let is_named = refusal.rule == Rule::NoMemory && refusal.rule.number() == 16;
            Ending::refused(is_named && refusal.method == 0 && refusal.slot == 0)
        }
    })
}
