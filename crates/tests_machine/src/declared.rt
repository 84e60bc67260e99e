//! What a method declares, jumps, and the parts of an object that it needs.

use crate::methods;
use bpf_decode::decode;
use bpf_machine::{Region, jump_target};
use footprint::needed;
use std::alloc::Global;
use std::process::Abort;

/// True if a method of these flags, an input of at most 5 bytes and an output of at most 6 has
/// these capacities.
fn declares(rt: &impl Abort, alloc: Global, flags: &str, writes: bool) -> bool {
    let class = methods::class(rt, alloc, &[".method f ", flags, " 5 6; mov r0, 0; exit"]);
    let caps = class.method("f").expect(rt, "a method").caps();
    caps.writes == writes
        && caps.size(Region::Input) == 5
        && caps.size(Region::Output) == 6
        && caps.size(Region::Stack) == 512
}

#[test]
fn capacities(rt: HostRuntime) {
    for (flags, writes) in [("r", false), ("w", true), ("rw", true)] {
        assert!(rt; declares(&rt, rt.alloc(), flags, writes), "{flags}");
    }
    assert!(rt;
        !Region::Input.is_writable() && Region::Output.is_writable() && Region::Stack.is_writable()
    );
}

#[test]
fn jump_targets(rt: HostRuntime) {
    assert!(rt;
        jump_target(3, 0) == 4
            && jump_target(3, -4) == 0
            && jump_target(0, 2147483647) == 2_147_483_648
    );
}

/// Helpers that a method calls, and the number of the parts that it needs: 1 data, 2 xattrs, 4
/// keys, added.
#[rattlefmt::skip]
const NUMBERS: [(&[u8], u8); 25] = [
    (&[], 0), (&[1], 1), (&[2], 1), (&[3], 1), (&[4], 1), (&[5], 0), (&[6], 2), (&[7], 2), (&[8], 2),
    (&[9], 4), (&[10], 4), (&[11], 4), (&[12], 4), (&[13], 0), (&[14], 0), (&[15], 0),
    (&[1, 8], 3), (&[2, 12], 5), (&[6, 9], 6),
    // an object that is removed and created has none of what it had
    (&[5, 3], 7), (&[7, 5], 7), (&[5, 10], 7), (&[14, 5], 7), (&[5, 1, 4], 1), (&[5, 8, 6], 2),
];

/// The number of the parts that code needs that calls these helpers in order.
fn number_of(alloc: Global, helpers: &[u8]) -> Option<u8> {
    let mut code = Vec::new(alloc);
    for helper in helpers {
        code.extend_from_slice(&[0x85, 0, 0, 0, *helper, 0, 0, 0])
            .ok()?;
    }
    let insns = decode(alloc, &code).ok()?;
    Some(needed(&insns).number())
}

#[test]
fn each_helper_needs_its_part(rt: HostRuntime) {
    for (helpers, number) in &NUMBERS {
        assert!(rt; number_of(rt.alloc(), *helpers) == Some(*number));
    }
}
