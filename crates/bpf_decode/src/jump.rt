//! Where a jump leads, for each crate that runs, judges or prints code.

ghost use Rattle.std.specs.Prelude.{◌≡◌, ◌<◌, ◌^◌};
ghost use Rattle.bpf_decode.specs.Jump.{jump_target};
ghost use Rattle.bpf_decode.specs.Values.{extended};

/// The slot to which a jump goes: its distance counts from the slot after it (RFC 9669 section
/// 4.3).
pub fn jump_target(slot: usize, distance: i64) -> usize
    requires { slot < 2 ^ 62 }
    ensures { result ≡ jump_target slot (extended distance) }
{
    // It wraps modulo 2^64: a target before slot 0 is a slot that no method has.
    ((slot + 1) as u64).wrapping_add(distance.cast_unsigned()) as usize
}
