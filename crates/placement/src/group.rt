//! Which group an object belongs to.

ghost use Rattle.std.specs.Prelude.{◌≡◌, ◌<◌, IsTrue};
ghost use Rattle.placement.specs.Placement.{is_group_count, group_of, fnv1a};

// The constants of FNV-1a for 64 bits: the offset basis and the prime.
const BASIS: u64 = 0xcbf2_9ce4_8422_2325;

const PRIME: u64 = 0x100_0000_01b3;

/// FNV-1a of 64 bits.
fn fnv1a(bytes: &[u8]) -> u64
    ensures { result ≡ fnv1a bytes.now }
{
    let mut hash = BASIS;
    for byte in bytes {
        hash = (hash ^ u64::from(*byte)).wrapping_mul(PRIME);
    }
    hash
}

/// The group of the object of that name, below `groups`: the low bits of the name's hash. There are
/// 1 to 64 groups, a power of two. It costs the name's length.
pub fn group_of(name: &[u8], groups: u64) -> u64
    requires { IsTrue (is_group_count groups) }
    ensures value { result ≡ group_of name.now groups }
    ensures within { result < groups }
{
    fnv1a(name) % groups
}
