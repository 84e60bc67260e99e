//! How much of a log all members have.

ghost use Rattle.std.specs.Prelude.{◌≡◌, ◌<◌, ℕ, length, min};
ghost use Rattle.replication.specs.Places.{IsLeast, least_from};

/// The number of entries that all members have: the least of the acknowledged lengths, the
/// primary's own among them. It takes no memory.
pub fn commit_point(acked: &[usize]) -> usize
    requires { 0 < length acked.now }
    ensures least { IsLeast result acked.now }
    ensures from { (local : ℕ) → min local result ≡ least_from local acked.now }
{
    // The first counts twice, which changes no least.
    let first = acked[0];
    least_beside(first, acked)
}

/// The least of these and of one more.
fn least_beside(local: usize, acked: &[usize]) -> usize
    ensures { result ≡ least_from local acked.now }
{
    let mut point = local;
    for come in acked {
        point = point.min(*come);
    }
    point
}
