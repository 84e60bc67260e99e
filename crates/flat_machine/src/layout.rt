ghost use Rattle.std.specs.Prelude.{◌≡◌, ◌+◌, ◌<◌, ◌^◌, ◌↔◌, ℕ, IsTrue};
ghost use Rattle.bpf_machine.specs.Flat.{base, IsIn, IsLayout};
ghost use Rattle.bpf_machine.specs.State.{size};
ghost use Rattle.flat_machine.specs.View.{layout_of};

use bpf_decode::Region;
use bpf_machine::Caps;

/// The addresses of the regions: of the first byte of each.
#[derive(Clone, Copy, PartialEq, Eq)]
pub struct Layout {
    pub input: u64,
    pub output: u64,
    pub stack: u64,
}

impl Layout {
    /// The address of a region's first byte.
    pub fn base(&self, region: Region) -> u64
        ensures { result ≡ base (layout_of self.now) region }
    {
        match region {
            Region::Input => self.input,
            Region::Output => self.output,
            Region::Stack => self.stack,
        }
    }
}

/// True if a region's end is below 2^64.
fn fits(caps: &Caps, layout: &Layout, region: Region) -> bool
    ensures { IsTrue result ↔ (base (layout_of layout.now) region + size caps.now region < 2 ^ 64) }
{
    caps.size(region) as u64 <= u64::MAX - layout.base(region)
}

/// True if no byte is in both regions.
fn are_apart(caps: &Caps, layout: &Layout, a: Region, b: Region) -> bool
    requires left { base (layout_of layout.now) a + size caps.now a < 2 ^ 64 }
    requires right { base (layout_of layout.now) b + size caps.now b < 2 ^ 64 }
    ensures { IsTrue result ↔ ((at : ℕ) → IsIn caps.now (layout_of layout.now) a at →
        IsIn caps.now (layout_of layout.now) b at → ⊥) }
{
    let (a_size, b_size) = (caps.size(a) as u64, caps.size(b) as u64);
    let (a_start, b_start) = (layout.base(a), layout.base(b));
    // A region without bytes shares none, wherever its address is.
    if a_size == 0 || b_size == 0 {
        return true;
    }
    a_start + a_size <= b_start || b_start + b_size <= a_start
}

/// True if the regions may lie so: the end of each is below 2^64, and no byte is in two of them.
pub fn is_layout(caps: &Caps, layout: &Layout) -> bool
    ensures { IsTrue result ↔ IsLayout caps.now (layout_of layout.now) }
{
    if !fits(caps, layout, Region::Input) {
        return false;
    }
    if !fits(caps, layout, Region::Output) {
        return false;
    }
    if !fits(caps, layout, Region::Stack) {
        return false;
    }
    if !are_apart(caps, layout, Region::Input, Region::Output) {
        return false;
    }
    if !are_apart(caps, layout, Region::Input, Region::Stack) {
        return false;
    }
    are_apart(caps, layout, Region::Output, Region::Stack)
}
