//! Which layouts of the regions are valid.

use bpf_machine::{Caps, Region};
use flat_machine::{Layout, is_layout};

/// in_cap and out_cap; the starts of input, output and stack; and true if that is a valid layout.
const LAYOUTS: [((u16, u16), (u64, u64, u64), bool); 7] = [
    ((3, 8), (0, 3, 11), true),
    ((3, 8), (0, 2, 11), false),
    ((3, 8), (0, 3, 10), false),
    ((3, 8), (600, 3, 100), false),
    ((3, 8), (0, 3, u64::MAX - 512), true),
    ((3, 8), (0, 3, u64::MAX - 511), false),
    // regions of no bytes lie anywhere
    ((0, 0), (50, 50, 0), true),
];

#[test]
fn layouts(rt: HostRuntime) {
    for ((in_cap, out_cap), (input, output, stack), is) in LAYOUTS {
        let caps = Caps {
            in_cap,
            out_cap,
            writes: false,
        };
        let layout = Layout {
            input,
            output,
            stack,
        };
        assert!(rt; is_layout(&caps, &layout) == is && layout.base(Region::Output) == output);
    }
}
