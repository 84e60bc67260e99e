//! The scan of a method's code.

ghost use Rattle.std.specs.Prelude.{◌≡◌};
ghost use Rattle.footprint.specs.Needed.{touches, calls_such, calls, needed};

use crate::parts::Parts;
use bpf_decode::Insn;
use helpers::Helper;

/// How a helper touches an object: a part that it may read or change, or that it may remove or
/// create the object.
#[derive(Clone, Copy)]
enum Touch {
    Bytes,
    Xattrs,
    Keys,
    Removal,
    Creation,
}

/// True if a helper touches an object so.
fn touches(helper: Helper, touch: Touch) -> bool
    ensures { result ≡ touches touch helper }
{
    match touch {
        Touch::Bytes => matches!(
            helper,
            Helper::Stat | Helper::Read | Helper::Write | Helper::Truncate
        ),
        Touch::Xattrs => matches!(
            helper,
            Helper::GetXattr | Helper::SetXattr | Helper::RmXattr | Helper::XattrNext
        ),
        Touch::Keys => matches!(
            helper,
            Helper::MapGet | Helper::MapSet | Helper::MapRm | Helper::MapNext
        ),
        Touch::Removal => matches!(helper, Helper::Remove),
        Touch::Creation => matches!(
            helper,
            Helper::Write | Helper::SetXattr | Helper::MapSet | Helper::Create
        ),
    }
}

/// True if an instruction calls a helper that touches an object so.
fn calls_such(insn: &Insn, touch: Touch) -> bool
    ensures { result ≡ calls_such touch insn.now }
{
    match insn {
        Insn::Call { helper } => match Helper::of(*helper) {
            Some(helper) => touches(helper, touch),
            None => false,
        },
        // No other instruction calls a helper.
        _ => false,
    }
}

/// True if code calls a helper that touches an object so.
fn calls(code: &[Insn], touch: Touch) -> bool
    ensures { result ≡ calls touch code.now }
{
    for insn in code {
        if calls_such(insn, touch) {
            return true;
        }
    }
    false
}

/// The parts that a method of this code can see or change: those of the helpers that it calls. If
/// it calls one that removes an object and one that creates one, it can empty each part, so these
/// are all.
pub fn needed(code: &[Insn]) -> Parts
    ensures { result ≡ needed code.now }
{
    // The order of the two in the code doesn't count: a jump may lead from either to the other.
    let renews = calls(code, Touch::Removal) && calls(code, Touch::Creation);
    Parts {
        bytes: renews || calls(code, Touch::Bytes),
        xattrs: renews || calls(code, Touch::Xattrs),
        keys: renews || calls(code, Touch::Keys),
    }
}
