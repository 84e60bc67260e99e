ghost use Rattle.std.specs.Prelude.{◌≡◌, IsTrue, Some, None};
ghost use Rattle.std.specs.Option.{option_map};
ghost use Rattle.abstract_regs.specs.Seen.{seen, seen_both, view_both};
ghost use Rattle.abstract_regs.specs.Kind as plain;
ghost use Rattle.abstract_num.specs.Plain.{view};
ghost use Rattle.abstract_regs.specs.Kind.{same_num, both_nums, is_unset, is_num, is_ptr, same_region, join_kind};
ghost use Rattle.abstract_regs.specs.Kind.{alu_kind, neg_kind, mov_kind, signed_move_kind, end_kind, along_kinds};

use crate::edges::Branch;
use abstract_num::{
    Number, Precision, arithmetic, copied, join, negative, ordered, refine, sign_extended, tighten,
};
use bpf_decode::{Arithmetic, ByteOrder, EndWidth, OpWidth, Region, SignedMove};

/// The kind of a register: nothing is known of it, not even that it is set; it is a number; or it
/// points into a region, at that offset from its first byte.
#[derive(Clone, Copy, PartialEq, Eq)]
pub enum Kind {
    Unset,
    Num(Number),
    Ptr(Region, Number),
}

/// The kinds of a comparison's operands: its destination, and its source.
#[derive(Clone, Copy)]
pub struct Kinds {
    pub(crate) dst: Kind,
    pub(crate) source: Kind,
}

impl Kinds {
    /// Both unset: a place for `Frame::flow` to write into.
    pub fn unset() -> Kinds
        ensures { result ≡ record { dst = Kind.Unset; source = Kind.Unset } }
    {
        Kinds {
            dst: Kind::Unset,
            source: Kind::Unset,
        }
    }
}

impl Kind {
    /// True if nothing is known of it.
    #[inline(always)]
    pub fn is_unset(self) -> bool
        ensures { result ≡ is_unset (seen self) }
    {
        match self {
            Kind::Unset => true,
            Kind::Num(_) | Kind::Ptr(_, _) => false,
        }
    }

    /// True if it is a number.
    #[inline(always)]
    pub fn is_num(self) -> bool
        ensures { result ≡ is_num (seen self) }
    {
        match self {
            Kind::Num(_) => true,
            Kind::Unset | Kind::Ptr(_, _) => false,
        }
    }

    /// True if it is a pointer.
    #[inline(always)]
    pub fn is_ptr(self) -> bool
        ensures { result ≡ is_ptr (seen self) }
    {
        match self {
            Kind::Ptr(_, _) => true,
            Kind::Unset | Kind::Num(_) => false,
        }
    }

    /// True if both are known to be the same.
    #[inline(always)]
    pub(crate) fn is_same(&self, other: &Kind) -> bool
        ensures { IsTrue result → seen self.now ≡ seen other.now }
    {
        match (self, other) {
            (Kind::Unset, Kind::Unset) => true,
            (Kind::Num(a), Kind::Num(b)) => is_same_number(a, b),
            (Kind::Ptr(r, a), Kind::Ptr(q, b)) => is_same_region(*r, *q) && is_same_number(a, b),
            (Kind::Unset, Kind::Num(_) | Kind::Ptr(_, _)) => false,
            (Kind::Num(_), Kind::Unset | Kind::Ptr(_, _)) => false,
            (Kind::Ptr(_, _), Kind::Unset | Kind::Num(_)) => false,
        }
    }

    /// The join of a register's kinds at a merge point: a number with a pointer, pointers into two
    /// regions, or `Unset` with any kind give `Unset`.
    pub fn join(self, other: Kind) -> Kind
        ensures { seen result ≡ join_kind (seen self) (seen other) }
    {
        match (self, other) {
            (Kind::Num(a), Kind::Num(b)) => Kind::Num(join(a, b)),
            (Kind::Ptr(r, a), Kind::Ptr(q, b)) => {
                if is_same_region(r, q) {
                    Kind::Ptr(r, join(a, b))
                } else {
                    Kind::Unset
                }
            }
            (Kind::Unset, _) => Kind::Unset,
            (Kind::Num(_), Kind::Unset | Kind::Ptr(_, _)) => Kind::Unset,
            (Kind::Ptr(_, _), Kind::Unset | Kind::Num(_)) => Kind::Unset,
        }
    }

    /// The kind that arithmetic gives which no rule refuses. None if no number is left.
    #[rattlefmt::skip]
    #[inline(always)]
    pub(crate) fn alu(precision: Precision, bits: OpWidth, operation: Arithmetic, x: &Kind, y: &Kind) -> Option<Kind>
        ensures { option_map seen result ≡ alu_kind precision bits operation (seen x.now) (seen y.now) }
    {
        match (x, y) {
            (Kind::Num(a), Kind::Num(b)) => Kind::number(arithmetic(precision, bits, operation, *a, *b)),
            (Kind::Ptr(r, a), Kind::Num(b)) => Kind::pointer(*r, arithmetic(precision, bits, operation, *a, *b)),
            (Kind::Num(a), Kind::Ptr(r, b)) => Kind::pointer(*r, arithmetic(precision, bits, operation, *a, *b)),
            (Kind::Ptr(_, _), Kind::Ptr(_, _)) => Some(Kind::Unset),
            (Kind::Unset, _) => Some(Kind::Unset),
            (Kind::Num(_) | Kind::Ptr(_, _), Kind::Unset) => Some(Kind::Unset),
        }
    }

    /// The negative of a number.
    #[inline(always)]
    pub(crate) fn neg(self, precision: Precision, bits: OpWidth) -> Option<Kind>
        ensures { option_map seen result ≡ neg_kind precision bits (seen self) }
    {
        match self {
            Kind::Num(a) => Kind::number(negative(precision, bits, a)),
            Kind::Unset | Kind::Ptr(_, _) => Some(Kind::Unset),
        }
    }

    /// A copy: of a pointer in 64 bits alone.
    #[inline(always)]
    pub(crate) fn mov(self, precision: Precision, bits: OpWidth) -> Option<Kind>
        ensures { option_map seen result ≡ mov_kind precision bits (seen self) }
    {
        match self {
            Kind::Unset => Some(Kind::Unset),
            Kind::Num(a) => Kind::number(copied(precision, bits, a)),
            Kind::Ptr(r, a) => match bits {
                OpWidth::Bits64 => Some(Kind::Ptr(r, a)),
                OpWidth::Bits32 => Some(Kind::Unset),
            },
        }
    }

    /// A copy of a number with sign extension.
    #[inline(always)]
    pub(crate) fn mov_signed(self, precision: Precision, extension: SignedMove) -> Option<Kind>
        ensures { option_map seen result ≡ signed_move_kind precision extension (seen self) }
    {
        match self {
            Kind::Num(a) => Kind::number(sign_extended(precision, extension, a)),
            Kind::Unset | Kind::Ptr(_, _) => Some(Kind::Unset),
        }
    }

    /// A number's low bits in a byte order.
    pub(crate) fn end(self, precision: Precision, order: ByteOrder, width: EndWidth) -> Option<Kind>
        ensures { option_map seen result ≡ end_kind precision order width (seen self) }
    {
        match self {
            Kind::Num(a) => Kind::number(ordered(precision, order, width, a)),
            Kind::Unset | Kind::Ptr(_, _) => Some(Kind::Unset),
        }
    }

    /// Refines both kinds of a comparison along an edge; `same` says that both are of one register.
    #[inline(always)]
    pub(crate) fn along(
        branch: Branch,
        taken: bool,
        same: bool,
        x: &Kind,
        y: &Kind,
    ) -> Option<Kinds>
        ensures { option_map seen_both result ≡ along_kinds branch.precision branch.bits branch.comparison taken same
            (seen x.now) (seen y.now) }
    {
        let Branch {
            precision,
            bits,
            comparison,
            ..
        } = branch;
        match (x, y) {
            (Kind::Num(a), Kind::Num(b)) => {
                if same {
                    // A register compared with itself is told nothing: both edges stay live.
                    Kind::twice(tighten(precision, *a))
                } else {
                    Kind::both(refine(precision, bits, comparison, taken, *a, *b))
                }
            }
            (Kind::Unset, _) => Some(Kinds {
                dst: *x,
                source: *y,
            }),
            (Kind::Num(_), Kind::Unset | Kind::Ptr(_, _)) => Some(Kinds {
                dst: *x,
                source: *y,
            }),
            (Kind::Ptr(_, _), _) => Some(Kinds {
                dst: *x,
                source: *y,
            }),
        }
    }

    /// The kind of a number, if one is left.
    #[inline(always)]
    fn number(n: Option<Number>) -> Option<Kind>
        ensures { option_map seen result ≡ option_map plain.Num (option_map view n) }
    {
        match n {
            None => None,
            Some(n) => Some(Kind::Num(n)),
        }
    }

    /// The kind of a pointer, if an offset is left.
    #[inline(always)]
    fn pointer(region: Region, at: Option<Number>) -> Option<Kind>
        ensures { option_map seen result ≡ option_map (plain.Ptr region) (option_map view at) }
    {
        match at {
            None => None,
            Some(at) => Some(Kind::Ptr(region, at)),
        }
    }

    /// A number's kind twice.
    #[inline(always)]
    fn twice(n: Option<Number>) -> Option<Kinds>
        ensures { option_map seen_both result ≡ option_map same_num (option_map view n) }
    {
        match n {
            None => None,
            Some(n) => Some(Kinds {
                dst: Kind::Num(n),
                source: Kind::Num(n),
            }),
        }
    }

    /// The kinds of two numbers.
    #[inline(always)]
    fn both(numbers: Option<(Number, Number)>) -> Option<Kinds>
        ensures { option_map seen_both result ≡ option_map both_nums (option_map view_both numbers) }
    {
        match numbers {
            None => None,
            Some((a, b)) => Some(Kinds {
                dst: Kind::Num(a),
                source: Kind::Num(b),
            }),
        }
    }
}

/// True if both numbers have the same four parts.
#[inline(always)]
fn is_same_number(x: &Number, y: &Number) -> bool
    ensures { IsTrue result → view x.now ≡ view y.now }
{
    let (unsigned, signed, bits, half) = (x.unsigned(), x.signed(), x.bits(), x.half());
    let others = (y.unsigned(), y.signed(), y.bits(), y.half());
    unsigned.low == others.0.low
        && unsigned.high == others.0.high
        && signed.low == others.1.low
        && signed.high == others.1.high
        && bits.value == others.2.value
        && bits.unknown == others.2.unknown
        && half.low == others.3.low
        && half.high == others.3.high
}

#[inline(always)]
fn is_same_region(r: Region, q: Region) -> bool
    ensures { result ≡ same_region r q }
{
    match (r, q) {
        (Region::Input, Region::Input) => true,
        (Region::Output, Region::Output) => true,
        (Region::Stack, Region::Stack) => true,
        (Region::Input, Region::Output | Region::Stack) => false,
        (Region::Output, Region::Input | Region::Stack) => false,
        (Region::Stack, Region::Input | Region::Output) => false,
    }
}
