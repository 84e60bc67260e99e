//! What a comparison taught of one number, its links tell the numbers that come from the same one.

ghost use Rattle.std.specs.Prelude.{◌≡◌, ◌≤◌, ◌+◌, ◌<◌, ◌^◌, Some, true, MatchOption};
ghost use Rattle.std.specs.Option.{option_map};
ghost use Rattle.std.specs.Int.{int_shr};
ghost use Rattle.abstract_num.specs.Plain.{view, Gives};
ghost use Rattle.abstract_regs.specs.Edged.{left_kinds, if_live, heard, is_told};
ghost use Rattle.abstract_regs.specs.Links.{apart, at_distance, met_number, tell_whole, half_told, met_half, tell_half};
ghost use Rattle.abstract_regs.specs.Links.{told_number, told_kind, is_named, told_kinds, tell_all, tell, told};
ghost use Rattle.abstract_regs.specs.Link as plain;
ghost use Rattle.abstract_regs.specs.Seen.{seen, seen_each};

use crate::edges::Compared;
use crate::frame::Frame;
use crate::kind::Kind;
use crate::link::{Link, LinkForm};
use crate::linking::FIRST_SLOT;
use crate::links::link_in;
use abstract_num::{
    Half, Number, Precision, Product, any, keeping_laws, offset_by, refine, tighten,
};
use bpf_decode::{Comparison, OpWidth, Operand, Register};

/// The number at a distance from another. None if no number is left.
fn at_distance(precision: Precision, z: Number, distance: u64) -> Option<Number>
    ensures { Gives (at_distance precision (view z) distance) result }
{
    if distance == 0 {
        Some(z)
    } else {
        offset_by(precision, &z, distance)
    }
}

/// What is left of a number that is equal to another.
fn met(precision: Precision, t: Number, z: Number) -> Option<Number>
    ensures { Gives (met_number precision (view t) (view z)) result }
{
    match refine(precision, OpWidth::Bits64, Comparison::Equal, true, t, z) {
        None => None,
        Some((number, _)) => Some(number),
    }
}

/// What is left of a number that is at a distance from another.
fn tell_whole(precision: Precision, z: Number, distance: u64, t: Number) -> Option<Number>
    ensures { Gives (tell_whole precision (view z) distance (view t)) result }
{
    // For the proof: the code's numbers are below `2^64`.
    keeping_laws();
    match at_distance(precision, z, distance) {
        None => None,
        Some(moved) => met(precision, t, moved),
    }
}

/// The upper half of a signed number.
#[inline(always)]
fn upper_half(n: i64) -> i32
    ensures { result ≡ int_shr n 32 }
{
    (n >> 32) as i32
}

/// What a number, in a form, tells of the low half of the number that its link names.
fn half_told(form: LinkForm, z: Number) -> (i32, i32)
    ensures { result ≡ half_told form (view z) }
{
    let all = any().half();
    match form {
        LinkForm::Unlinked => (all.low, all.high),
        LinkForm::Whole | LinkForm::Low => (z.half().low, z.half().high),
        LinkForm::Up => (upper_half(z.signed().low), upper_half(z.signed().high)),
        LinkForm::Sign => {
            if z.unsigned().high == 0 {
                (0, i32::MAX)
            } else if z.unsigned().low >= 1 {
                (i32::MIN, -1)
            } else {
                (all.low, all.high)
            }
        }
    }
}

/// What is left of a number whose low half lies between two ends.
fn met_half(precision: Precision, t: Number, told: (i32, i32)) -> Option<Number>
    ensures { Gives (met_half precision (view t) told) result }
{
    let low = t.half().low.max(told.0);
    let high = t.half().high.min(told.1);
    if high < low {
        return None;
    }
    let number = Product {
        first: t.unsigned(),
        second: Product {
            first: t.signed(),
            second: Product {
                first: t.bits(),
                second: Half { low, high },
            },
        },
    };
    tighten(precision, number)
}

/// What is left of a number whose low half is that of the number that a link names, if another, in
/// that form, is `z`.
fn tell_half(precision: Precision, form: LinkForm, z: Number, t: Number) -> Option<Number>
    ensures { Gives (tell_half precision form (view z) (view t)) result }
{
    met_half(precision, t, half_told(form, z))
}

/// How far the second distance is above the first, modulo `2^64`.
#[inline(always)]
fn apart(first: u64, second: u64) -> u64
    ensures { result ≡ apart first second }
{
    second.wrapping_sub(first)
}

/// What is left of a number linked by `m`, if another with the same name is `z`, linked by `l`.
fn told_number(precision: Precision, z: Number, l: Link, m: Link, t: Number) -> Option<Number>
    ensures { Gives (told_number precision (view z) l m (view t)) result }
{
    let distance = apart(l.distance, m.distance);
    if l.form.is_whole() && m.form.is_whole() {
        tell_whole(precision, z, distance, t)
    } else if distance == 0 && m.form.has_low() {
        tell_half(precision, l.form, z, t)
    } else {
        Some(t)
    }
}

/// What is left of a place's kind.
fn told_kind(precision: Precision, z: Number, l: Link, m: Link, kind: Kind) -> Option<Kind>
    ensures { option_map seen result ≡ told_kind precision (view z) l m (seen kind) }
{
    match kind {
        Kind::Num(t) => match told_number(precision, z, l, m, t) {
            None => None,
            Some(number) => Some(Kind::Num(number)),
        },
        Kind::Unset | Kind::Ptr(_, _) => Some(kind),
    }
}

/// True if a place with that link is of the same name, and isn't the one that tells.
#[inline(always)]
fn is_named(l: Link, from: usize, place: usize, m: Link) -> bool
    ensures { result ≡ is_named l from place m }
{
    m.form.is_linked() && l.name == m.name && place != from
}

/// A number that is known, its link and its place.
#[derive(Clone, Copy)]
struct Teller {
    number: Number,
    link: Link,
    place: usize,
}

/// Lets a number tell the kinds of the places from `first` on, except its own. False if no value is
/// left of one.
fn tell_kinds(
    precision: Precision,
    from: Teller,
    links: &[Link],
    first: usize,
    kinds: &mut [Kind],
) -> bool
    requires { first ≤ 11 }
    ensures { told_kinds precision (view from.number) from.link from.place links.now first (seen_each kinds.old) ≡
        left_kinds result (seen_each kinds.new) }
{
    for i in 0..kinds.len() {
        let place = first + i;
        let link = link_in(links, place);
        if is_named(from.link, from.place, place, link) {
            match told_kind(precision, from.number, from.link, link, kinds[i]) {
                None => return false,
                Some(kind) => kinds[i] = kind,
            }
        }
    }
    true
}

impl Frame {
    /// True if a register of a comparison is linked.
    #[inline(always)]
    pub(crate) fn is_told(&self, dst: Register, source: &Operand) -> bool
        ensures { result ≡ is_told self.now dst source.now }
    {
        let first = self.link(usize::from(dst.number())).form;
        match *source {
            Operand::Immediate(_) => first.is_linked(),
            Operand::Register(src) => {
                first.is_linked() || self.link(usize::from(src.number())).form.is_linked()
            }
        }
    }

    /// What the registers of a comparison know along an edge of `Edges::Forks`, they tell the
    /// places with links of the same names. False if no value is left of one: the edge is dead.
    pub fn tell(&mut self, precision: Precision, compared: &Compared) -> bool
        ensures { heard precision self.old compared.now ≡ if_live result self.new }
    {
        self.tell_both(precision, compared.dst, &compared.source)
    }

    /// The same, by the registers.
    #[tactic(auto, unfolding(crate::specs::Links::told))]
    pub(crate) fn tell_both(
        &mut self,
        precision: Precision,
        dst: Register,
        source: &Operand,
    ) -> bool
        ensures { told precision dst source.now self.old ≡ if_live result self.new }
    {
        if !self.is_told(dst, source) {
            return true;
        }
        match *source {
            Operand::Immediate(_) => self.tell_from(precision, dst),
            Operand::Register(src) => {
                self.tell_from(precision, dst)
                    && (dst.number() == src.number() || self.tell_from(precision, src))
            }
        }
    }

    /// A register that is linked tells its number.
    #[tactic(auto, unfolding(crate::specs::Links::tell))]
    fn tell_from(&mut self, precision: Precision, register: Register) -> bool
        ensures { tell precision register self.old ≡ if_live result self.new }
    {
        let place = usize::from(register.number());
        let link = self.link(place);
        if link.form.is_linked() {
            match self.at(register) {
                Kind::Num(number) => {
                    let from = Teller {
                        number,
                        link,
                        place,
                    };
                    self.tell_all(precision, from)
                }
                Kind::Unset | Kind::Ptr(_, _) => true,
            }
        } else {
            true
        }
    }

    /// A number tells the kinds of all places but its own.
    fn tell_all(&mut self, precision: Precision, from: Teller) -> bool
        ensures { tell_all precision (view from.number) from.link from.place self.old ≡ if_live result self.new }
    {
        tell_kinds(precision, from, &self.links, 0, &mut self.registers)
            && tell_kinds(precision, from, &self.links, FIRST_SLOT, &mut self.slots)
    }
}
