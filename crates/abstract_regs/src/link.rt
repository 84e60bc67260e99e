ghost use Rattle.std.specs.Prelude.{◌≡◌, ◌+◌, ◌-◌, ◌%◌, ◌^◌};
ghost use Rattle.abstract_num.specs.UnsignedRows.{digits};
ghost use Rattle.abstract_regs.specs.Link as plain;
ghost use Rattle.abstract_regs.specs.Link.{no_link, is_linked, is_whole, has_low, low_form, up_form, sign_form};
ghost use Rattle.abstract_regs.specs.Link.{down_form, form_number, moved_link, same_link, join_link, is_ones};

use std::mem::size_of;

/// What a place has of the number that its link names: nothing that is known, the number whole, any
/// number with its low half, that half in the upper one, or the low half's sign bit alone.
#[derive(Clone, Copy)]
pub enum LinkForm {
    Unlinked,
    Whole,
    Low,
    Up,
    Sign,
}

/// How the number of a register or of a slot comes from another that has a name: from that number
/// plus a distance, modulo `2^64`, in a form.
#[derive(Clone, Copy)]
pub struct Link {
    /// What is added to the number, modulo `2^64`.
    pub distance: u64,
    /// The slot of the instruction that gave the name.
    pub name: u32,
    pub form: LinkForm,
}

/// A link takes two words.
const _: () = prove!(size_of::<Link>() <= 16);

impl LinkForm {
    /// True if it is a link's.
    #[inline(always)]
    pub(crate) fn is_linked(self) -> bool
        ensures { result ≡ is_linked self }
    {
        match self {
            LinkForm::Unlinked => false,
            LinkForm::Whole | LinkForm::Low | LinkForm::Up | LinkForm::Sign => true,
        }
    }

    /// True if it is the number whole.
    #[inline(always)]
    pub(crate) fn is_whole(self) -> bool
        ensures { result ≡ is_whole self }
    {
        match self {
            LinkForm::Whole => true,
            LinkForm::Unlinked | LinkForm::Low | LinkForm::Up | LinkForm::Sign => false,
        }
    }

    /// True if the place's low half is the number's.
    #[inline(always)]
    pub(crate) fn has_low(self) -> bool
        ensures { result ≡ has_low self }
    {
        match self {
            LinkForm::Whole | LinkForm::Low => true,
            LinkForm::Unlinked | LinkForm::Up | LinkForm::Sign => false,
        }
    }

    /// The form of a copy of the low half.
    pub(crate) fn low(self) -> LinkForm
        ensures { result ≡ low_form self }
    {
        if self.has_low() {
            LinkForm::Low
        } else {
            LinkForm::Unlinked
        }
    }

    /// The form after the low half was moved up.
    pub(crate) fn up(self) -> LinkForm
        ensures { result ≡ up_form self }
    {
        if self.has_low() {
            LinkForm::Up
        } else {
            LinkForm::Unlinked
        }
    }

    /// The form of the low half's sign bit.
    pub(crate) fn sign(self) -> LinkForm
        ensures { result ≡ sign_form self }
    {
        if self.has_low() {
            LinkForm::Sign
        } else {
            LinkForm::Unlinked
        }
    }

    /// The form after a half that was moved up was moved down again.
    pub(crate) fn down(self) -> LinkForm
        ensures { result ≡ down_form self }
    {
        match self {
            LinkForm::Up => LinkForm::Low,
            LinkForm::Unlinked | LinkForm::Whole | LinkForm::Low | LinkForm::Sign =>
                LinkForm::Unlinked,
        }
    }

    /// A number for each form.
    #[inline(always)]
    fn number(self) -> u8
        ensures { result ≡ form_number self }
    {
        match self {
            LinkForm::Unlinked => 0,
            LinkForm::Whole => 1,
            LinkForm::Low => 2,
            LinkForm::Up => 3,
            LinkForm::Sign => 4,
        }
    }
}

impl Link {
    /// No link.
    #[inline(always)]
    pub(crate) fn none() -> Link
        ensures { result ≡ no_link }
    {
        Link {
            distance: 0,
            name: 0,
            form: LinkForm::Unlinked,
        }
    }

    /// The same number and distance in another form.
    #[inline(always)]
    pub(crate) fn shaped(self, form: LinkForm) -> Link
        ensures { result ≡ plain.shaped self form }
    {
        if form.is_linked() {
            Link { form, ..self }
        } else {
            Link::none()
        }
    }

    /// After a number was added to the place's.
    #[inline(always)]
    pub(crate) fn moved(self, by: u64) -> Link
        ensures { result ≡ moved_link self by }
    {
        if self.form.is_whole() {
            Link {
                distance: self.distance.wrapping_add(by),
                name: self.name,
                form: LinkForm::Whole,
            }
        } else {
            Link::none()
        }
    }

    /// After a number was taken off the place's.
    #[inline(always)]
    pub(crate) fn moved_back(self, by: u64) -> Link
        ensures { result ≡ moved_link self (2 ^ 64 - by) }
    {
        if self.form.is_whole() {
            Link {
                distance: self.distance.wrapping_sub(by),
                name: self.name,
                form: LinkForm::Whole,
            }
        } else {
            Link::none()
        }
    }

    #[inline(always)]
    fn is_same(self, other: Link) -> bool
        ensures { result ≡ same_link self other }
    {
        self.distance == other.distance
            && self.name == other.name
            && self.form.number() == other.form.number()
    }

    /// The link that a merge point keeps: the one that both flows have, or none.
    #[inline(always)]
    pub(crate) fn join(self, other: Link) -> Link
        ensures { result ≡ join_link self other }
    {
        if self.is_same(other) {
            self
        } else {
            Link::none()
        }
    }
}

/// True of 0, and of numbers whose bits up to the highest set one are all set.
#[inline(always)]
pub(crate) fn is_ones(c: u64) -> bool
    ensures { result ≡ is_ones c }
{
    c == filled(c)
}

/// The greatest number whose highest set bit is that of `n`; 0 of 0.
#[inline(always)]
fn filled(n: u64) -> u64
    ensures { result ≡ 2 ^ digits n - 1 }
{
    if n == 0 {
        0
    } else {
        u64::MAX >> n.leading_zeros()
    }
}
