//! What is wrong with a line because of others, in sentences.

use crate::lines::Place;
use crate::quoted::push_name;
use bpf_decode::RuleSet;
use std::alloc::AllocError;

/// What is wrong with a line, if no name or number tells it.
#[rattlefmt::skip]
fn sentence(place: Place<'_>) -> &'static str {
    match place {
        Place::BareText => "  no line has an instruction: a method ends with `exit`\n",
        Place::Loops =>
            "  `.budget 4096` stands right below `.method` where heads are, `.head r4 0 16` above an instruction\n",
        Place::BeforeMethod => "  it stands before the first `.method`: write `.method name rw 8 8` above it\n",
        Place::RulesBelow => "  `.rules` stands once, above all lines but comments and empty ones\n",
        Place::BareMethod => "  no instruction stands below it: a method ends with `exit`\n",
        Place::TooManyMethods => "  it is the 33rd method: a class has at most 32\n",
        Place::Capacity(RuleSet::One) =>
            "  IN and OUT are at most 4096: smaller ones, or `.rules 3` on the first line, with at most 65535\n",
        Place::Capacity(RuleSet::Two | RuleSet::Three) =>
            "  IN and OUT are at most 4096: smaller ones, or `.rules 3` in place of `.rules 2`, with at most 65535\n",
        Place::TooManySlots => "  it passes the 4,096 slots of a method, of which `lddw` takes two\n",
        Place::Itself | Place::NotAbove(_) | Place::LabelTwice(_, _) | Place::NoLabel(_, _, _) => "",
    }
}

/// Adds the label that is nearest, or what makes one.
fn push_label(
    out: &mut String,
    name: &[u8],
    nearest: Option<&[u8]>,
    line: Option<usize>,
) -> Result<(), AllocError> {
    push_name(out, "  the method has no label `", name, "`")?;
    match (line, nearest) {
        (Some(index), _) => {
            push_name(out, ": write `", name, ":`")?;
            write!(out, " alone in line {}\n", index.saturating_add(1))
        }
        (None, Some(known)) => push_name(out, "; the nearest one is `", known, "`\n"),
        (None, None) => push_name(out, ": write `", name, ":` above the instruction\n"),
    }
}

/// Adds what is wrong with a line because of others.
pub(crate) fn push_place(out: &mut String, place: Place<'_>) -> Result<(), AllocError> {
    match place {
        Place::NotAbove(name) => push_name(
            out,
            "  methods stand in the order of their names, each once, and this one is not above `",
            name,
            "`\n",
        ),
        Place::LabelTwice(name, index) => {
            push_name(out, "  `", name, ":`")?;
            write!(
                out,
                " stands in line {} too: another name for one of them\n",
                index.saturating_add(1)
            )
        }
        Place::NoLabel(name, nearest, line) => push_label(out, name, nearest, line),
        _ => out.push_str(sentence(place)),
    }
}
