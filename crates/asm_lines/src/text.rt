//! A line cut into words and operands, before these have a meaning.

ghost use Rattle.std.specs.Prelude.{◌≡◌, ◌+◌, ◌==◌, ◌||◌, ◌≤◌, length};
ghost use Rattle.std.specs.List.{position_or_len};
ghost use Rattle.std.specs.Option.{option_map};
ghost use Rattle.asm_lines.specs.Texts.{is_blank, trim_start, trim_end, trim, content, first_word, after_word, cut};
ghost use Rattle.asm_lines.specs.Texts.{lone, pair, triple, is_label_name};

use bpf_decode::are_name_bytes;

/// A space or a tab.
fn is_blank(byte: u8) -> bool
    ensures { result ≡ is_blank byte }
{
    byte == b' ' || byte == b'\t'
}

/// The text without the blanks at its start.
#[tactic(auto, unfolding(crate::specs::Texts::trim_start))]
pub fn trim_start(text: &[u8]) -> &[u8]
    ensures { result.now ≡ trim_start text.now }
{
    let mut rest = text;
    while let [first, more @ ..] = rest {
        if !is_blank(*first) {
            break;
        }
        rest = more;
    }
    rest
}

#[rattlefmt::skip]
#[tactic(auto, unfolding(crate::specs::Texts::trim_end),
    using(crate::proofs::TextLemmas::trim_end_shorter, crate::proofs::TextLemmas::trim_end_same))]
fn trim_end(text: &[u8]) -> &[u8]
    ensures { result.now ≡ trim_end text.now }
{
    let mut rest = text;
    while let [more @ .., last] = rest {
        if !is_blank(*last) {
            break;
        }
        rest = more;
    }
    rest
}

/// The text without the blanks at its ends.
#[tactic(auto, unfolding(crate::specs::Texts::trim))]
pub(crate) fn trim(text: &[u8]) -> &[u8]
    ensures { result.now ≡ trim text.now }
{
    trim_end(trim_start(text))
}

/// The index of the first such byte, or the length.
fn place_of(text: &[u8], byte: u8) -> usize
    ensures place { result ≡ position_or_len (λ c. c == byte) text.now }
    ensures bound { result ≤ length text.now }
{
    text.iter().position(|b| *b == byte).unwrap_or(text.len())
}

/// The index of the first byte that is one of the two, or the length.
pub(crate) fn place_of_either(text: &[u8], one: u8, other: u8) -> usize
    ensures place { result ≡ position_or_len (λ c. c == one || c == other) text.now }
    ensures bound { result ≤ length text.now }
{
    text.iter()
        .position(|b| *b == one || *b == other)
        .unwrap_or(text.len())
}

/// The index of the first blank, or the length.
fn place_of_blank(text: &[u8]) -> usize
    ensures place { result ≡ position_or_len is_blank text.now }
    ensures bound { result ≤ length text.now }
{
    place_of_either(text, b' ', b'\t')
}

/// The content of a line: without its comment and the blanks at its ends.
#[tactic(auto, unfolding(crate::specs::Texts::content))]
pub fn content(line: &[u8]) -> &[u8]
    ensures { result.now ≡ content line.now }
{
    trim(&line[..place_of(line, b';')])
}

/// The first word.
#[tactic(auto, unfolding(crate::specs::Texts::first_word))]
pub fn first_word(text: &[u8]) -> &[u8]
    ensures { result.now ≡ first_word text.now }
{
    &text[..place_of_blank(text)]
}

/// The text after the first word and the blanks that follow it.
#[tactic(auto, unfolding(crate::specs::Texts::after_word))]
pub fn after_word(text: &[u8]) -> &[u8]
    ensures { result.now ≡ after_word text.now }
{
    trim_start(&text[place_of_blank(text)..])
}

/// The text before and after the first comma.
#[tactic(auto, unfolding(crate::specs::Texts::cut))]
fn cut(text: &[u8]) -> Option<(&[u8], &[u8])>
    ensures { option_map (λ p. (p.0.now, p.1.now)) result ≡ cut text.now }
{
    let at = place_of(text, b',');
    if at < text.len() {
        Some((&text[..at], &text[at + 1..]))
    } else {
        None
    }
}

/// One operand.
#[tactic(auto, unfolding(crate::specs::Texts::lone))]
pub(crate) fn lone(text: &[u8]) -> Option<&[u8]>
    ensures { option_map (λ a. a.now) result ≡ lone text.now }
{
    match cut(text) {
        Some(_) => None,
        None => Some(trim(text)),
    }
}

/// Two operands.
#[tactic(auto, unfolding(crate::specs::Texts::pair))]
pub(crate) fn pair(text: &[u8]) -> Option<(&[u8], &[u8])>
    ensures { option_map (λ p. (p.0.now, p.1.now)) result ≡ pair text.now }
{
    match cut(text) {
        Some((first, rest)) => match lone(rest) {
            Some(second) => Some((trim(first), second)),
            None => None,
        },
        None => None,
    }
}

/// Three operands.
#[tactic(auto, unfolding(crate::specs::Texts::triple))]
pub(crate) fn triple(text: &[u8]) -> Option<(&[u8], &[u8], &[u8])>
    ensures { option_map (λ p. (p.0.now, p.1.now, p.2.now)) result ≡ triple text.now }
{
    match cut(text) {
        Some((first, rest)) => match pair(rest) {
            Some((second, third)) => Some((trim(first), second, third)),
            None => None,
        },
        None => None,
    }
}

/// True if it may name a label: a letter of a-z, then any of a-z, 0-9 and `_`.
// No digit and no sign comes first, so a target is a label or a number by its first byte.
#[tactic(auto, unfolding(crate::specs::Texts::is_label_name))]
pub(crate) fn is_label_name(text: &[u8]) -> bool
    ensures { result ≡ is_label_name text.now }
{
    if text.is_empty() {
        false
    } else {
        97 <= text[0] && text[0] <= 122 && are_name_bytes(text)
    }
}
