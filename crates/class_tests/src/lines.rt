//! A line, by its words.
ghost use Rattle.std.specs.Prelude.{◌≡◌, ◌==◌, IfOk, map, slice_index};
ghost use Rattle.class_tests.specs.Tests.{line_by, step_by, step_of};
ghost use Rattle.class_tests.specs.inner.Made.{calls_of, methods_of};

use crate::calls::call_line;
use crate::case::Case;
use crate::checks::is_line;
use crate::setting::{as_line, object_line, set_line};
use crate::step::{Step, TestPart};
use crate::tested::Tested;
use file_words::words;
use std::alloc::{AllocError, Global};

/// True if a line is a comment.
fn is_comment(word: &str) -> bool
    ensures { result ≡ (slice_index word.now 0 == 35) }
{
    match word.as_bytes() {
        [b'#', ..] => true,
        _ => false,
    }
}

/// The line of a word that says its kind, and the words after it.
#[rattlefmt::skip]
fn line_by(
    alloc: Global,
    class: &Tested<'_>,
    case: &Case,
    word: &str,
    args: &[&str],
) -> Result<Step, AllocError>
    ensures { IfOk result (λ step. step ≡
        line_by (calls_of class.now) (methods_of class.now) case.now word.now (map (λ w. w.now) args.now)) }
{
    if is_comment(word) {
        return Ok(Step::Next(case.copy()?));
    }
    match word {
        "object" => object_line(alloc, args),
        "xattr"  => set_line(alloc, TestPart::Xattrs, case, args),
        "key"    => set_line(alloc, TestPart::Keys, case, args),
        "as"     => as_line(case, args),
        "call"   => call_line(alloc, class, case, args),
        "is"     => is_line(alloc, case, args),
        _        => Ok(Step::Bad),
    }
}

/// The line of these words.
fn step_by(
    alloc: Global,
    class: &Tested<'_>,
    case: &Case,
    words: &[&str],
) -> Result<Step, AllocError>
    ensures { IfOk result (λ step. step ≡
        step_by (calls_of class.now) (methods_of class.now) case.now (map (λ w. w.now) words.now)) }
{
    match words {
        [] => Ok(Step::Next(case.copy()?)),
        [word, args @ ..] => line_by(alloc, class, case, *word, args),
    }
}

/// What a line comes to in a case.
pub(crate) fn take_line(
    alloc: Global,
    class: &Tested<'_>,
    case: &Case,
    line: &str,
) -> Result<Step, AllocError>
    ensures { IfOk result (λ step. step ≡
        step_of (calls_of class.now) (methods_of class.now) case.now line.now) }
{
    let words = words(alloc, line)?;
    step_by(alloc, class, case, &words)
}
