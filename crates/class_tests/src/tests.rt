//! The lines of a file, one after the other.
ghost use Rattle.std.specs.Prelude.{◌≡◌, IfOk, map};
ghost use Rattle.bpf_machine.specs.Safe.{call_outcome};
ghost use Rattle.class_tests.specs.Calls.{loop_outcome};
ghost use Rattle.class_tests.specs.Cases.{opening};
ghost use Rattle.class_tests.specs.Tests.{end_after, end_of};
ghost use Rattle.class_tests.specs.inner.Made.{calls_of, methods_of};

use crate::case::Case;
use crate::lines::take_line;
use crate::step::Step;
use crate::test_said::TestSaid;
use crate::tested::Tested;
use file_words::ended_lines;
use loop_classes::LoopClass;
use std::alloc::{AllocError, Global};
use verifier::VerifiedClass;

/// The end of a file of tests.
#[derive(Drop)]
pub enum TestEnd {
    /// Each line holds; so many said something.
    AllHold(usize),
    /// The first line that says what isn't so: its number from 1, what it says, what there is, and
    /// the case before the line.
    DiffersAt(usize, TestSaid, TestSaid, Case),
    /// The first malformed line, by its number.
    BadAt(usize),
}

/// Takes lines, one after the other.
fn take_lines(alloc: Global, class: &Tested<'_>, lines: &[&str]) -> Result<TestEnd, AllocError>
    ensures { IfOk result (λ end. end ≡
        end_after (calls_of class.now) (methods_of class.now) 0 0 opening (map (λ l. l.now) lines.now)) }
{
    let mut case = Case::opening();
    let mut count = 0;
    let mut number = 0;
    for line in lines {
        number += 1;
        match take_line(alloc, class, &case, *line)? {
            Step::Next(next) => case = next,
            Step::Holds(next) => {
                case = next;
                count += 1;
            }
            Step::Differs(said, there) => {
                return Ok(TestEnd::DiffersAt(number, said, there, case));
            }
            Step::Bad => return Ok(TestEnd::BadAt(number)),
        }
    }
    Ok(TestEnd::AllHold(count))
}

/// Runs the tests of a file's text on a class of either kind.
fn run_on(alloc: Global, class: &Tested<'_>, text: &str) -> Result<TestEnd, AllocError>
    ensures { IfOk result (λ end. end ≡ end_of (calls_of class.now) (methods_of class.now) text.now) }
{
    let lines = ended_lines(alloc, text)?;
    take_lines(alloc, class, &lines)
}

/// Runs the tests of a file's text on a safe class: the first line that is malformed or says what
/// isn't so ends them. It fails for want of memory alone.
pub fn run_tests(alloc: Global, class: &VerifiedClass, text: &str) -> Result<TestEnd, AllocError>
    ensures { IfOk result (λ end. end ≡ end_of call_outcome class.now text.now) }
{
    run_on(alloc, &Tested::Plain(class), text)
}

/// The same on a class whose methods may loop: a method that declares loops runs by its budget, and
/// a call that uses that up answers code -62 without output, and leaves the object as it was.
pub fn run_loop_tests(alloc: Global, class: &LoopClass, text: &str) -> Result<TestEnd, AllocError>
    ensures { IfOk result (λ end. end ≡ end_of loop_outcome class.now text.now) }
{
    run_on(alloc, &Tested::Looped(class), text)
}
