ghost use Rattle.std.specs.Prelude.{◌≡◌};
ghost use Rattle.class_tests.specs.Cases.{is_same, are_held};

use crate::test_bytes::TestBytes;

/// What a line says that there is, and what there is.
#[derive(Drop)]
pub enum TestSaid {
    /// An answer: its code, of 64 bits, to be read as a signed number, and its output.
    Answer(u64, TestBytes),
    /// Data or a value; `None` if there is none.
    Held(Option<TestBytes>),
    /// The class has no method of that name.
    NoMethod,
    /// The input is longer than the method's in_cap.
    InputTooLong,
}

/// True if both are none, or the same bytes.
fn are_held(a: &Option<TestBytes>, b: &Option<TestBytes>) -> bool
    ensures { result ≡ are_held a.now b.now }
{
    match (a, b) {
        (None, None) => true,
        (Some(a), Some(b)) => a.are(b),
        (None, Some(_)) | (Some(_), None) => false,
    }
}

impl TestSaid {
    /// True if a call's answer, data or a value is what was said. A refused call is never said.
    pub(crate) fn is(&self, there: &TestSaid) -> bool
        ensures { result ≡ is_same self.now there.now }
    {
        match (self, there) {
            (TestSaid::Answer(code, output), TestSaid::Answer(found, bytes)) => {
                *code == *found && output.are(bytes)
            }
            (TestSaid::Held(value), TestSaid::Held(found)) => are_held(value, found),
            _ => false,
        }
    }
}
