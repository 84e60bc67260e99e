ghost use Rattle.std.specs.Prelude.{◌≡◌};
ghost use Rattle.bpf_decode.specs.Values.{may_store};

/// One of the three pieces of memory that a method sees.
#[derive(Clone, Copy, PartialEq, Eq)]
pub enum Region {
    /// The input, followed by zeros up to its capacity. It is read only.
    Input,
    /// The output that the method may hand out: zeros at first.
    Output,
    /// `STACK_SIZE` bytes, zeros at first. Register 10 points to their end.
    Stack,
}

impl Region {
    /// True if a method may store into it.
    pub fn is_writable(self) -> bool
        ensures { result ≡ may_store self }
    {
        match self {
            Region::Input => false,
            Region::Output | Region::Stack => true,
        }
    }
}
