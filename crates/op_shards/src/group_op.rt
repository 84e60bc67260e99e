/// An operation, which is asked of a group. Contracts see the group as its number.
pub trait GroupOp: Drop {
    ghost use Rattle.std.specs.Prelude.{◌≡◌, ℕ};

    ghost group: { Self → ℕ };

    /// The number of the group that it is asked of.
    fn group(&self) -> usize
        ensures { result ≡ group self.now };
}
