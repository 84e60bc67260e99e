mod domain;
mod edges;
pub(crate) mod rows;

ghost use Rattle.std.specs.Prelude.{◌≤ℤ◌};

/// The numbers whose low 32 bits are from `low` to `high` as a signed number.
#[derive(Clone, Copy, PartialEq, Eq)]
pub struct Half {
    pub low: i32,
    pub high: i32,
    ghost ordered: { low ≤ℤ high },
}
