mod domain;
mod edges;
mod rows;

ghost use Rattle.std.specs.Prelude.{◌≤ℤ◌};

/// The numbers that are from `low` to `high` as signed ones of 64 bits.
#[derive(Clone, Copy, PartialEq, Eq)]
pub struct SRange {
    pub low: i64,
    pub high: i64,
    ghost ordered: { low ≤ℤ high },
}
