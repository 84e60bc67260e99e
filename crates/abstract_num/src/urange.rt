mod domain;
mod edges;
mod rows;

ghost use Rattle.std.specs.Prelude.{◌≤◌, ◌<◌, ◌^◌};

/// The numbers from `low` to `high`.
#[derive(Clone, Copy, PartialEq, Eq)]
pub struct URange {
    pub low: u64,
    pub high: u64,
    ghost ordered: { low ≤ high },
    ghost fits: { high < 2 ^ 64 },
}
