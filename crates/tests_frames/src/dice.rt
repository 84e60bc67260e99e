//! Numbers at random, always the same from a seed.

ghost use Rattle.std.specs.Prelude.{◌≤◌};

/// Xorshift with the shifts 13, 7 and 17.
#[derive(Drop)]
pub struct Dice {
    state: u64,
}

impl Dice {
    /// From a seed that isn't 0.
    pub fn new(seed: u64) -> Dice {
        Dice { state: seed }
    }

    pub fn number(&mut self) -> u64 {
        let mut x = self.state;
        x ^= x << 13;
        x ^= x >> 7;
        x ^= x << 17;
        self.state = x;
        x
    }

    /// A number below a count; 0 for none.
    pub fn below(&mut self, count: u64) -> u64
        ensures { result ≤ count }
    {
        if count == 0 {
            0
        } else {
            (self.number() >> 20) % count
        }
    }

    /// A byte.
    pub fn byte(&mut self) -> u8 {
        let [byte, ..] = self.number().to_le_bytes();
        byte
    }

    /// True once in so many throws.
    pub fn is_one_in(&mut self, count: u64) -> bool {
        self.below(count) == 0
    }

    /// One of these words.
    pub fn word(&mut self, words: &[&'static str]) -> &'static str {
        let n = self.below(words.len() as u64) as usize;
        words.get(n).copied().unwrap_or("")
    }
}
