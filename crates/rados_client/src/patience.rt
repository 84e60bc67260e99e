ghost use Rattle.std.specs.Prelude.{◌≡◌, ◌≤◌, true, false, MatchBool};

use crate::exec_error::ExecError;

/// The number of looks in a row without an answer after which a request is submitted again.
const LOOKS: u32 = 1_000;

/// The most turns that a look gives the other threads.
const TURNS: u32 = 64;

/// The most turns that the looks before a repeat give them together.
const ALL_TURNS: u32 = 4_000;

/// The time that a session goes on looking before it submits the request again, and the fact that a
/// queue has taken the request. At least one look comes before each repeat, so that a session sees
/// its answer also while its queue is full or memory is short.
#[derive(Clone, Copy)]
pub(crate) struct Patience {
    looks_left: u32,
    /// The number of looks that follow the call's next refusal: 1 after the first, and twice as
    /// many after each further one, up to `LOOKS`, if they give no more turns than `ALL_TURNS`. A
    /// group that is in peering refuses at once, and would be nudged by each session all the time.
    looks_when_refused: u32,
    /// The number of turns that each look gives the other threads: 1, and twice as many after each
    /// repeat of the request, up to `TURNS`. Who waits for the end of a long peering would nudge
    /// thousands of times else.
    turns: u32,
    pub taken: bool,
}

impl Patience {
    /// After a queue took the request.
    pub fn after_taken() -> Patience
        ensures { result.taken ≡ true }
    {
        Patience {
            looks_left: LOOKS,
            looks_when_refused: 1,
            turns: 1,
            taken: true,
        }
    }

    /// After the queue had no room for the request.
    pub fn after_no_room() -> Patience
        ensures { result.taken ≡ false }
    {
        Patience {
            looks_left: 1,
            looks_when_refused: 1,
            turns: 1,
            taken: false,
        }
    }

    /// True if the request is to be submitted again.
    pub fn is_over(&self) -> bool {
        self.looks_left == 0
    }

    /// The number of turns that a look gives the other threads.
    pub fn turns(&self) -> u32 {
        self.turns
    }

    /// A look found no answer.
    pub fn wait(&mut self)
        ensures { self.new.taken ≡ self.old.taken }
    {
        self.looks_left = self.looks_left.saturating_sub(1);
    }

    /// A look found that the request is refused for now.
    pub fn wait_when_refused(&mut self)
        ensures { self.new.taken ≡ self.old.taken }
    {
        self.looks_left = self.looks_when_refused.min(self.most_looks());
        self.looks_when_refused = self.looks_when_refused.saturating_mul(2).min(LOOKS);
    }

    /// A queue has taken the request.
    pub fn begin(&mut self)
        ensures taken { self.new.taken ≡ true }
        ensures looks { 1 ≤ self.new.looks_left }
    {
        self.turns = self.turns.saturating_mul(2).min(TURNS);
        self.looks_left = self.most_looks();
        self.taken = true;
    }

    /// No queue took the request, for want of room or of memory: it is submitted again after one
    /// look.
    pub fn wait_when_not_taken(&mut self)
        ensures taken { self.new.taken ≡ self.old.taken }
        ensures looks { 1 ≤ self.new.looks_left }
    {
        self.looks_left = 1;
    }

    /// The most looks before the request is submitted again.
    fn most_looks(&self) -> u32
        ensures { 1 ≤ result }
    {
        LOOKS.min(ALL_TURNS / self.turns.max(1)).max(1)
    }

    /// The refusal of a call whose tries are used up.
    pub fn end(&self) -> ExecError
        ensures { MatchBool self.now.taken (result ≡ ExecError.Unanswered) (result ≡ ExecError.NotTaken) }
    {
        if self.taken {
            ExecError::Unanswered
        } else {
            ExecError::NotTaken
        }
    }
}
