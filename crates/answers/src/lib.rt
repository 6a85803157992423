// What the calls answer.
#![tactic(auto)]

ghost use Rattle.std.specs.Prelude.{◌≡◌};
ghost use Rattle.answers.specs.Said.{number};

use words::{Level, Node, Queue};

// Why a call is refused: document 01's refusals 1 to 12 and 14 in their order. Refusal 13, of a text, has a line and no number.
#[derive(Clone, Copy, Debug, PartialEq, Eq)]
pub enum Refusal {
    Table,
    Sizes,
    Level,
    Queue,
    Node,
    Busy,
    InUse,
    Dequeued,
    Idle,
    Damaged,
    Unquiet,
    Room,
    Many,
}

impl From<Refusal> for u16 {
    ghost from_gives = { λ r n. n ≡ number r };

    fn from(r: Refusal) -> u16 {
        match r {
            Refusal::Table => 1,
            Refusal::Sizes => 2,
            Refusal::Level => 3,
            Refusal::Queue => 4,
            Refusal::Node => 5,
            Refusal::Busy => 6,
            Refusal::InUse => 7,
            Refusal::Dequeued => 8,
            Refusal::Idle => 9,
            Refusal::Damaged => 10,
            Refusal::Unquiet => 11,
            Refusal::Room => 12,
            Refusal::Many => 14,
        }
    }
}

// An operation that ended: op 1 or 2, its node, 0 for empty, and its steps.
// kept: numbers, since they are the frame's own words and go to C as they are; an enum and an Option between would be made in one place and
// unmade in three.
#[derive(Clone, Copy)]
pub struct End {
    pub op: u16,
    pub level: Level,
    pub queue: Queue,
    pub node: Node,
    pub steps: u16,
}

// Why a run stopped: an operation ended, the budget is spent, nothing runs, or refusal 10 came.
#[derive(Clone, Copy)]
pub enum Why {
    Ended(End),
    Spent,
    Idle,
    Damaged,
}

// A run's steps taken, and why it stopped.
#[derive(Clone, Copy)]
pub struct Ran {
    pub steps: u16,
    pub why: Why,
}
