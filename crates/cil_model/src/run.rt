// What a run is given from outside, and what it leaves.

use crate::value::{Value, Values};
use cil_base::Name;
use sqlite_items::Items;

/// What an outside call answers: its default, nothing, a value, or a new exception of a name.
#[derive(Drop)]
pub enum ReplyResult {
    Default,
    Void,
    Given(Value),
    Throw(Name),
}

/// The answer to an outside call, with the values that it stores through by-reference arguments.
#[derive(Drop)]
pub struct Reply {
    pub result: ReplyResult,
    pub by_ref: Values,
}

pub type Replies = Items<Reply>;

/// One outside call. A reply that was `Default` is kept as the value that it gave.
#[derive(Drop)]
pub struct TraceItem {
    pub member: Name,
    pub args: Values,
    pub reply: Reply,
}

pub type Trace = Items<TraceItem>;

/// How a run ends.
#[derive(Drop)]
pub enum Outcome {
    Return(Option<Value>),
    /// An exception that nothing caught, with its type's name.
    Thrown { object: u32, name: Name },
    Stuck,
}

/// What a run of so many steps came to.
#[derive(Drop)]
pub enum RunResult {
    Ended {
        outcome: Outcome,
        trace: Trace,
        steps: u64,
    },
    OutOfSteps {
        trace: Trace,
    },
    /// The run's cells reach 2^24.
    HeapFull {
        trace: Trace,
    },
    /// The run's frames reach 2^20.
    FramesFull {
        trace: Trace,
    },
}
