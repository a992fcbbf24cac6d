// What the search for heights answers.

use cil_base::U32s;
use sqlite_items::Items;

pub type Answers = Items<bool>;

/// The height of the evaluation stack before each instruction, 0 where no path goes, and whether a
/// path leads there from where control comes into the body or into one of its handlers.
#[derive(Drop)]
pub struct Heights {
    pub heights: U32s,
    pub reached: Answers,
}
