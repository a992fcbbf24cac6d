// What the search for heights knows of an instruction.

use sqlite_items::Items;

/// An instruction that no path has come to, one that has a height and is to be gone on from, and
/// one that has been gone on from.
#[derive(Clone, Copy)]
pub enum Mark {
    Unseen,
    Waits(u32),
    Passed(u32),
}

pub(crate) type Marks = Items<Mark>;
