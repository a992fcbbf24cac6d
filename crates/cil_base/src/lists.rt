// The list types that all crates share. Each is a list to contracts.

use sqlite_items::Items;

/// Bytes of a file, a heap entry or a body.
pub type Bytes = Items<u8>;

/// A name, as the bytes of `#Strings` spell it.
pub type Name = Items<u8>;

/// UTF-16 code units of a text.
pub type Units = Items<u16>;

/// Places, rows, or the cells of a column.
pub type U32s = Items<u32>;

/// The lower bounds of an array's dimensions.
pub type I32s = Items<i32>;
