// The limits that the rules of L name.

/// The most bytes of a file.
pub const FILE_LIMIT: u32 = 0x400_0000;

/// The most bytes of all files of a command together.
pub const SET_LIMIT: u32 = 0x1000_0000;

/// The most assemblies of a command.
pub const ASSEMBLY_LIMIT: u32 = 64;

/// The most locals of a body, and the most slots of its stack.
pub const SLOT_LIMIT: u32 = 65_534;

/// How deep regions nest at the most.
pub const NESTING_LIMIT: u32 = 1000;

/// The most instructions of a body, each case of a `switch` counted as one more.
pub const INSTRUCTION_LIMIT: u32 = 0x40_0000;

/// The most rows of a table.
pub const ROW_LIMIT: u32 = 0xFF_FFFF;

/// The most bytes of `#Strings`, of `#Blob` and of `#GUID`.
pub const HEAP_LIMIT: u32 = 0x1000_0000;

/// The most bytes of `#US`.
pub const USER_STRING_LIMIT: u32 = 0x100_0000;

/// The most streams of metadata.
pub const STREAM_LIMIT: u32 = 0xFFFF;

/// The most bytes of a written image.
pub const IMAGE_LIMIT: u32 = 0x800_0000;
