// The program's exit statuses.

/// The picture was written.
pub const DONE: u8 = 0;
/// The words ask for no picture.
pub const USAGE: u8 = 1;
/// The source failed.
pub const READ_FAULT: u8 = 2;
/// The input is no report, or is found illegal up to that entry, or has no such entry or node.
pub const REFUSED: u8 = 3;
/// The sink failed.
pub const WRITE_FAULT: u8 = 4;
/// There was no memory.
pub const NO_MEMORY: u8 = 5;
