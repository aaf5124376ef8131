// The program's exit statuses.

/// What the words ask for was written.
pub const DONE: u8 = 0;
/// The words are no command.
pub const USAGE: u8 = 1;
/// The source failed.
pub const READ_FAULT: u8 = 2;
/// The input is no script, or not the log or the report that was asked for.
pub const REFUSED: u8 = 3;
/// The sink failed.
pub const WRITE_FAULT: u8 = 4;
/// There was no memory.
pub const NO_MEMORY: u8 = 5;
