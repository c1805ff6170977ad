// The statuses of a run.

/// Every line was done.
pub const DONE: u8 = 0;

/// Some line was refused.
pub const REFUSED: u8 = 1;

/// The words are none that the program knows.
pub const USAGE: u8 = 2;

/// A read failed.
pub const READ_FAULT: u8 = 3;

/// A write failed, or took nothing.
pub const WRITE_FAULT: u8 = 4;

/// What stands under the project's name is no project's text.
pub const WRONG_TEXT: u8 = 6;

/// The shelf failed to give the project.
pub const OPEN_FAULT: u8 = 7;

/// The shelf failed to take the project.
pub const SAVE_FAULT: u8 = 8;

/// The source gave more than a script may have.
pub const TOO_LONG: u8 = 10;

/// Nothing stands under the project's name.
pub const NO_PROJECT: u8 = 11;
