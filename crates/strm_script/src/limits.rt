//! The limits of this crate: command lines and bytes of a script.

/// The greatest number of command lines of a script, over all its sections.
pub const MOST_COMMAND_LINES: usize = 1_048_576;

/// The greatest number of bytes of a script.
pub const MOST_SCRIPT_BYTES: u32 = 16_777_216;
