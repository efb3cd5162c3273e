//! The limit of this crate, which is the number of specs/Limits.antt.

/// The most message blocks: free, held and on shelves together.
pub const MOST_MESSAGE_BLOCKS: u32 = 16_383;
