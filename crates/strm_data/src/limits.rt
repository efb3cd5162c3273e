//! The limits of this crate, which are the numbers of specs/Limits.antt.

/// The most size classes.
pub const MOST_CLASSES: usize = 8;

/// The most bytes of one data block: no class has a greater size.
pub const MOST_DATA_BLOCK_BYTES: u32 = 4096;

/// The most data blocks, of all classes together.
pub const MOST_DATA_BLOCKS: u32 = 16_383;

/// The most references to one data block.
pub const MOST_REFERENCES: u8 = 255;
