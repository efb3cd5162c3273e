//! How many data blocks of a size class are free, and how many there are.

/// The size of a class, the number of its free data blocks, and the number of all of them.
#[derive(Clone, Copy, Debug, PartialEq, Eq)]
pub struct ClassInfo {
    /// The capacity of each data block, in bytes.
    pub size: u32,
    /// The number of free data blocks.
    pub free: u32,
    /// The number of all data blocks.
    pub total: u32,
}
