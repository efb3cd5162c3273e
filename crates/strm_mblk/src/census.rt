//! The census: how many message blocks are where.

/// The numbers of message blocks that are free, queued (in messages on shelves), and held (in messages on no shelf).
#[derive(Clone, Copy, Debug, PartialEq, Eq)]
pub struct Census {
    /// The number of free message blocks.
    pub free: u32,
    /// The number of message blocks in messages on shelves.
    pub queued: u32,
    /// The number of message blocks in held messages.
    pub held: u32,
}
