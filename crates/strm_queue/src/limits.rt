//! How many queues and bands there may be, and the ranks of their messages.

/// The greatest number of queues over one arena of message blocks.
pub const MOST_QUEUES: usize = 16;

/// The number of bands of a queue, which are numbered from 0.
pub const BANDS: usize = 256;

// The rank of high priority messages, above all bands, which are ranks too.
pub(crate) const HIGH_RANK: u16 = BANDS as u16;

// The number of ranks, which are numbered from 0.
pub(crate) const RANKS: usize = HIGH_RANK as usize + 1;
