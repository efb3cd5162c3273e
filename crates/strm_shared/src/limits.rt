//! The limits of this crate: stamps, trace entries and batches.

/// The last stamp: a shared pool that has reached it refuses each call as `Worn`.
pub const MOST_STAMP: u64 = 68_719_476_735;

/// The greatest number of entries of a trace.
pub const MOST_TRACE: u32 = 1_048_576;

/// The greatest number of lines that `Shared::serve_all` serves before it lets the lock go.
pub const MOST_BATCH: usize = 256;
