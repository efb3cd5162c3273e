//! What [`Queues::queued_at`](crate::Queues::queued_at) returns of one message on a queue.

use strm_data::MsgType;

/// A message on a queue: its head, the type and band of its first block, and its numbers of bytes and blocks.
#[derive(Clone, Copy, Debug, PartialEq, Eq)]
pub struct QueuedInfo {
    /// The number of its first block. It stays the same while the message is on the queue.
    pub head: u32,
    /// The type of its first block, which ranks it.
    pub kind: MsgType,
    /// The band of its first block, 0 to 255.
    pub band: u8,
    /// The number of its bytes.
    pub size: u32,
    /// The number of its blocks, 1 at least.
    pub blocks: u32,
}
