//! What [`Queues::queue_info`](crate::Queues::queue_info) returns of one queue.

/// The number of messages and bytes on one queue, and the queue's marks.
#[derive(Clone, Copy, Debug, PartialEq, Eq)]
pub struct QueueInfo {
    /// The number of messages on the queue.
    pub msgs: u32,
    /// The number of their bytes: the sum over the queue's bands.
    pub bytes: u32,
    /// The want-to-read mark: the last `getq` found the queue empty, or there was no `getq` yet.
    pub read: bool,
    /// Whether enabling is switched off.
    pub noenable: bool,
    /// Whether the queue is on the run list.
    pub enabled: bool,
}
