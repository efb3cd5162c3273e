//! What the caller of [`Queues::new`](crate::Queues::new) says of each queue.

/// One queue, as [`Queues::new`](crate::Queues::new) makes it.
#[derive(Clone, Copy, Debug, Default, PartialEq, Eq)]
pub struct QueueSpec {
    /// The high water mark that each band has at first, in bytes: a band with at least as many is full.
    pub hiwat: u32,
    /// The low water mark that each band has at first, in bytes: a wanted band has drained once it has at most as many.
    pub lowat: u32,
    /// Whether the queue has a service procedure.
    pub service: bool,
    /// The number of the next queue, if any. `bcanput` looks there if this queue has no service procedure. No call
    /// moves messages there.
    pub next: Option<u8>,
}
