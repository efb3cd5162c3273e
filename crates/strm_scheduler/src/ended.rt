//! How a run with a module ended.

/// How a run with a module ended.
#[derive(Clone, Copy, Debug, PartialEq, Eq)]
pub enum Ended {
    /// No queue is enabled. Queues may wait for blocks.
    Idle,
    /// Queues are enabled, and held back: the module wants their first messages later. Run again then. The run list has the order
    /// in which the last service left it. Other queues may wait for blocks.
    HeldBack,
    /// The budget of services is spent, and a queue is enabled. No queue waits for blocks.
    Spent,
    /// The module needs more for the first message of this queue than the pool has in all, also on queues. The queue is the last one on
    /// the run list. No queue waits for blocks.
    NeverMet(u8),
}
