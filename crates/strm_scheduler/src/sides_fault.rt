//! Why sides of streams are not made.
use strm_pool::NewFault;
use thiserror::Error;

/// Why [`Sides::new`](crate::Sides::new) makes no sides. Of the queues with a fault, the first one is reported.
#[derive(Clone, Copy, Debug, PartialEq, Eq, Error)]
pub enum SidesFault {
    /// This queue has a service procedure, but no next queue to which it could pass messages on.
    #[error("queue {0} has a service procedure, but no next queue")]
    NoNext(u8),
    /// This queue has a next queue, but no service procedure that passes messages on to it.
    #[error("queue {0} has a next queue, but no service procedure")]
    NoService(u8),
    /// The queues form sides, but the pool was not made.
    #[error("{0}")]
    NotMade(NewFault),
}
