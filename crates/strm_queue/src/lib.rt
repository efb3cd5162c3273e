//! Queues of messages in STREAMS' priority order, with flow control and a run list, over the message blocks of strm_mblk.
#![tactic(auto)]

mod band_info;
mod band_set;
mod flush;
mod limits;
mod mark_table;
mod marks;
mod queue_info;
mod queue_spec;
mod queued_info;
mod queues;
mod receiver;
mod tally;

pub use band_info::BandInfo;
pub use flush::Flush;
pub use limits::{BANDS, MOST_QUEUES};
pub use marks::Marks;
pub use queue_info::QueueInfo;
pub use queue_spec::QueueSpec;
pub use queued_info::QueuedInfo;
pub use queues::{BurstPlace, Queues};
pub use receiver::Receiver;
