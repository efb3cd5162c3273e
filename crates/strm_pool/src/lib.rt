//! The buffer pool of STREAMS for one thread: messages are held as tokens or are on queues, and `bufcall` records wishes.
#![tactic(auto)]

mod apply;
mod call;
mod config;
mod limits;
mod line;
mod listed;
mod names;
mod pool;
mod reg;
mod regs;
mod reply;
mod short_list;
mod token_slot;
mod wishes;

pub use call::Call;
pub use config::{Config, NewFault, Which};
pub use limits::{LAST_ID, MOST_OCTETS, MOST_REGISTERS, MOST_WISHES, MOST_WORKERS};
pub use line::{Entry, Line};
pub use listed::{AllReplies, Lines, Listed, Parts, Replies, TraceEntries};
pub use names::Names;
pub use pool::Pool;
pub use reg::Reg;
pub use regs::Regs;
pub use reply::Reply;
pub use short_list::{ClassSpecs, Octets, QueueSpecs, ShortList};
pub use strm_data::{ClassInfo, ClassSpec, MsgType, Refusal};
pub use strm_mblk::{
    BlockInfo, BlockPlace, Blocks, Census, Rejected, Shape, Supply, Token, TokenValue,
};
pub use strm_queue::{
    BANDS, BandInfo, BurstPlace, Flush, MOST_QUEUES, Marks, QueueInfo, QueueSpec, QueuedInfo,
    Queues, Receiver,
};
pub use token_slot::TokenSlot;
