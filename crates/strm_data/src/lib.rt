//! Data blocks in size classes. Each has a type, its bytes and a count of its references, the message blocks that use it.
#![tactic(auto)]

mod class_info;
mod class_spec;
mod data;
mod limits;
mod msg_type;
mod refusal;

pub use class_info::ClassInfo;
pub use class_spec::ClassSpec;
pub use data::{Data, DataNo};
pub use limits::{MOST_CLASSES, MOST_DATA_BLOCK_BYTES, MOST_DATA_BLOCKS, MOST_REFERENCES};
pub use msg_type::MsgType;
pub use refusal::Refusal;
