//! The exports behind strm.h: calls of a named pool for programs in C.
//!
//! An export is named as its call of strm.h, with `c_` after `strm_`. strm.c calls it, after it has checked the pointers. An
//! export with a handle, except `strm_c_open`, returns `NotOpen` if the handle is not open, and nothing changes then.
//! Otherwise, unless it returns `BadArgument`, it does what the call of the named pool or of its `Pool` does that its comment
//! links.
#![tactic(auto)]

mod address;
mod answer;
mod arrays;
mod blocks;
mod code;
mod flow;
mod handle;
mod in_place;
mod joining;
mod layout;
mod lending;
mod looks;
mod making;
mod memory;
mod msg;
mod numbers;
mod opening;
mod parts;
mod pointer;
mod queues;
mod reader;
mod sending;
mod several;
mod sizing;
mod taking;
mod telling;
mod texts;
mod transferring;
mod view;
mod view_pointer;
mod wishes;
mod writable;

pub use code::Code;
pub use handle::StrmPool;
pub use layout::{
    StrmBandInfo, StrmBlockInfo, StrmBlockPlace, StrmBlockShape, StrmCensus, StrmClassInfo,
    StrmClassSpec, StrmIov, StrmMarks, StrmQueueInfo, StrmQueueSpec, StrmQueued, StrmService,
    StrmWish,
};
pub use lending::{Lender, end, join, lend, lend_to_two, look_by_two, split, take_back};
pub use msg::StrmMsg;
pub use parts::Parts;
pub use pointer::PoolPointer;
pub use reader::StrmReader;
pub use sending::can_be_sent;
pub use view::PoolView;
pub use view_pointer::ViewPointer;
