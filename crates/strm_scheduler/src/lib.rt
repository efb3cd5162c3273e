//! A scheduler of service procedures, as `runqueues` of STREAMS: it forwards messages along sides of streams until no queue is
//! enabled. No wake-up is lost: a message waits only for a band that is wanted, or for what a module needs.
#![tactic(auto)]

mod ended;
mod module;
mod need;
mod service;
mod serving;
mod sides;
mod sides_fault;
mod starting;
mod steps;
mod treating;
mod waits;
mod writers;

pub use ended::Ended;
pub use module::{Module, Passing};
pub use need::{MOST_SIZES, Need};
pub use service::{forward, may_go};
pub use sides::Sides;
pub use sides_fault::SidesFault;
pub use starting::{Service, serve};
pub use steps::{enable, flush, hold, send};
pub use writers::Writers;
