//! A pool whose messages have names: plain values that any program can copy and keep, and that no call trusts.
#![tactic(auto)]

mod fault;
mod name;
mod named_pool;
mod naming;
mod stamps;

pub use fault::Fault;
pub use name::Name;
pub use named_pool::NamedPool;
