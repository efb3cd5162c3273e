//! Clients of a pool as examples: a router's check and rewrite of a header in place, and three modules of STREAMS.
#![tactic(auto)]

mod header;
mod modules;

pub use header::{HeaderFault, Outcome, age_header, hop};
pub use modules::{Acknowledging, Flushing, Numbering};
