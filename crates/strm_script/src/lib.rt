//! Scripts of calls, read from bytes, and the text of their replies and of the pool's report.
#![tactic(auto)]

mod call;
mod cut;
mod draft;
mod fault;
mod form;
mod limits;
mod piece;
mod report;
mod script;
mod shape;
mod stage;
mod transcript;
mod word;

pub use fault::{Fault, Kind, ParseFault};
pub use limits::{MOST_COMMAND_LINES, MOST_SCRIPT_BYTES};
pub use report::report_text;
pub use script::{Script, parse};
pub use strm_pool::{Line, Lines, MOST_WORKERS, Parts};
pub use transcript::reply_text;
