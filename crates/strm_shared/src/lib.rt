//! A pool that threads share: a book under a lock, a word that has the census without the lock, a desk for each worker, and
//! functions that run workers.
#![tactic(auto)]

mod board;
mod book;
mod desk;
mod desk_count;
mod desk_slot;
mod desks;
mod gate;
mod held;
mod kept_trace;
mod limits;
mod name;
mod outcome;
mod rule;
mod setup;
mod shared;
mod spent_desks;
mod start;
mod told;
mod views;
mod word;
mod workers;

pub use book::Book;
pub use desk::Desk;
pub use desks::Desks;
pub use gate::{Gate, OpenGate};
pub use limits::{MOST_BATCH, MOST_STAMP, MOST_TRACE};
pub use name::{Brand, Name};
pub use outcome::{BareOutcome, End, Ends, Outcome};
pub use setup::{Setup, Trace};
pub use shared::{Gathered, Shared};
pub use spent_desks::SpentDesks;
pub use start::Start;
pub use strm_pool::{
    AllReplies, Entry, Line, Lines, Listed, MOST_WORKERS, Parts, Replies, TraceEntries,
};
pub use workers::{run_workers, run_workers_without_replies};
