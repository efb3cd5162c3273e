//! Calls of a script: as lines to be executed, and as entries that say what was replied.
use crate::call::Call;
use crate::reply::Reply;

/// A command line: its number in the script, counted from 1 over all lines, and its call.
#[derive(Debug, Drop)]
pub struct Line {
    pub number: u32,
    pub call: Call,
}

/// A served call: the number of its desk, the number of its line, the call and its reply.
#[derive(Debug, Drop)]
pub struct Entry {
    pub desk: u8,
    pub line: u32,
    pub call: Call,
    pub reply: Reply,
}
