//! What an entry of a trace is made from.
use strm_pool::{Call, Reply};

// What an entry is made from, lent.
#[derive(Clone, Copy)]
pub(crate) struct Told<'a> {
    pub(crate) desk: u8,
    pub(crate) line: u32,
    pub(crate) call: &'a Call,
    pub(crate) reply: &'a Reply,
}
