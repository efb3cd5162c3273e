//! Views: what the seats at the word of a shared pool know. Only contracts see them; no value of these types is made.
use std::collections::LinkedList;
use strm_pool::{Census, Entry};

// What the lock's seat knows: all pairs from the opening pair on, the entry of each pair but the first, the number of desks,
// and the table of each desk's registers.
pub(crate) struct History {
    pub(crate) pairs: LinkedList<(u64, Census)>,
    pub(crate) entries: LinkedList<Entry>,
    pub(crate) desks: u8,
    pub(crate) tables: LinkedList<LinkedList<Option<(u32, u32)>>>,
}

// What a desk's seat knows: the desk's number, the pairs that it saw, the entries that it was served, each with its stamp, and
// the table of its registers.
pub(crate) struct Known {
    pub(crate) number: u8,
    pub(crate) pairs: LinkedList<(u64, Census)>,
    pub(crate) served: LinkedList<(u64, Entry)>,
    pub(crate) table: LinkedList<Option<(u32, u32)>>,
}

// The view of a seat: of the lock's seat, with what its guests know; of a desk's seat; or of a seat that has joined another.
pub(crate) enum View {
    Lock(History, LinkedList<Known>),
    At(Known),
    Spent,
}
