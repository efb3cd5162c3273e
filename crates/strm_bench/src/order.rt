//! What a line of standard input asks for: a form, a row, and two or three numbers.
use crate::messages::USUAL;
use crate::row::{Form, Row};
use strm_shared::{MOST_TRACE, Trace};

/// A row in a form, the number of message blocks, the number of rounds, and the size that README.md names for some rows.
#[derive(Clone, Copy)]
pub(crate) struct Order {
    pub(crate) form: Form,
    pub(crate) row: Row,
    pub(crate) blocks: u32,
    pub(crate) times: u64,
    pub(crate) size: u16,
}

impl Order {
    /// Returns what a line asks for, if anything.
    pub(crate) fn of(line: &str) -> Option<Order> {
        let mut words = line.split_whitespace();
        let form = Form::named(words.next()?)?;
        let row = Row::named(words.next()?)?;
        let blocks = words.next()?.parse::<u32>().ok()?;
        let times = words.next()?.parse::<u64>().ok()?;
        let size = match words.next() {
            Some(word) => word.parse::<u16>().ok()?,
            None => USUAL,
        };
        Some(Order {
            form,
            row,
            blocks,
            times,
            size,
        })
    }

    /// Returns a trace with room for the calls of all rounds, but no more than a trace may have.
    pub(crate) fn trace(self) -> Trace {
        let rounds = u32::try_from(self.times).unwrap_or(MOST_TRACE);
        Trace::Keep(rounds.saturating_mul(4).saturating_add(64).min(MOST_TRACE))
    }
}
