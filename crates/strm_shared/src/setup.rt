//! How a pool is to be shared, as the caller sets it up.
ghost use Rattle.std.specs.Prelude.{◌≡◌};
ghost use Rattle.strm_shared.specs.Starts.{is_bad_shared};
ghost use Rattle.strm_shared.specs.Traces.{is_bad_trace};

use crate::limits::{MOST_STAMP, MOST_TRACE};
use strm_pool::MOST_WORKERS;

/// Whether a trace of served calls is kept.
#[derive(Clone, Copy, Debug, PartialEq, Eq)]
pub enum Trace {
    /// No trace is kept.
    Off,
    /// All served calls are kept, up to this number, 1 to `MOST_TRACE`. Later calls are refused as `TraceFull`.
    Keep(u32),
}

impl Trace {
    // Whether the number of entries is out of range.
    fn is_bad(self) -> bool
        ensures { result ≡ is_bad_trace self }
    {
        match self {
            Trace::Off => false,
            Trace::Keep(most) => most == 0 || most > MOST_TRACE,
        }
    }
}

/// How a pool is to be shared.
#[derive(Clone, Copy, Debug)]
pub struct Setup {
    /// The number of desks, 1 to `MOST_WORKERS`.
    pub desks: u8,
    /// Whether a trace is kept.
    pub trace: Trace,
    /// The stamp before the first call, at most `MOST_STAMP`. Each served call raises it by 1.
    pub first_stamp: u64,
}

impl Setup {
    // Whether the number of desks, the first stamp or the number of trace entries is out of range.
    pub(crate) fn is_bad_shared(&self) -> bool
        ensures { result ≡ is_bad_shared self.now }
    {
        let bad_desks = self.desks == 0 || usize::from(self.desks) > MOST_WORKERS;
        bad_desks || self.first_stamp > MOST_STAMP || self.trace.is_bad()
    }
}
