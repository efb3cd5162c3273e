//! The trace of a shared pool, in memory that was taken when the pool was shared.
ghost use Rattle.std.specs.Prelude.{◌≡◌, ◌++◌, ◌∷◌, [], false, IfOk};
ghost use Rattle.strm_shared.specs.Chronicle.{entry_of};
ghost use Rattle.strm_shared.specs.Traces.{empty_trace, entries_kept, is_full, most_of};

use crate::setup::Trace;
use crate::told::Told;
use std::alloc::{AllocError, Global};
use std::marker::Model;
use strm_pool::Entry;

// The entries of served calls, if they are kept, with room for as many as there may be.
#[derive(Debug, Drop)]
pub(crate) struct KeptTrace {
    most: Option<u32>,
    entries: Vec<Entry>,
}

impl Model for KeptTrace {
    ghost use Rattle.strm_shared.specs.Traces.{TraceValue};
    ghost use Rattle.strm_shared.specs.TracesLayout.{IsWithin};

    ghost Value = { TraceValue };

    ghost view = { λ t. record { most = t.most; entries = t.entries.items } };

    ghost invariant = { λ t. IsWithin t.most t.entries };
}

impl KeptTrace {
    // A trace without entries.
    pub(crate) fn new(alloc: Global, trace: Trace) -> Result<KeptTrace, AllocError>
        ensures { IfOk result (λ kept. kept ≡ empty_trace (most_of trace)) }
    {
        let (most, room) = match trace {
            Trace::Off => (None, 0),
            Trace::Keep(most) => (Some(most), most),
        };
        let entries = Vec::with_capacity(alloc, room as usize)?;
        Ok(KeptTrace { most, entries })
    }

    // Whether the trace has as many entries as it may.
    pub(crate) fn is_full(&self) -> bool
        ensures { result ≡ is_full self.now }
    {
        match self.most {
            Some(most) => self.entries.len() == most as usize,
            None => false,
        }
    }

    // Adds the entry of a call, if entries are kept.
    pub(crate) fn keep(&mut self, told: Told<'_>)
        requires { is_full self.old ≡ false }
        ensures most { self.new.most ≡ self.old.most }
        ensures entries { self.new.entries ≡ self.old.entries ++ entries_kept self.old.most
            (entry_of told.entry.desk told.entry.line told.entry.call.now told.entry.reply.now ∷ []) }
    {
        if self.most.is_some() {
            self.entries.push_reserved(Entry {
                desk: told.desk,
                line: told.line,
                call: told.call.copy(),
                reply: told.reply.copy(),
            });
        }
    }

    // The entries.
    pub(crate) fn into_entries(self) -> Vec<Entry>
        ensures { result.items ≡ self.entries }
    {
        self.entries
    }
}
