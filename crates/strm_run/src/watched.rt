//! A reader or writer with a record of failures, of calls that came too late, and of the workers whose text it got.
ghost use Rattle.std.specs.Prelude.{◌≡◌, ◌||◌, ◌<◌, [], false, is_err, length};
ghost use Rattle.std.specs.Io.{ReadsAtMost, WritesAtMost};
ghost use Rattle.std.specs.Io.KnownBytes.{Keeps, ReadConsumes, WriteAppends};
ghost use Rattle.strm_run.specs.Watched.{gave_none, is_over, took_none};

use std::io;
use std::io::{Read, Write};
use std::marker::Model;
use strm_shared::SpentDesks;

/// A reader or a writer. It records whether a call failed, whether a read found the end, and whether a call came after either.
/// A writer also keeps the spent desks of the last run that began to write to it, and none before. Only its own calls and
/// [`run`](crate::run) change this record.
#[derive(Drop)]
pub struct Watched<T> {
    inner: T,
    failed: bool,
    ended: bool,
    past: bool,
    desks: SpentDesks,
}

impl<T> Model for Watched<T> {
    ghost use Rattle.strm_run.specs.Watched.{Observed};

    ghost Value = { Observed T };

    ghost view = { λ w. record { inner = w.inner; failed = w.failed; ended = w.ended; past = w.past; desks = w.desks } };
}

impl<T> Watched<T> {
    /// Makes one on which no call was made.
    pub fn new(inner: T) -> Watched<T>
        ensures inner { result.inner ≡ inner }
        ensures failed { result.failed ≡ false }
        ensures ended { result.ended ≡ false }
        ensures past { result.past ≡ false }
        ensures desks { result.desks ≡ [] }
    {
        Watched {
            inner,
            failed: false,
            ended: false,
            past: false,
            desks: SpentDesks::new(),
        }
    }

    // Keeps the desks of the workers whose text comes next.
    pub(crate) fn keep_desks(&mut self, desks: SpentDesks)
        ensures { self.new ≡ record self.old { desks = desks } }
    {
        self.desks = desks;
    }

    // Notes a call: it is too late if one has failed, or if a read has found the end.
    fn note(&mut self)
        ensures inner { self.new.inner ≡ self.old.inner }
        ensures failed { self.new.failed ≡ self.old.failed }
        ensures ended { self.new.ended ≡ self.old.ended }
        ensures past { self.new.past ≡ (self.old.past || is_over self.old) }
        ensures desks { self.new.desks ≡ self.old.desks }
    {
        self.past = self.past || (self.failed || self.ended);
    }
}

impl<R: Read> Watched<R> {
    /// Reads once. A read that gives no bytes counts as the end, also one without room.
    pub fn read(&mut self, buf: &mut [u8]) -> io::Result<usize>
        ensures bound { ReadsAtMost result buf.new }
        ensures bytes { ReadConsumes (R.remaining self.old.inner) (R.remaining self.new.inner) result buf.new }
        ensures failed { self.new.failed ≡ (self.old.failed || is_err result) }
        ensures ended { self.new.ended ≡ (self.old.ended || gave_none result) }
        ensures past { self.new.past ≡ (self.old.past || is_over self.old) }
        ensures desks { self.new.desks ≡ self.old.desks }
    {
        self.note();
        let result = self.inner.read(buf);
        self.failed = self.failed || result.is_err();
        self.ended = self.ended || matches!(result, Ok(0));
        result
    }
}

impl<W: Write> Watched<W> {
    /// Writes once. A write of some bytes that takes none has failed.
    pub fn write(&mut self, buf: &[u8]) -> io::Result<usize>
        requires { 0 < length buf.now }
        ensures bound { WritesAtMost result buf.now }
        ensures bytes { WriteAppends (W.contents self.old.inner) (W.contents self.new.inner) result buf.now }
        ensures failed { self.new.failed ≡ (self.old.failed || took_none result) }
        ensures ended { self.new.ended ≡ self.old.ended }
        ensures past { self.new.past ≡ (self.old.past || is_over self.old) }
        ensures desks { self.new.desks ≡ self.old.desks }
    {
        self.note();
        let result = self.inner.write(buf);
        self.failed = self.failed || matches!(result, Ok(0) | Err(_));
        result
    }

    /// Flushes the writer.
    pub fn flush(&mut self) -> io::Result<()>
        ensures bytes { Keeps (W.contents self.old.inner) (W.contents self.new.inner) }
        ensures failed { self.new.failed ≡ (self.old.failed || is_err result) }
        ensures ended { self.new.ended ≡ self.old.ended }
        ensures past { self.new.past ≡ (self.old.past || is_over self.old) }
        ensures desks { self.new.desks ≡ self.old.desks }
    {
        self.note();
        let result = self.inner.flush();
        self.failed = self.failed || result.is_err();
        result
    }
}
