//! Rounds of calls that are served in batches, and on four threads at once.
ghost use Rattle.std.specs.Prelude.{◌≡◌, length};
ghost use Rattle.strm_shared.specs.Starts.{IsNameOf};

use crate::applied::is_done;
use crate::calls::{calls_of, opening_calls};
use crate::row::Row;
use crate::served::serve_often;
use std::alloc::{AllocError, Global};
use std::sync::Wait;
use std::thread;
use std::thread::Threads;
use strm_pool::{Call, Refusal, Reply};
use strm_shared::{Desk, Desks, Line, Name, Shared, Start};

// The greatest number of lines in a batch.
const BATCH: usize = 32;

/// The number of threads in the forms `four` and `four_batches`.
pub(crate) const THREADS: u8 = 4;

// Lines that are served together, and their replies.
#[derive(Drop)]
struct Batch {
    lines: Vec<Line>,
    replies: Vec<Reply>,
}

// Serves a batch. It is not inlined, so that its instructions can be counted.
#[inline(never)]
fn serve_lines<N: Name>(
    rt: &impl Wait,
    shared: &Shared<N>,
    desk: &mut Desk<N>,
    lines: &[Line],
    replies: &mut [Reply],
) -> Result<(), (Refusal, usize)>
    requires { length lines.now ≡ length replies.old }
{
    shared.serve_all(rt, desk, lines, replies)
}

impl Batch {
    // A batch that has these calls, as often as all of them fit.
    fn of(alloc: Global, calls: &[Call]) -> Result<Batch, AllocError> {
        let mut lines = Vec::with_capacity(alloc, BATCH)?;
        let mut replies = Vec::with_capacity(alloc, BATCH)?;
        for _ in 0..BATCH.checked_div(calls.len()).unwrap_or(0) {
            for call in calls {
                lines.push(Line {
                    number: 1,
                    call: call.copy(),
                })?;
                replies.push(Reply::Done)?;
            }
        }
        Ok(Batch { lines, replies })
    }

    // Serves the batch this number of times, and returns how many calls were done.
    fn serve_often<N: Name>(
        &mut self,
        rt: &impl Wait,
        shared: &Shared<N>,
        desk: &mut Desk<N>,
        times: u64,
    ) -> u64 {
        let lines = self.lines.as_slice();
        let replies = self.replies.as_mut_slice();
        let mut told = 0u64;
        for _ in 0..times {
            if lines.len() != replies.len()
                || serve_lines(rt, shared, desk, lines, replies).is_err()
            {
                return told;
            }
            told = told.wrapping_add(count_done(replies));
        }
        told
    }
}

// How many replies are those of calls that were done.
fn count_done(replies: &[Reply]) -> u64 {
    let mut told = 0u64;
    for reply in replies {
        told = told.wrapping_add(u64::from(is_done(reply)));
    }
    told
}

// A thread's desk and batch, and how many of its calls were done. Unlike the desk, it may be dropped, as elements of a `Vec` must.
struct Place<N: Name> {
    desk: Desk<N>,
    batch: Batch,
    told: u64,
}

impl<N: Name> Drop for Place<N> {
    fn drop(self) {
        let Place {
            desk,
            batch: _,
            told: _,
        } = self;
        desk.into_regs().forget();
    }
}

impl<N: Name> Place<N> {
    // Serves the calls before the rounds, and then rounds of these calls, one by one or in batches.
    fn work(
        &mut self,
        rt: &impl Wait,
        shared: &Shared<N>,
        opening: &[Call],
        calls: &[Call],
        times: u64,
        in_batches: bool,
    ) {
        let _ = serve_often(rt, shared, &mut self.desk, opening, 1);
        self.told = if in_batches {
            self.batch.serve_often(rt, shared, &mut self.desk, times)
        } else {
            serve_often(rt, shared, &mut self.desk, calls, times)
        };
    }
}

// A place for each of these desks, as many as there are threads, with a batch of these calls.
fn places<N: Name>(
    alloc: Global,
    desks: &mut Desks<N>,
    calls: &[Call],
) -> Result<Vec<Place<N>>, AllocError> {
    let mut list = Vec::new(alloc);
    for _ in 0..THREADS {
        let batch = Batch::of(alloc, calls)?;
        if desks.len() > 0 {
            let desk = desks.take_last();
            list.push(Place {
                desk,
                batch,
                told: 0,
            })?;
        }
    }
    Ok(list)
}

/// Shares a pool, serves rounds of a row's calls on each desk, on a thread of its own, and returns how many calls were done. In
/// batches a round is a batch; otherwise the calls are served one by one.
pub(crate) fn rounds_of_threads<N: Name + Send + Sync, R: Threads + Wait + Sync>(
    rt: &R,
    alloc: Global,
    start: Start,
    row: Row,
    times: u64,
    in_batches: bool,
) -> u64
    requires { IsNameOf N.Name start }
{
    let (shared, mut desks) = start.open::<N>();
    let (Some(opening), Some(calls)) = (opening_calls(), calls_of(row)) else {
        desks.forget();
        return 0;
    };
    let list = places(alloc, &mut desks, calls.items());
    desks.forget();
    let Ok(mut list) = list else {
        return 0;
    };
    let (opening, calls) = (opening.as_slice(), calls.items());
    thread::for_each_mut(
        rt,
        list.as_mut_slice(),
        THREADS as usize,
        &|_, place| {
            place.work(rt, &shared, opening, calls, times, in_batches);
        },
    );
    let mut told = 0u64;
    for place in &list {
        told = told.wrapping_add(place.told);
    }
    told
}
