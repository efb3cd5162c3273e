//! Rounds of calls that are served on the only desk of a shared pool.
ghost use Rattle.strm_shared.specs.Starts.{IsNameOf};

use crate::applied::is_done;
use crate::calls::{calls_of, opening_calls};
use crate::row::Row;
use std::sync::Wait;
use strm_pool::{Call, Refusal, Reply};
use strm_shared::{Desk, Name, Shared, Start};

// Serves a call. It is not inlined, but `serve_into` is inlined into it, so that its instructions can be counted.
#[inline(never)]
fn serve_call<N: Name>(
    rt: &impl Wait,
    shared: &Shared<N>,
    desk: &mut Desk<N>,
    call: &Call,
    reply: &mut Reply,
) -> Result<(), Refusal> {
    shared.serve_into(rt, desk, 1, call, reply)
}

/// Serves the calls this number of times, all with one `Reply`, and returns how many were done.
pub(crate) fn serve_often<N: Name>(
    rt: &impl Wait,
    shared: &Shared<N>,
    desk: &mut Desk<N>,
    calls: &[Call],
    times: u64,
) -> u64 {
    let mut told = 0u64;
    let mut reply = Reply::Done;
    for _ in 0..times {
        for call in calls {
            if serve_call(rt, shared, desk, call, &mut reply).is_ok() {
                told = told.wrapping_add(u64::from(is_done(&reply)));
            }
        }
    }
    told
}

// A look at the census without the lock.
#[inline(never)]
fn see_census<N: Name>(shared: &Shared<N>, desk: &mut Desk<N>) -> u64 {
    let (stamp, census) = shared.census_now(desk);
    stamp ^ u64::from(census.free ^ census.queued ^ census.held)
}

// Looks this number of times, and returns a sum of what was seen.
fn look_often<N: Name>(shared: &Shared<N>, desk: &mut Desk<N>, times: u64) -> u64 {
    let mut told = 0u64;
    for _ in 0..times {
        told = told.wrapping_add(see_census(shared, desk));
    }
    told
}

// Runs the rounds on a desk.
fn desk_rounds<N: Name>(
    rt: &impl Wait,
    shared: &Shared<N>,
    desk: &mut Desk<N>,
    row: Row,
    times: u64,
) -> u64 {
    if let Row::Look = row {
        return look_often(shared, desk, times);
    }
    let (Some(opening), Some(calls)) = (opening_calls(), calls_of(row)) else {
        return 0;
    };
    let _ = serve_often(rt, shared, desk, &opening, 1);
    serve_often(rt, shared, desk, calls.items(), times)
}

/// Shares a pool with one desk, serves the calls of a row on it this number of times, and returns how many were done.
pub(crate) fn served_rounds<N: Name>(rt: &impl Wait, start: Start, row: Row, times: u64) -> u64
    requires { IsNameOf N.Name start }
{
    let (shared, mut desks) = start.open::<N>();
    if desks.len() == 0 {
        desks.forget();
        return 0;
    }
    let told = desk_rounds(rt, &shared, desks.desk_mut(0), row, times);
    desks.forget();
    told
}
