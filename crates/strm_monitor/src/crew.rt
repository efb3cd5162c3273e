//! Two workers at a shared pool, while a monitor looks at the census.
ghost use Rattle.std.specs.Prelude.{◌≡◌, length};
ghost use Rattle.strm_shared.specs.Pairs.{count_in};
ghost use Rattle.strm_shared.specs.Starts.{IsNameOf};

use crate::monitor::{Seen, watch};
use std::sync::Wait;
use std::thread::{Threads, join};
use strm_pool::{Call, Census, Reg, Reply};
use strm_shared::{Desk, Gathered, Name, Shared, Start};

// The number of rounds of each worker, of two calls each.
const ROUNDS: u32 = 100;

// The stamp after all calls of both workers were served.
const LAST: u64 = 2 * 2 * ROUNDS as u64;

// The greatest number of looks of the monitor.
const LOOKS: u32 = 10_000_000;

/// What the monitor saw, how many calls were done, and the census after all desks came back.
pub struct Run {
    pub seen: Seen,
    pub done: u32,
    pub census: Census,
}

/// Shares a pool, runs two workers and a monitor, waits for all, and ends the sharing. The monitor and one worker each get a
/// new thread; the other worker runs on the caller's. If a thread cannot be made, its part runs afterwards.
pub fn serve_watched<N: Name + Send + Sync, R: Threads + Wait + Sync>(rt: &R, start: Start) -> Run
    requires name { IsNameOf N.Name start }
    requires desks { start.desks ≡ 3 }
    ensures { count_in result.census ≡ length N.opened.arena.held }
{
    let (shared, mut desks) = start.open::<N>();
    let mut monitor = desks.take_last();
    let mut second = desks.take_last();
    let mut first = desks.take_last();
    let (seen, (one, two)) = join(
        rt,
        || watch(&shared, &mut monitor, LAST, LOOKS),
        || {
            join(
                rt,
                || work(rt, &shared, &mut first),
                || work(rt, &shared, &mut second),
            )
        },
    );
    desks.push(first);
    desks.push(second);
    desks.push(monitor);
    match shared.gather(desks) {
        Ok(
            Gathered {
                pool,
                trace: _,
                desks,
            },
        ) => {
            desks.forget();
            Run {
                seen,
                done: one.saturating_add(two),
                census: pool.census(),
            }
        }
        Err(_) => unreachable!(),
    }
}

// Serves `allocb` and `freemsg` again and again, in the first register of a desk, and returns how many calls were done.
fn work<N: Name>(rt: &impl Wait, shared: &Shared<N>, desk: &mut Desk<N>) -> u32 {
    let Some(reg) = Reg::new(0) else {
        unreachable!()
    };
    let mut done = 0u32;
    for _ in 0..ROUNDS {
        for call in [Call::Allocb(reg, 16), Call::Freemsg(reg)] {
            if let Ok(Reply::Done) = shared.serve(rt, desk, 1, &call) {
                done = done.saturating_add(1);
            }
        }
    }
    done
}
