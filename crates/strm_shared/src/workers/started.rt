//! A worker's thread: what it promises, how it starts, and how it is joined.
ghost use Rattle.std.specs.Prelude.{◌≡◌};
ghost use Rattle.strm_shared.specs.declared.outcome.End.TheVariants.{NotStarted};
ghost use Rattle.strm_shared.specs.Keeping.{WorkedKeeping};
ghost use Rattle.strm_shared.specs.RunsLayout.{IsReady, IsStartedFor};

use super::site::Site;
use super::worker::Worker;
use crate::desk::Desk;
use crate::gate::Gate;
use crate::name::Name;
use std::snapshot::Snapshot;
use std::sync::Wait;
use std::thread::{Promise, PromisedHandle, Scope, Threads};
use strm_pool::Line;

// What a worker's thread promises: it serves these lines on the desk as it was, and keeps the replies or not.
pub(super) struct Serves<'a, N: Name> {
    keeps: bool,
    lines: &'a [Line],
    desk: Snapshot<Desk<N>>,
}

impl<'a, N: Name> Drop for Serves<'a, N> {
    fn drop(self) {
        let Serves {
            keeps: _,
            lines: _,
            desk: _,
        } = self;
    }
}

impl<'a, N: Name> Promise<Worker<N>> for Serves<'a, N> {
    ghost use Rattle.strm_shared.specs.Keeping.{WorkedKeeping};

    ghost kept_by = { λ p w. WorkedKeeping p.keeps N.Name p.lines.now p.desk.value w.end w.replies.items w.desk };
}

// The thread of a worker, or the unchanged worker if there is no thread.
pub(super) enum Started<'a, N: Name> {
    Running(PromisedHandle<Worker<N>, Serves<'a, N>>),
    Not(Worker<N>),
}

// Starts a worker's thread. If there is no thread, the worker comes back unchanged: the job cannot be taken out of what the
// refused start returns. So it is called here, and the site knows that the worker has no thread.
pub(super) fn start<'s, E, N: Name + Send + Sync, R: Threads + Wait + Sync, G: Gate>(
    scope: &Scope<'s, E>,
    site: &'s Site<'s, N, R, G>,
    number: u8,
    lines: &'s [Line],
    worker: Worker<N>,
) -> Started<'s, N>
    requires ready { IsReady site.now.keeps lines.now worker.replies }
    requires end { worker.end ≡ NotStarted }
    ensures { IsStartedFor site.now.keeps N.Name lines.now worker.desk result }
{
    let promise = Serves {
        keeps: site.keeps,
        lines,
        desk: Snapshot::of(&worker.desk),
    };
    let job = move || -> Worker<N>
        requires { IsReady site.now.keeps lines.now worker.replies × (worker.end ≡ NotStarted) }
        ensures { WorkedKeeping site.entry.now.keeps N.Name lines.entry.now worker.desk result.end result.replies.items
            result.desk }
    {
        if site.has_refused(number) {
            return worker;
        }
        worker.work(site, number, lines)
    };
    match scope.spawn_with(promise, job) {
        Ok(child) => Started::Running(child),
        Err(spawn) => {
            site.refuse(number);
            Started::Not((spawn.value)())
        }
    }
}

// Waits for a worker's thread, if it has one.
pub(super) fn finish<N: Name, R: Threads>(rt: &R, started: Started<N>) -> Worker<N>
    ensures { (keeps : _) (lines : _) (desk : _) → IsStartedFor keeps N.Name lines desk started.entry
        → WorkedKeeping keeps N.Name lines desk result.end result.replies.items result.desk }
{
    match started {
        Started::Running(child) => child.join(rt),
        Started::Not(worker) => worker,
    }
}
