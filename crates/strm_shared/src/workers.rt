//! Workers: each part of a script is served on its own thread.
ghost use Rattle.std.specs.Prelude.{◌≡◌, [], IfErr, IfOk, List, length};
ghost use Rattle.strm_pool.specs.declared.reply.Reply.{Reply};
ghost use Rattle.strm_shared.specs.Keeping.{AllWorkedKeeping};
ghost use Rattle.strm_shared.specs.Runs.{AllWorked};
ghost use Rattle.strm_shared.specs.RunsLayout.{IsCarried};

mod carried;
mod crew;
mod room;
mod site;
mod started;
mod worker;

use crate::desks::Desks;
use crate::gate::Gate;
use crate::name::Name;
use crate::outcome::{BareOutcome, Outcome};
use crate::shared::Shared;
use carried::Carried;
use room::Room;
use site::Site;
use std::alloc::{AllocError, Global};
use std::sync::Wait;
use std::thread;
use std::thread::Threads;
use strm_pool::{Lines, Parts};

/// Serves each part on its own thread, on the desk at the same place, and waits for all. The gate is called around each line.
/// There must be as many desks as parts; there may be none.
///
/// A worker stops at its first refusal. If it is `Worn` or `TraceFull`, its desk has seen the stamp that shows it. A worker for
/// which there is no thread has no replies and its desk unchanged, and the others run on.
///
/// Room for all replies is taken before the first worker starts. If memory is refused, the desks come back unchanged, and no
/// call was served. Afterwards only threads allocate, when they start.
pub fn run_workers<N: Name + Send + Sync, R: Threads + Wait + Sync, G: Gate>(
    rt: &R,
    alloc: Global,
    shared: &Shared<N>,
    desks: Desks<N>,
    parts: &Parts,
    gate: &G,
) -> Result<Outcome<N>, (AllocError, Desks<N>)>
    requires { length parts.now ≡ length desks }
    ensures worked { IfOk result (λ o. AllWorked N.Name parts.now desks o.ends o.replies o.desks) }
    ensures unserved { IfErr result (λ e. e.1 ≡ desks) }
{
    let site = Site::new(rt, shared, gate, true);
    serve(&site, alloc, desks, parts.items())
}

/// Does what [`run_workers`] does, but keeps no replies; a trace that is kept has them. It takes some fifty bytes for each
/// worker, and what threads take when they start, so its memory does not grow with the lines.
pub fn run_workers_without_replies<N: Name + Send + Sync, R: Threads + Wait + Sync, G: Gate>(
    rt: &R,
    alloc: Global,
    shared: &Shared<N>,
    desks: Desks<N>,
    parts: &Parts,
    gate: &G,
) -> Result<BareOutcome<N>, (AllocError, Desks<N>)>
    requires { length parts.now ≡ length desks }
    ensures worked { IfOk result (λ o. (all : List (List Reply))
        × AllWorked N.Name parts.now desks o.ends all o.desks) }
    ensures unserved { IfErr result (λ e. e.1 ≡ desks) }
{
    let site = Site::new(rt, shared, gate, false);
    match serve(&site, alloc, desks, parts.items()) {
        Ok(outcome) => Ok(outcome.bare()),
        Err(refused) => Err(refused),
    }
}

// Serves each part on its own thread. The outcome has replies if the site keeps them.
fn serve<'s, N: Name + Send + Sync, R: Threads + Wait + Sync, G: Gate>(
    site: &'s Site<'s, N, R, G>,
    alloc: Global,
    desks: Desks<N>,
    parts: &'s [Lines],
) -> Result<Outcome<N>, (AllocError, Desks<N>)>
    requires { length parts.now ≡ length desks }
    ensures worked { IfOk result (λ o. AllWorkedKeeping site.now.keeps N.Name parts.now desks o.ends o.replies
        o.desks) }
    ensures unserved { IfErr result (λ e. e.1 ≡ desks) }
{
    let room = match Room::new(alloc, parts, site.keeps) {
        Ok(room) => room,
        Err(error) => return Err((error, desks)),
    };
    let carried = Carried::new(desks, room);
    let carried = thread::scope(
        thread::scope_env(),
        site.rt,
        |scope| -> Carried<N>
            requires { IsCarried site.now.keeps parts.now carried }
            ensures { AllWorkedKeeping site.entry.now.keeps N.Name parts.entry.now carried.crew.desks
                result.done.ends.items result.done.replies.items result.done.desks × (result.crew.desks ≡ []) }
        { carried.serve(scope, site, parts) },
    );
    Ok(carried.outcome())
}
