//! Workers on their way through a scope of threads.
ghost use Rattle.std.specs.Prelude.{◌≡◌, ◌+◌, ◌≤◌, [], ℕ, length};
ghost use Rattle.strm_shared.specs.Keeping.{AllWorkedKeeping};
ghost use Rattle.strm_pool.specs.Limits.{most_workers};
ghost use Rattle.strm_shared.specs.RunsLayout.{AreReady, HasRoom, IsCarried, IsEmpty, IsRoomFor};

use super::crew::{Crew, Done};
use super::room::Room;
use super::site::Site;
use super::started::{finish, start};
use crate::desks::Desks;
use crate::gate::Gate;
use crate::name::Name;
use crate::outcome::{Ends, Outcome};
use std::sync::Wait;
use std::thread::{Scope, Threads};
use strm_pool::{AllReplies, Lines, MOST_WORKERS};

// All workers: those that are not started, and what the others returned. A scope takes and returns only values that may be
// dropped, which desks may not.
pub(super) struct Carried<N: Name> {
    crew: Crew<N>,
    done: Done<N>,
}

impl<N: Name> Drop for Carried<N> {
    fn drop(self) {
        let Carried { crew, done } = self;
        let Crew { desks, rooms: _ } = crew;
        desks.forget();
        let Done {
            desks,
            replies: _,
            ends: _,
        } = done;
        desks.forget();
    }
}

impl<N: Name> Carried<N> {
    // Workers at these desks, none of them started.
    pub(super) fn new(desks: Desks<N>, room: Room) -> Carried<N>
        ensures desks { result.crew.desks ≡ desks }
        ensures carried { (keeps : _) (parts : _) → length parts ≡ length desks → IsRoomFor keeps parts room
            → IsCarried keeps parts result }
    {
        let most = desks.len();
        prove!(most <= MOST_WORKERS);
        let Room {
            rooms,
            replies,
            ends,
        } = room;
        Carried {
            crew: Crew { desks, rooms },
            done: Done {
                desks: Desks::new(),
                replies,
                ends,
            },
        }
    }

    // Serves each part on its own thread.
    pub(super) fn serve<'s, E, R: Threads + Wait + Sync, G: Gate>(
        mut self,
        scope: &Scope<'s, E>,
        site: &'s Site<'s, N, R, G>,
        parts: &'s [Lines],
    ) -> Carried<N>
    where
        N: Send + Sync,
        requires { IsCarried site.now.keeps parts.now self }
        ensures worked { AllWorkedKeeping site.now.keeps N.Name parts.now self.crew.desks result.done.ends.items
            result.done.replies.items result.done.desks }
        ensures spent { result.crew.desks ≡ [] }
    {
        serve_each(scope, site, parts, &mut self.crew, &mut self.done);
        self
    }

    // What the workers returned, after all have ended.
    pub(super) fn outcome(self) -> Outcome<N>
        requires { self.crew.desks ≡ [] }
        ensures desks { result.desks ≡ self.done.desks }
        ensures replies { result.replies ≡ self.done.replies.items }
        ensures ends { result.ends ≡ self.done.ends.items }
    {
        let Carried { crew, done } = self;
        let Crew { desks, rooms: _ } = crew;
        desks.end();
        let Done {
            desks,
            replies,
            ends,
        } = done;
        Outcome {
            desks,
            replies: AllReplies::of(replies),
            ends: Ends::of(ends),
        }
    }
}

// Starts the last worker, goes on with those before it, and then waits for it.
fn serve_each<'s, E, N: Name + Send + Sync, R: Threads + Wait + Sync, G: Gate>(
    scope: &Scope<'s, E>,
    site: &'s Site<'s, N, R, G>,
    parts: &'s [Lines],
    crew: &mut Crew<N>,
    done: &mut Done<N>,
)
    requires few { length parts.now ≤ most_workers }
    requires desks { length crew.old.desks ≡ length parts.now }
    requires ready { AreReady site.now.keeps parts.now crew.old.rooms.items }
    requires room { HasRoom (length parts.now) done.old }
    requires empty { IsEmpty done.old }
    ensures worked { AllWorkedKeeping site.now.keeps N.Name parts.now crew.old.desks done.new.ends.items
        done.new.replies.items done.new.desks }
    ensures room { (n : ℕ) → HasRoom (length parts.now + n) done.old → HasRoom n done.new }
    ensures spent { crew.new.desks ≡ [] }
{
    let Some((lines, earlier)) = parts.split_last() else {
        return;
    };
    let worker = crew.take_last();
    let number = earlier.len() as u8;
    let started = start(scope, site, number, lines.items(), worker);
    serve_each(scope, site, earlier, crew, done);
    done.push(finish(site.rt, started));
}
