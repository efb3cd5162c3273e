//! Workers before they start, and after they have ended.
ghost use Rattle.std.specs.Prelude.{◌≡◌, ◌+◌, ◌<◌, ◌++◌, ◌∷◌, [], ℕ, length};
ghost use Rattle.strm_shared.specs.declared.outcome.End.TheVariants.{NotStarted};
ghost use Rattle.strm_shared.specs.RunsLayout.{HasRoom};

use super::worker::Worker;
use crate::desks::Desks;
use crate::name::Name;
use crate::outcome::End;
use strm_pool::{Listed, Replies, Reply};

// Workers that are not started: their desks, and room for the replies to each.
pub(super) struct Crew<N: Name> {
    pub(super) desks: Desks<N>,
    pub(super) rooms: Vec<Vec<Reply>>,
}

impl<N: Name> Crew<N> {
    // Takes the last worker.
    pub(super) fn take_last(&mut self) -> Worker<N>
        requires { (0 < length self.old.desks) × (0 < length self.old.rooms.items) }
        ensures desks { self.old.desks ≡ self.new.desks ++ result.desk ∷ [] }
        ensures rooms { self.old.rooms.items ≡ self.new.rooms.items ++ result.replies ∷ [] }
        ensures end { result.end ≡ NotStarted }
    {
        Worker {
            desk: self.desks.take_last(),
            replies: self.rooms.take_last(),
            end: End::NotStarted,
        }
    }
}

// What workers returned that have ended.
pub(super) struct Done<N: Name> {
    pub(super) desks: Desks<N>,
    pub(super) replies: Vec<Replies>,
    pub(super) ends: Vec<End>,
}

impl<N: Name> Done<N> {
    // Adds a worker that has ended; there is room for it.
    pub(super) fn push(&mut self, worker: Worker<N>)
        requires { HasRoom 1 self.old }
        ensures desks { self.new.desks ≡ self.old.desks ++ worker.desk ∷ [] }
        ensures replies { self.new.replies.items ≡ self.old.replies.items ++ worker.replies.items ∷ [] }
        ensures ends { self.new.ends.items ≡ self.old.ends.items ++ worker.end ∷ [] }
        ensures room { (n : ℕ) → HasRoom (n + 1) self.old → HasRoom n self.new }
    {
        let (desk, replies, end) = worker.apart();
        self.desks.push(desk);
        self.replies.push_reserved(Listed::of(replies));
        self.ends.push_reserved(end);
    }
}
