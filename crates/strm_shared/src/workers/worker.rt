//! A worker, with its desk and its replies, and what it does on its thread.
ghost use Rattle.std.specs.Prelude.{◌≡◌};
ghost use Rattle.strm_shared.specs.Keeping.{WorkedKeeping};
ghost use Rattle.strm_shared.specs.RunsLayout.{IsReady};

use super::site::Site;
use crate::desk::Desk;
use crate::gate::Gate;
use crate::name::Name;
use crate::outcome::End;
use std::sync::Wait;
use strm_pool::{Line, Reply};

// A worker: its desk, its replies, with room for all that are kept, and how it ended. Threads take and return only values that
// may be dropped; a worker that is dropped loses its desk.
pub(super) struct Worker<N: Name> {
    pub(super) desk: Desk<N>,
    pub(super) replies: Vec<Reply>,
    pub(super) end: End,
}

impl<N: Name> Drop for Worker<N> {
    fn drop(self) {
        let Worker {
            desk,
            replies: _,
            end: _,
        } = self;
        desk.forget();
    }
}

impl<N: Name> Worker<N> {
    // The worker's parts.
    pub(super) fn apart(self) -> (Desk<N>, Vec<Reply>, End)
        ensures { (result.0 ≡ self.desk) × (result.1 ≡ self.replies) × (result.2 ≡ self.end) }
    {
        let Worker { desk, replies, end } = self;
        (desk, replies, end)
    }

    // Serves the lines, up to the first that is refused, and keeps the replies if the site says so.
    pub(super) fn work<R: Wait, G: Gate>(
        self,
        site: &Site<N, R, G>,
        number: u8,
        lines: &[Line],
    ) -> Worker<N>
        requires { IsReady site.now.keeps lines.now self.replies }
        ensures { WorkedKeeping site.now.keeps N.Name lines.now self.desk result.end result.replies.items result.desk }
    {
        let Worker {
            mut desk,
            mut replies,
            end: _,
        } = self;
        for i in 0..lines.len() {
            let line = &lines[i];
            site.gate.before(number, line.number);
            let mut reply = Reply::Done;
            let answer = site
                .shared
                .serve_into(site.rt, &mut desk, line.number, &line.call, &mut reply);
            site.gate.after(number, line.number);
            match answer {
                Ok(()) => {
                    if site.keeps {
                        replies.push_reserved(reply);
                    }
                }
                Err(why) => {
                    let end = End::Refused(why);
                    return Worker { desk, replies, end };
                }
            }
        }
        let end = End::Done;
        Worker { desk, replies, end }
    }
}
