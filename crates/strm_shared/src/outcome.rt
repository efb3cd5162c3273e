//! What workers return: their desks, their replies, and how each ended.
ghost use Rattle.std.specs.Prelude.{◌≡◌};

use crate::desks::Desks;
use crate::name::Name;
use strm_pool::{AllReplies, Listed, Refusal};

/// How a worker ended.
#[derive(Clone, Copy, Debug, PartialEq, Eq)]
pub enum End {
    /// All its lines were served.
    Done,
    /// A line was refused, and no later line was served. If the refusal is `Worn` or `TraceFull`, the desk has seen the stamp
    /// that shows it.
    Refused(Refusal),
    /// The worker was not started, since there was no thread for it.
    NotStarted,
}

/// How each worker ended: worker 0, then worker 1, and so on.
pub type Ends = Listed<End>;

/// What workers return: their desks, the replies to each in order, one for each served line, and how each ended.
pub struct Outcome<N: Name> {
    pub desks: Desks<N>,
    pub replies: AllReplies,
    pub ends: Ends,
}

/// What workers return without replies: their desks, and how each ended.
pub struct BareOutcome<N: Name> {
    pub desks: Desks<N>,
    pub ends: Ends,
}

impl<N: Name> Outcome<N> {
    // The outcome without the replies.
    pub(crate) fn bare(self) -> BareOutcome<N>
        ensures { (result.desks ≡ self.desks) × (result.ends ≡ self.ends) }
    {
        let Outcome {
            desks,
            replies: _,
            ends,
        } = self;
        BareOutcome { desks, ends }
    }
}
