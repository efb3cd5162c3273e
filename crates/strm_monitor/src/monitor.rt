//! The monitor: it looks at the census again and again, without the lock.
ghost use Rattle.std.specs.Prelude.{length};
ghost use Rattle.strm_monitor.specs.Watching.{Watched};

use strm_shared::{Desk, Name, Shared};

/// What a monitor saw.
#[derive(Clone, Copy)]
pub struct Seen {
    /// The number of looks.
    pub looks: u32,
    /// The smallest number of free message blocks in any look; 2^32 - 1 without a look.
    pub fewest: u32,
}

/// Looks at the census until the stamp is at least `last`, at most `most` times, and returns what it saw. No look waits for the
/// lock.
pub fn watch<N: Name>(shared: &Shared<N>, desk: &mut Desk<N>, last: u64, most: u32) -> Seen
    ensures { Watched (length N.opened.arena.held) last most desk.old result desk.new }
{
    let mut fewest = u32::MAX;
    for looks in 0..most {
        desk.lawful();
        let (stamp, census) = shared.census_now(desk);
        fewest = fewest.min(census.free);
        if last <= stamp {
            return Seen {
                looks: looks + 1,
                fewest,
            };
        }
    }
    Seen {
        looks: most,
        fewest,
    }
}
