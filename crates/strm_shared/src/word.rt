//! The word of a shared pool: a stamp and the census at it, in 64 bits.
ghost use Rattle.std.specs.Prelude.{◌≡◌, ◌+◌, ◌≤◌};
ghost use Rattle.strm_mblk.specs.Limits.{most_message_blocks};
ghost use Rattle.strm_shared.specs.Limits.{most_stamp};
ghost use Rattle.strm_shared.specs.Pairs.{count_in};
ghost use Rattle.strm_shared.specs.Words.{pair_of, word_of};

use strm_mblk::MOST_MESSAGE_BLOCKS;
use strm_pool::Census;

// Each count in a word is below this number, a power of 2.
const COUNT_RANGE: u64 = MOST_MESSAGE_BLOCKS as u64 + 1;

// The word of a stamp and a census. It leaves out the held blocks, which are the rest of the pool.
pub(crate) fn pack(pair: (u64, Census)) -> u64
    requires unspent { pair.0 ≤ most_stamp }
    requires few { count_in pair.1 ≤ most_message_blocks }
    ensures { result ≡ word_of pair }
{
    let (stamp, census) = pair;
    (stamp * COUNT_RANGE + u64::from(census.free)) * COUNT_RANGE + u64::from(census.queued)
}

// The stamp and the census of a word, in a pool of `blocks` message blocks.
pub(crate) fn unpack(blocks: u32, word: u64) -> (u64, Census)
    requires within { (pair_of blocks word).1.free + (pair_of blocks word).1.queued ≤ blocks }
    ensures { result ≡ pair_of blocks word }
{
    let free = (word / COUNT_RANGE % COUNT_RANGE) as u32;
    let queued = (word % COUNT_RANGE) as u32;
    let census = Census {
        free,
        queued,
        held: blocks - (free + queued),
    };
    (word / COUNT_RANGE / COUNT_RANGE, census)
}
