//! What must be free before a module treats a message.
ghost use Rattle.std.specs.Prelude.{◌≡◌, ◌≤◌, [], ◌∷◌, IsTrue, drop, false, length, nat_le, true};
ghost use Rattle.strm_data.specs.DataStore.{class_infos};
ghost use Rattle.strm_scheduler.specs.Needs.{AreAllocated, are_fitted, are_free, as_large, can_be_free, can_wait, fitting, fitting_in, has_blocks};

use arrayvec::ArrayVec;
use strm_pool::{ClassInfo, Pool, ShortList};

/// How many sizes a need may have.
pub const MOST_SIZES: usize = 8;

/// What a module needs before it treats a message. For each size, this is what `allocb` takes: a message block, and a data block
/// of at least this many bytes. Beside these it needs message blocks alone, as `dupb` and `dupmsg` take them. Those two may still be
/// refused as `RefMax`: a data block has at most 255 references, which no need counts.
#[derive(Debug, Drop)]
pub struct Need {
    /// The sizes, in bytes.
    pub sizes: ShortList<u32, MOST_SIZES>,
    /// The number of message blocks that are needed beside those for the sizes.
    pub mblks: u32,
    /// Whether the module is to get the message later, for a reason of its own.
    pub later: bool,
}

impl Need {
    /// Makes a need of nothing.
    pub fn none() -> Need
        ensures { result ≡ record { sizes = []; mblks = 0; later = false } }
    {
        Need {
            sizes: ShortList::of(ArrayVec::new()),
            mblks: 0,
            later: false,
        }
    }

    /// Makes a need of one block of this size.
    pub fn block(size: u32) -> Need
        ensures { result ≡ record { sizes = size ∷ []; mblks = 0; later = false } }
    {
        let mut sizes = ArrayVec::new();
        sizes.push(size);
        Need {
            sizes: ShortList::of(sizes),
            mblks: 0,
            later: false,
        }
    }

    /// Says whether the module takes the message now, and all is free. Takes a step for each class and size, and for each two sizes.
    pub fn is_free(&self, pool: &Pool) -> bool
        ensures { result ≡ are_free self.now pool.now.arena }
    {
        let free = pool.census().free;
        !self.later
            && self.has_blocks(free)
            && all_fit(pool, false, self.sizes.items(), self.sizes.items())
    }

    /// Says whether the pool has as much, free or not. All its blocks count, also those of messages on queues.
    pub fn can_be_free(&self, pool: &Pool) -> bool
        ensures { result ≡ can_be_free self.now pool.now.arena }
    {
        pool.lawful();
        let census = pool.census();
        let all = census.free + census.queued + census.held;
        self.has_blocks(all) && all_fit(pool, true, self.sizes.items(), self.sizes.items())
    }

    // Whether the queue is to rest until as much is free.
    pub(crate) fn can_wait(&self, pool: &Pool) -> bool
        ensures { result ≡ can_wait self.now pool.now.arena }
    {
        !(self.later || self.is_free(pool)) && self.can_be_free(pool)
    }

    /// Law: if what is needed is free, `allocb` of each size, in their order, succeeds. Then the message blocks are free that are
    /// needed beside them. Does nothing.
    #[tactic(auto, using(crate::proofs::Needing::granted_now))]
    pub fn granted(&self, pool: &Pool)
        requires { IsTrue (are_free self.now pool.now.arena) }
        ensures { AreAllocated self.now.sizes self.now.mblks pool.now.arena }
    {
        pool.lawful();
    }

    // Whether the need has at most this many message blocks.
    fn has_blocks(&self, blocks: u32) -> bool
        ensures { result ≡ has_blocks self.now blocks }
    {
        let sizes = self.sizes.items().len() as u32;
        sizes <= blocks && self.mblks <= blocks - sizes
    }
}

// Whether for each of the sizes that are left as many data blocks fit it, of all or of the free ones, as sizes are as large.
fn all_fit(pool: &Pool, all: bool, sizes: &[u32], left: &[u32]) -> bool
    requires few { length sizes.now ≤ 8 }
    ensures { result ≡ are_fitted all (class_infos pool.now.arena.store) sizes.now left.now }
{
    match left {
        [] => true,
        [size, rest @ ..] => {
            fits(pool, all, *size, 0, as_large(*size, sizes)) && all_fit(pool, all, sizes, rest)
        }
    }
}

// How many of these sizes are at least this one.
fn as_large(size: u32, sizes: &[u32]) -> u32
    requires few { length sizes.now ≤ 8 }
    ensures value { result ≡ as_large size sizes.now }
    ensures few { result ≤ length sizes.now }
{
    match sizes {
        [] => 0,
        [first, rest @ ..] => u32::from(*first >= size) + as_large(size, rest),
    }
}

// Whether at least this many data blocks of the classes from this one on fit a size.
fn fits(pool: &Pool, all: bool, size: u32, class: u8, count: u32) -> bool
    ensures { result ≡ nat_le count (fitting all size (drop class (class_infos pool.now.arena.store))) }
{
    pool.lawful();
    match pool.class_info(class) {
        None => count == 0,
        Some(info) => fits(
            pool,
            all,
            size,
            class + 1,
            count.saturating_sub(fitting_in(&info, all, size)),
        ),
    }
}

// The number of a class's data blocks, all or the free ones, if they fit a size.
fn fitting_in(info: &ClassInfo, all: bool, size: u32) -> u32
    ensures { result ≡ fitting_in all size info.now }
{
    if info.size < size {
        0
    } else if all {
        info.total
    } else {
        info.free
    }
}
