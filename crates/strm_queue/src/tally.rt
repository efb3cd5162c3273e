//! What is stored of a queue's messages, so that `qsize`, `bcanput` and `putq` walk along no list.
ghost use Rattle.std.specs.Prelude.{◌≡◌, ◌+◌, ◌-◌, ◌<◌, ◌≤◌, ◌^◌, ℕ, IsTrue, false, None, Some, is_some, true};
ghost use Rattle.std.specs.Option.{ForSome, IfNone, IfSome};
ghost use Rattle.strm_queue.specs.Flow.{band_of_rank, has_band};
ghost use Rattle.strm_links.specs.Rows.{is_some_of};
ghost use Rattle.strm_queue.specs.Limits.{ranks};
ghost use Rattle.strm_queue.specs.Tallies.{IsFollowing, IsMarkTrue, IsNumbered, IsRankFrom, IsRankTo, IsUseTrue, count_of, end_after_joining, end_after_leaving, first_in, has_rank, last_in, no_tally, one_less, one_more, with_full_mark, with_count, with_ends, AreAmong, without_front};

use crate::band_set::BandSet;
use crate::limits::{BANDS, HIGH_RANK, RANKS};
use std::marker::Model;
use std::mem::size_of;
use strm_links::Slot;
use strm_mblk::BlockNo;

// A message as it is on a queue: its head, rank and bytes, and the heads of the messages before and after it, if any.
#[derive(Clone, Copy, Debug)]
pub(crate) struct Placed {
    pub(crate) head: BlockNo,
    pub(crate) rank: u16,
    pub(crate) size: u32,
    pub(crate) ahead: Option<BlockNo>,
    pub(crate) behind: Option<BlockNo>,
}

// The first messages of a rank, which leave together: their rank, number and bytes, and the head of the first message that is left.
#[derive(Clone, Copy, Debug)]
pub(crate) struct Leaving {
    pub(crate) rank: u16,
    pub(crate) len: u32,
    pub(crate) bytes: u32,
    pub(crate) first: BlockNo,
}

// What is stored of a queue's messages: their number and bytes, the bytes of each band, and the bands that are full. For
// each rank it has the heads of the first and last message. `used` is the bands above 0 that, as ranks, have messages. Band
// 0, which most messages have, is left out: its first head says whether it has messages.
#[derive(Debug, Drop)]
pub(crate) struct Tally {
    len: u32,
    counts: [u32; BANDS],
    // It is not beside `len`: otherwise the compiler adds to both as one vector, in more instructions.
    bytes: u32,
    full: BandSet,
    firsts: [Slot; RANKS],
    lasts: [Slot; RANKS],
    used: BandSet,
}

const _: () = prove!(size_of::<Tally>() == 3152);

impl Model for Tally {
    ghost use Rattle.std.specs.Prelude.{None, is_some, slice_index_or, slice_set};
    ghost use Rattle.strm_queue.specs.Tallies.{Tally};

    ghost Value = { Tally };

    ghost view = { λ t. record { len = t.len; bytes = t.bytes; counts = t.counts; full = t.full; firsts = t.firsts; lasts = t.lasts; used = slice_set t.used 0 (is_some (slice_index_or t.firsts 0 None)) } };
}

impl Tally {
    // What is stored of an empty queue.
    pub(crate) fn new() -> Tally
        ensures { result ≡ no_tally }
    {
        Tally {
            len: 0,
            counts: [0; BANDS],
            bytes: 0,
            full: BandSet::new(),
            firsts: [Slot::none(); RANKS],
            lasts: [Slot::none(); RANKS],
            used: BandSet::new(),
        }
    }

    // The number of messages.
    pub(crate) fn len(&self) -> u32
        ensures { result ≡ self.now.len }
    {
        self.len
    }

    // The number of their bytes.
    pub(crate) fn bytes(&self) -> u32
        ensures { result ≡ self.now.bytes }
    {
        self.bytes
    }

    // The number of bytes of a band.
    pub(crate) fn count(&self, band: u8) -> u32
        ensures { result ≡ count_of self.now band }
    {
        self.counts[usize::from(band)]
    }

    // The number of bytes of each band.
    pub(crate) fn counts(&self) -> &[u32; BANDS]
        ensures { result.now ≡ self.now.counts }
    {
        &self.counts
    }

    // Whether a band is full.
    pub(crate) fn is_full(&self, band: u8) -> bool
        ensures { result ≡ has_band self.now.full band }
    {
        self.full.has(band)
    }

    // The head of the first message of a rank, if any.
    pub(crate) fn first(&self, rank: u16) -> Option<BlockNo>
        requires { rank < ranks }
        ensures { result ≡ first_in self.now rank }
    {
        self.firsts[usize::from(rank)].get()
    }

    // The head of the last message of a rank, if any.
    pub(crate) fn last(&self, rank: u16) -> Slot
        requires { rank < ranks }
        ensures { result ≡ last_in self.now rank }
    {
        self.lasts[usize::from(rank)]
    }

    // The smallest rank that is this one or above and has messages, if any.
    pub(crate) fn rank_at_least(&self, rank: u16) -> Option<u16>
        requires { rank < ranks }
        ensures some { IfSome result (λ found. IsRankFrom self.now rank found) }
        ensures none { IfNone result ((x : ℕ) → rank ≤ x → x < ranks → has_rank self.now x ≡ false) }
    {
        self.used.marks_each();
        if rank == 0 && self.first(0).is_some() {
            return Some(0);
        }
        if rank < HIGH_RANK {
            if let Some(band) = self.used.at_least(rank.max(1) as u8) {
                return Some(u16::from(band));
            }
        }
        self.first(HIGH_RANK)?;
        Some(HIGH_RANK)
    }

    // The greatest rank that is this one or below and has messages, if any.
    pub(crate) fn rank_at_most(&self, rank: u16) -> Option<u16>
        requires { rank < ranks }
        ensures some { IfSome result (λ found. IsRankTo self.now rank found) }
        ensures none { IfNone result ((x : ℕ) → x ≤ rank → has_rank self.now x ≡ false) }
    {
        self.used.marks_each();
        if rank == HIGH_RANK && self.first(HIGH_RANK).is_some() {
            return Some(HIGH_RANK);
        }
        if rank > 0 {
            match self.used.at_most(rank.min(HIGH_RANK - 1) as u8) {
                Some(band) if band > 0 => return Some(u16::from(band)),
                _ => {}
            }
        }
        self.first(0)?;
        Some(0)
    }

    // Counts a message that has joined the queue; `hiwat` is the high water mark of its band. If it is known to follow the last
    // message of its rank, only that changes beside the counts.
    #[inline(always)]
    #[tactic(auto, using(crate::proofs::Counting::joined_behind))]
    pub(crate) fn join(&mut self, hiwat: u32, placed: Placed, follows: bool)
        requires rank { placed.rank < ranks }
        requires numbered { IsNumbered placed }
        requires len { self.old.len + 1 < 2 ^ 32 }
        requires bytes { self.old.bytes + placed.size < 2 ^ 32 }
        requires count { count_of self.old (band_of_rank placed.rank) + placed.size < 2 ^ 32 }
        requires marked { IsMarkTrue hiwat (band_of_rank placed.rank) self.old }
        requires last { placed.behind ≡ None
            → end_after_joining (last_in self.old placed.rank) placed.ahead placed.head ≡ Some placed.head }
        requires follows { IsTrue follows → IsFollowing placed self.old }
        ensures { self.new ≡ one_more hiwat placed self.old }
    {
        let Placed {
            head,
            rank,
            size,
            ahead,
            behind,
        } = placed;
        self.len += 1;
        self.bytes += size;
        self.grow(hiwat, band_of(rank), size);
        if follows {
            self.lasts[usize::from(rank)] = Slot::some(head);
            return;
        }
        let first = end_after_joining(self.firsts[usize::from(rank)], behind, head);
        let last = last_after_joining(self.lasts[usize::from(rank)], ahead, behind, head);
        self.set_ends(rank, first, last, true);
    }

    // Counts out a message that has left the queue; `hiwat` is the high water mark of its band.
    #[inline(always)]
    #[tactic(auto, using(crate::proofs::Counting::left_front, crate::proofs::bands::Used::used_still))]
    pub(crate) fn leave(&mut self, hiwat: u32, placed: Placed)
        requires rank { placed.rank < ranks }
        requires numbered { IsNumbered placed }
        requires len { 1 ≤ self.old.len }
        requires bytes { placed.size ≤ self.old.bytes }
        requires count { placed.size ≤ count_of self.old (band_of_rank placed.rank) }
        requires marked { IsMarkTrue hiwat (band_of_rank placed.rank) self.old }
        requires first { placed.ahead ≡ None → first_in self.old placed.rank ≡ Some placed.head }
        requires more { is_some_of placed.head (last_in self.old placed.rank) ≡ false → is_some placed.behind ≡ true }
        requires used { IsUseTrue placed.rank self.old }
        ensures { self.new ≡ one_less hiwat placed self.old }
    {
        let Placed {
            head,
            rank,
            size,
            ahead,
            behind,
        } = placed;
        let band = band_of(rank);
        self.len -= 1;
        self.bytes -= size;
        self.shrink(hiwat, band, size);
        let last = self.lasts[usize::from(rank)];
        // Most messages are the queue's first, and not the last of their rank. Then the next one is of the same rank, and only the
        // rank's first one changes.
        if ahead.is_none() && !last.is(head) {
            self.firsts[usize::from(rank)] = Slot::of(behind);
            return;
        }
        let first = first_before_leaving(self.firsts[usize::from(rank)], ahead, head);
        let next_first = end_after_leaving(first, last, behind, head);
        let next_last = end_after_leaving(last, first, ahead, head);
        self.set_ends(rank, next_first, next_last, next_first.get().is_some());
    }

    // Counts out the first messages of a rank, of which some are left; `hiwat` is the high water mark of its band.
    #[tactic(auto, using(crate::proofs::bands::Used::used_still))]
    pub(crate) fn leave_front(&mut self, hiwat: u32, leaving: Leaving)
        requires among { AreAmong leaving self.old }
        requires marked { IsMarkTrue hiwat (band_of_rank leaving.rank) self.old }
        requires some { is_some (first_in self.old leaving.rank) ≡ true }
        ensures { self.new ≡ without_front hiwat leaving self.old }
    {
        self.len -= leaving.len;
        self.bytes -= leaving.bytes;
        self.shrink(hiwat, band_of(leaving.rank), leaving.bytes);
        self.firsts[usize::from(leaving.rank)] = Slot::some(leaving.first);
    }

    // Adds bytes to a band. Writes its full mark only if that changes: if the band becomes full.
    #[inline(always)]
    fn grow(&mut self, hiwat: u32, band: u8, size: u32)
        requires count { count_of self.old band + size < 2 ^ 32 }
        requires marked { IsMarkTrue hiwat band self.old }
        ensures { self.new ≡ with_count hiwat band (count_of self.old band + size) self.old }
    {
        let before = self.count(band);
        let count = before + size;
        self.counts[usize::from(band)] = count;
        if hiwat <= count && before < hiwat {
            self.full.insert(band);
        }
    }

    // Takes bytes from a band. Writes its full mark only if that changes: if the band was full and no longer is.
    #[inline(always)]
    fn shrink(&mut self, hiwat: u32, band: u8, size: u32)
        requires count { size ≤ count_of self.old band }
        requires marked { IsMarkTrue hiwat band self.old }
        ensures { self.new ≡ with_count hiwat band (count_of self.old band - size) self.old }
    {
        let before = self.count(band);
        let count = before - size;
        self.counts[usize::from(band)] = count;
        if hiwat <= before && count < hiwat {
            self.full.remove(band);
        }
    }

    // Sets or clears the full mark of a band whose high water mark is now `hiwat`.
    pub(crate) fn recount(&mut self, hiwat: u32, band: u8)
        ensures { self.new ≡ with_full_mark hiwat band self.old }
    {
        self.set_count(hiwat, band, self.count(band));
    }

    // Stores the number of bytes of a band, and its full mark.
    fn set_count(&mut self, hiwat: u32, band: u8, count: u32)
        ensures { self.new ≡ with_count hiwat band count self.old }
    {
        self.counts[usize::from(band)] = count;
        self.full.set(band, hiwat <= count);
    }

    // Stores the heads of the first and the last message of a rank, and whether it has messages.
    #[inline(always)]
    fn set_ends(&mut self, rank: u16, first: Slot, last: Slot, used: bool)
        requires rank { rank < ranks }
        requires used { used ≡ is_some first }
        ensures { self.new ≡ with_ends rank first last self.old }
    {
        self.used.marks_each();
        self.firsts[usize::from(rank)] = first;
        self.lasts[usize::from(rank)] = last;
        let band = band_of(rank);
        if band > 0 {
            self.used.set(band, used);
        }
    }
}

// The band that a message of this rank counts with: high priority counts with band 0.
pub(crate) fn band_of(rank: u16) -> u8
    ensures { result ≡ band_of_rank rank }
{
    u8::try_from(rank).unwrap_or(0)
}

// An end of a rank after a message joined it: the new message if the rank was empty or its end is `beside`, else the old
// end.
fn end_after_joining(end: Slot, beside: Option<BlockNo>, head: BlockNo) -> Slot
    requires { head < 2 ^ 32 - 1 }
    ensures { result ≡ end_after_joining end beside head }
{
    match end.get() {
        Some(at) if beside != Some(at) => end,
        _ => Slot::some(head),
    }
}

// The last message of a rank after a message joined it. If that message went last on the queue, it is this one.
#[inline(always)]
fn last_after_joining(
    end: Slot,
    ahead: Option<BlockNo>,
    behind: Option<BlockNo>,
    head: BlockNo,
) -> Slot
    requires head { head < 2 ^ 32 - 1 }
    requires last { behind ≡ None → end_after_joining end ahead head ≡ Some head }
    ensures { result ≡ end_after_joining end ahead head }
{
    match behind {
        Some(_) => end_after_joining(end, ahead, head),
        None => Slot::some(head),
    }
}

// The first message of a rank before a message leaves it: `end`. If that message is the queue's first, it is this one.
#[inline(always)]
fn first_before_leaving(end: Slot, ahead: Option<BlockNo>, head: BlockNo) -> Slot
    requires head { head < 2 ^ 32 - 1 }
    requires first { ahead ≡ None → end ≡ Some head }
    ensures { result ≡ end }
{
    match ahead {
        Some(_) => end,
        None => Slot::some(head),
    }
}

// An end of a rank after a message left it. If that message was the end: `beside`, or none if it was the rank's only
// message. Otherwise: the old end.
fn end_after_leaving(end: Slot, other: Slot, beside: Option<BlockNo>, head: BlockNo) -> Slot
    requires head { head < 2 ^ 32 - 1 }
    requires beside { ForSome beside (λ at. at < 2 ^ 32 - 1) }
    ensures { result ≡ end_after_leaving end other beside head }
{
    if !end.is(head) {
        return end;
    }
    if other.is(head) {
        Slot::none()
    } else {
        Slot::of(beside)
    }
}
