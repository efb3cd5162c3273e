//! Sets of bands as 256 bits: the wanted bands, the full ones, and those that have messages.
ghost use Rattle.std.specs.Prelude.{◌≡◌, ◌+◌, ◌<◌, ◌≤◌, ℕ, Bool, true, false, List, length, slice_index_or, slice_set};
ghost use Rattle.std.specs.Int.{bit_at};
ghost use Rattle.std.specs.Option.{IfNone, IfSome};
ghost use Rattle.strm_queue.specs.BandSets.{IsFirstFrom, IsHighestTo, IsLastTo, IsLowestFrom};
ghost use Rattle.strm_queue.specs.Flow.{bands_where, every_band, has_band, no_marks, some_relieved, still_wanted};
ghost use Rattle.strm_queue.specs.Limits.{bands};

use crate::limits::BANDS;
use crate::marks::Marks;
use std::marker::Model;

// The bits of a word.
const WORD_BITS: u8 = 64;

const WORDS: u8 = (BANDS / WORD_BITS as usize) as u8;

// A set of bands, as bits: bit `band % WORD_BITS` of word `band / WORD_BITS` says whether it has the band.
#[derive(Debug, Drop)]
pub(crate) struct BandSet {
    words: [u64; WORDS as usize],
}

impl Model for BandSet {
    ghost use Rattle.std.specs.Prelude.{Bool, List};
    ghost use Rattle.strm_queue.specs.BandSets.{bands_in};

    ghost Value = { List Bool };

    ghost view = { bands_in };
}

impl BandSet {
    // The set that has no band.
    pub(crate) fn new() -> BandSet
        ensures { result ≡ bands_where (λ band. false) }
    {
        BandSet {
            words: [0; WORDS as usize],
        }
    }

    // Whether the set has a band.
    #[tactic(auto, using(std::proofs::lemmas::Nat::Bits::shr_and_one, crate::proofs::bands::Bands::has_band_where))]
    pub(crate) fn has(&self, band: u8) -> bool
        ensures { result ≡ has_band self.now band }
    {
        self.words[usize::from(band / WORD_BITS)] >> (band % WORD_BITS) & 1 == 1
    }

    // Adds a band.
    pub(crate) fn insert(&mut self, band: u8)
        ensures { self.new ≡ slice_set self.old band true }
    {
        self.words[usize::from(band / WORD_BITS)] |= 1 << (band % WORD_BITS);
    }

    // Takes a band out.
    pub(crate) fn remove(&mut self, band: u8)
        ensures { self.new ≡ slice_set self.old band false }
    {
        self.words[usize::from(band / WORD_BITS)] &= !(1 << (band % WORD_BITS));
    }

    // Adds a band, or takes it out.
    pub(crate) fn set(&mut self, band: u8, so: bool)
        ensures { self.new ≡ slice_set self.old band so }
    {
        if so {
            self.insert(band);
        } else {
            self.remove(band);
        }
    }

    // The smallest band of the set that is this one or above, if any.
    pub(crate) fn at_least(&self, band: u8) -> Option<u8>
        ensures some { IfSome result (λ found. IsFirstFrom self.now band found) }
        ensures none { IfNone result ((x : ℕ) → band ≤ x → has_band self.now x ≡ false) }
    {
        let mut from = band % WORD_BITS;
        for word in band / WORD_BITS..WORDS {
            if let Some(place) = lowest_from(self.words[usize::from(word)], from) {
                return Some(word * WORD_BITS + place);
            }
            from = 0;
        }
        None
    }

    // The greatest band of the set that is this one or below, if any.
    pub(crate) fn at_most(&self, band: u8) -> Option<u8>
        ensures some { IfSome result (λ found. IsLastTo self.now band found) }
        ensures none { IfNone result ((x : ℕ) → x ≤ band → has_band self.now x ≡ false) }
    {
        let mut to = band % WORD_BITS;
        for word in (0..=band / WORD_BITS).rev() {
            if let Some(place) = highest_to(self.words[usize::from(word)], to) {
                return Some(word * WORD_BITS + place);
            }
            to = WORD_BITS - 1;
        }
        None
    }

    // The smallest band of the set above this one, if any.
    #[tactic(auto, using(crate::proofs::bands::Bands::unmarked_past))]
    fn above(&self, band: u8) -> Option<u8>
        ensures some { IfSome result (λ found. IsFirstFrom self.now (band + 1) found) }
        ensures none { IfNone result ((x : ℕ) → band + 1 ≤ x → has_band self.now x ≡ false) }
    {
        self.lawful();
        self.at_least(band.checked_add(1)?)
    }

    // Removes each band that has drained: it has at most as many bytes as its low water mark. Says whether there was any.
    fn relieve_each(&mut self, counts: &[u32; BANDS], marks: &[Marks; BANDS]) -> bool
        ensures left { self.new ≡ still_wanted self.old (λ band. slice_index_or counts.now band 0)
            (λ band. (slice_index_or marks.now band no_marks).lowat) }
        ensures some { result ≡ some_relieved self.old (λ band. slice_index_or counts.now band 0)
            (λ band. (slice_index_or marks.now band no_marks).lowat) }
    {
        self.lawful();
        let mut some = false;
        let mut next = self.at_least(0);
        while let Some(band) = next {
            if counts[usize::from(band)] <= marks[usize::from(band)].lowat {
                self.remove(band);
                some = true;
            }
            next = self.above(band);
        }
        some
    }

    // Law: a set has one mark for each band. Does nothing.
    pub(crate) fn lawful(&self)
        ensures { length self.now ≡ length every_band }
    {
        let _ = &self.words;
    }

    // Law: a set has as many marks as there are bands. Does nothing.
    #[tactic(auto, using(crate::proofs::bands::Bands::length_every_band))]
    pub(crate) fn marks_each(&self)
        ensures { length self.now ≡ bands }
    {
        self.lawful();
    }
}

// The wanted bands of a queue, and whether there is any. Most queues have none, and then `relieve` runs no loop.
#[derive(Debug, Drop)]
pub(crate) struct Wanted {
    set: BandSet,
    any: bool,
}

impl Model for Wanted {
    ghost use Rattle.std.specs.Prelude.{◌≡◌, ℕ, false, Bool, List};
    ghost use Rattle.strm_queue.specs.Flow.{has_band};

    ghost Value = { List Bool };

    ghost view = { λ w. w.set };

    ghost invariant = { λ w. (w.any ≡ false → (band : ℕ) → has_band w.set band ≡ false)
        × (((band : ℕ) → has_band w.set band ≡ false) → w.any ≡ false) };
}

impl Wanted {
    // No band is wanted.
    #[tactic(auto, using(crate::proofs::bands::Bands::none_where))]
    pub(crate) fn new() -> Wanted
        ensures { result ≡ bands_where (λ band. false) }
    {
        Wanted {
            set: BandSet::new(),
            any: false,
        }
    }

    // Whether a band is wanted.
    pub(crate) fn has(&self, band: u8) -> bool
        ensures { result ≡ has_band self.now band }
    {
        self.set.has(band)
    }

    // Whether any band is wanted.
    pub(crate) fn any(&self) -> bool
        ensures none { result ≡ false → (band : ℕ) → has_band self.now band ≡ false }
        ensures some { ((band : ℕ) → has_band self.now band ≡ false) → result ≡ false }
    {
        self.any
    }

    // Adds a band.
    pub(crate) fn insert(&mut self, band: u8)
        ensures { self.new ≡ slice_set self.old band true }
    {
        self.set.marks_each();
        self.set.insert(band);
        self.any = true;
    }

    // Removes each band that has drained, as `BandSet::relieve_each` does. Says whether there was any.
    #[inline(always)]
    pub(crate) fn relieve(&mut self, counts: &[u32; BANDS], marks: &[Marks; BANDS]) -> bool
        ensures left { self.new ≡ still_wanted self.old (λ band. slice_index_or counts.now band 0)
            (λ band. (slice_index_or marks.now band no_marks).lowat) }
        ensures some { result ≡ some_relieved self.old (λ band. slice_index_or counts.now band 0)
            (λ band. (slice_index_or marks.now band no_marks).lowat) }
    {
        self.set.lawful();
        if !self.any {
            return false;
        }
        self.relieve_some(counts, marks)
    }

    // Does what `relieve` does, and notes whether a band is left.
    #[inline(never)]
    fn relieve_some(&mut self, counts: &[u32; BANDS], marks: &[Marks; BANDS]) -> bool
        ensures left { self.new ≡ still_wanted self.old (λ band. slice_index_or counts.now band 0)
            (λ band. (slice_index_or marks.now band no_marks).lowat) }
        ensures some { result ≡ some_relieved self.old (λ band. slice_index_or counts.now band 0)
            (λ band. (slice_index_or marks.now band no_marks).lowat) }
    {
        let some = self.set.relieve_each(counts, marks);
        self.any = self.set.at_least(0).is_some();
        some
    }
}

// The place of the lowest 1 of a word from this place on, if any.
#[tactic(auto, using(crate::proofs::bands::Used::none_from))]
fn lowest_from(word: u64, place: u8) -> Option<u8>
    requires { place < 64 }
    ensures some { IfSome result (λ found. IsLowestFrom word place found) }
    ensures none { IfNone result ((i : ℕ) → place ≤ i → bit_at word i ≡ 0) }
{
    let rest = word >> place;
    if rest == 0 {
        return None;
    }
    Some(place + rest.trailing_zeros() as u8)
}

// The place of the highest 1 of a word up to this place, if any.
#[tactic(auto, using(crate::proofs::bands::Used::none_up_to, crate::proofs::bands::Used::zeros_up_to))]
fn highest_to(word: u64, place: u8) -> Option<u8>
    requires { place < 64 }
    ensures some { IfSome result (λ found. IsHighestTo word place found) }
    ensures none { IfNone result ((i : ℕ) → i ≤ place → bit_at word i ≡ 0) }
{
    let rest = word << (63 - place);
    if rest == 0 {
        return None;
    }
    Some(place - rest.leading_zeros() as u8)
}
