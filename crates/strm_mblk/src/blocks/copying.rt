//! Copies: new messages over new data blocks with the same bytes.
ghost use Rattle.std.specs.Prelude.{◌≡◌, ◌⊎◌, ◌≤◌, ◌<◌, ◌+◌, ℕ, Err, IfSome, IsTrue, None, Ok, Some, false, length, slice_get, slice_set, take, true};
ghost use Rattle.std.specs.Result.{is_ok};
ghost use Rattle.strm_data.specs.declared.refusal.Refusal.TheVariants.{NoData};
ghost use Rattle.strm_data.specs.CountedStore.{IsKept, IsUnused};
ghost use Rattle.strm_data.specs.DataStore.{capacity_of, take_data, times};
ghost use Rattle.strm_mblk.specs.Arena.{has, message_at};
ghost use Rattle.strm_mblk.specs.BlockCalls as model;
ghost use Rattle.strm_mblk.specs.BlocksLayout.{IsPlaced, block_of, fields_at, message_of};
ghost use Rattle.strm_mblk.specs.Copying.{AreCopied, AreLeft, IsLeft, lent_store, with_copy};
ghost use Rattle.strm_mblk.specs.Calls.{Gives, itself};
ghost use Rattle.strm_links.specs.ChainLists.{IsLawful, nodes_at};

use super::{Blocks, Fields, fields_at, onward};
use crate::token::Token;
use strm_data::{Data, MOST_CLASSES, Refusal};
use strm_links::Chained;

// The number of free data blocks of each class.
#[inline(always)]
fn free_counts(stored: &Data) -> [u32; MOST_CLASSES]
    requires { IsKept stored.now }
    ensures { AreLeft result stored.now.store }
{
    let mut left = [0; MOST_CLASSES];
    for class in 0..MOST_CLASSES as u8 {
        let Some(info) = stored.class_info(class) else {
            return left;
        };
        left[usize::from(class)] = info.free;
    }
    left
}

// The first class that fits a size and has a data block left.
#[inline(always)]
fn class_left(stored: &Data, left: &[u32; MOST_CLASSES], size: u32) -> Option<u8>
    requires { IsKept stored.now }
    ensures found { IfSome result (IsLeft size stored.now.store.classes left.now) }
    ensures first { (k : ℕ) → IfSome result (λ c. k < c) → IsLeft size stored.now.store.classes left.now k → ⊥ }
{
    for class in 0..MOST_CLASSES as u8 {
        let Some(info) = stored.class_info(class) else {
            return None;
        };
        if info.size >= size && left[usize::from(class)] > 0 {
            return Some(class);
        }
    }
    None
}

// Whether enough data blocks are free to copy a message's first `count` blocks. `other` has their data blocks, if those are
// another pool's. Some class fits each of them. Usually the largest class alone has enough. This changes nothing, whereas
// taking data blocks would change their types.
#[inline(always)]
pub(super) fn copies_fit(
    chains: &Chained<Fields>,
    other: Option<&Data>,
    stored: &Data,
    head: u32,
    count: u32,
) -> bool
    requires parted { IsLawful chains.now.lists }
    requires begun { slice_get (nodes_at chains.now.lists head) 0 ≡ Some head }
    requires count { count ≤ length (nodes_at chains.now.lists head) }
    requires listed { length chains.now.loads ≡ length chains.now.lists.held }
    requires placed { (n : ℕ) → n < length chains.now.loads → IsPlaced
        (model.copied_from (lent_store other) stored.now.store) (fields_at chains.now.loads n) }
    requires classed { model.fits_classes (model.copied_from (lent_store other) stored.now.store)
        (take count (message_of chains.now.loads (nodes_at chains.now.lists head))) stored.now.store ≡ true }
    requires kept { IsKept stored.now }
    ensures fit { result ≡ is_ok (model.blocks_copied (lent_store other.entry)
        (take count (message_of chains.now.loads (nodes_at chains.now.lists head))) stored.now.store) }
    ensures refused { result ≡ false → model.blocks_copied (lent_store other.entry)
        (take count (message_of chains.now.loads (nodes_at chains.now.lists head))) stored.now.store ≡ Err NoData }
{
    if stored.free_in_largest() >= count {
        return true;
    }
    let sizes = other.unwrap_or(stored);
    let mut left = free_counts(stored);
    let mut node = head;
    for _block in 0..count {
        let size = sizes.cap(fields_at(chains, node).data_number);
        let Some(class) = class_left(stored, &left, size) else {
            return false;
        };
        left[usize::from(class)] -= 1;
        node = onward(chains, node);
    }
    true
}

// Takes a data block for a copy of a message block, with the type and the bytes of the old one. Returns the fields of the
// copy.
#[inline(always)]
fn copy_data(stored: &mut Data, source: Fields) -> Fields
    requires placed { IsPlaced stored.old.store source }
    requires fits { IsTrue (is_ok (take_data (capacity_of stored.old.store source.data_number) stored.old.store)) }
    ensures taken { take_data (capacity_of stored.old.store source.data_number) stored.old.store
        ≡ Ok result.data_number }
    ensures fields { result ≡ record source { data_number = result.data_number } }
    ensures after { (n : ℕ) → stored.new ≡ with_copy None (block_of n source) stored.old result.data_number }
    ensures unused { IsUnused stored.old result.data_number }
    ensures room { capacity_of stored.old.store source.data_number ≤ capacity_of stored.old.store result.data_number }
    ensures kept { IsKept stored.new }
{
    let kind = stored.kind(source.data_number);
    let size = stored.cap(source.data_number);
    let data_number = stored.take(size).unwrap();
    stored.set_kind(data_number, kind);
    let place = source.offset;
    stored.copy(source.data_number, place, data_number, place, source.len);
    Fields {
        data_number,
        ..source
    }
}

// Copies the first `count` blocks of a message, with their data, into those of another. Enough data blocks are free.
#[inline(always)]
fn copy_blocks(chains: &mut Chained<Fields>, stored: &mut Data, from: u32, into: u32, count: u32)
    requires from { slice_get (nodes_at chains.old.lists from) 0 ≡ Some from }
    requires into { slice_get (nodes_at chains.old.lists into) 0 ≡ Some into }
    requires enough { count ≤ length (nodes_at chains.old.lists from) }
    requires count { length (nodes_at chains.old.lists into) ≡ count }
    requires apart { (n : ℕ) → times n (nodes_at chains.old.lists from) + times n (nodes_at chains.old.lists into) ≤ 1 }
    requires listed { length chains.old.loads ≡ length chains.old.lists.held }
    requires placed { (n : ℕ) → n < length chains.old.loads → IsPlaced stored.old.store (fields_at chains.old.loads n) }
    requires kept { IsKept stored.old }
    requires fit { IsTrue (is_ok (model.blocks_copied None
        (take count (message_of chains.old.loads (nodes_at chains.old.lists from))) stored.old.store)) }
    ensures lists { chains.new.lists ≡ chains.old.lists }
    ensures after { AreCopied None (take count (message_of chains.old.loads (nodes_at chains.old.lists from)))
        (nodes_at chains.old.lists into) chains.old.loads chains.new.loads stored.old stored.new }
    ensures kept { IsKept stored.new }
{
    let mut read = from;
    let mut written = into;
    for _block in 0..count {
        chains.set_load(written, copy_data(stored, fields_at(chains, read)));
        read = onward(chains, read);
        written = onward(chains, written);
    }
}

impl Blocks {
    // Copies the first `count` blocks of a message, as `copymsg` copies all of them. Compiled into both calls: most messages have one
    // block.
    #[inline(always)]
    fn copy(&mut self, token: &Token, count: u32) -> Result<Token, Refusal>
        requires had { IsTrue (has self.old token.now) }
        requires count { (count ≡ 1) ⊎ (count ≡ token.now.blocks) }
        ensures { Gives itself (Some token.now) (model.message_copied None
            (take count (message_at self.old token.now.head)) self.old) self.old self.new result }
    {
        if self.chains.free_len() < count {
            return Err(Refusal::NoMblk);
        }
        let from = token.head();
        if !copies_fit(&self.chains, None, &self.data, from, count) {
            return Err(Refusal::NoData);
        }
        let head = self.chains.begin_all(count);
        copy_blocks(&mut self.chains, &mut self.data, from, head, count);
        Ok(self.token(head))
    }

    /// Makes a message of one new block, a copy of this message's first block, and returns its token. The new block is
    /// the first free one, and has the places and band of the old one. Its data block is the one that `allocb` would take
    /// for the old data block's capacity. It gets the type of the old data block, and the bytes between the places.
    ///
    /// Refused as `NoMblk` if no message block is free, then as `NoData` if no data block that fits is free. On an error
    /// nothing changes. Takes at most three steps for each class, and one slice copy.
    pub fn copyb(&mut self, token: &Token) -> Result<Token, Refusal>
        requires { IsTrue (has self.old token.now) }
        ensures { Gives itself (Some token.now) (model.copyb token.now.head self.old) self.old self.new result }
    {
        self.copy(token, 1)
    }

    /// Makes a message of new blocks, one for each block of this message, and returns its token. The new blocks are the
    /// first free ones in order. Each is a copy as `copyb` makes it, and data blocks are taken in order. All blocks are
    /// copied or none.
    ///
    /// Refused as `NoMblk` if fewer message blocks are free than the message has, then as `NoData` if the free data
    /// blocks do not suffice. On an error nothing changes. Takes for each block two steps, a search over the classes and
    /// one slice copy. If the largest class has fewer free data blocks than the message has blocks, each block takes a
    /// step and a search more, and each class a step.
    pub fn copymsg(&mut self, token: &Token) -> Result<Token, Refusal>
        requires { IsTrue (has self.old token.now) }
        ensures { Gives itself (Some token.now) (model.copymsg token.now.head self.old) self.old self.new result }
    {
        self.copy(token, token.blocks())
    }
}
