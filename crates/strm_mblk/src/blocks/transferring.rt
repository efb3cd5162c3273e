//! Transfers: a message is made anew in another pool, and freed in its own.
ghost use Rattle.std.specs.Prelude.{◌≡◌, ◌≤◌, ℕ, IsTrue, None, Ok, Some, length, slice_get};
ghost use Rattle.std.specs.Result.{is_ok};
ghost use Rattle.strm_data.specs.CountedStore.{IsKept, IsUnused};
ghost use Rattle.strm_data.specs.DataStore.{capacity_of, take_data};
ghost use Rattle.strm_mblk.specs.Arena.{has, message_at};
ghost use Rattle.strm_mblk.specs.BlockCalls as model;
ghost use Rattle.strm_mblk.specs.BlocksLayout.{IsPlaced, block_of};
ghost use Rattle.strm_mblk.specs.Calls.{Gives, Transfers, itself};
ghost use Rattle.strm_mblk.specs.Copying.{AreCopied, with_copy};
ghost use Rattle.strm_mblk.specs.Freeing.{with_token_spent};
ghost use Rattle.strm_links.specs.ChainLists.{nodes_at};

use super::copying::copies_fit;
use super::{Blocks, Fields, fields_at, onward};
use crate::rejected::Rejected;
use crate::token::Token;
use strm_data::{Data, Refusal};
use strm_links::Chained;

// Takes a data block for a copy of another pool's message block, with the type and the bytes of the old one. Returns the
// fields of the copy.
#[inline(always)]
fn take_copy(stored: &mut Data, other: &Data, source: Fields) -> Fields
    requires placed { IsPlaced other.now.store source }
    requires fits { IsTrue (is_ok (take_data (capacity_of other.now.store source.data_number) stored.old.store)) }
    ensures taken { take_data (capacity_of other.now.store source.data_number) stored.old.store
        ≡ Ok result.data_number }
    ensures fields { result ≡ record source { data_number = result.data_number } }
    ensures after { (n : ℕ) → stored.new ≡ with_copy (Some other.now.store) (block_of n source) stored.old
        result.data_number }
    ensures unused { IsUnused stored.old result.data_number }
    ensures room { capacity_of other.now.store source.data_number ≤ capacity_of stored.old.store result.data_number }
    ensures kept { IsKept stored.new }
{
    let kind = other.kind(source.data_number);
    let size = other.cap(source.data_number);
    let data_number = stored.take(size).unwrap();
    stored.set_kind(data_number, kind);
    let place = source.offset;
    let bytes = other.bytes(source.data_number, place, source.len as usize);
    stored.write(data_number, place, bytes);
    Fields {
        data_number,
        ..source
    }
}

impl Blocks {
    // Whether some class of another pool fits each block of a message.
    #[inline(always)]
    fn fits_classes(&self, token: &Token, stored: &Data) -> bool
        requires { IsTrue (has self.now token.now) }
        ensures { result ≡ model.fits_classes self.now.store (message_at self.now token.now.head) stored.now.store }
    {
        let mut node = token.head();
        for _block in 0..token.blocks() {
            let size = self.data.cap(fields_at(&self.chains, node).data_number);
            if !stored.has_class_for(size) {
                return false;
            }
            node = onward(&self.chains, node);
        }
        true
    }

    // Copies the blocks of a message, with their data, into those of another pool's message, which has as many. Enough data
    // blocks are free there.
    #[inline(always)]
    fn copy_into(&self, token: &Token, chains: &mut Chained<Fields>, stored: &mut Data, head: u32)
        requires had { IsTrue (has self.now token.now) }
        requires begun { slice_get (nodes_at chains.old.lists head) 0 ≡ Some head }
        requires count { length (nodes_at chains.old.lists head) ≡ token.now.blocks }
        requires listed { length chains.old.loads ≡ length chains.old.lists.held }
        requires kept { IsKept stored.old }
        requires fit { IsTrue (is_ok (model.blocks_copied (Some self.now.store) (message_at self.now token.now.head)
            stored.old.store)) }
        ensures lists { chains.new.lists ≡ chains.old.lists }
        ensures after { AreCopied (Some self.now.store) (message_at self.now token.now.head)
            (nodes_at chains.old.lists head)
            chains.old.loads chains.new.loads stored.old stored.new }
        ensures kept { IsKept stored.new }
    {
        let mut read = token.head();
        let mut written = head;
        for _block in 0..token.blocks() {
            chains.set_load(
                written,
                take_copy(stored, &self.data, fields_at(&self.chains, read)),
            );
            read = onward(&self.chains, read);
            written = onward(chains, written);
        }
    }

    // Makes a message of another pool anew in this one.
    fn take_over(&mut self, other: &Blocks, token: &Token) -> Result<Token, Refusal>
        requires { IsTrue (has other.now token.now) }
        ensures { Gives itself None (model.transfer other.now token.now.head self.old) self.old self.new result }
    {
        if !other.fits_classes(token, &self.data) {
            return Err(Refusal::TooLarge);
        }
        let count = token.blocks();
        if self.chains.free_len() < count {
            return Err(Refusal::NoMblk);
        }
        let from = token.head();
        if !copies_fit(&other.chains, Some(&other.data), &self.data, from, count) {
            return Err(Refusal::NoData);
        }
        let head = self.chains.begin_all(count);
        other.copy_into(token, &mut self.chains, &mut self.data, head);
        Ok(self.token(head))
    }

    /// Makes a message anew in another pool, as `copymsg` makes one in its own, and frees it here, as `freemsg` does. Returns
    /// the new message's token, which is one of `other`. All blocks are made or none. Each gets a data block of its own, also
    /// if several shared one. Bytes before a read place or after a write place are not copied.
    ///
    /// Returns the token with `TooLarge` if a data block has a larger capacity than the largest class of `other`. Then with
    /// `NoMblk` if fewer message blocks are free there than the message has, and with `NoData` if the free data blocks there
    /// do not suffice. On an error nothing changes in either pool. Takes the steps of `copymsg` and of `freemsg`, and a step
    /// and a search over the classes more for each block. Each byte is copied once.
    pub fn transfer(&mut self, other: &mut Blocks, token: Token) -> Result<Token, Rejected>
        requires { IsTrue (has self.old token) }
        ensures { Transfers itself token (model.transfer self.old token.head other.old)
            (with_token_spent self.old token) self.old self.new other.old other.new result }
    {
        match other.take_over(self, &token) {
            Ok(made) => {
                self.freemsg(token);
                Ok(made)
            }
            Err(why) => Err(Rejected { why, token }),
        }
    }
}
