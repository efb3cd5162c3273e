//! Bytes of a message are pulled up into its first block: `pullupmsg`.
ghost use Rattle.std.specs.Prelude.{◌≡◌, ◌+◌, ◌-◌, ◌^◌, ◌<◌, ◌≤◌, ℕ, List, IsSome, IsTrue, Some, drop, false, length, slice_get, take};
ghost use Rattle.strm_data.specs.CountedStore.{IsKept, count_of};
ghost use Rattle.strm_data.specs.DataStore.{capacity_of, times};
ghost use Rattle.strm_mblk.specs.Arena.{has, held_at, message_at};
ghost use Rattle.strm_mblk.specs.Block.{Block, bytes_of, size_of};
ghost use Rattle.strm_mblk.specs.BlocksLayout.{IsPlaced, fields_at, message_of, data_used_by, with_references_dropped};
ghost use Rattle.strm_mblk.specs.Cutting.{with_bytes_cut};
ghost use Rattle.strm_mblk.specs.Calls.{Alters, itself};
ghost use Rattle.strm_mblk.specs.Given.{value_after, answer_of};
ghost use Rattle.strm_mblk.specs.Messages.{held_in};
ghost use Rattle.strm_links.specs.ChainLists.{nodes_at};
ghost use Rattle.strm_mblk.specs.Pulling as pulling;
ghost use Rattle.strm_mblk.specs.Trimming as model;
ghost use Rattle.strm_mblk.specs.Trimming.{bytes_asked};

use super::{Blocks, Fields, fields_at, len, onward};
use crate::token::Token;
use strm_data::{Data, Refusal};
use strm_links::Chained;

// The number of bytes that `count` asks for. -1 asks for all `run` bytes of the leading blocks; the result is none for a
// count below -1.
fn bytes_asked(count: i32, run: u32) -> Option<u32>
    ensures { (bs : List Block) → size_of bs ≡ run → result ≡ bytes_asked count bs }
{
    if count >= 0 {
        Some(count as u32)
    } else if count == -1 {
        Some(run)
    } else {
        None
    }
}

// Copies the first `count` bytes of a held message into data block `into`, to which none of its blocks refers.
fn copy_front(chains: &Chained<Fields>, stored: &mut Data, head: u32, into: u32, count: u32)
    requires held { IsSome (held_in chains.now.lists.held head) }
    requires begun { slice_get (nodes_at chains.now.lists head) 0 ≡ Some head }
    requires listed { length chains.now.loads ≡ length chains.now.lists.held }
    requires placed { (n : ℕ) → n < length chains.now.loads → IsPlaced stored.old.store (fields_at chains.now.loads n) }
    requires there { into < length stored.old.store.blocks }
    requires room { count ≤ capacity_of stored.old.store into }
    requires unnamed { times into (data_used_by chains.now.loads (nodes_at chains.now.lists head)) ≡ 0 }
    requires enough { count ≤ length (bytes_of stored.old.store
        (message_of chains.now.loads (nodes_at chains.now.lists head))) }
    requires kept { IsKept stored.old }
    ensures after { stored.new ≡ pulling.with_front_copied into count
        (message_of chains.now.loads (nodes_at chains.now.lists head))
        stored.old }
    ensures kept { IsKept stored.new }
{
    let mut done = 0;
    let mut node = head;
    for _block in 0..len(chains, head) {
        if done == count {
            return;
        }
        let fields = fields_at(chains, node);
        let len = fields.len.min(count - done);
        stored.copy(fields.data_number, fields.offset, into, done, len);
        done += len;
        node = onward(chains, node);
    }
}

// Takes `count` bytes from the blocks after the first of a held message, and returns the number of blocks that are used
// up. These stay in the message and keep their fields, but the data block of each loses a reference. The next block
// loses the bytes that are then left to take.
fn take_bytes(chains: &mut Chained<Fields>, stored: &mut Data, head: u32, count: u32) -> u32
    requires held { IsSome (held_in chains.old.lists.held head) }
    requires begun { slice_get (nodes_at chains.old.lists head) 0 ≡ Some head }
    requires listed { length chains.old.loads ≡ length chains.old.lists.held }
    requires within { (i n : ℕ) → slice_get (nodes_at chains.old.lists head) i ≡ Some n → n < length chains.old.loads }
    requires there { (n : ℕ) → n < length chains.old.loads → (fields_at chains.old.loads n).data_number
        < length stored.old.store.blocks }
    requires small { (n : ℕ) → n < length chains.old.loads
        → (fields_at chains.old.loads n).offset + (fields_at chains.old.loads n).len
        < 2 ^ 32 }
    requires named { (d : ℕ) → times d (data_used_by chains.old.loads (nodes_at chains.old.lists head))
        ≤ count_of stored.old d }
    requires kept { IsKept stored.old }
    ensures lists { chains.new.lists ≡ chains.old.lists }
    ensures used { result ≡ length (model.blocks_used_up count
        (message_of chains.old.loads (drop 1 (nodes_at chains.old.lists head)))) }
    ensures dropped { stored.new ≡ with_references_dropped (take result
        (data_used_by chains.old.loads (drop 1 (nodes_at chains.old.lists head)))) stored.old }
    ensures cut { chains.new.loads ≡ with_bytes_cut false (count - size_of
        (take result (message_of chains.old.loads (drop 1 (nodes_at chains.old.lists head)))))
        (drop (result + 1) (nodes_at chains.old.lists head)) chains.old.loads }
    ensures kept { IsKept stored.new }
{
    let behind = len(chains, head) - 1;
    let mut left = count;
    let mut node = head;
    for used in 0..behind {
        if left == 0 {
            return used;
        }
        node = onward(chains, node);
        let fields = fields_at(chains, node);
        if left < fields.len {
            chains.set_load(node, fields.cut(left, false));
            return used;
        }
        left -= fields.len;
        stored.drop_name(fields.data_number);
    }
    behind
}

impl Blocks {
    // Gives the first block of a message a new data block with the first `count` bytes of the message, of the old one's
    // type. The old data block loses its reference after the copy. The other blocks keep their bytes.
    //
    // Refused as `take` of the data blocks is. On an error nothing changes.
    fn pull_front(&mut self, token: &Token, count: u32) -> Result<(), Refusal>
        requires had { IsTrue (has self.old token.now) }
        requires enough { count ≤ size_of (message_at self.old token.now.head) }
        ensures after { self.new ≡ value_after self.old (pulling.pull_front token.now.head count self.old) }
        ensures answer { result ≡ answer_of (pulling.pull_front token.now.head count self.old) }
    {
        let head = token.head();
        let fields = fields_at(&self.chains, head);
        let kind = self.data.kind(fields.data_number);
        let data_number = self.data.take(count)?;
        self.data.set_kind(data_number, kind);
        copy_front(&self.chains, &mut self.data, head, data_number, count);
        let pulled = Fields {
            data_number,
            offset: 0,
            len: count,
            band: fields.band,
        };
        self.chains.set_load(head, pulled);
        self.data.drop_name(fields.data_number);
        Ok(())
    }

    // Removes `count` bytes from the blocks after the first of a held message, and frees the blocks that are used up.
    fn drain(&mut self, head: u32, count: u32)
        requires { IsSome (held_at self.old head) }
        ensures { self.new ≡ pulling.with_bytes_drained head count (message_at self.old head) self.old }
    {
        let used = take_bytes(&mut self.chains, &mut self.data, head, count);
        self.chains.free_behind(head, used);
    }

    /// Brings the first `count` bytes of a message into its first block. A count of -1 means all bytes of the leading
    /// blocks that have the first block's type. If the first block has these bytes, nothing changes.
    ///
    /// Otherwise the first block takes a new data block of the old one's type, and has the bytes there from place 0 on.
    /// The old data block loses a reference. Then the bytes that the first block got are removed from the following
    /// blocks, in order. On the way each block is freed that is empty or loses all its bytes. A block that loses only
    /// some gets a higher read place. All later blocks stay.
    ///
    /// Refused as `Short` if the count is below -1 or the leading blocks have fewer bytes. Then refused as `TooLarge` if
    /// the bytes are more than the largest class has, then as `NoData` if no data block that fits is free. On an error
    /// nothing changes. Takes at most four steps for each block and two for each class, and copies the bytes once.
    pub fn pullupmsg(&mut self, token: &mut Token, count: i32) -> Result<(), Refusal>
        requires { IsTrue (has self.old token.old) }
        ensures { Alters itself token.old token.new (model.pullupmsg token.old.head count self.old)
            self.old self.new result }
    {
        let head = token.head();
        let run = self.run_size(token);
        let Some(wanted) = bytes_asked(count, run) else {
            return Err(Refusal::Short);
        };
        if wanted > run {
            return Err(Refusal::Short);
        }
        let front = fields_at(&self.chains, head).len;
        if wanted <= front {
            return Ok(());
        }
        self.pull_front(token, wanted)?;
        self.drain(head, wanted - front);
        token.set_blocks(len(&self.chains, head));
        Ok(())
    }
}
