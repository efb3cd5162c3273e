//! Places, types and bands of the first blocks of a held message, given in one walk.
ghost use Rattle.std.specs.Prelude.{◌≡◌, ◌^◌, ◌<◌, ◌≤◌, ℕ, IsTrue, Some, length, map, slice_get};
ghost use Rattle.strm_data.specs.CountedStore.{IsKept};
ghost use Rattle.strm_mblk.specs.Arena.{has, message_at};
ghost use Rattle.strm_mblk.specs.BlocksLayout.{fields_at, message_of, with_shapes};
ghost use Rattle.strm_mblk.specs.Calls.{Alters, itself};
ghost use Rattle.strm_mblk.specs.InPlace as model;
ghost use Rattle.strm_links.specs.ChainLists.{nodes_at};

use super::{Blocks, Fields, fields_at, onward};
use crate::block_place::Shaped;
use crate::token::Token;
use strm_data::{Data, Refusal};
use strm_links::Chained;

// Gives the first blocks of a message these shapes, and their data blocks the types.
fn shape_blocks<S: Shaped>(chains: &mut Chained<Fields>, stored: &mut Data, head: u32, shapes: &[S])
    requires begun { slice_get (nodes_at chains.old.lists head) 0 ≡ Some head }
    requires count { length shapes.now ≤ length (nodes_at chains.old.lists head) }
    requires listed { length chains.old.loads ≡ length chains.old.lists.held }
    requires there { (n : ℕ) → n < length chains.old.loads → (fields_at chains.old.loads n).data_number
        < length stored.old.store.blocks }
    requires banded { (n : ℕ) → n < length chains.old.loads → (fields_at chains.old.loads n).band < 2 ^ 8 }
    requires kept { IsKept stored.old }
    ensures lists { chains.new.lists ≡ chains.old.lists }
    ensures fields { chains.new.loads
        ≡ with_shapes (map S.shape shapes.now) (nodes_at chains.old.lists head) chains.old.loads }
    ensures banded { (n : ℕ) → n < length chains.new.loads → (fields_at chains.new.loads n).band < 2 ^ 8 }
    ensures after { stored.new ≡ record stored.old {
      store = model.store_retyped (map S.shape shapes.now)
          (message_of chains.old.loads (nodes_at chains.old.lists head)) stored.old.store;
    } }
    ensures kept { IsKept stored.new }
{
    let mut node = head;
    for shaped in shapes {
        let shape = shaped.shape();
        let data_number = fields_at(chains, node).data_number;
        stored.set_kind(data_number, shape.kind);
        let fields = Fields {
            data_number,
            offset: shape.at,
            len: shape.len,
            band: shape.band,
        };
        chains.set_load(node, fields);
        node = onward(chains, node);
    }
}

impl Blocks {
    // Refused as the first of these shapes that does not fit its block. The message has as many blocks, or more.
    fn fit<S: Shaped>(&self, token: &Token, shapes: &[S]) -> Result<(), Refusal>
        requires had { IsTrue (has self.now token.now) }
        requires count { length shapes.now ≤ token.now.blocks }
        ensures { result ≡ model.shapes_fit self.now (map S.shape shapes.now) (message_at self.now token.now.head) }
    {
        let mut node = token.head();
        for shaped in shapes {
            let shape = shaped.shape();
            let data_number = fields_at(&self.chains, node).data_number;
            let capacity = self.data.cap(data_number);
            if shape.at > capacity || shape.len > capacity - shape.at {
                return Err(Refusal::NoRoom);
            }
            if self.data.kind(data_number) != shape.kind && self.data.count(data_number) > 1 {
                return Err(Refusal::Shared);
            }
            node = onward(&self.chains, node);
        }
        Ok(())
    }

    /// Gives the first blocks of a message these shapes: as many as there are shapes, each its read place, length, type
    /// and band, as [`Blocks::shape`], [`Blocks::settype`] and [`Blocks::setband`] do for one block. All get theirs or
    /// none. All else stays unchanged, and so does all if there are no shapes.
    ///
    /// Refused as `NoSuchBlock` if the message has fewer blocks. Then the first block whose shape does not fit decides:
    /// `NoRoom` if its data block has fewer bytes than `at + len`, then `Shared` if its type changes and another message
    /// block refers to its data block. On an error nothing changes. Takes at most two steps for each shape. In
    /// STREAMS, modules do this by hand (`b_rptr`, `b_wptr`, `db_type`, `b_band`).
    pub fn shape_all<S: Shaped>(&mut self, token: &Token, shapes: &[S]) -> Result<(), Refusal>
        requires { IsTrue (has self.old token.now) }
        ensures { Alters itself token.now token.now (model.shape_all token.now.head (map S.shape shapes.now) self.old)
            self.old self.new result }
    {
        if shapes.len() > token.blocks() as usize {
            return Err(Refusal::NoSuchBlock);
        }
        self.fit(token, shapes)?;
        shape_blocks(&mut self.chains, &mut self.data, token.head(), shapes);
        Ok(())
    }
}
