//! Looks at one block: at its number in a held message, and at its bytes in a message on a shelf.
ghost use Rattle.std.specs.Prelude.{◌≡◌, ◌<◌, IfSome, IsSome, IsTrue, Some, length, slice_get};
ghost use Rattle.strm_links.specs.ChainLists.{chain_of};
ghost use Rattle.strm_mblk.specs.Arena.{has};
ghost use Rattle.strm_mblk.specs.Given.{answer_map};
ghost use Rattle.strm_mblk.specs.Looks as model;
ghost use Rattle.strm_mblk.specs.Shelves.{shelf_of};

use super::finding::Found;
use super::{BlockNo, Blocks, Fields, fields_at};
use crate::token::Token;
use strm_data::Refusal;
use strm_links::Chained;

// The number of block `place` of a message, held or on a shelf, if any. Places count from 0. Takes at most `place` steps.
pub(super) fn node_of(chains: &Chained<Fields>, head: u32, place: u32) -> Option<u32>
    requires begins { slice_get (chain_of chains.now.lists head) 0 ≡ Some head }
    requires there { head < length chains.now.lists.held }
    ensures value { result ≡ slice_get (chain_of chains.now.lists head) place }
    ensures in_range { IfSome result (λ node. node < length chains.now.lists.held) }
{
    let mut at = Some(head);
    for _step in 0..place {
        at = chains.next(at?);
    }
    at
}

impl Blocks {
    /// Returns the number of a message's block `place`. Places count from 0. Changes nothing.
    ///
    /// Refused as `NoSuchBlock` if the message has no such block. Takes at most `place` steps. In STREAMS, modules do this
    /// by hand (`b_cont`).
    pub fn number(&self, token: &Token, place: u32) -> Result<BlockNo, Refusal>
        requires { IsTrue (has self.now token.now) }
        ensures { result ≡ model.number token.now.head place self.now }
    {
        let Found { node, .. } = self.found(token, place)?;
        Ok(node)
    }

    /// Lends the bytes of block `place` of the message on a shelf with this head, as [`Blocks::bytes`] lends those of a held
    /// message.
    ///
    /// Refused as `NoSuchBlock` if the message has no such block. Takes at most `place` steps.
    pub fn shelved_bytes(&self, head: BlockNo, place: u32) -> Result<&[u8], Refusal>
        requires { IsSome (shelf_of self.now head) }
        ensures { answer_map (λ lent. lent.now) result ≡ model.shelved_bytes head place self.now }
    {
        self.chains.finds_chains();
        let Some(node) = node_of(&self.chains, head, place) else {
            return Err(Refusal::NoSuchBlock);
        };
        let fields = fields_at(&self.chains, node);
        Ok(
            self.data
                .bytes(fields.data_number, fields.offset, fields.len as usize),
        )
    }
}
