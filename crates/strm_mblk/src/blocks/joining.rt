//! Messages are joined and divided: `linkb`, `unlinkb`, `rmvb`.
ghost use Rattle.std.specs.Prelude.{Ok, IsTrue};
ghost use Rattle.strm_mblk.specs.Arena.{has};
ghost use Rattle.strm_mblk.specs.BlockCalls as model;
ghost use Rattle.strm_mblk.specs.Calls.{Joins, Parts, Unlinks, itself};

use super::{Blocks, len};
use crate::rejected::Rejected;
use crate::token::Token;
use strm_data::Refusal;

impl Blocks {
    /// Appends the blocks of the message `tail` to the other message, which keeps its token. The blocks keep what they store. If
    /// both tokens are of one message, `tail` is spent, and nothing else changes. That can happen only if two pools have the same
    /// id, or if [`Blocks::token`] made a second token of a message. Takes constant time.
    pub fn linkb(&mut self, token: &mut Token, tail: Token)
        requires head { IsTrue (has self.old token.old) }
        requires tail { IsTrue (has self.old tail) }
        ensures { Joins itself token.old token.new tail (model.linkb token.old.head tail.head self.old)
            self.old self.new }
    {
        let tail = tail.spend().head;
        if token.head() != tail {
            self.chains.join(token.head(), tail);
            token.set_blocks(len(&self.chains, token.head()));
        }
    }

    /// Makes the blocks after the first a message of their own, and returns its token. Returns none if the message has
    /// one block, and then nothing changes. The blocks keep what they store. Takes constant time.
    pub fn unlinkb(&mut self, token: &mut Token) -> Option<Token>
        requires { IsTrue (has self.old token.old) }
        ensures { Unlinks itself token.old token.new (Ok (model.unlinkb token.old.head self.old))
            self.old self.new (Ok result) }
    {
        let rest = self.chains.divide(token.head())?;
        token.set_blocks(1);
        Some(self.token(rest))
    }

    /// Makes block `place` of a message a message of its own, whose token comes first. The token of the message that
    /// the other blocks make, if any, comes second. Places count from 0; STREAMS passes a pointer to the block.
    ///
    /// Rejected as `NoSuchBlock` if the message has no such block; then nothing changes, and the token comes back. Takes at most
    /// `place` steps.
    pub fn rmvb(&mut self, token: Token, place: u32) -> Result<(Token, Option<Token>), Rejected>
        requires { IsTrue (has self.old token) }
        ensures { Parts itself token (model.rmvb token.head place self.old) self.old self.new result }
    {
        if place == 0 {
            self.lawful();
            let mut first = token;
            let rest = self.unlinkb(&mut first);
            return Ok((first, rest));
        }
        if place >= token.blocks() {
            return Err(Rejected {
                why: Refusal::NoSuchBlock,
                token,
            });
        }
        let head = token.spend().head;
        let node = self.chains.take_out(head, place);
        Ok((self.token(node), Some(self.token(head))))
    }
}
