//! The tokens of the messages that tests hold. Tests name a message by its token's value.
ghost use Rattle.std.specs.Prelude.{IsTrue};
ghost use Rattle.strm_mblk.specs.Arena.{has};

use std::alloc::Global;
use std::process::Abort;
use strm_data::Refusal;
use strm_mblk::{Blocks, Token, TokenValue};

// A place for a token. Unlike the token, it may be dropped: then the message stays held.
struct Slot {
    token: Option<Token>,
}

impl Drop for Slot {
    fn drop(self) {
        let Slot { token } = self;
        if let Some(token) = token {
            token.forget();
        }
    }
}

// A slot for each message block: it has the token of the held message that begins with it, if any.
#[derive(Drop)]
pub(super) struct Purse {
    slots: Vec<Slot>,
}

// What a token says of its message.
pub(super) fn value_of(token: &Token) -> TokenValue {
    TokenValue {
        pool: token.pool(),
        head: token.head(),
        blocks: token.blocks(),
    }
}

// Asserts that a token is of this value, and that the blocks have it.
pub(super) fn assert_token(rt: &impl Abort, blocks: &Blocks, token: &Token, value: TokenValue)
    ensures { IsTrue (has blocks.now token.now) }
{
    assert!(rt; token.pool() == value.pool && token.head() == value.head);
    assert!(rt; token.blocks() == value.blocks);
    assert!(rt; blocks.has(token));
}

impl Purse {
    // Makes slots for the messages of these many message blocks.
    pub(super) fn new(rt: &impl Abort, alloc: Global, mblks: u32) -> Purse {
        let mut slots = Vec::new(alloc);
        for _slot in 0..mblks {
            assert!(rt; slots.push(Slot { token: None }).is_ok());
        }
        Purse { slots }
    }

    // The number of tokens.
    pub(super) fn count(&self) -> usize {
        self.slots
            .iter()
            .filter(|slot| slot.token.is_some())
            .count()
    }

    // Lends the token of a message, and asserts that it is of this value, and that the blocks have it.
    pub(super) fn lent(&self, rt: &impl Abort, blocks: &Blocks, message: TokenValue) -> &Token
        ensures { IsTrue (has blocks.now result.now) }
    {
        let slot = self
            .slots
            .get(message.head as usize)
            .expect(rt, "a message block");
        let Some(token) = &slot.token else {
            panic!(rt; "no token of {message:?}");
        };
        assert_token(rt, blocks, token, message);
        token
    }

    // Takes the token of a message, and asserts the same.
    pub(super) fn taken(&mut self, rt: &impl Abort, blocks: &Blocks, message: TokenValue) -> Token
        ensures { IsTrue (has blocks.now result) }
    {
        let slot = self
            .slots
            .get_mut(message.head as usize)
            .expect(rt, "a message block");
        let Some(token) = slot.token.take() else {
            panic!(rt; "no token of {message:?}");
        };
        assert_token(rt, blocks, &token, message);
        token
    }

    // Keeps a token, and returns its value. There must be none of a message with its head.
    pub(super) fn keep(&mut self, rt: &impl Abort, token: Token) -> TokenValue {
        let value = value_of(&token);
        let slot = self
            .slots
            .get_mut(value.head as usize)
            .expect(rt, "a message block");
        if let Some(other) = slot.token.replace(token) {
            other.forget();
            panic!(rt; "two tokens of {value:?}");
        }
        value
    }

    // Keeps the token that a call gave, and returns its value.
    pub(super) fn keep_given(
        &mut self,
        rt: &impl Abort,
        given: Result<Token, Refusal>,
    ) -> Result<TokenValue, Refusal> {
        match given {
            Ok(token) => Ok(self.keep(rt, token)),
            Err(why) => Err(why),
        }
    }

    // Keeps the token of the rest of a message, if any, and returns its value.
    pub(super) fn keep_rest(&mut self, rt: &impl Abort, rest: Option<Token>) -> Option<TokenValue> {
        match rest {
            Some(token) => Some(self.keep(rt, token)),
            None => None,
        }
    }
}
