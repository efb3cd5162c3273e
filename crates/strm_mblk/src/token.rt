//! Tokens: the right to a held message.
ghost use Rattle.std.specs.Prelude.{◌≡◌, ◌<◌};

use std::marker::Model;

/// What a token says of its message.
#[derive(Clone, Copy, Debug)]
pub struct TokenValue {
    /// The id of the pool that gave the token.
    pub pool: u32,
    /// The number of the message's first block.
    pub head: u32,
    /// The number of the message's blocks.
    pub blocks: u32,
}

/// The right to one held message.
///
/// Calls that make a message, divide one, or take one off a shelf give its token. A token must be spent: it can be
/// neither copied nor dropped. So a message is freed only by its own token, unless [`Blocks::token`](crate::Blocks::token) made a
/// second one of an earlier message. This needs pools with different ids, because a token carries the id of its pool, not the
/// pool. A message whose only token is lost stays held: by `forget`, or by `freemsg` of blocks that do not have the token. STREAMS
/// passes a pointer to the message instead.
#[must_use]
#[derive(Debug)]
pub struct Token {
    value: TokenValue,
}

impl Model for Token {
    ghost use Rattle.strm_mblk.specs.declared.token.TokenValue.{TokenValue};
    ghost use Rattle.std.specs.Prelude.{◌<◌};

    ghost Value = { TokenValue };

    ghost view = { λ t. t.value };

    ghost invariant = { λ t. 0 < t.value.blocks };
}

impl Token {
    // Makes a token of this value. Only calls that give a message, and `Blocks::token`, use it.
    pub(crate) fn of(value: TokenValue) -> Token
        requires { 0 < value.blocks }
        ensures { result ≡ value }
    {
        Token { value }
    }

    // Spends the token, and returns its value.
    pub(crate) fn spend(self) -> TokenValue
        ensures { result ≡ self }
    {
        let Token { value } = self;
        value
    }

    // Sets the number of blocks.
    pub(crate) fn set_blocks(&mut self, blocks: u32)
        requires { 0 < blocks }
        ensures { self.new ≡ record self.old { blocks = blocks } }
    {
        self.value.blocks = blocks;
    }

    /// Spends the token and nothing else. If its message is held, it stays held; if it has no other token, only `Blocks::token` makes
    /// one.
    pub fn forget(self) {
        let Token { value: _ } = self;
    }

    /// Returns the same token. `head` is its head; code that knows the head then need not read it from the token.
    #[inline(always)]
    pub fn at(self, head: u32) -> Token
        requires { head ≡ self.head }
        ensures { result ≡ self }
    {
        let Token { value } = self;
        Token {
            value: TokenValue { head, ..value },
        }
    }

    /// Returns the id of the pool that gave the token.
    pub fn pool(&self) -> u32
        ensures { result ≡ self.now.pool }
    {
        self.value.pool
    }

    /// Returns the number of the message's first block.
    pub fn head(&self) -> u32
        ensures { result ≡ self.now.head }
    {
        self.value.head
    }

    /// Returns the number of the message's blocks.
    pub fn blocks(&self) -> u32
        ensures { result ≡ self.now.blocks }
    {
        self.value.blocks
    }

    // Law: a message has one block at least. Does nothing.
    pub(crate) fn lawful(&self)
        ensures { 0 < self.now.blocks }
    {
        let _ = &self.value;
    }
}
