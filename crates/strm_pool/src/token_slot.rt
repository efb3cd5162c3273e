//! A slot for a token. Unlike the token, the slot may be dropped, as elements of arrays and vectors must.
ghost use Rattle.std.specs.Prelude.{◌≡◌, None, Some};

use std::marker::Model;
use strm_mblk::Token;

/// A token or none. A slot that is dropped loses its token: the message stays held in its pool.
pub struct TokenSlot {
    token: Option<Token>,
}

impl Model for TokenSlot {
    ghost use Rattle.std.specs.Prelude.{Option};
    ghost use Rattle.strm_mblk.specs.declared.token.TokenValue.{TokenValue};

    ghost Value = { Option TokenValue };

    ghost view = { λ s. s.token };
}

impl Drop for TokenSlot {
    fn drop(self) {
        let TokenSlot { token } = self;
        if let Some(token) = token {
            token.forget();
        }
    }
}

impl TokenSlot {
    /// Makes a slot without a token.
    pub fn none() -> TokenSlot
        ensures { result ≡ None }
    {
        TokenSlot { token: None }
    }

    /// Lends the token, if any.
    pub fn token(&self) -> &Option<Token>
        ensures { result.now ≡ self.now }
    {
        &self.token
    }

    /// Takes the token, if any, and leaves none.
    pub fn take(&mut self) -> Option<Token>
        ensures token { result ≡ self.old }
        ensures empty { self.new ≡ None }
    {
        self.token.take()
    }

    /// Puts a token into the slot, and returns the one that was there, if any.
    pub fn replace(&mut self, token: Token) -> Option<Token>
        ensures token { result ≡ self.old }
        ensures held { self.new ≡ Some token }
    {
        self.token.replace(token)
    }

    /// Takes the slot apart, and returns its token, if any.
    pub fn into_token(self) -> Option<Token>
        ensures { result ≡ self }
    {
        let TokenSlot { token } = self;
        token
    }
}
