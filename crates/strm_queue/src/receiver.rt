//! Where calls that take several messages put their tokens.
ghost use Rattle.strm_mblk.specs.declared.token.TokenValue.{TokenValue};

use strm_mblk::Token;

/// Gets the tokens of messages that a call takes, one after another.
pub trait Receiver {
    // What `receive` can do: the receiver before, the token, and the receiver afterwards.
    ghost receives: { Self → TokenValue → Self → Type 0 };

    /// Gets one token.
    fn receive(&mut self, token: Token)
        ensures { receives self.old token self.new };
}
