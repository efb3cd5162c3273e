//! A receiver that notes the heads of tokens and forgets them, so that their messages stay held.
ghost use Rattle.std.specs.Prelude.{◌≡◌};

use strm_mblk::Token;
use strm_queue::Receiver;

// The heads of up to eight tokens, in the order in which they came.
#[derive(Drop)]
pub(super) struct Noted {
    heads: [u32; 8],
    count: usize,
}

impl Noted {
    pub(super) fn none() -> Noted {
        Noted {
            heads: [0; 8],
            count: 0,
        }
    }

    // Whether the heads are these.
    pub(super) fn are(&self, heads: &[u32]) -> bool {
        self.heads.get(..self.count) == Some(heads)
    }
}

impl Receiver for Noted {
    ghost receives = { λ before token after. Unit {0} };

    fn receive(&mut self, token: Token) {
        if let Some(slot) = self.heads.get_mut(self.count) {
            *slot = token.head();
            self.count += 1;
        }
        token.forget();
    }
}
