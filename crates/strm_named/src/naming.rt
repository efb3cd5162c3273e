//! What a call that takes several messages does with their tokens.
ghost use Rattle.std.specs.Prelude.{◌≡◌};
ghost use Rattle.strm_named.specs.Receiving.{NamesToken};

use crate::name::Name;
use crate::stamps::give;
use strm_pool::{Receiver, Token};

// Gives the message of each token that it gets a name, and puts the name at the next place of a slice, if there is one.
pub(crate) struct Naming<'p, 'n> {
    pub(crate) stamps: &'p mut Vec<u64>,
    pub(crate) names: &'n mut [Name],
    pub(crate) count: usize,
}

impl<'p, 'n> Drop for Naming<'p, 'n> {
    fn drop(self)
        ensures stamps { self.exit.0.now.items ≡ self.entry.stamps.now.items }
        ensures names { self.exit.1.0.now ≡ self.entry.names.now }
    {
        let Self {
            stamps: _,
            names: _,
            count: _,
        } = self;
    }
}

impl<'p, 'n> Receiver for Naming<'p, 'n> {
    ghost receives = { NamesToken };

    fn receive(&mut self, token: Token) {
        let head = token.head();
        let name = if (head as usize) < self.stamps.len() {
            give(self.stamps, token)
        } else {
            // Nothing says here that the token is the pool's. Each of the pool's has a stamp.
            let pool = token.pool();
            token.forget();
            Name {
                pool,
                head,
                stamp: 0,
            }
        };
        let at = self.count;
        if at < self.names.len() {
            self.names[at] = name;
            self.count = at + 1;
        }
    }
}
