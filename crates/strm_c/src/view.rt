//! A pointer to a pool that may be read.
ghost use Rattle.std.specs.Prelude.{◌≡◌, ℕ};
ghost use base.Fml.{Share};
ghost use denote.Struct.Lending.{lent_at};
ghost use Rattle.strm_named.specs.contracts.named_pool.NamedPool.{the_row};
ghost use Rattle.strm_named.specs.declared.named_pool.NamedPool.{NamedPool};
ghost use Rattle.strm_c.specs.Rights.{coded_one, coded_share, reads};

use std::marker::Model;
use strm_named::NamedPool;

/// A pointer to a pool, with the right to read it: the pool is lent for a lifetime, and here is a share of that lifetime's
/// token. It has the layout of [`ViewPointer`], but C is not given one.
#[derive(Drop)]
pub struct PoolView {
    at: *const NamedPool,
    pub ghost named: { NamedPool } by { coded_one },
    pub ghost life: { ℕ },
    pub ghost share: { Share } by { coded_share },
}

impl Model for PoolView {
    ghost also_owns = { λ v. reads v.at v.named v.life v.share };

    ghost also_shares = { λ v _ κ. lent_at the_row v.at v.named κ };
}

impl PoolView {
    // The pool.
    pub(crate) fn named(&self) -> &NamedPool
        ensures { result.now ≡ self.now.named }
    {
        unsafe { &*self.at }
    }
}
