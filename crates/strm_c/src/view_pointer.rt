//! The pointer of a reader, which may have the right to read a pool.
ghost use Rattle.std.specs.Prelude.{◌≡◌, ℕ, Option, Some, IsSome};
ghost use Rattle.std.specs.Borrow.{sem};
ghost use base.Fml.{Share};
ghost use Rattle.strm_named.specs.declared.named_pool.NamedPool.{NamedPool};
ghost use Rattle.strm_c.specs.Holding.{coded};
ghost use Rattle.strm_c.specs.Rights.{coded_share, may_read};

use crate::view::PoolView;
use std::marker::{Model, Send};

/// A pointer that has the right to read a pool, or none. It does not know which.
#[repr(C)]
#[derive(Drop)]
pub struct ViewPointer {
    pub(crate) raw: *mut u8,
    pub ghost named: { Option NamedPool } by { coded },
    pub ghost life: { ℕ },
    pub ghost share: { Share } by { coded_share },
}

impl Model for ViewPointer {
    ghost also_owns = { λ p. may_read p.raw p.named p.life p.share };
}

// It may go to another thread, since several threads may read a pool.
unsafe impl Send for ViewPointer {}

impl ViewPointer {
    ghost use Rattle.strm_c.specs.Viewing.{LendsFromViewPointer};

    // The view of the pool that the pointer has the right to read.
    pub(crate) fn view(&mut self) -> &mut PoolView
        requires { IsSome self.old.named }
        ensures* writes_back { sem 𝓛 (LendsFromViewPointer self.entry result) }
        ensures value { (Some result.now.named ≡ self.old.named) × (result.now.at ≡ self.old.raw)
            × (result.now.life ≡ self.old.life) × (result.now.share ≡ self.old.share) }
    {
        unsafe { &mut *(self as *mut ViewPointer as *mut PoolView) }
    }
}
