//! The pointer of a handle, which may own the box of a pool.
ghost use Rattle.std.specs.Prelude.{◌≡◌, None, Option, Some, IsSome};
ghost use Rattle.std.specs.Borrow.{sem};
ghost use Rattle.strm_named.specs.declared.named_pool.NamedPool.{NamedPool};
ghost use Rattle.strm_c.specs.Holding.{coded, held};

use crate::parts::Parts;
use std::alloc::Global;
use std::marker::{Model, Send};
use strm_named::NamedPool;

/// A pointer that owns a boxed pool, or owns nothing. It does not know which. One that is dropped forgets the box.
#[repr(C)]
#[derive(Drop)]
pub struct PoolPointer {
    pub(crate) raw: *mut u8,
    pub ghost named: { Option NamedPool } by { coded },
}

impl Model for PoolPointer {
    ghost also_owns = { λ p. held p.raw p.named };
}

// It may go to another thread, as the box may.
unsafe impl Send for PoolPointer {}

impl PoolPointer {
    ghost use Rattle.strm_c.specs.Lending.{LendsFromPointer};

    // A pointer that owns nothing.
    pub(crate) fn none() -> PoolPointer
        ensures { result.named ≡ None }
    {
        PoolPointer {
            raw: std::ptr::null_mut(),
        }
    }

    // A pointer that owns the box of these parts.
    pub(crate) fn of(parts: Parts<NamedPool, Global>) -> PoolPointer
        ensures { result.named ≡ Some parts.value }
    {
        let Parts { ptr, alloc: _ } = parts;
        PoolPointer {
            raw: ptr as *mut u8,
        }
    }

    // The parts of the box that the pointer owns.
    pub(crate) fn into_parts(self, alloc: Global) -> Parts<NamedPool, Global>
        requires { IsSome self.named }
        ensures { Some result.value ≡ self.named }
    {
        let PoolPointer { raw } = self;
        Parts {
            ptr: raw as *mut NamedPool,
            alloc,
        }
    }

    // The pool in the box that the pointer owns.
    pub(crate) fn named_mut(&mut self) -> &mut NamedPool
        requires { IsSome self.old.named }
        ensures* writes_back { sem 𝓛 (LendsFromPointer self.entry result) }
        ensures value { Some result.now ≡ self.old.named }
    {
        unsafe { &mut *(self.raw as *mut NamedPool) }
    }
}
