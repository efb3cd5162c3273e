//! The handle of a pool, which is a variable of a program in C.
ghost use Rattle.std.specs.Prelude.{◌≡◌, None, Some, is_some, option_map};
ghost use Rattle.std.specs.Borrow.{sem};
ghost use Rattle.std.specs.Option.{option_copied_mut};
ghost use Rattle.strm_c.specs.Holding.{is_open};

use crate::parts::Parts;
use crate::pointer::PoolPointer;
use std::alloc::Global;
use std::mem::replace;
use strm_named::NamedPool;

// The state of an open handle: the letters STRM.
pub(crate) const OPEN: usize = 0x5354_524D;

/// The handle of a pool, in the memory of a program in C. The program may move it, but not copy it. An open handle owns the box
/// of its pool; zeros, or any other state, mean that it is not open. A handle that is dropped forgets the box.
#[repr(C)]
#[derive(Drop)]
pub struct StrmPool {
    /// Owns the pool if the handle is open, otherwise nothing.
    pub at: PoolPointer,
    pub(crate) state: usize,
    ghost opened: { is_open state ≡ is_some at.named },
}

impl StrmPool {
    ghost use Rattle.strm_c.specs.Lending.{LendsFromHandle};

    // A handle that is not open.
    fn closed() -> StrmPool
        ensures { result.at.named ≡ None }
    {
        StrmPool {
            at: PoolPointer::none(),
            state: 0,
        }
    }

    /// The pool, if the handle is open. It stays where it is.
    pub fn named_mut(&mut self) -> Option<&mut NamedPool>
        ensures* writes_back { sem 𝓛 (LendsFromHandle self.entry result) }
        ensures value { option_copied_mut result ≡ self.old.at.named }
    {
        if self.state == OPEN {
            Some(self.at.named_mut())
        } else {
            None
        }
    }

    /// Takes the pool out and closes the handle, if it is open.
    pub fn take(&mut self, alloc: Global) -> Option<Box<NamedPool>>
        ensures taken { option_map (λ b. b.value) result ≡ self.old.at.named }
        ensures closed { self.new.at.named ≡ None }
    {
        let StrmPool { at, state } = replace(self, StrmPool::closed());
        if state == OPEN {
            Some(at.into_parts(alloc).into_box())
        } else {
            None
        }
    }

    /// Makes the handle open, with this pool. A pool that it had before is forgotten, and its memory is lost.
    pub fn hold(&mut self, named: Box<NamedPool>)
        ensures { self.new.at.named ≡ Some named.value }
    {
        *self = StrmPool {
            at: PoolPointer::of(Parts::of(named)),
            state: OPEN,
        };
    }
}
