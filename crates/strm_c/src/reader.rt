//! A reader of a pool, which strm.c makes of a handle for one look.
ghost use Rattle.std.specs.Prelude.{◌≡◌, is_some};
ghost use Rattle.std.specs.Borrow.{sem};
ghost use Rattle.std.specs.Option.{option_copied_mut};
ghost use Rattle.strm_c.specs.Holding.{is_open};

use crate::handle::OPEN;
use crate::view::PoolView;
use crate::view_pointer::ViewPointer;

/// A reader of a pool: the words of its handle, with a share of the right to read the pool in place of its box. So several
/// looks at one pool may run at the same time, each with a reader. A reader that is dropped forgets its share.
#[repr(C)]
#[derive(Drop)]
pub struct StrmReader {
    /// May read the pool if the handle is open, otherwise nothing.
    pub at: ViewPointer,
    pub(crate) state: usize,
    ghost opened: { is_open state ≡ is_some at.named },
}

impl StrmReader {
    ghost use Rattle.strm_c.specs.Viewing.{IsViewOf, LendsFromReader};

    /// The view of the pool, if the handle is open.
    pub fn view(&mut self) -> Option<&mut PoolView>
        ensures* writes_back { sem 𝓛 (LendsFromReader self.entry result) }
        ensures value { IsViewOf (option_copied_mut result) self.old.at }
    {
        if self.state == OPEN {
            Some(self.at.view())
        } else {
            None
        }
    }
}
