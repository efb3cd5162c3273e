//! The name of a message in the memory of a program in C.
ghost use Rattle.std.specs.Prelude.{◌≡◌};

use std::marker::Model;
use strm_named::Name;

/// A name as a call stores it: the bytes of `struct strm_msg`, in two halves. Compilers of C load a name by these halves, and a
/// processor forwards what was just stored only to a load within one store. Contracts see the name.
#[repr(C)]
#[derive(Clone, Copy, Debug)]
pub struct StrmMsg {
    // The id of the pool, and 2^32 times the number of the first block. The lowest byte is stored first, so the id comes first.
    key: u64,
    stamp: u64,
}

impl Model for StrmMsg {
    ghost use Rattle.strm_named.specs.declared.name.Name.{Name};

    ghost Value = { Name };

    ghost use Rattle.strm_c.specs.Msg.{halves_of, halves_of-name_of, name_of};

    ghost view = { name_of };

    ghost inverse = { halves_of };

    ghost inverse_ok = { λ m h. halves_of-name_of m };
}

impl StrmMsg {
    // A name as the struct of C.
    pub(crate) fn of(name: Name) -> StrmMsg
        ensures { result ≡ name }
    {
        StrmMsg {
            key: u64::from(name.head) << 32 | u64::from(name.pool),
            stamp: name.stamp,
        }
    }
    // As `of`, for a name whose numbers a call just stored in memory, each on its own. Turned halves keep the compiler from
    // loading both at once, which would span these stores.
    pub(crate) fn of_stored(name: Name) -> StrmMsg
        ensures { result ≡ name }
    {
        let turned = u64::from(name.pool) << 32 | u64::from(name.head);
        StrmMsg {
            key: turned.rotate_left(32),
            stamp: name.stamp,
        }
    }
}
