//! The number of desks of a shared pool, as a value whose type says so.
ghost use Rattle.std.specs.Prelude.{◌≡◌};

use crate::name::Name;
use std::marker::PhantomData;

// The number of desks that were handed out, which is the one that the name has.
#[derive(Drop)]
pub(crate) struct DeskCount<N: Name> {
    pub(crate) number: u8,
    pub(crate) of: PhantomData<N>,
    pub ghost counted: { number ≡ N.desks },
}
