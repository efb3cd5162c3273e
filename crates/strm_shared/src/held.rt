//! The ledger of held blocks, which ties the pool's count to the tokens of desks.
use crate::name::Name;
use std::marker::PhantomData;
use std::sync::ledger::Ledger;

// The ledger of one shared pool's held message blocks. Its book, which is in the pool's book, counts them all. It has a part
// for each desk, whose share counts the blocks of the desk's tokens.
pub(crate) struct Held<N: Name> {
    of: PhantomData<N>,
}

impl<N: Name> Ledger for Held<N> {
    ghost name = { N.ledger };

    ghost parts = { N.desks };
}
