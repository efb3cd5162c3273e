//! Names: how the type of a desk says to which shared pool it belongs.
pub use std::marker::Brand;

/// Names one shared pool in types and contracts, and costs nothing at run time. A caller passes its `Start` to its own function
/// that is generic in the name, and calls it with `Brand`. A desk then fits its own `Shared` only; another does not compile.
pub trait Name {
    ghost use Rattle.std.specs.Prelude.{ℕ, Option};
    ghost use Rattle.atomic_table.specs.Seated.{TableId};
    ghost use Rattle.strm_pool.specs.PoolValue.{PoolValue};

    // The pool as it was when it was shared. Its id and its number of message blocks never change.
    ghost opened: { PoolValue };

    // The board, given by its table.
    ghost board: { TableId };

    // The number of desks.
    ghost desks: { ℕ };

    // The stamp before the first call.
    ghost first: { ℕ };

    // The greatest number of entries of its trace, if one is kept.
    ghost kept: { Option ℕ };

    // The ledger of the pool's held blocks.
    ghost ledger: { ℕ };
}

impl Name for Brand {
    ghost use Rattle.std.specs.Prelude.{None};
    ghost use Rattle.strm_shared.specs.Starts.{no_board, no_pool};

    ghost opened = { no_pool };

    ghost board = { no_board };

    ghost desks = { 0 };

    ghost first = { 0 };

    ghost kept = { None };

    ghost ledger = { 0 };
}
