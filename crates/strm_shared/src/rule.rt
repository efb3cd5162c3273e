//! The rule of the word, for contracts: what the views of all seats have in common, and what each kind of step does.
use crate::name::Name;
use crate::views::View;
use atomic_table::{Join, Play, Split, TableRule};
use std::marker::{Brand, PhantomData};
use strm_pool::Census;

// The entry of one call, and the table of the desk's registers after it, in contracts only.
pub(crate) trait Says {
    ghost use Rattle.strm_pool.specs.Registers.{Entries};
    ghost use Rattle.strm_pool.specs.declared.line.Entry.{Entry};

    ghost entry: { Entry };

    ghost table: { Entries };
}

impl Says for Brand {
    ghost use Rattle.std.specs.Prelude.{[]};
    ghost use Rattle.strm_shared.specs.Seats.{no_entry};

    ghost entry = { no_entry };

    ghost table = { [] };
}

// The rule of a table that is opened with a pair, which the lock's seat then knows.
pub(crate) struct WordRule;

impl TableRule<(), View, (u64, Census)> for WordRule {
    ghost use Rattle.strm_shared.specs.Seats.{IsRuled, first_view};

    ghost holds = { IsRuled };

    ghost first = { first_view };
}

// A store by the lock's seat: the history gets a pair, an entry and a table.
pub(crate) struct Stores<N, E> {
    of: PhantomData<(N, E)>,
}

impl<N: Name, E: Says> Play<(), View> for Stores<N, E> {
    ghost use Rattle.strm_shared.specs.Seats.{Stored};
    ghost use Rattle.strm_shared.specs.Pairs.{pair_at};

    ghost then = { Stored (pair_at N.first N.opened) E.entry E.table };
}

// A load by any seat: the desk sees the pair, or each guest of the lock's seat does.
pub(crate) struct Loads<N> {
    of: PhantomData<N>,
}

impl<N: Name> Play<(), View> for Loads<N> {
    ghost use Rattle.strm_shared.specs.Seats.{Loaded};
    ghost use Rattle.strm_shared.specs.Pairs.{pair_at};

    ghost then = { Loaded (pair_at N.first N.opened) };
}

// A load by the lock's seat only. It changes no view.
pub(crate) struct Reads<N> {
    of: PhantomData<N>,
}

impl<N: Name> Play<(), View> for Reads<N> {
    ghost use Rattle.strm_shared.specs.Seats.{Read};
    ghost use Rattle.strm_shared.specs.Pairs.{pair_at};

    ghost then = { Read (pair_at N.first N.opened) };
}

// A desk's seat joins the lock's seat, and leaves it.
pub(crate) struct Visits;

impl Join<View> for Visits {
    ghost use Rattle.strm_shared.specs.Seats.{with_guest};
    ghost use Rattle.strm_shared.specs.declared.views.View.TheVariants.{Spent};

    ghost both = { with_guest };

    ghost spent = { Spent };
}

impl Split<View> for Visits {
    ghost use Rattle.strm_shared.specs.Seats.{guest_of, without_guest};

    ghost left = { without_guest };

    ghost right = { guest_of };
}

// The seat of a new desk leaves the lock's seat.
pub(crate) struct NewDesk;

impl Split<View> for NewDesk {
    ghost use Rattle.strm_shared.specs.Seats.{new_desk_of, with_desk};

    ghost left = { with_desk };

    ghost right = { new_desk_of };
}
