//! A slot for a desk. Unlike the desk, the slot may be dropped, as elements of an `ArrayVec` must.
ghost use Rattle.std.specs.Prelude.{◌≡◌, Some};
ghost use Rattle.strm_shared.specs.DesksLayout.{IsFilled, desk_in, slot_with};

use crate::desk::Desk;
use crate::name::Name;

// A desk or none. A slot that is dropped loses its desk, and the desk's tokens with it.
pub(crate) struct DeskSlot<N: Name> {
    desk: Option<Desk<N>>,
}

impl<N: Name> Drop for DeskSlot<N> {
    fn drop(self) {
        let DeskSlot { desk } = self;
        if let Some(desk) = desk {
            desk.forget();
        }
    }
}

impl<N: Name> Default for DeskSlot<N> {
    fn default() -> DeskSlot<N> {
        DeskSlot { desk: None }
    }
}

impl<N: Name> DeskSlot<N> {
    ghost use Rattle.std.specs.Borrow.{Lends, sem};
    ghost use Rattle.strm_shared.specs.contracts.desk_slot.DeskSlot.{the_row as slot_row};
    ghost use Rattle.strm_shared.specs.contracts.desk.Desk.{the_row as desk_row};

    // A slot with this desk.
    pub(crate) fn of(desk: Desk<N>) -> DeskSlot<N>
        ensures { result ≡ slot_with desk }
    {
        DeskSlot { desk: Some(desk) }
    }

    // The number of the slot's desk.
    pub(crate) fn number(&self) -> u8
        ensures { result ≡ (desk_in self.now).number }
    {
        match &self.desk {
            Some(desk) => desk.number(),
            None => 0,
        }
    }

    // Lends the slot's desk.
    pub(crate) fn desk_mut(&mut self) -> &mut Desk<N>
        requires { IsFilled self.old }
        ensures* writes_back { sem 𝓛 (Lends (slot_row N.row N.Name)
            (desk_row N.row N.Name) self.entry result slot_with) }
        ensures value { self.old.desk ≡ Some result.now }
    {
        let Some(desk) = &mut self.desk else {
            unreachable!()
        };
        desk
    }

    // The slot's desk.
    pub(crate) fn into_desk(self) -> Desk<N>
        requires { IsFilled self }
        ensures { self.desk ≡ Some result }
    {
        let DeskSlot { desk } = self;
        match desk {
            Some(desk) => desk,
            None => unreachable!(),
        }
    }
}
