//! A number or none, in one word: how links are stored.
ghost use Rattle.std.specs.Prelude.{◌≡◌, ◌-◌, ◌^◌, ◌<◌, IsSome, is_none, if◌then◌else◌};
ghost use Rattle.std.specs.Option.{ForSome};
ghost use Rattle.strm_links.specs.Rows.{is_some_of};

use std::marker::Model;

/// A number below `u32::MAX`, such as that of a node or a list, or none. It takes one 32-bit word; `u32::MAX` means none.
#[derive(Clone, Copy, Debug)]
pub struct Slot {
    word: u32,
}

impl Model for Slot {
    ghost use Rattle.std.specs.Prelude.{ℕ, Option};

    ghost Value = { Option ℕ };

    ghost use Rattle.strm_links.specs.Slot.{slot_value, slot_word, slot_word-slot_value};

    ghost view = { λ s. slot_value s.word };

    ghost inverse = { λ o. record { word = slot_word o } };

    ghost inverse_ok = { λ s h. λ i. record { word = slot_word-slot_value s.word i } };
}

impl Slot {
    /// Makes a slot without a number.
    pub fn none() -> Slot
        ensures { result ≡ None }
    {
        Slot { word: u32::MAX }
    }

    /// Makes a slot of `number`, which is below `u32::MAX`.
    pub fn some(number: u32) -> Slot
        requires { number < 2 ^ 32 - 1 }
        ensures { result ≡ Some number }
    {
        Slot { word: number }
    }

    /// Makes a slot of `number`, which is below `u32::MAX` or none.
    pub fn of(number: Option<u32>) -> Slot
        requires { ForSome number (λ n. n < 2 ^ 32 - 1) }
        ensures { result ≡ number }
    {
        match number {
            Some(number) => Slot::some(number),
            None => Slot::none(),
        }
    }

    /// Says whether the slot has this number, which is below `u32::MAX`.
    pub fn is(self, number: u32) -> bool
        requires { number < 2 ^ 32 - 1 }
        ensures { result ≡ is_some_of number self }
    {
        self.word == number
    }

    /// Returns the slot's number, or none.
    pub fn get(self) -> Option<u32>
        ensures { result ≡ self }
    {
        if self.word == u32::MAX {
            None
        } else {
            Some(self.word)
        }
    }

    /// Returns the slot's number, which must exist, without a test.
    #[inline(always)]
    pub fn number(self) -> u32
        requires { IsSome self }
        ensures { self ≡ Some result }
    {
        self.word
    }

    /// Returns this slot if it has a number, and `otherwise` if not.
    pub fn or(self, otherwise: Slot) -> Slot
        ensures { result ≡ (if is_none self then otherwise else self) }
    {
        match self.get() {
            Some(_) => self,
            None => otherwise,
        }
    }
}
