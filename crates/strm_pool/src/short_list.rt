//! Lists over arrays, for plain data that a call or a configuration carries.
ghost use Rattle.std.specs.Prelude.{◌≡◌, ◌≤◌, length};
ghost use Rattle.std.specs.Cmp.Lexicographic.{lists_equiv, lists_per, pointwise};

use crate::limits::MOST_OCTETS;
use arrayvec::ArrayVec;
use std::marker::Model;
use strm_data::{ClassSpec, MOST_CLASSES};
use strm_queue::{MOST_QUEUES, QueueSpec};

/// A list over an array, of at most `MOST` items.
#[derive(Debug, Drop)]
pub struct ShortList<T, const MOST: usize> {
    array: ArrayVec<T, MOST>,
}

/// The size classes of a configuration, in order.
pub type ClassSpecs = ShortList<ClassSpec, MOST_CLASSES>;

/// The queues of a configuration, numbered from 0.
pub type QueueSpecs = ShortList<QueueSpec, MOST_QUEUES>;

/// The bytes that a call or a reply carries.
pub type Octets = ShortList<u8, MOST_OCTETS>;

impl<T, const MOST: usize> Model for ShortList<T, MOST> {
    ghost use Rattle.std.specs.Prelude.{List};

    ghost Value = { List T };

    ghost view = { λ l. l.array.items };
}

impl<T, const MOST: usize> ShortList<T, MOST> {
    /// Makes the list of these items.
    pub fn of(array: ArrayVec<T, MOST>) -> ShortList<T, MOST>
        ensures { result ≡ array.items }
    {
        ShortList { array }
    }

    /// Returns the items, in order.
    pub fn items(&self) -> &[T]
        ensures value { result.now ≡ self.now }
        ensures few { length result.now ≤ MOST }
    {
        self.array.as_slice()
    }
}

impl<T: Copy + Default, const MOST: usize> ShortList<T, MOST> {
    // The same items, in the same order.
    pub(crate) fn copy(&self) -> ShortList<T, MOST>
        ensures { result ≡ self.now }
    {
        match ArrayVec::try_from(self.items()) {
            Ok(array) => ShortList::of(array),
            Err(_) => unreachable!(),
        }
    }
}

impl<T: PartialEq, const MOST: usize> PartialEq for ShortList<T, MOST> {
    ghost eq = { λ l m. pointwise T.eq l m };

    ghost laws = { lists_per T.laws };

    fn eq(&self, other: &Self) -> bool {
        self.items() == other.items()
    }
}

impl<T: Eq, const MOST: usize> Eq for ShortList<T, MOST> {
    ghost laws = { lists_equiv T.Eq.laws };
}
