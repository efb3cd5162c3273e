//! Plain lists of numbers, to compare with.
use std::alloc::Global;
use std::mem;
use std::process::Abort;

#[derive(Drop)]
pub(super) struct Plain {
    lists: Vec<Vec<u32>>,
}

impl Plain {
    // Makes this number of empty lists.
    pub(super) fn new(rt: &impl Abort, alloc: Global, lists: u32) -> Plain {
        let mut plain = Plain {
            lists: Vec::new(alloc),
        };
        for _list in 0..lists {
            plain.lists.push(Vec::new(alloc)).expect(rt, "memory");
        }
        plain
    }

    // The numbers of a list.
    pub(super) fn list(&self, rt: &impl Abort, list: u32) -> &[u32] {
        self.lists.get(list as usize).expect(rt, "a list")
    }

    fn list_mut(&mut self, rt: &impl Abort, list: u32) -> &mut Vec<u32> {
        self.lists.get_mut(list as usize).expect(rt, "a list")
    }

    // Puts a number at the end of a list.
    pub(super) fn push(&mut self, rt: &impl Abort, list: u32, number: u32) {
        let numbers = self.list_mut(rt, list);
        numbers.push(number).expect(rt, "memory");
    }

    // Removes the last number of a list and returns it, if any.
    pub(super) fn pop(&mut self, rt: &impl Abort, list: u32) -> Option<u32> {
        self.list_mut(rt, list).pop()
    }

    // Inserts a number at a place of a list.
    pub(super) fn insert(&mut self, rt: &impl Abort, list: u32, place: usize, number: u32) {
        let numbers = self.list_mut(rt, list);
        assert!(rt; place <= numbers.len());
        numbers.insert(place, number).expect(rt, "memory");
    }

    // Removes the number at a place of a list and returns it, if any.
    pub(super) fn remove(&mut self, rt: &impl Abort, list: u32, place: usize) -> Option<u32> {
        let numbers = self.list_mut(rt, list);
        if place < numbers.len() {
            Some(numbers.remove(place))
        } else {
            None
        }
    }

    // Removes all numbers of a list and returns them.
    pub(super) fn take(&mut self, rt: &impl Abort, list: u32) -> Vec<u32> {
        mem::try_take(self.list_mut(rt, list)).expect(rt, "memory")
    }

    // Appends the numbers of one list to another.
    pub(super) fn append(&mut self, rt: &impl Abort, to: u32, from: u32) {
        let tail = self.take(rt, from);
        let numbers = self.list_mut(rt, to);
        numbers.extend(tail.iter().copied()).expect(rt, "memory");
    }

    // Leaves only the first number in a list. The others become the list of the first of them, which is returned.
    pub(super) fn divide(&mut self, rt: &impl Abort, list: u32) -> Option<u32> {
        let first = self.remove(rt, list, 0).expect(rt, "a number");
        let others = self.take(rt, list);
        self.push(rt, list, first);
        let second = others.first().copied()?;
        *self.list_mut(rt, second) = others;
        Some(second)
    }

    // The place of a number in a list.
    pub(super) fn place_of(&self, rt: &impl Abort, list: u32, number: u32) -> usize {
        for (place, other) in self.list(rt, list).iter().enumerate() {
            if *other == number {
                return place;
            }
        }
        panic!(rt; "no such number");
    }

    // The numbers before and after one of a list.
    pub(super) fn neighbours(
        &self,
        rt: &impl Abort,
        list: u32,
        number: u32,
    ) -> (Option<u32>, Option<u32>) {
        let place = self.place_of(rt, list, number);
        let numbers = self.list(rt, list);
        let before = numbers.get(place.wrapping_sub(1)).copied();
        let after = numbers.get(place.wrapping_add(1)).copied();
        (before, after)
    }
}
