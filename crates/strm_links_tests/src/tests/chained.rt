//! Tests of `Chained`: small cases by hand, and a random run beside plain vectors.
ghost use Rattle.std.specs.Prelude.{◌≡◌, ◌<◌, ◌≤◌, IsSome, IsTrue, length};
ghost use Rattle.strm_links.specs.Rows.{has};
ghost use Rattle.strm_links.specs.Chains.{chain_in};
ghost use Rattle.strm_links.specs.ChainLists.{heads_on};

use super::plain::Plain;
use super::{assert_at, below};
use std::alloc::Global;
use std::process::Abort;
use strm_links::Chained;

const NODES: u32 = 100;

const SHELVES: u32 = 3;

// The plain list of the free nodes, after those of all nodes. Its last node is taken next. Then those of the heads on each shelf.
const FREE: u32 = NODES;

const SHELF: u32 = NODES + 1;

// The same chains twice: as `Chained`, and as plain lists. The list of a node is the chain that begins with it, or empty.
#[derive(Drop)]
struct Twin {
    chained: Chained<u32>,
    plain: Plain,
    // The load of each node.
    loads: Vec<u32>,
    ghost node_count: { length chained.lists.held ≡ 100 },
    ghost shelf_count: { length chained.lists.shelves ≡ 3 },
    ghost load_count: { length chained.loads ≡ 100 },
}

impl Twin {
    fn new(rt: &impl Abort, alloc: Global) -> Twin {
        let mut plain = Plain::new(rt, alloc, SHELF + SHELVES);
        for node in (0..NODES).rev() {
            plain.push(rt, FREE, node);
        }
        Twin {
            chained: Chained::new(alloc, NODES, SHELVES, 7).expect(rt, "memory"),
            plain,
            loads: vec![in alloc; 7; NODES as usize].expect(rt, "memory"),
        }
    }

    // The number of nodes of the chain that begins with this node, or 0.
    fn len(&self, rt: &impl Abort, head: u32) -> u32
        ensures { result ≤ 100 }
    {
        let len = self.plain.list(rt, head).len();
        assert!(rt; len <= NODES as usize);
        len as u32
    }

    // The shelf that has a chain with this head, if any.
    fn shelf_of(&self, rt: &impl Abort, head: u32) -> Option<u32> {
        assert!(rt; head < NODES);
        self.chained.shelf_of(head)
    }

    // Says whether a held chain begins with this node.
    fn is_held(&self, rt: &impl Abort, head: u32) -> bool {
        assert!(rt; head < NODES);
        let len = self.len(rt, head);
        let is_held = len > 0 && self.chained.holds(head, len);
        assert!(rt; self.chained.is_held(head) == is_held);
        is_held
    }

    // Asserts that a held chain begins with this node.
    fn assert_held(&self, rt: &impl Abort, head: u32)
        ensures { IsSome (chain_in self.now.chained.lists.held head) }
    {
        assert!(rt; head < NODES);
        let len = self.len(rt, head);
        assert!(rt; len > 0);
        assert!(rt; self.chained.holds(head, len));
    }

    // Asserts that a chain with this head is on a shelf.
    fn assert_shelved(&self, rt: &impl Abort, shelf: u32, head: u32)
        ensures { IsTrue (has head (heads_on self.now.chained.lists shelf)) }
    {
        assert!(rt; head < NODES);
        assert!(rt; self.chained.shelf_of(head) == Some(shelf));
    }

    // Makes this number of free nodes a chain.
    fn begin_all(&mut self, rt: &impl Abort, count: u32) {
        assert!(rt; 0 < count && count <= self.chained.free_len());
        let head = self.chained.begin_all(count);
        for _ in 0..count {
            let node = self.plain.pop(rt, FREE).expect(rt, "a free node");
            self.plain.push(rt, head, node);
        }
    }

    // Appends a held chain to another.
    fn join(&mut self, rt: &impl Abort, head: u32, tail: u32) {
        assert!(rt; head != tail);
        self.assert_held(rt, head);
        self.assert_held(rt, tail);
        self.chained.join(head, tail);
        self.plain.append(rt, head, tail);
    }

    // Divides a held chain after its first node.
    fn divide(&mut self, rt: &impl Abort, head: u32) {
        self.assert_held(rt, head);
        let rest = self.chained.divide(head);
        assert!(rt; rest == self.plain.divide(rt, head));
    }

    // Takes the node at a place out of a held chain. The place is after the first node, and is there.
    fn take_out(&mut self, rt: &impl Abort, head: u32, place: u32) {
        self.assert_held(rt, head);
        let len = self.chained.len(head);
        assert!(rt; 0 < place && place < len);
        let taken = self.chained.take_out(head, place);
        assert!(rt; self.plain.remove(rt, head, place as usize) == Some(taken));
        self.plain.push(rt, taken, taken);
    }

    // Frees `most` nodes after the first of a held chain, or all of them if there are fewer.
    fn free_behind(&mut self, rt: &impl Abort, head: u32, most: u32) {
        self.assert_held(rt, head);
        let len = self.chained.len(head);
        assert!(rt; len > 0);
        let count = most.min(len - 1);
        self.chained.free_behind(head, count);
        for _ in 0..count {
            let node = self.plain.remove(rt, head, 1).expect(rt, "a node");
            self.plain.push(rt, FREE, node);
        }
    }

    // Frees the nodes of a held chain.
    fn free(&mut self, rt: &impl Abort, head: u32) {
        self.assert_held(rt, head);
        let len = self.chained.len(head);
        self.chained.free(head, len);
        self.plain.append(rt, FREE, head);
    }

    // Puts a held chain on a shelf, before another or last.
    fn shelve(&mut self, rt: &impl Abort, shelf: u32, before: Option<u32>, head: u32) {
        assert!(rt; shelf < SHELVES);
        self.assert_held(rt, head);
        match before {
            Some(at) => {
                self.assert_shelved(rt, shelf, at);
                self.chained.shelve(shelf, Some(at), head);
                let place = self.plain.place_of(rt, SHELF + shelf, at);
                self.plain.insert(rt, SHELF + shelf, place, head);
            }
            None => {
                self.chained.shelve(shelf, None, head);
                self.plain.push(rt, SHELF + shelf, head);
            }
        }
    }

    // Takes a chain off its shelf.
    fn unshelve(&mut self, rt: &impl Abort, shelf: u32, head: u32) {
        assert!(rt; shelf < SHELVES);
        self.assert_shelved(rt, shelf, head);
        self.chained.unshelve(shelf, head);
        let place = self.plain.place_of(rt, SHELF + shelf, head);
        let _ = self.plain.remove(rt, SHELF + shelf, place);
    }

    // Gives a node another load.
    fn mark(&mut self, rt: &impl Abort, node: u32, load: u32) {
        assert!(rt; node < NODES);
        self.chained.set_load(node, load);
        assert!(rt; (node as usize) < self.loads.len());
        self.loads[node as usize] = load;
    }

    // Asserts that `next` leads from a chain's head along these nodes.
    fn assert_reads(&self, rt: &impl Abort, head: u32, nodes: &[u32]) {
        let mut at = Some(head);
        for node in nodes {
            assert_at(rt, at, *node, NODES);
            at = self.chained.next(*node);
        }
        assert!(rt; at.is_none());
    }

    // Asserts that a shelf reads alike both ways as its plain list, and that each of its heads knows it.
    fn compare_shelf(&self, rt: &impl Abort, shelf: u32) {
        assert!(rt; shelf < SHELVES);
        let mut at = self.chained.first(shelf);
        let mut ahead = None;
        for head in self.plain.list(rt, SHELF + shelf) {
            assert_at(rt, at, *head, NODES);
            assert!(rt; self.chained.before(*head) == ahead);
            assert!(rt; self.shelf_of(rt, *head) == Some(shelf));
            assert!(rt; !self.is_held(rt, *head));
            ahead = Some(*head);
            at = self.chained.after(*head);
        }
        assert!(rt; at.is_none());
        assert!(rt; self.chained.last(shelf) == ahead);
    }

    // Asserts that a chain begins with a node exactly if its plain list has nodes, and reads as that list; and the node's load.
    fn compare_at(&self, rt: &impl Abort, node: u32) {
        assert!(rt; node < NODES);
        let plain = self.plain.list(rt, node);
        assert!(rt; !self.chained.holds(node, self.len(rt, node) + 1));
        if plain.is_empty() {
            assert!(rt; self.shelf_of(rt, node).is_none());
            assert!(rt; !self.is_held(rt, node));
            assert!(rt; self.chained.len(node) == 0);
        } else {
            assert!(rt; self.is_held(rt, node) == self.shelf_of(rt, node).is_none());
            self.assert_reads(rt, node, plain);
        }
        assert!(rt; (node as usize) < self.loads.len());
        assert!(rt; *self.chained.load(node) == self.loads[node as usize]);
    }

    // Asserts that every chain and every shelf reads as its plain list, and that the number of free nodes is right.
    fn compare_all(&self, rt: &impl Abort) {
        let free = self.plain.list(rt, FREE).len();
        assert!(rt; self.chained.free_len() as usize == free);
        for node in 0..NODES {
            self.compare_at(rt, node);
        }
        for shelf in 0..SHELVES {
            self.compare_shelf(rt, shelf);
        }
    }

    // Makes the next call of the run, drawn at random.
    fn step(&mut self, rt: &impl Abort, draw: &mut u32) {
        let head = below(draw, NODES);
        let other = below(draw, NODES);
        let small = 1 + below(draw, 6);
        let choice = below(draw, 12);
        let load = below(draw, 1000);
        self.mark(rt, other, load);
        if let Some(shelf) = self.shelf_of(rt, head) {
            if choice < 6 {
                self.unshelve(rt, shelf, head);
            }
        } else if self.is_held(rt, head) {
            self.change(rt, head, other, small, choice);
        } else if 0 < small && small <= self.chained.free_len() {
            self.begin_all(rt, small);
        }
    }

    // Makes a call on a held chain.
    fn change(&mut self, rt: &impl Abort, head: u32, other: u32, small: u32, choice: u32) {
        let len = self.len(rt, head);
        match choice {
            0 => self.free(rt, head),
            1 => self.divide(rt, head),
            2 | 3 if 0 < small && small < len => self.take_out(rt, head, small),
            4 => self.free_behind(rt, head, small),
            5 if head != other && self.is_held(rt, other) => self.join(rt, head, other),
            _ => match self.shelf_of(rt, other) {
                Some(shelf) => self.shelve(rt, shelf, Some(other), head),
                None => self.shelve(rt, other % SHELVES, None, head),
            },
        }
    }
}

#[test]
fn worked_rows(rt: HostRuntime) {
    let mut twin = Twin::new(&rt, rt.alloc());
    twin.begin_all(&rt, 1);
    twin.begin_all(&rt, 3);
    twin.begin_all(&rt, 1);
    twin.assert_reads(&rt, 1, &[1, 2, 3]);
    twin.mark(&rt, 2, 40);
    twin.shelve(&rt, 1, None, 0);
    twin.shelve(&rt, 1, Some(0), 4);
    twin.shelve(&rt, 1, Some(0), 1);
    twin.compare_all(&rt);
    assert!(rt; twin.chained.first(1) == Some(4) && twin.chained.last(1) == Some(0));
    twin.unshelve(&rt, 1, 1);
    twin.unshelve(&rt, 1, 4);
    twin.join(&rt, 4, 1);
    twin.assert_reads(&rt, 4, &[4, 1, 2, 3]);
    twin.take_out(&rt, 4, 2);
    twin.assert_reads(&rt, 4, &[4, 1, 3]);
    twin.divide(&rt, 4);
    twin.shelve(&rt, 2, None, 1);
    twin.free(&rt, 4);
    twin.free(&rt, 2);
    // The node that was freed last is taken first.
    twin.begin_all(&rt, 3);
    twin.assert_reads(&rt, 2, &[2, 4, 5]);
    twin.free_behind(&rt, 2, 0);
    twin.free_behind(&rt, 2, 1);
    twin.assert_reads(&rt, 2, &[2, 5]);
    assert!(rt; *twin.chained.load(2) == 40);
    twin.unshelve(&rt, 2, 1);
    twin.compare_all(&rt);
}

#[test]
fn long_run_beside_vectors(rt: HostRuntime) {
    let mut twin = Twin::new(&rt, rt.alloc());
    let mut draw = 1;
    for _ in 0..40 {
        for _ in 0..500 {
            twin.step(&rt, &mut draw);
        }
        twin.compare_all(&rt);
    }
}
