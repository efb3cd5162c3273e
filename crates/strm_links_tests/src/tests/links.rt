//! Tests of `Links`: small cases by hand, and a random run beside plain vectors.
ghost use Rattle.std.specs.Prelude.{◌≡◌, ◌<◌, IsSome, None, length};
ghost use Rattle.strm_links.specs.Rows.{holder};

use super::plain::Plain;
use super::{assert_at, below};
use std::alloc::Global;
use std::process::Abort;
use strm_links::Links;

const NODES: u32 = 4000;

const LISTS: u32 = 50;

// Asserts that a node is free.
fn assert_free(rt: &impl Abort, links: &Links, node: u32)
    requires { node < links.now.nodes }
    ensures { holder node links.now ≡ None }
{
    assert!(rt; links.list_of(node).is_none());
}

// Asserts that a node is in this list.
fn assert_held(rt: &impl Abort, links: &Links, node: u32, list: u32)
    requires { node < links.now.nodes }
    ensures { IsSome (holder node links.now) }
{
    assert!(rt; links.list_of(node) == Some(list));
}

// The same lists twice: as `Links`, and as plain lists.
#[derive(Drop)]
struct Twin {
    links: Links,
    plain: Plain,
    nodes: u32,
    lists: u32,
    ghost node_count: { links.nodes ≡ nodes },
    ghost list_count: { length links.lists ≡ lists },
}

impl Twin {
    fn new(rt: &impl Abort, alloc: Global, nodes: u32, lists: u32) -> Twin {
        Twin {
            links: Links::new(alloc, nodes, lists).expect(rt, "memory"),
            plain: Plain::new(rt, alloc, lists),
            nodes,
            lists,
        }
    }

    // Puts a free node at the front of a list.
    fn push_front(&mut self, rt: &impl Abort, list: u32, node: u32) {
        assert!(rt; list < self.lists && node < self.nodes);
        assert_free(rt, &self.links, node);
        self.links.push_front(list, node);
        self.plain.insert(rt, list, 0, node);
    }

    // Puts a free node at the back of a list.
    fn push_back(&mut self, rt: &impl Abort, list: u32, node: u32) {
        assert!(rt; list < self.lists && node < self.nodes);
        assert_free(rt, &self.links, node);
        self.links.push_back(list, node);
        self.plain.push(rt, list, node);
    }

    // Puts a free node just before one of a list.
    fn insert_before(&mut self, rt: &impl Abort, list: u32, at: u32, node: u32) {
        assert!(rt; at < self.nodes && node < self.nodes);
        assert_held(rt, &self.links, at, list);
        assert_free(rt, &self.links, node);
        self.links.insert_before(at, node);
        let place = self.plain.place_of(rt, list, at);
        self.plain.insert(rt, list, place, node);
    }

    // Takes a node out of its list.
    fn remove(&mut self, rt: &impl Abort, list: u32, node: u32) {
        assert!(rt; node < self.nodes);
        assert_held(rt, &self.links, node, list);
        self.links.remove(node);
        let place = self.plain.place_of(rt, list, node);
        let _ = self.plain.remove(rt, list, place);
    }

    // Appends one list to another.
    fn append(&mut self, rt: &impl Abort, to: u32, from: u32) {
        assert!(rt; to < self.lists && from < self.lists && to != from);
        self.links.append(to, from);
        self.plain.append(rt, to, from);
    }

    // Makes the next call of the run, drawn at random.
    fn step(&mut self, rt: &impl Abort, draw: &mut u32) {
        let node = below(draw, NODES);
        let list = below(draw, LISTS);
        match self.list_of(rt, node) {
            None => self.join(rt, draw, list, node),
            Some(held) if held != list && below(draw, 16) == 0 => self.append(rt, held, list),
            Some(held) => self.remove(rt, held, node),
        }
        self.compare_ends(rt, list);
        self.compare_node(rt, node);
    }

    // Puts a free node into a list, at one end or before a node drawn at random.
    fn join(&mut self, rt: &impl Abort, draw: &mut u32, list: u32, node: u32) {
        let at = below(draw, NODES);
        match self.list_of(rt, at) {
            Some(held) => self.insert_before(rt, held, at, node),
            None if below(draw, 2) == 0 => self.push_front(rt, list, node),
            None => self.push_back(rt, list, node),
        }
    }

    // The list that a node is in, if any.
    fn list_of(&self, rt: &impl Abort, node: u32) -> Option<u32> {
        assert!(rt; node < self.nodes);
        self.links.list_of(node)
    }

    fn assert_list_of(&self, rt: &impl Abort, node: u32, list: Option<u32>) {
        assert!(rt; self.list_of(rt, node) == list);
    }

    // Asserts the number of nodes of a list.
    fn assert_len(&self, rt: &impl Abort, list: u32, len: usize) {
        assert!(rt; list < self.lists);
        assert!(rt; self.links.len(list) as usize == len);
    }

    // Asserts a list's front and back.
    fn assert_ends(&self, rt: &impl Abort, list: u32, ends: (Option<u32>, Option<u32>)) {
        assert!(rt; list < self.lists);
        assert!(rt; (self.links.front(list), self.links.back(list)) == ends);
    }

    // Asserts that a list's ends and length are those of its plain list.
    fn compare_ends(&self, rt: &impl Abort, list: u32) {
        let plain = self.plain.list(rt, list);
        self.assert_ends(rt, list, (plain.first().copied(), plain.last().copied()));
        self.assert_len(rt, list, plain.len());
    }

    // Asserts the nodes before and after a node.
    fn assert_neighbours(
        &self,
        rt: &impl Abort,
        node: u32,
        neighbours: (Option<u32>, Option<u32>),
    ) {
        assert!(rt; node < self.nodes);
        assert!(rt; (self.links.prev(node), self.links.next(node)) == neighbours);
    }

    // Asserts that a node's neighbours are those in the plain list.
    fn compare_node(&self, rt: &impl Abort, node: u32) {
        let neighbours = match self.list_of(rt, node) {
            None => (None, None),
            Some(list) => self.plain.neighbours(rt, list, node),
        };
        self.assert_neighbours(rt, node, neighbours);
    }

    // Asserts that `next` leads from a list's front along these nodes.
    fn assert_forward(&self, rt: &impl Abort, list: u32, nodes: &[u32]) {
        assert!(rt; list < self.lists);
        let mut at = self.links.front(list);
        for node in nodes {
            assert_at(rt, at, *node, self.nodes);
            at = self.links.next(*node);
        }
        assert!(rt; at.is_none());
    }

    // Asserts that `prev` leads from a list's back along these nodes.
    fn assert_backward(&self, rt: &impl Abort, list: u32, nodes: &[u32]) {
        assert!(rt; list < self.lists);
        let mut at = self.links.back(list);
        for node in nodes.iter().rev() {
            assert_at(rt, at, *node, self.nodes);
            at = self.links.prev(*node);
        }
        assert!(rt; at.is_none());
    }

    // Asserts that a list has these nodes, both ways, and their number as its length.
    fn assert_reads(&self, rt: &impl Abort, list: u32, nodes: &[u32]) {
        self.assert_len(rt, list, nodes.len());
        self.assert_forward(rt, list, nodes);
        self.assert_backward(rt, list, nodes);
    }

    // Asserts that each of these nodes is in this list.
    fn assert_all_held(&self, rt: &impl Abort, list: u32, nodes: &[u32]) {
        for node in nodes {
            self.assert_list_of(rt, *node, Some(list));
        }
    }

    // The number of free nodes.
    fn free_len(&self) -> usize {
        let mut free = 0usize;
        for node in 0..self.nodes {
            if self.links.list_of(node).is_none() {
                free = free.saturating_add(1);
            }
        }
        free
    }

    // Asserts that every list reads as its plain list, both ways, and that every other node is free.
    fn compare_all(&self, rt: &impl Abort) {
        let mut listed = 0usize;
        for list in 0..self.lists {
            let plain = self.plain.list(rt, list);
            self.assert_reads(rt, list, plain);
            self.assert_all_held(rt, list, plain);
            listed = listed.saturating_add(plain.len());
        }
        let nodes = listed.saturating_add(self.free_len());
        assert!(rt; nodes == self.nodes as usize);
    }
}

#[test]
fn worked_rows(rt: HostRuntime) {
    let mut twin = Twin::new(&rt, rt.alloc(), 4, 2);
    twin.push_back(&rt, 0, 1);
    twin.push_back(&rt, 0, 3);
    twin.insert_before(&rt, 0, 3, 2);
    twin.push_front(&rt, 1, 0);
    twin.assert_reads(&rt, 0, &[1, 2, 3]);
    twin.assert_reads(&rt, 1, &[0]);
    twin.remove(&rt, 0, 2);
    twin.assert_neighbours(&rt, 3, (Some(1), None));
    twin.assert_neighbours(&rt, 1, (None, Some(3)));
    twin.assert_list_of(&rt, 2, None);
    twin.append(&rt, 0, 1);
    twin.assert_reads(&rt, 0, &[1, 3, 0]);
    twin.assert_list_of(&rt, 0, Some(0));
    twin.assert_ends(&rt, 0, (Some(1), Some(0)));
    twin.assert_ends(&rt, 1, (None, None));
    twin.assert_len(&rt, 0, 3);
}

#[test]
fn long_run_beside_vectors(rt: HostRuntime) {
    let mut twin = Twin::new(&rt, rt.alloc(), NODES, LISTS);
    for node in 0..NODES {
        twin.push_back(&rt, node % LISTS, node);
    }
    twin.compare_all(&rt);
    let mut draw = 1;
    for _ in 0..40 {
        for _ in 0..1000 {
            twin.step(&rt, &mut draw);
        }
        twin.compare_all(&rt);
    }
}
