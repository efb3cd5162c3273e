//! Tests of `Stacks`: small cases by hand, and a random run beside plain vectors.
ghost use Rattle.std.specs.Prelude.{◌≡◌, ◌<◌, IfOk, IfSome, None, length};
ghost use Rattle.strm_links.specs.Rows.{holder};

use super::below;
use super::plain::Plain;
use std::alloc::{AllocError, Global};
use std::process::Abort;
use strm_links::Stacks;

const NODES: u32 = 4000;

const LISTS: u32 = 7;

// The same stacks twice: as `Stacks`, and as plain lists that end with the front.
#[derive(Drop)]
struct Twin {
    stacks: Stacks<u32>,
    plain: Plain,
    lists: u32,
    ghost list_count: { length stacks.rows.lists ≡ lists },
}

// Makes stacks, with the nodes put on them in turn. The load of each node is its number.
fn dealt(alloc: Global) -> Result<Stacks<u32>, AllocError>
    ensures { IfOk result (λ s. length s.rows.lists ≡ 7) }
{
    let mut stacks = Stacks::new(alloc, NODES, LISTS, 0)?;
    for node in 0..NODES {
        stacks.set_load(node, node);
        stacks.push_front(node % LISTS, node);
    }
    Ok(stacks)
}

// Makes two stacks over four nodes, one of which is free.
fn stacked(alloc: Global) -> Result<Stacks<u32>, AllocError>
    ensures { IfOk result (λ s. length s.rows.lists ≡ 2) }
{
    let mut stacks = Stacks::new(alloc, 4, 2, 7)?;
    stacks.push_front(0, 1);
    stacks.push_front(0, 3);
    stacks.push_front(1, 0);
    Ok(stacks)
}

impl Twin {
    // As the function `dealt`, for both forms.
    fn dealt(rt: &impl Abort, alloc: Global) -> Twin {
        let mut plain = Plain::new(rt, alloc, LISTS);
        for node in 0..NODES {
            plain.push(rt, node % LISTS, node);
        }
        Twin {
            stacks: dealt(alloc).expect(rt, "memory"),
            plain,
            lists: LISTS,
        }
    }

    // As the function `stacked`, for both forms.
    fn stacked(rt: &impl Abort, alloc: Global) -> Twin {
        let mut plain = Plain::new(rt, alloc, 2);
        for (list, node) in [(0, 1), (0, 3), (1, 0)] {
            plain.push(rt, list, node);
        }
        Twin {
            stacks: stacked(alloc).expect(rt, "memory"),
            plain,
            lists: 2,
        }
    }

    // Removes the front of a stack.
    fn pop_front(&mut self, rt: &impl Abort, list: u32) -> Option<u32>
        ensures range { IfSome result (λ node. node < self.new.stacks.rows.nodes) }
        ensures freed { IfSome result (λ node. holder node self.new.stacks.rows ≡ None) }
    {
        assert!(rt; list < self.lists);
        let node = self.stacks.pop_front(list);
        assert!(rt; node == self.plain.pop(rt, list));
        node
    }

    // Moves the front of one stack to another, or back to its own.
    fn move_front(&mut self, rt: &impl Abort, from: u32, to: u32) {
        let node = self.pop_front(rt, from);
        self.compare(rt, from);
        assert!(rt; to < self.lists);
        if let Some(node) = node {
            self.stacks.push_front(to, node);
            self.plain.push(rt, to, node);
            self.compare(rt, to);
        }
    }

    // Removes all nodes of a stack. The load of each is its number.
    fn drain(&mut self, rt: &impl Abort, list: u32) {
        assert!(rt; list < self.lists);
        for _ in 0..self.stacks.len(list) {
            let node = self.stacks.take_front(list);
            assert!(rt; self.plain.pop(rt, list) == Some(node));
            assert!(rt; (node as usize) < self.stacks.node_count());
            assert!(rt; *self.stacks.load(node) == node);
        }
        self.compare(rt, list);
    }

    // Removes the front of a stack, which is this node.
    fn assert_popped(&mut self, rt: &impl Abort, list: u32, node: Option<u32>) {
        assert!(rt; self.pop_front(rt, list) == node);
    }

    // Asserts a stack's front and length.
    fn assert_top(&self, rt: &impl Abort, list: u32, top: (Option<u32>, usize)) {
        assert!(rt; list < self.lists);
        let told = (self.stacks.front(list), self.stacks.len(list) as usize);
        assert!(rt; told == top);
    }

    // Asserts that a stack's front and length are those of its plain list.
    fn compare(&self, rt: &impl Abort, list: u32) {
        let plain = self.plain.list(rt, list);
        self.assert_top(rt, list, (plain.last().copied(), plain.len()));
    }
}

#[test]
fn worked_rows(rt: HostRuntime) {
    let mut twin = Twin::stacked(&rt, rt.alloc());
    twin.assert_top(&rt, 0, (Some(3), 2));
    twin.move_front(&rt, 0, 1);
    twin.assert_top(&rt, 0, (Some(1), 1));
    twin.assert_top(&rt, 1, (Some(3), 2));
    twin.assert_popped(&rt, 0, Some(1));
    twin.assert_popped(&rt, 0, None);
    twin.assert_top(&rt, 0, (None, 0));
    twin.assert_popped(&rt, 1, Some(3));
    twin.assert_top(&rt, 1, (Some(0), 1));
    assert!(rt; twin.stacks.node_count() == 4);
    twin.stacks.set_load(2, 40);
    assert!(rt; *twin.stacks.load(2) == 40 && *twin.stacks.load(3) == 7);
}

#[test]
fn drawn_run_beside_vectors(rt: HostRuntime) {
    let mut twin = Twin::dealt(&rt, rt.alloc());
    let mut draw = 1;
    for _ in 0..40_000 {
        let from = below(&mut draw, LISTS);
        let to = below(&mut draw, LISTS);
        twin.move_front(&rt, from, to);
    }
    for list in 0..LISTS {
        twin.drain(&rt, list);
    }
}
