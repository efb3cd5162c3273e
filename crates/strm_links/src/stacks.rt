//! Disjoint stacks over one table of nodes that carry loads, linked one way: free lists.
//!
//! The free lists of UNIX System V Release 4 STREAMS, as stacks. A stack changes at its front only, so it needs no link
//! back, and no way from a node to its stack. Each node carries all that belongs to it. Stacks, and links that are numbers
//! into one table, are this project's own choice.
ghost use Rattle.std.specs.Prelude.{◌≡◌, ◌≢◌, ℕ, ◌^◌, ◌<◌, [], ◌∷◌, Some, None, drop, length, replicate, IfOk, IfSome, slice_get, slice_set};
ghost use Rattle.strm_links.specs.Rows.{IsParting, first, list_at, holder};
ghost use Rattle.strm_links.specs.StackLayout.{no_top};

use crate::slot::Slot;
use std::alloc::{AllocError, Global};
use std::marker::Model;
use std::mem::size_of;

/// A fixed number of stacks over a fixed number of nodes, each in one stack at most.
///
/// Nodes and stacks are numbers from 0 on; a caller must name only those that exist. A node that is in no stack is
/// free; only a free node can join a stack. Which stack a node is in is not stored, so the caller must know which nodes
/// are free. `Links` stores it. Each node carries a load. It is the caller's: only `set_load` changes it, whether the node is
/// free or in a stack.
///
/// Only `new` takes memory: 4 bytes a node and its load, rounded up for alignment, and 8 bytes a stack. Every other call takes
/// constant time.
///
/// Contracts see `LoadedRows`. It has the load of each node (`loads`), and `rows`: the number of nodes, and the nodes of each stack
/// from the front on.
#[derive(Debug, Drop)]
pub struct Stacks<T> {
    nodes: Vec<Node<T>>,
    tops: Vec<Top>,
}

#[derive(Clone, Copy, Debug)]
struct Node<T> {
    // The node after this one in its stack; meaningless for a free node.
    behind: Slot,
    load: T,
}

#[derive(Clone, Copy, Debug)]
struct Top {
    len: u32,
    front: Slot,
}

const _: () = prove!(
    size_of::<Slot>() == 4
        && size_of::<Top>() == 8
        && size_of::<Node<[u32; 3]>>() == 16
        && size_of::<Stacks<()>>() == 48
);

impl Top {
    // The top of an empty stack.
    fn empty() -> Top
        ensures { result ≡ no_top }
    {
        Top {
            len: 0,
            front: Slot::none(),
        }
    }
}

impl<T> Model for Stacks<T> {
    ghost use Rattle.strm_links.specs.LoadedRows.{LoadedRows, loaded_rows_code};

    ghost Value = { LoadedRows T };

    ghost coded = { loaded_rows_code T.code };

    ghost use Rattle.strm_links.specs.StackLayout.{loaded_rows, IsLaid};

    ghost view = { λ s. loaded_rows s.nodes.items s.tops.items };

    ghost invariant = { λ s. IsLaid s.nodes.items s.tops.items };
}

impl<T> Stacks<T> {
    /// Returns the node at the front of stack `list`, or none if the stack is empty. Changes nothing.
    pub fn front(&self, list: u32) -> Option<u32>
        requires { list < length self.now.rows.lists }
        ensures value { result ≡ first (list_at list self.now.rows) }
        ensures member { IfSome result (λ node. holder node self.now.rows ≡ Some list) }
        ensures in_range { IfSome result (λ node. node < self.now.rows.nodes) }
    {
        self.tops[list as usize].front.get()
    }

    /// Returns the number of nodes. Changes nothing.
    #[inline(always)]
    pub fn node_count(&self) -> usize
        ensures { result ≡ length self.now.loads }
    {
        self.nodes.len()
    }

    /// Lends the load of a node, to look at. Changes nothing.
    #[inline(always)]
    pub fn load(&self, node: u32) -> &T
        requires { node < length self.now.loads }
        ensures { slice_get self.now.loads node ≡ Some result.now }
    {
        &self.nodes[node as usize].load
    }

    /// Returns the number of nodes of stack `list`. Changes nothing.
    pub fn len(&self, list: u32) -> u32
        requires { list < length self.now.rows.lists }
        ensures { result ≡ length (list_at list self.now.rows) }
    {
        self.tops[list as usize].len
    }

    /// Puts the free node `node` at the front of stack `list`. All other stacks stay unchanged.
    pub fn push_front(&mut self, list: u32, node: u32)
        requires list { list < length self.old.rows.lists }
        requires node { node < self.old.rows.nodes }
        requires free { holder node self.old.rows ≡ None }
        ensures lists { self.new.rows ≡ record self.old.rows {
          lists = slice_set self.old.rows.lists list (node ∷ list_at list self.old.rows);
        } }
        ensures held { holder node self.new.rows ≡ Some list }
        ensures others { (k : ℕ) → k ≢ node → holder k self.new.rows ≡ holder k self.old.rows }
        ensures loads { self.new.loads ≡ self.old.loads }
        ensures parting { IsParting self.new.rows }
    {
        let top = &mut self.tops[list as usize];
        self.nodes[node as usize].behind = top.front;
        top.front = Slot::some(node);
        top.len += 1;
    }

    /// Removes the node at the front of stack `list` and returns it, or none if the stack is empty. All other stacks stay
    /// unchanged.
    pub fn pop_front(&mut self, list: u32) -> Option<u32>
        requires { list < length self.old.rows.lists }
        ensures value { result ≡ first (list_at list self.old.rows) }
        ensures lists { self.new.rows ≡ record self.old.rows {
          lists = slice_set self.old.rows.lists list (drop 1 (list_at list self.old.rows));
        } }
        ensures member { IfSome result (λ node. holder node self.old.rows ≡ Some list) }
        ensures in_range { IfSome result (λ node. node < self.old.rows.nodes) }
        ensures freed { IfSome result (λ node. holder node self.new.rows ≡ None) }
        ensures others { (k : ℕ) → result ≢ Some k → holder k self.new.rows ≡ holder k self.old.rows }
        ensures loads { self.new.loads ≡ self.old.loads }
        ensures parting { IsParting self.new.rows }
    {
        self.tops[list as usize].front.get()?;
        Some(self.take_front(list))
    }

    /// Removes the node at the front of stack `list`, which is not empty, and returns it, without a test. All other stacks
    /// stay unchanged.
    #[inline(always)]
    pub fn take_front(&mut self, list: u32) -> u32
        requires list { list < length self.old.rows.lists }
        requires some { 0 < length (list_at list self.old.rows) }
        ensures value { first (list_at list self.old.rows) ≡ Some result }
        ensures lists { self.new.rows ≡ record self.old.rows {
          lists = slice_set self.old.rows.lists list (drop 1 (list_at list self.old.rows));
        } }
        ensures member { holder result self.old.rows ≡ Some list }
        ensures in_range { result < self.old.rows.nodes }
        ensures freed { holder result self.new.rows ≡ None }
        ensures others { (k : ℕ) → k ≢ result → holder k self.new.rows ≡ holder k self.old.rows }
        ensures loads { self.new.loads ≡ self.old.loads }
        ensures parting { IsParting self.new.rows }
    {
        let top = self.tops[list as usize];
        let node = top.front.number();
        self.tops[list as usize] = Top {
            len: top.len - 1,
            front: self.nodes[node as usize].behind,
        };
        node
    }

    /// Law: all stacks together have each node at most once, and no other numbers. Every call that changes stacks ensures this too.
    /// Does nothing.
    pub fn parts_nodes(&self)
        ensures parting { IsParting self.now.rows }
        ensures loads { length self.now.loads ≡ self.now.rows.nodes }
        ensures few_nodes { self.now.rows.nodes < 2 ^ 32 }
        ensures few_lists { length self.now.rows.lists < 2 ^ 32 }
    {
        let _ = &self.nodes;
    }
}

impl<T: Copy> Stacks<T> {
    /// Makes stacks 0 to `lists - 1`, all empty, over nodes 0 to `nodes - 1`, all free, each with this load.
    ///
    /// Fails if it runs out of memory, and then keeps none. Takes a step for each node and each stack.
    pub fn new(alloc: Global, nodes: u32, lists: u32, load: T) -> Result<Self, AllocError>
        ensures rows { IfOk result (λ s. s.rows ≡ record { nodes = nodes; lists = replicate lists [] }) }
        ensures loads { IfOk result (λ s. s.loads ≡ replicate nodes load) }
        ensures parting { IfOk result (λ s. IsParting s.rows) }
    {
        let node = Node {
            behind: Slot::none(),
            load,
        };
        let mut table = Vec::with_capacity(alloc, nodes as usize)?;
        table.resize(nodes as usize, node)?;
        Ok(Stacks {
            nodes: table,
            tops: vec![in alloc; Top::empty(); lists as usize]?,
        })
    }

    /// Gives a node this load. All else stays unchanged.
    #[inline(always)]
    pub fn set_load(&mut self, node: u32, load: T)
        requires { node < length self.old.loads }
        ensures rows { self.new.rows ≡ self.old.rows }
        ensures loads { self.new.loads ≡ slice_set self.old.loads node load }
    {
        self.nodes[node as usize].load = load;
    }
}
