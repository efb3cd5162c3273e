//! Disjoint lists over one arena of nodes, linked both ways: queues.
//!
//! UNIX System V Release 4 STREAMS queues messages in doubly linked lists, so that a message can join or leave anywhere
//! in constant time. That links are numbers into one arena is this project's own choice.
ghost use Rattle.std.specs.Prelude.{◌≡◌, ℕ, ◌^◌, ◌<◌, [], ◌∷◌, ◌++◌, length, map, reverse, replicate, IsSome, IfOk, IfSome, ◌≢◌, slice_set};
ghost use Rattle.std.specs.Option.{ForSome};
ghost use Rattle.strm_links.specs.Rows.{IsParting, first, last, without, put_before, put_in, Reads, list_at, holder, next_in, previous_in};

use crate::slot::Slot;
use crate::table::Table;
use std::alloc::{AllocError, Global};
use std::marker::Model;
use std::mem::size_of;

/// A fixed number of doubly linked lists over a fixed number of nodes, each in one list at most.
///
/// Nodes and lists are numbers from 0 on; every number that a caller passes must be that of a node or a list. A node that is
/// in no list is free. A node that is put into a list must be free; `append` moves nodes from list to list. A node that leaves
/// a list must be in one, and so must the node before which another is put. `list_of` tests this.
///
/// Only `new` takes memory: 12 bytes a node and 12 bytes a list. Every call except `new` and `append` takes constant
/// time. Contracts see `Rows`: the number of nodes, and the nodes of each list from front to back.
#[derive(Debug, Drop)]
pub struct Links {
    // Nodes that carry nothing else.
    table: Table<(), ()>,
}

const _: () = prove!(size_of::<Links>() == 48);

impl Model for Links {
    ghost use Rattle.strm_links.specs.Rows.{Rows, rows_code};

    ghost Value = { Rows };

    ghost coded = { rows_code };

    ghost use Rattle.strm_links.specs.Layout.{rows_in, IsSoundTable};

    ghost view = { λ s. rows_in s.table };

    ghost invariant = { λ s. IsSoundTable s.table };
}

impl Links {
    /// Makes lists 0 to `lists - 1`, all empty, over nodes 0 to `nodes - 1`, all free.
    ///
    /// Fails if it runs out of memory, and then keeps none. Takes a step for each node and each list.
    pub fn new(alloc: Global, nodes: u32, lists: u32) -> Result<Self, AllocError>
        ensures rows { IfOk result (λ s. s ≡ record { nodes = nodes; lists = replicate lists [] }) }
        ensures parting { IfOk result IsParting }
    {
        Ok(Links {
            table: Table::new(alloc, nodes, lists, (), ())?,
        })
    }

    /// Returns the node at the front of a list, or none if the list is empty. Changes nothing.
    pub fn front(&self, list: u32) -> Option<u32>
        requires { list < length self.now.lists }
        ensures value { result ≡ first (list_at list self.now) }
        ensures member { IfSome result (λ node. holder node self.now ≡ Some list) }
        ensures in_range { IfSome result (λ node. node < self.now.nodes) }
    {
        self.table.ends[list as usize].front.get()
    }

    /// Returns the node at the back of a list, or none if the list is empty. Changes nothing.
    pub fn back(&self, list: u32) -> Option<u32>
        requires { list < length self.now.lists }
        ensures value { result ≡ last (list_at list self.now) }
        ensures member { IfSome result (λ node. holder node self.now ≡ Some list) }
        ensures in_range { IfSome result (λ node. node < self.now.nodes) }
    {
        self.table.ends[list as usize].back.get()
    }

    /// Returns the number of nodes of a list. Changes nothing.
    pub fn len(&self, list: u32) -> u32
        requires { list < length self.now.lists }
        ensures { result ≡ length (list_at list self.now) }
    {
        self.table.ends[list as usize].len
    }

    /// Returns the number of lists. Changes nothing.
    pub fn list_count(&self) -> u32
        ensures { result ≡ length self.now.lists }
    {
        self.table.ends.len() as u32
    }

    /// Returns the list that a node is in, or none for a free node. Changes nothing.
    ///
    /// Use it to test what the calls that change lists require of nodes.
    pub fn list_of(&self, node: u32) -> Option<u32>
        requires { node < self.now.nodes }
        ensures value { result ≡ holder node self.now }
        ensures in_range { IfSome result (λ list. list < length self.now.lists) }
    {
        self.table.nodes[node as usize].place.list.get()
    }

    /// Returns the node after this one in its list, or none for a list's last node and for a free node. Changes nothing.
    pub fn next(&self, node: u32) -> Option<u32>
        requires { node < self.now.nodes }
        ensures value { result ≡ next_in self.now node }
        ensures neighbour { IfSome result (λ other. holder other self.now ≡ holder node self.now) }
        ensures in_range { IfSome result (λ other. other < self.now.nodes) }
    {
        self.table.nodes[node as usize].place.next.get()
    }

    /// Returns the node before this one in its list, or none for a list's first node and for a free node. Changes
    /// nothing.
    pub fn prev(&self, node: u32) -> Option<u32>
        requires { node < self.now.nodes }
        ensures value { result ≡ previous_in self.now node }
        ensures neighbour { IfSome result (λ other. holder other self.now ≡ holder node self.now) }
        ensures in_range { IfSome result (λ other. other < self.now.nodes) }
    {
        self.table.nodes[node as usize].place.previous.get()
    }

    /// Puts the free node `node` into `list`: just before the node `next` of this list, or at the back if `next` is none. All other
    /// lists stay unchanged. Unlike `insert_before`, it does not look up the list of `next`.
    pub fn link(&mut self, list: u32, node: u32, next: Option<u32>)
        requires list { list < length self.old.lists }
        requires node { node < self.old.nodes }
        requires free { holder node self.old ≡ None }
        requires next { ForSome next (λ at. holder at self.old ≡ Some list) }
        ensures lists { self.new ≡ record self.old {
          lists = slice_set self.old.lists list (put_in next node (list_at list self.old));
        } }
        ensures held { holder node self.new ≡ Some list }
        ensures others { (k : ℕ) → k ≢ node → holder k self.new ≡ holder k self.old }
        ensures parting { IsParting self.new }
    {
        self.parts_nodes();
        self.table.link_at(list, node, Slot::of(next));
    }

    /// Puts the free node `node` at the front of `list`. All other lists stay unchanged.
    pub fn push_front(&mut self, list: u32, node: u32)
        requires list { list < length self.old.lists }
        requires node { node < self.old.nodes }
        requires free { holder node self.old ≡ None }
        ensures lists { self.new ≡ record self.old {
          lists = slice_set self.old.lists list (node ∷ list_at list self.old);
        } }
        ensures held { holder node self.new ≡ Some list }
        ensures others { (k : ℕ) → k ≢ node → holder k self.new ≡ holder k self.old }
        ensures parting { IsParting self.new }
    {
        let front = self.front(list);
        self.link(list, node, front);
    }

    /// Puts the free node `node` at the back of `list`. All other lists stay unchanged.
    pub fn push_back(&mut self, list: u32, node: u32)
        requires list { list < length self.old.lists }
        requires node { node < self.old.nodes }
        requires free { holder node self.old ≡ None }
        ensures lists { self.new ≡ record self.old {
          lists = slice_set self.old.lists list (list_at list self.old ++ node ∷ []);
        } }
        ensures held { holder node self.new ≡ Some list }
        ensures others { (k : ℕ) → k ≢ node → holder k self.new ≡ holder k self.old }
        ensures parting { IsParting self.new }
    {
        self.table.link_at(list, node, Slot::none());
    }

    /// Puts the free node `node` just before `at`, a node of a list. All other lists stay unchanged.
    pub fn insert_before(&mut self, at: u32, node: u32)
        requires at { IsSome (holder at self.old) }
        requires node { node < self.old.nodes }
        requires free { holder node self.old ≡ None }
        ensures lists { self.new
            ≡ record self.old { lists = map (put_before at node) self.old.lists } }
        ensures held { holder node self.new ≡ holder at self.old }
        ensures others { (k : ℕ) → k ≢ node → holder k self.new ≡ holder k self.old }
        ensures parting { IsParting self.new }
    {
        self.parts_nodes();
        let list = self.list_of(at).unwrap();
        self.link(list, node, Some(at));
    }

    /// Takes a node out of its list. All other lists stay unchanged.
    pub fn remove(&mut self, node: u32)
        requires { IsSome (holder node self.old) }
        ensures lists { self.new ≡ record self.old { lists = map (without node) self.old.lists } }
        ensures freed { holder node self.new ≡ None }
        ensures others { (k : ℕ) → k ≢ node → holder k self.new ≡ holder k self.old }
        ensures parting { IsParting self.new }
    {
        self.table.remove(node);
    }

    /// Appends all nodes of `from` to `to`, a different list, in order, and leaves `from` empty. All other lists stay unchanged.
    /// Takes a step for each node of `from`.
    pub fn append(&mut self, to: u32, from: u32)
        requires to { to < length self.old.lists }
        requires from { from < length self.old.lists }
        requires other { to ≢ from }
        ensures lists { self.new ≡ record self.old {
          lists = slice_set (slice_set self.old.lists to
              (list_at to self.old ++ list_at from self.old)) from [];
        } }
        ensures moved { (k : ℕ) → holder k self.old ≡ Some from → holder k self.new ≡ Some to }
        ensures others { (k : ℕ) → holder k self.old ≢ Some from
            → holder k self.new ≡ holder k self.old }
        ensures parting { IsParting self.new }
    {
        self.table.append(to, from);
    }

    /// Law: all lists together have each node at most once, and no other numbers. Every call that changes lists ensures this too.
    /// Does nothing.
    pub fn parts_nodes(&self)
        ensures parting { IsParting self.now }
        ensures few_nodes { self.now.nodes < 2 ^ 32 }
        ensures few_lists { length self.now.lists < 2 ^ 32 }
    {
        let _ = &self.table;
    }

    /// Law: each list reads alike both ways: `next` from its front leads along it, and `prev` from its back along its
    /// reverse. Does nothing.
    pub fn reads_alike(&self)
        ensures forward { (list : ℕ) →
            Reads (next_in self.now) (first (list_at list self.now)) (list_at list self.now) }
        ensures backward { (list : ℕ) → Reads (previous_in self.now)
            (last (list_at list self.now)) (reverse (list_at list self.now)) }
    {
        let _ = &self.table;
    }
}
