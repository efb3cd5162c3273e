//! Chains over one table of nodes that carry loads, free, held or on shelves: the blocks of messages.
//!
//! In UNIX System V Release 4 STREAMS each block of a message links to the next one, and the first blocks of messages link in
//! both directions on queues. Here links are numbers into one table, and each node carries all that belongs to its block: both are
//! this project's own choice. So is that a chain's first node stores its last node and its length: two chains of any length are
//! joined in constant time.
ghost use Rattle.std.specs.Prelude.{◌≡◌, ◌≢◌, ℕ, ◌+◌, ◌-◌, ◌^◌, ◌<◌, ◌≤◌, ◌++◌, ◌==◌, ◌&&◌, [], ◌∷◌, drop, is_none, is_some, length, nat_lt, replicate, reverse, take, false, if◌then◌else◌, IfOk, IfSome, IsSome, IsTrue, None, Some, slice_get, slice_set, vec_len};
ghost use Rattle.std.specs.Option.{ForSome};
ghost use Rattle.strm_links.specs.Rows.{IsApart, after, before, first, first_or, has, last};
ghost use Rattle.strm_links.specs.Layout.{LeadsOn};
ghost use Rattle.strm_links.specs.Chains.{chain_divided, chain_in, chains_joined, put_before_head, shelf_in, with_head, without_head, without_place};
ghost use Rattle.strm_links.specs.ChainLists.{IsLawful, chain_of, head_node, heads_on, nodes_at, opening_chains, shelf_with, shelved_nodes, with_begun, with_behind_freed};
ghost use Rattle.strm_links.specs.ChainLayout.{after_at, links_of, no_link, no_span, onward, path, span_at, unlinked};

use crate::slot::Slot;
use crate::table::{Node, Table};
use std::alloc::{AllocError, Global};
use std::marker::Model;
use std::mem::size_of;

/// A fixed number of nodes, each of which is free or in one chain, and carries a load. A chain is held or on one shelf. On
/// a shelf, chains are in an order.
///
/// Nodes and shelves are numbers from 0 on; a caller must name only those that exist. A chain has one node at least, and is
/// named by its first node, its head. The free nodes are in an order, and are taken from its front. The load of a node is the
/// caller's: only `set_load` changes it, whether the node is free or in a chain.
///
/// Only `new` takes memory: 24 bytes a node and its load, rounded up for alignment, and 12 bytes a shelf. Every call takes constant
/// time except `new`, `begin_all`, `take_out`, `free` and `free_behind`, which walk along nodes.
///
/// Contracts see `LoadedChains`. It has the load of each node (`loads`), and `lists`: the free nodes in order, for each node the held
/// chain that begins with it, the chains on each shelf, and the fewest nodes that were free.
#[derive(Debug, Drop)]
pub struct Chained<T> {
    // Each node: its place among the heads on a shelf, if it is one; its link in a chain or among the free nodes; its load.
    table: Table<Link, T>,
    // The first free node, the number of free nodes, and the fewest that were free.
    first_free: Slot,
    free_len: u32,
    least: u32,
}

#[derive(Clone, Copy, Debug)]
pub(crate) struct Link {
    // The node after this one, in its chain or among the free nodes.
    next: Slot,
    span: Span,
}

// What a head stores of its chain. Any other node has a length of 0.
#[derive(Clone, Copy, Debug)]
pub(crate) struct Span {
    last: u32,
    len: u32,
}

// The last of the nodes whose links were reversed, and the node that followed it, if any.
#[derive(Clone, Copy, Debug)]
struct Reversed {
    last: Slot,
    next: Slot,
}

const _: () = prove!(size_of::<Node<Link, [u64; 5]>>() == 64 && size_of::<Chained<()>>() == 64);

impl<T> Model for Chained<T> {
    ghost use Rattle.strm_links.specs.ChainLists.{LoadedChains, loaded_code};

    ghost Value = { LoadedChains T };

    ghost coded = { loaded_code T.code };

    ghost use Rattle.strm_links.specs.ChainLayout.{IsWhole, view_of};

    ghost view = { λ s. view_of s.table s.first_free s.free_len s.least };

    ghost invariant = { λ s. IsWhole s.table s.first_free s.free_len s.least };
}

impl Link {
    // The link of a node that is last and no head.
    fn none() -> Link
        ensures { result ≡ no_link }
    {
        Link {
            next: Slot::none(),
            span: Span::none(),
        }
    }
}

impl Span {
    // What a node that is no head stores.
    #[inline(always)]
    fn none() -> Span
        ensures { result ≡ no_span }
    {
        Span { last: 0, len: 0 }
    }

    // What a head stores after the `count` nodes after `ahead` have left the chain. `next` is the node that followed
    // them; if there is none, `ahead` is the last node.
    #[inline(always)]
    fn without(self, count: u32, ahead: u32, next: Slot) -> Span
        requires { count ≤ self.len }
        ensures { result ≡ record { last = (if is_none next then ahead else self.last); len = self.len - count } }
    {
        Span {
            last: if next.get().is_none() {
                ahead
            } else {
                self.last
            },
            len: self.len - count,
        }
    }
}

// Makes `next` the node after node `at`.
#[inline(always)]
fn lead<T>(nodes: &mut Vec<Node<Link, T>>, at: u32, next: Slot)
    requires { at < vec_len nodes.old }
    ensures nexts { (k : ℕ) → after_at (links_of nodes.new.items) k
        ≡ (if at == k then next else after_at (links_of nodes.old.items) k) }
    ensures spans { (k : ℕ) → span_at (links_of nodes.new.items) k ≡ span_at (links_of nodes.old.items) k }
    ensures rest { unlinked nodes.new.items ≡ unlinked nodes.old.items }
    ensures len { vec_len nodes.new ≡ vec_len nodes.old }
{
    nodes[at as usize].link.next = next;
}

// Stores `span` at node `at`.
#[inline(always)]
fn keep<T>(nodes: &mut Vec<Node<Link, T>>, at: u32, span: Span)
    requires { at < vec_len nodes.old }
    ensures nexts { (k : ℕ) → after_at (links_of nodes.new.items) k ≡ after_at (links_of nodes.old.items) k }
    ensures spans { (k : ℕ) → span_at (links_of nodes.new.items) k
        ≡ (if at == k then span else span_at (links_of nodes.old.items) k) }
    ensures rest { unlinked nodes.new.items ≡ unlinked nodes.old.items }
    ensures len { vec_len nodes.new ≡ vec_len nodes.old }
{
    nodes[at as usize].link.span = span;
}

// Makes a chain of the `len` nodes that are linked from `head` to `last`.
#[inline(always)]
fn chain_up<T>(nodes: &mut Vec<Node<Link, T>>, head: u32, last: u32, len: u32)
    requires head { head < vec_len nodes.old }
    requires last { last < vec_len nodes.old }
    ensures nexts { (k : ℕ) → after_at (links_of nodes.new.items) k
        ≡ (if last == k then None else after_at (links_of nodes.old.items) k) }
    ensures spans { (k : ℕ) → span_at (links_of nodes.new.items) k
        ≡ (if head == k then record { last = last; len = len } else span_at (links_of nodes.old.items) k) }
    ensures rest { unlinked nodes.new.items ≡ unlinked nodes.old.items }
    ensures len { vec_len nodes.new ≡ vec_len nodes.old }
{
    lead(nodes, last, Slot::none());
    keep(nodes, head, Span { last, len });
}

// The node that is `steps` links after `from`.
#[inline(always)]
fn node_behind<T>(nodes: &[Node<Link, T>], from: u32, steps: u32) -> u32
    requires from { from < length nodes.now }
    requires within { (k j : ℕ) → after_at (links_of nodes.now) k ≡ Some j → j < length nodes.now }
    requires there { IsSome (onward (after_at (links_of nodes.now)) steps (Some from)) }
    ensures value { onward (after_at (links_of nodes.now)) steps (Some from) ≡ Some result }
    ensures in_range { result < length nodes.now }
{
    let mut at = from;
    for _step in 0..steps {
        at = nodes[at as usize].link.next.number();
    }
    at
}

// Reverses the links of `len` nodes from `head` on: the last one leads back to `head`, and `head` to `beyond`. Most
// chains have one node, for which no loop runs.
#[inline(always)]
fn reverse_links<T>(nodes: &mut Vec<Node<Link, T>>, head: u32, len: u32, beyond: Slot) -> Reversed
    requires few { vec_len nodes.old < 2 ^ 32 }
    requires begins { first (path (links_of nodes.old.items) len (Some head)) ≡ Some head }
    requires len { length (path (links_of nodes.old.items) len (Some head)) ≡ len }
    requires apart { IsApart (path (links_of nodes.old.items) len (Some head)) }
    requires within { (k : ℕ) → IsTrue (has k (path (links_of nodes.old.items) len (Some head)))
        → k < vec_len nodes.old }
    ensures last { result.last ≡ first_or beyond (reverse (path (links_of nodes.old.items) len (Some head))) }
    ensures next { result.next ≡ onward (after_at (links_of nodes.old.items)) len (Some head) }
    ensures reversed { LeadsOn (after_at (links_of nodes.new.items))
        (reverse (path (links_of nodes.old.items) len (Some head))) beyond }
    ensures others { (k : ℕ) → has k (path (links_of nodes.old.items) len (Some head)) ≡ false
        → after_at (links_of nodes.new.items) k ≡ after_at (links_of nodes.old.items) k }
    ensures spans { (k : ℕ) → span_at (links_of nodes.new.items) k ≡ span_at (links_of nodes.old.items) k }
    ensures rest { unlinked nodes.new.items ≡ unlinked nodes.old.items }
    ensures len { vec_len nodes.new ≡ vec_len nodes.old }
{
    let node = &mut nodes[head as usize];
    let mut at = node.link.next;
    node.link.next = beyond;
    let mut onto = Slot::some(head);
    for _reversed in 1..len {
        let number = at.number();
        let node = &mut nodes[number as usize];
        at = node.link.next;
        node.link.next = onto;
        onto = Slot::some(number);
    }
    Reversed {
        last: onto,
        next: at,
    }
}

// The first of this number of nodes, or none.
fn first_of(nodes: u32) -> Slot
    ensures { result ≡ (if nat_lt 0 nodes then Some 0 else None) }
{
    if nodes > 0 {
        Slot::some(0)
    } else {
        Slot::none()
    }
}

impl<T> Chained<T> {
    /// Returns the number of nodes. Changes nothing.
    #[inline(always)]
    pub fn node_count(&self) -> usize
        ensures { result ≡ length self.now.lists.held }
    {
        self.table.nodes.len()
    }

    /// Returns the number of free nodes. Changes nothing.
    #[inline(always)]
    pub fn free_len(&self) -> u32
        ensures { result ≡ length self.now.lists.free }
    {
        self.free_len
    }

    /// Lends the load of a node, to look at. Changes nothing.
    #[inline(always)]
    pub fn load(&self, node: u32) -> &T
        requires { node < length self.now.loads }
        ensures { slice_get self.now.loads node ≡ Some result.now }
    {
        &self.table.nodes[node as usize].load
    }

    /// Returns the fewest nodes that were free at a time since `new`, or since the last `reset_least`. Changes nothing.
    #[inline(always)]
    pub fn least(&self) -> u32
        ensures { result ≡ self.now.lists.least }
    {
        self.least
    }

    /// Makes the nodes that are free now the fewest that were free. All else stays unchanged.
    pub fn reset_least(&mut self)
        ensures after { self.new.lists ≡ record self.old.lists { least = length self.old.lists.free } }
        ensures loads { self.new.loads ≡ self.old.loads }
        ensures parted { IsLawful self.new.lists }
    {
        self.least = self.free_len;
    }

    /// Says whether a held chain begins with this node. Changes nothing.
    #[inline(always)]
    pub fn is_held(&self, head: u32) -> bool
        requires { head < length self.now.lists.held }
        ensures { result ≡ is_some (chain_in self.now.lists.held head) }
    {
        let node = &self.table.nodes[head as usize];
        node.link.span.len > 0 && node.place.list.get().is_none()
    }

    /// Says whether a held chain of this many nodes, one at least, begins with this node. Changes nothing.
    #[inline(always)]
    pub fn holds(&self, head: u32, len: u32) -> bool
        requires head { head < length self.now.lists.held }
        requires some { 0 < len }
        ensures { result ≡ (is_some (chain_in self.now.lists.held head)
            && length (nodes_at self.now.lists head) == len) }
    {
        let node = &self.table.nodes[head as usize];
        node.link.span.len == len && node.place.list.get().is_none()
    }

    /// Returns the number of nodes of the chain with this head, held or on a shelf, or 0 if no chain has it. Changes nothing.
    #[inline(always)]
    pub fn len(&self, head: u32) -> u32
        requires { head < length self.now.lists.held }
        ensures { result ≡ length (chain_of self.now.lists head) }
    {
        self.table.nodes[head as usize].link.span.len
    }

    /// Returns the node after this one in its chain, held or on a shelf, or none for the last. For a free node the answer says
    /// nothing. Changes nothing.
    #[inline(always)]
    pub fn next(&self, node: u32) -> Option<u32>
        requires { node < length self.now.lists.held }
        ensures value { (h i : ℕ) → slice_get (chain_of self.now.lists h) i ≡ Some node
            → result ≡ slice_get (chain_of self.now.lists h) (i + 1) }
        ensures in_range { IfSome result (λ other. other < length self.now.lists.held) }
    {
        self.table.nodes[node as usize].link.next.get()
    }

    /// Makes the first `count` free nodes one held chain, in their order, and returns its head. The count is from 1 to the number of
    /// free nodes. All else stays unchanged. Takes a step for each node.
    #[inline(always)]
    pub fn begin_all(&mut self, count: u32) -> u32
        requires some { 0 < count }
        requires enough { count ≤ length self.old.lists.free }
        ensures answer { first self.old.lists.free ≡ Some result }
        ensures after { self.new.lists ≡ with_begun self.old.lists result count }
        ensures loads { self.new.loads ≡ self.old.loads }
        ensures parted { IsLawful self.new.lists }
    {
        let head = self.first_free.number();
        let last = node_behind(&self.table.nodes, head, count - 1);
        self.first_free = self.table.nodes[last as usize].link.next;
        self.free_len -= count;
        self.least = self.least.min(self.free_len);
        chain_up(&mut self.table.nodes, head, last, count);
        head
    }

    /// Appends the held chain `tail` to the held chain `head`, a different one. All else stays unchanged.
    #[inline(always)]
    pub fn join(&mut self, head: u32, tail: u32)
        requires head { IsSome (chain_in self.old.lists.held head) }
        requires tail { IsSome (chain_in self.old.lists.held tail) }
        requires other { head ≢ tail }
        ensures after { self.new.lists ≡ record self.old.lists { held = chains_joined head tail self.old.lists.held } }
        ensures loads { self.new.loads ≡ self.old.loads }
        ensures parted { IsLawful self.new.lists }
    {
        let span = self.table.nodes[head as usize].link.span;
        let behind = self.table.nodes[tail as usize].link.span;
        lead(&mut self.table.nodes, span.last, Slot::some(tail));
        keep(&mut self.table.nodes, tail, Span::none());
        keep(
            &mut self.table.nodes,
            head,
            Span {
                last: behind.last,
                len: span.len + behind.len,
            },
        );
    }

    /// Makes the nodes after the first of a held chain a held chain of their own, and returns its head. Returns none if the chain
    /// has one node, and then nothing changes. All else stays unchanged.
    #[inline(always)]
    pub fn divide(&mut self, head: u32) -> Option<u32>
        requires { IsSome (chain_in self.old.lists.held head) }
        ensures answer { result ≡ slice_get (nodes_at self.old.lists head) 1 }
        ensures after { self.new.lists ≡ record self.old.lists {
          held = chain_divided (λ n. n) head (nodes_at self.old.lists head) self.old.lists.held;
        } }
        ensures loads { self.new.loads ≡ self.old.loads }
        ensures parted { IsLawful self.new.lists }
    {
        let Link { next, span } = self.table.nodes[head as usize].link;
        let rest = next.get()?;
        chain_up(&mut self.table.nodes, head, head, 1);
        keep(
            &mut self.table.nodes,
            rest,
            Span {
                last: span.last,
                len: span.len - 1,
            },
        );
        Some(rest)
    }

    /// Takes the node at `place` out of a held chain, makes it a held chain of its own, and returns it. Places count from 0; this
    /// one is 1 at least, and is there. All else stays unchanged. Takes a step for each node before the place.
    pub fn take_out(&mut self, head: u32, place: u32) -> u32
        requires held { IsSome (chain_in self.old.lists.held head) }
        requires behind { 0 < place }
        requires there { place < length (nodes_at self.old.lists head) }
        ensures answer { slice_get (nodes_at self.old.lists head) place ≡ Some result }
        ensures after { self.new.lists ≡ record self.old.lists {
          held = slice_set (slice_set self.old.lists.held head
              (Some (without_place place (nodes_at self.old.lists head))))
              result (Some (result ∷ []));
        } }
        ensures loads { self.new.loads ≡ self.old.loads }
        ensures parted { IsLawful self.new.lists }
    {
        let span = self.table.nodes[head as usize].link.span;
        let ahead = node_behind(&self.table.nodes, head, place - 1);
        let node = self.table.nodes[ahead as usize].link.next.number();
        let next = self.table.nodes[node as usize].link.next;
        lead(&mut self.table.nodes, ahead, next);
        chain_up(&mut self.table.nodes, node, node, 1);
        keep(&mut self.table.nodes, head, span.without(1, ahead, next));
        node
    }

    /// Frees the nodes of a held chain, first to last, each to the front of the free nodes. `len` is their number: for a chain that
    /// is known to have one node, no loop is compiled. All else stays unchanged. Takes a step for each node.
    #[inline(always)]
    pub fn free(&mut self, head: u32, len: u32)
        requires head { IsSome (chain_in self.old.lists.held head) }
        requires len { len ≡ length (nodes_at self.old.lists head) }
        ensures after { self.new.lists ≡ record self.old.lists {
          free = reverse (nodes_at self.old.lists head) ++ self.old.lists.free;
          held = slice_set self.old.lists.held head None;
        } }
        ensures loads { self.new.loads ≡ self.old.loads }
        ensures parted { IsLawful self.new.lists }
    {
        let reversed = reverse_links(&mut self.table.nodes, head, len, self.first_free);
        keep(&mut self.table.nodes, head, Span::none());
        self.first_free = reversed.last;
        self.free_len += len;
    }

    /// Frees the `count` nodes after the first of a held chain, in order, each to the front of the free nodes. The chain has more
    /// nodes than that, and keeps the others. All else stays unchanged. Takes a step for each freed node.
    #[inline(always)]
    pub fn free_behind(&mut self, head: u32, count: u32)
        requires { count < length (nodes_at self.old.lists head) }
        ensures after { self.new.lists ≡ with_behind_freed head count (nodes_at self.old.lists head) self.old.lists }
        ensures loads { self.new.loads ≡ self.old.loads }
        ensures parted { IsLawful self.new.lists }
    {
        let Link { next, span } = self.table.nodes[head as usize].link;
        if count == 0 {
            return;
        }
        let freed = reverse_links(&mut self.table.nodes, next.number(), count, self.first_free);
        lead(&mut self.table.nodes, head, freed.next);
        keep(
            &mut self.table.nodes,
            head,
            span.without(count, head, freed.next),
        );
        self.first_free = freed.last;
        self.free_len += count;
    }

    /// Returns the head of the first chain on a shelf, or none if the shelf is empty. Changes nothing.
    #[inline(always)]
    pub fn first(&self, shelf: u32) -> Option<u32>
        requires { shelf < length self.now.lists.shelves }
        ensures { result ≡ first (heads_on self.now.lists shelf) }
    {
        self.table.ends[shelf as usize].front.get()
    }

    /// Returns the head of the last chain on a shelf, or none if the shelf is empty. Changes nothing.
    #[inline(always)]
    pub fn last(&self, shelf: u32) -> Option<u32>
        requires { shelf < length self.now.lists.shelves }
        ensures { result ≡ last (heads_on self.now.lists shelf) }
    {
        self.table.ends[shelf as usize].back.get()
    }

    /// Returns the shelf that has a chain with this head, or none. Changes nothing.
    #[inline(always)]
    pub fn shelf_of(&self, head: u32) -> Option<u32>
        requires { head < length self.now.lists.held }
        ensures { result ≡ shelf_with self.now.lists head }
    {
        self.table.nodes[head as usize].place.list.get()
    }

    /// Returns the head of the chain after this one on its shelf, or none for the last. Changes nothing.
    #[inline(always)]
    pub fn after(&self, head: u32) -> Option<u32>
        requires { head < length self.now.lists.held }
        ensures { (s : ℕ) → IsTrue (has head (heads_on self.now.lists s))
            → result ≡ after head (heads_on self.now.lists s) }
    {
        self.table.nodes[head as usize].place.next.get()
    }

    /// Returns the head of the chain before this one on its shelf, or none for the first. Changes nothing.
    #[inline(always)]
    pub fn before(&self, head: u32) -> Option<u32>
        requires { head < length self.now.lists.held }
        ensures { (s : ℕ) → IsTrue (has head (heads_on self.now.lists s))
            → result ≡ before head (heads_on self.now.lists s) }
    {
        self.table.nodes[head as usize].place.previous.get()
    }

    /// Puts a held chain on a shelf: just before the chain with head `before`, or last if that is none. All else stays unchanged.
    #[inline(always)]
    pub fn shelve(&mut self, shelf: u32, before: Option<u32>, head: u32)
        requires shelf { shelf < length self.old.lists.shelves }
        requires held { IsSome (chain_in self.old.lists.held head) }
        requires before { ForSome before (λ at. IsTrue (has at (heads_on self.old.lists shelf))) }
        ensures after { self.new.lists ≡ record self.old.lists {
          held = slice_set self.old.lists.held head None;
          shelves = slice_set self.old.lists.shelves shelf
              (put_before_head head_node before (nodes_at self.old.lists head) (shelf_in self.old.lists.shelves shelf));
        } }
        ensures loads { self.new.loads ≡ self.old.loads }
        ensures parted { IsLawful self.new.lists }
    {
        self.table.link_at(shelf, head, Slot::of(before));
    }

    /// Takes a chain off its shelf; it is then held. All else stays unchanged.
    #[inline(always)]
    pub fn unshelve(&mut self, shelf: u32, head: u32)
        requires shelf { shelf < length self.old.lists.shelves }
        requires there { IsTrue (has head (heads_on self.old.lists shelf)) }
        ensures after { self.new.lists ≡ record self.old.lists {
          held = slice_set self.old.lists.held head (with_head head_node head (shelf_in self.old.lists.shelves shelf));
          shelves = slice_set self.old.lists.shelves shelf (without_head head_node head (shelf_in self.old.lists.shelves shelf));
        } }
        ensures loads { self.new.loads ≡ self.old.loads }
        ensures parted { IsLawful self.new.lists }
    {
        self.table.remove(head);
    }

    /// Law: each node is free, or in one chain, which is held or on one shelf. Every call that changes chains ensures this too. Does
    /// nothing.
    pub fn parts_nodes(&self)
        ensures parted { IsLawful self.now.lists }
        ensures loads { length self.now.loads ≡ length self.now.lists.held }
        ensures few_nodes { length self.now.lists.held < 2 ^ 32 }
        ensures few_shelves { length self.now.lists.shelves < 2 ^ 32 }
    {
        let _ = &self.table;
    }

    /// Law: the chain with this head, as `len` and `next` follow it, is the held chain with this head, or the chain on a shelf with
    /// this head. Does nothing.
    pub fn finds_chains(&self)
        ensures held { (h : ℕ) → IsSome (chain_in self.now.lists.held h)
            → chain_of self.now.lists h ≡ nodes_at self.now.lists h }
        ensures shelved { (s k h : ℕ) → slice_get (shelved_nodes self.now.lists s k) 0 ≡ Some h
            → chain_of self.now.lists h ≡ shelved_nodes self.now.lists s k }
    {
        let _ = &self.table;
    }
}

impl<T: Copy> Chained<T> {
    /// Gives a node this load. All else stays unchanged.
    #[inline(always)]
    pub fn set_load(&mut self, node: u32, load: T)
        requires { node < length self.old.loads }
        ensures lists { self.new.lists ≡ self.old.lists }
        ensures loads { self.new.loads ≡ slice_set self.old.loads node load }
    {
        self.table.nodes[node as usize].load = load;
    }

    /// Makes nodes 0 to `nodes - 1`, all free, in rising order, each with this load, and shelves 0 to `shelves - 1`, all empty.
    ///
    /// Fails if it runs out of memory, and then keeps none. Takes a step for each node and each shelf.
    pub fn new(alloc: Global, nodes: u32, shelves: u32, load: T) -> Result<Self, AllocError>
        ensures opened { IfOk result (λ v. v.lists ≡ opening_chains nodes shelves) }
        ensures loads { IfOk result (λ v. v.loads ≡ replicate nodes load) }
        ensures parted { IfOk result (λ v. IsLawful v.lists) }
    {
        let mut table = Table::new(alloc, nodes, shelves, Link::none(), load)?;
        for number in 1..nodes {
            lead(&mut table.nodes, number - 1, Slot::some(number));
        }
        Ok(Chained {
            table,
            first_free: first_of(nodes),
            free_len: nodes,
            least: nodes,
        })
    }
}
