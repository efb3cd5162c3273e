//! Doubly linked lists over one table of nodes. `Links` and `Chained` share this code.
ghost use Rattle.std.specs.Prelude.{◌≡◌, ◌≢◌, ℕ, ◌<◌, [], ◌++◌, length, map, replicate, slice_set, if◌then◌else◌, is_none, IfOk, IsSome, IsTrue, vec_len};
ghost use Rattle.std.specs.Option.{ForSome, option_map_or};
ghost use Rattle.strm_links.specs.Rows.{IsParting, has, without, put_in, list_at, holder};
ghost use Rattle.strm_links.specs.Layout.{no_place, no_ends, owner_at, previous_at, next_at, walk, with_next, with_previous, places_of, carried_by, rows_in, IsSoundTable};

use crate::slot::Slot;
use std::alloc::{AllocError, Global};
use std::mem::size_of;

// A node: its place in a list, its link in a chain, and its load. A link or a load that nobody needs is `()`.
#[derive(Clone, Copy, Debug)]
pub(crate) struct Node<L, T> {
    pub(crate) place: Place,
    pub(crate) link: L,
    pub(crate) load: T,
}

// The node's list, and its neighbours there.
#[derive(Clone, Copy, Debug)]
pub(crate) struct Place {
    pub(crate) list: Slot,
    pub(crate) previous: Slot,
    pub(crate) next: Slot,
}

#[derive(Clone, Copy, Debug)]
pub(crate) struct Ends {
    pub(crate) len: u32,
    pub(crate) front: Slot,
    pub(crate) back: Slot,
}

// A fixed number of lists over a fixed number of nodes, each in one list at most.
#[derive(Debug, Drop)]
pub(crate) struct Table<L, T> {
    pub(crate) nodes: Vec<Node<L, T>>,
    pub(crate) ends: Vec<Ends>,
}

const _: () = prove!(
    size_of::<Node<(), ()>>() == 12 && size_of::<Ends>() == 12 && size_of::<Table<(), ()>>() == 48
);

impl Place {
    // The place of a node that is in no list.
    fn free() -> Place
        ensures { result ≡ no_place }
    {
        Place {
            list: Slot::none(),
            previous: Slot::none(),
            next: Slot::none(),
        }
    }
}

impl Ends {
    // The ends of an empty list.
    fn empty() -> Ends
        ensures { result ≡ no_ends }
    {
        Ends {
            len: 0,
            front: Slot::none(),
            back: Slot::none(),
        }
    }
}

// Gives node `at` this place. What else it carries stays.
#[inline(always)]
fn put<L, T>(nodes: &mut Vec<Node<L, T>>, at: u32, place: Place)
    requires { at < vec_len nodes.old }
    ensures places { places_of nodes.new.items ≡ slice_set (places_of nodes.old.items) at place }
    ensures carried { carried_by nodes.new.items ≡ carried_by nodes.old.items }
    ensures len { vec_len nodes.new ≡ vec_len nodes.old }
{
    nodes[at as usize].place = place;
}

// Makes `next` the node after `at`, or the front of the list if `at` is none.
#[inline(always)]
fn set_next<L, T>(nodes: &mut Vec<Node<L, T>>, ends: &mut Ends, at: Slot, next: Slot)
    requires { ForSome at (λ k. k < vec_len nodes.old) }
    ensures places { places_of nodes.new.items ≡ with_next at next (places_of nodes.old.items) }
    ensures carried { carried_by nodes.new.items ≡ carried_by nodes.old.items }
    ensures len { vec_len nodes.new ≡ vec_len nodes.old }
    ensures ends { ends.new ≡ record ends.old { front = (if is_none at then next else ends.old.front) } }
{
    match at.get() {
        Some(k) => nodes[k as usize].place.next = next,
        None => ends.front = next,
    }
}

// Makes `previous` the node before `at`, or the back of the list if `at` is none.
#[inline(always)]
fn set_previous<L, T>(nodes: &mut Vec<Node<L, T>>, ends: &mut Ends, at: Slot, previous: Slot)
    requires { ForSome at (λ k. k < vec_len nodes.old) }
    ensures places { places_of nodes.new.items ≡ with_previous at previous (places_of nodes.old.items) }
    ensures carried { carried_by nodes.new.items ≡ carried_by nodes.old.items }
    ensures len { vec_len nodes.new ≡ vec_len nodes.old }
    ensures ends { ends.new ≡ record ends.old { back = (if is_none at then previous else ends.old.back) } }
{
    match at.get() {
        Some(k) => nodes[k as usize].place.previous = previous,
        None => ends.back = previous,
    }
}

// The node before `at`, or the back of the list if `at` is none.
#[inline(always)]
fn ahead_of<L, T>(nodes: &[Node<L, T>], ends: &Ends, at: Slot) -> Slot
    requires { ForSome at (λ k. k < length nodes.now) }
    ensures { result ≡ option_map_or (λ k. previous_at (places_of nodes.now) k) at ends.now.back }
{
    match at.get() {
        Some(k) => nodes[k as usize].place.previous,
        None => ends.back,
    }
}

// Makes `list` the owner of `count` nodes, from `first` on.
fn set_owners<L, T>(nodes: &mut Vec<Node<L, T>>, first: Slot, count: u32, list: Slot)
    requires { (k : ℕ) → IsTrue (has k (walk (next_at (places_of nodes.old.items)) count first))
        → k < vec_len nodes.old }
    ensures owners { (k : ℕ) → owner_at (places_of nodes.new.items) k
        ≡ (if has k (walk (next_at (places_of nodes.old.items)) count first)
        then list
        else owner_at (places_of nodes.old.items) k) }
    ensures nexts { (k : ℕ) → next_at (places_of nodes.new.items) k ≡ next_at (places_of nodes.old.items) k }
    ensures previous { (k : ℕ) → previous_at (places_of nodes.new.items) k ≡ previous_at (places_of nodes.old.items) k }
    ensures carried { carried_by nodes.new.items ≡ carried_by nodes.old.items }
    ensures len { vec_len nodes.new ≡ vec_len nodes.old }
{
    let mut at = first;
    for _done in 0..count {
        if let Some(k) = at.get() {
            let node = &mut nodes[k as usize];
            node.place.list = list;
            at = node.place.next;
        }
    }
}

impl<L, T> Table<L, T> {
    // Puts the free node `node` into `list`: just before `next`, or at the back if `next` is none.
    #[inline(always)]
    pub(crate) fn link_at(&mut self, list: u32, node: u32, next: Slot)
        requires sound { IsSoundTable self.old }
        requires list { list < length (rows_in self.old).lists }
        requires node { node < (rows_in self.old).nodes }
        requires free { holder node (rows_in self.old) ≡ None }
        requires next { ForSome next (λ at. holder at (rows_in self.old) ≡ Some list) }
        ensures sound { IsSoundTable self.new }
        ensures parting { IsParting (rows_in self.new) }
        ensures lists { rows_in self.new ≡ record (rows_in self.old) {
          lists = slice_set (rows_in self.old).lists list (put_in next node (list_at list (rows_in self.old)));
        } }
        ensures held { holder node (rows_in self.new) ≡ Some list }
        ensures others { (k : ℕ) → k ≢ node → holder k (rows_in self.new) ≡ holder k (rows_in self.old) }
        ensures carried { carried_by self.new.nodes.items ≡ carried_by self.old.nodes.items }
    {
        let ends = &mut self.ends[list as usize];
        let previous = ahead_of(&self.nodes, ends, next);
        let place = Place {
            list: Slot::some(list),
            previous,
            next,
        };
        put(&mut self.nodes, node, place);
        let own = Slot::some(node);
        set_next(&mut self.nodes, ends, previous, own);
        set_previous(&mut self.nodes, ends, next, own);
        ends.len += 1;
    }

    // Takes a node out of its list.
    #[inline(always)]
    pub(crate) fn remove(&mut self, node: u32)
        requires sound { IsSoundTable self.old }
        requires held { IsSome (holder node (rows_in self.old)) }
        ensures sound { IsSoundTable self.new }
        ensures parting { IsParting (rows_in self.new) }
        ensures lists { rows_in self.new
            ≡ record (rows_in self.old) { lists = map (without node) (rows_in self.old).lists } }
        ensures freed { holder node (rows_in self.new) ≡ None }
        ensures others { (k : ℕ) → k ≢ node → holder k (rows_in self.new) ≡ holder k (rows_in self.old) }
        ensures carried { carried_by self.new.nodes.items ≡ carried_by self.old.nodes.items }
    {
        let Place {
            list,
            previous,
            next,
        } = self.nodes[node as usize].place;
        let list = list.number();
        put(&mut self.nodes, node, Place::free());
        let ends = &mut self.ends[list as usize];
        set_next(&mut self.nodes, ends, previous, next);
        set_previous(&mut self.nodes, ends, next, previous);
        ends.len -= 1;
    }

    // Appends all nodes of `from` to `to`, a different list, in order, and leaves `from` empty.
    pub(crate) fn append(&mut self, to: u32, from: u32)
        requires sound { IsSoundTable self.old }
        requires to { to < length (rows_in self.old).lists }
        requires from { from < length (rows_in self.old).lists }
        requires other { to ≢ from }
        ensures sound { IsSoundTable self.new }
        ensures parting { IsParting (rows_in self.new) }
        ensures lists { rows_in self.new ≡ record (rows_in self.old) {
          lists = slice_set (slice_set (rows_in self.old).lists to
              (list_at to (rows_in self.old) ++ list_at from (rows_in self.old))) from [];
        } }
        ensures moved { (k : ℕ) → holder k (rows_in self.old) ≡ Some from → holder k (rows_in self.new) ≡ Some to }
        ensures others { (k : ℕ) → holder k (rows_in self.old) ≢ Some from
            → holder k (rows_in self.new) ≡ holder k (rows_in self.old) }
        ensures carried { carried_by self.new.nodes.items ≡ carried_by self.old.nodes.items }
    {
        let tail = self.ends[from as usize];
        let mut ends = self.ends[to as usize];
        let back = ends.back;
        set_owners(&mut self.nodes, tail.front, tail.len, Slot::some(to));
        set_next(&mut self.nodes, &mut ends, back, tail.front);
        set_previous(&mut self.nodes, &mut ends, tail.front, back);
        ends.len += tail.len;
        ends.back = tail.back.or(back);
        self.ends[to as usize] = ends;
        self.ends[from as usize] = Ends::empty();
    }
}

impl<L: Copy, T: Copy> Table<L, T> {
    // Makes empty lists over nodes that are in none, with this link and this load.
    pub(crate) fn new(
        alloc: Global,
        nodes: u32,
        lists: u32,
        link: L,
        load: T,
    ) -> Result<Self, AllocError>
        ensures sound { IfOk result IsSoundTable }
        ensures parting { IfOk result (λ t. IsParting (rows_in t)) }
        ensures rows { IfOk result (λ t. rows_in t ≡ record { nodes = nodes; lists = replicate lists [] }) }
        ensures carried { IfOk result (λ t. carried_by t.nodes.items ≡ replicate nodes (link, load)) }
    {
        let node = Node {
            place: Place::free(),
            link,
            load,
        };
        let mut table = Vec::with_capacity(alloc, nodes as usize)?;
        table.resize(nodes as usize, node)?;
        Ok(Table {
            nodes: table,
            ends: vec![in alloc; Ends::empty(); lists as usize]?,
        })
    }
}
