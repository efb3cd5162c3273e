//! Lists, stacks and chains of nodes, linked by number in one arena each.
//!
//! - `Links`: doubly linked lists, which read alike both ways. Each node is in one list at most.
//! - `Stacks`: stacks, which change at the front only.
//! - `Chained`: chains whose nodes carry loads, free, held or on shelves.
//! - `Slot`: a number or none, in one word.
#![tactic(auto)]

mod chained;
mod links;
mod slot;
mod stacks;
mod table;

pub use chained::Chained;
pub use links::Links;
pub use slot::Slot;
pub use stacks::Stacks;
