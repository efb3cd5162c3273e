//! The memory for replies and results of workers, taken before the first one starts.
ghost use Rattle.std.specs.Prelude.{◌≡◌, IfOk, length, true};
ghost use Rattle.strm_shared.specs.RunsLayout.{AreReady, IsRoomFor};

use crate::outcome::End;
use std::alloc::{AllocError, Global};
use strm_pool::{Lines, Replies, Reply};

// The memory that serving some parts takes.
#[derive(Drop)]
pub(super) struct Room {
    pub(super) rooms: Vec<Vec<Reply>>,
    pub(super) replies: Vec<Replies>,
    pub(super) ends: Vec<End>,
}

impl Room {
    // Takes the memory for these parts, with room for replies if they are kept.
    pub(super) fn new(alloc: Global, parts: &[Lines], keeps: bool) -> Result<Room, AllocError>
        ensures { IfOk result (λ room. IsRoomFor keeps parts.now room) }
    {
        Ok(Room {
            rooms: rooms_for(alloc, parts, keeps)?,
            replies: Vec::with_capacity(alloc, parts.len())?,
            ends: Vec::with_capacity(alloc, parts.len())?,
        })
    }
}

// The number of replies to these lines that are kept.
fn replies_kept(lines: &Lines, keeps: bool) -> usize
    ensures { keeps ≡ true → result ≡ length lines.now }
{
    if keeps { lines.items().len() } else { 0 }
}

// Room for the replies to each worker, if they are kept.
fn rooms_for(alloc: Global, parts: &[Lines], keeps: bool) -> Result<Vec<Vec<Reply>>, AllocError>
    ensures { IfOk result (λ rooms. AreReady keeps parts.now rooms.items) }
{
    let mut rooms = Vec::with_capacity(alloc, parts.len())?;
    for i in 0..parts.len() {
        rooms.push_reserved(Vec::with_capacity(alloc, replies_kept(&parts[i], keeps))?);
    }
    Ok(rooms)
}
