//! Message blocks by number, the messages that they make, and the calls on them.
ghost use Rattle.std.specs.Prelude.{◌≡◌, ℕ, ◌+◌, ◌-◌, ◌^◌, ◌<◌, ◌≤◌, ◌==◌, ◌&&◌, IfErr, IfOk, IfSome, IsSome, IsTrue, Err, Ok, Some, None, is_some, length, option_copied, slice_get};
ghost use Rattle.std.specs.List.{All};
ghost use Rattle.strm_data.specs.Classes.{are_lawful, fits_a_class};
ghost use Rattle.strm_data.specs.DataStore.{class_infos, class_region};
ghost use Rattle.strm_data.specs.CountedStore.{IsKept};
ghost use Rattle.strm_mblk.specs.Arena.{IsLeastFree, IsParted, IsWithin, blocks_in, census_of, counted_in, has, held_at, message_at, opening_arena, token_of, with_least_reset};
ghost use Rattle.strm_mblk.specs.BlockCalls.{IsSupplied, calls_supplied};
ghost use Rattle.strm_mblk.specs.BlocksLayout.{IsReached, fields_at};
ghost use Rattle.strm_mblk.specs.Calls.{Gives, itself};
ghost use Rattle.strm_links.specs.ChainLists.{nodes_at};
ghost use Rattle.strm_mblk.specs.Given.{answer_of};
ghost use Rattle.strm_mblk.specs.Limits.{most_message_blocks};
ghost use Rattle.strm_mblk.specs.Messages.{held_in};

mod alteration;
mod copying;
mod duplicating;
mod finding;
mod freeing;
mod in_place;
mod joining;
mod looking;
mod overwriting;
mod pulling;
mod reading;
mod shaping;
mod shelves;
mod transferring;
mod trimming;

use crate::block_info::BlockInfo;
use crate::census::Census;
use crate::token::{Token, TokenValue};
use finding::Found;
use looking::node_of;
use std::alloc::{AllocError, Global};
use std::marker::Model;
use std::mem::size_of;
use strm_data::{ClassInfo, ClassSpec, Data, Refusal};
use strm_links::Chained;

/// The number of a message block. Message blocks are numbered from 0 on.
pub type BlockNo = u32;

/// Says for how many calls of `allocb` for one size a class has data blocks, and message blocks are free.
#[derive(Clone, Copy, Debug)]
pub struct Supply {
    /// The class of the data blocks.
    pub class: u32,
    /// The number of calls.
    pub count: u32,
}

/// Message blocks over data blocks. Each message block is free or in one message. A message is held or on a shelf. The number of
/// its first block, its head, identifies it. The call that gives a message to hold makes its token, and `token` makes another.
/// Calls with a token, except `has` and `freemsg`, need one that these blocks have. Only `new` takes memory.
///
/// Message blocks and data blocks are those of UNIX System V Release 4 STREAMS (`msgb`, `datab`). A call with the name of a
/// routine in its Programmer's Guide: STREAMS does what that routine does, with tokens instead of pointers. docs/MODEL.md marks
/// each rule that differs as own, such as that of `adjmsg` at the tail. Tokens, shelves and the order of the free list are this
/// project's own choice.
#[derive(Debug, Drop)]
pub struct Blocks {
    id: u32,
    data: Data,
    // The message blocks, by number: free, or in a message, which is held or on a shelf. Each carries its fields.
    chains: Chained<Fields>,
    // The number of message blocks in messages on shelves.
    queued: u32,
}

// What a message block stores: its data block, its read place, its number of bytes from there to its write place, and its
// band.
#[derive(Clone, Copy, Debug)]
struct Fields {
    data_number: u32,
    offset: u32,
    len: u32,
    band: u8,
}

const _: () = prove!(size_of::<Fields>() == 16 && size_of::<Blocks>() == 176);

impl Fields {
    // A message block over this data block: both places and the band are 0.
    fn over(data_number: u32) -> Fields
        ensures { result ≡ record { data_number = data_number; offset = 0; len = 0; band = 0 } }
    {
        Fields {
            data_number,
            offset: 0,
            len: 0,
            band: 0,
        }
    }
}

impl Model for Blocks {
    ghost use Rattle.strm_mblk.specs.Arena.{Arena};

    ghost Value = { Arena };

    ghost use Rattle.strm_mblk.specs.BlocksLayout.{arena_in, IsSound};

    ghost view = { arena_in };

    ghost invariant = { IsSound };
}

// The number of a held message's block `place`, if any. Places count from 0. Takes at most `place` steps.
#[inline(always)]
fn node_at(chains: &Chained<Fields>, head: u32, place: u32) -> Option<u32>
    requires { slice_get (nodes_at chains.now.lists head) 0 ≡ Some head }
    ensures value { result ≡ slice_get (nodes_at chains.now.lists head) place }
    ensures in_range { IfSome result (λ node. node < length chains.now.lists.held) }
{
    node_of(chains, head, place)
}

// The fields of a message block.
#[inline(always)]
fn fields_at(chains: &Chained<Fields>, node: u32) -> Fields
    requires { node < length chains.now.loads }
    ensures { result ≡ fields_at chains.now.loads node }
{
    *chains.load(node)
}

// The number of blocks of a held message, one at least.
#[inline(always)]
fn len(chains: &Chained<Fields>, head: u32) -> u32
    requires { IsSome (held_in chains.now.lists.held head) }
    ensures number { result ≡ length (nodes_at chains.now.lists head) }
    ensures some { 0 < result }
{
    chains.parts_nodes();
    chains.len(head)
}

// The message block after this one in its message. For the last block this is `u32::MAX`, which callers must not use; that
// saves a branch.
#[inline(always)]
fn onward(chains: &Chained<Fields>, node: u32) -> u32
    requires { node < length chains.now.lists.held }
    ensures { (h i : ℕ) → IsReached chains.now.lists h i node → IsReached chains.now.lists h (i + 1) result }
{
    chains.next(node).unwrap_or(u32::MAX)
}

impl Blocks {
    ghost use Rattle.strm_mblk.specs.BlockCalls as model;

    /// Makes `mblks` message blocks, 0 to `MOST_MESSAGE_BLOCKS`, and `shelves` shelves, 0 to 255. All message blocks are
    /// free, in rising order, and all shelves are empty. The data blocks are those of `classes`, which must be lawful as
    /// [`Data::new`] of strm_data says. Tokens will carry `id`.
    ///
    /// Fails if it runs out of memory, and then keeps none. Takes a step for each message block, data block, byte and shelf.
    pub fn new(
        alloc: Global,
        id: u32,
        mblks: u32,
        classes: &[ClassSpec],
        shelves: u8,
    ) -> Result<Blocks, AllocError>
        requires few_blocks { mblks ≤ most_message_blocks }
        requires classes { IsTrue (are_lawful classes.now) }
        ensures { IfOk result (λ a. a ≡ opening_arena id mblks classes.now shelves) }
    {
        Ok(Blocks {
            id,
            data: Data::new(alloc, classes)?,
            chains: Chained::new(alloc, mblks, u32::from(shelves), Fields::over(0))?,
            queued: 0,
        })
    }

    /// Law: every message block and every data block is accounted for, whatever calls were made. Does nothing.
    pub fn lawful(&self)
        // Each message block is free or in one message, which is held or on one shelf. Each data block is free, or has 1
        // to `MOST_REFERENCES` references.
        ensures parted { IsParted self.now }
        // Data blocks are accounted for, as `Data::accounts_for_blocks` says. The counts are those of these message
        // blocks.
        ensures kept { IsKept (counted_in self.now) }
        // The places of each block of a message are inside its data block.
        ensures within { All (IsWithin self.now.store) (blocks_in self.now) }
        // The band of each block of a message is below 256.
        ensures bands { All (λ b. b.band < 2 ^ 8) (blocks_in self.now) }
        // The census counts each message block once, and there are at most `MOST_MESSAGE_BLOCKS`.
        ensures few { length self.now.held ≤ most_message_blocks }
        ensures whole { (census_of self.now).free + (census_of self.now).queued + (census_of self.now).held
            ≡ length self.now.held }
    {
        let _ = &self.chains;
    }

    /// Returns the data blocks to look at. The count of each is the number of blocks of messages that use it. Changes nothing.
    pub fn data(&self) -> &Data
        ensures { result.now ≡ counted_in self.now }
    {
        &self.data
    }

    /// Says whether the token carries this id, and a held message has its head and its number of blocks. Changes nothing.
    pub fn has(&self, token: &Token) -> bool
        ensures { result ≡ has self.now token.now }
    {
        token.lawful();
        let head = token.head();
        token.pool() == self.id
            && (head as usize) < self.chains.node_count()
            && self.chains.holds(head, token.blocks())
    }

    /// Returns the id that these blocks' tokens carry. Changes nothing.
    #[inline(always)]
    pub fn id(&self) -> u32
        ensures { result ≡ self.now.id }
    {
        self.id
    }

    /// Says whether these blocks have this id, and hold a message with this head; a message on a shelf is not held. This is for
    /// callers that keep heads instead of tokens: they ask it before they make a token with `token`. Any two numbers will do.
    /// Takes constant time. Changes nothing.
    #[inline(always)]
    pub fn is_held(&self, pool: u32, head: u32) -> bool
        ensures { result ≡ (pool == self.now.id && is_some (held_at self.now head)) }
    {
        pool == self.id && (head as usize) < self.chains.node_count() && self.chains.is_held(head)
    }

    /// Returns a class's size and numbers of data blocks, as [`Data::class_info`] of strm_data. Changes nothing.
    pub fn class_info(&self, class: u8) -> Option<ClassInfo>
        ensures { result ≡ slice_get (class_infos self.now.store) class }
    {
        self.data.class_info(class)
    }

    /// Returns the fewest data blocks of a class that were free, as [`Data::least_free`] of strm_data. Changes nothing.
    pub fn least_free(&self, class: u8) -> Option<u32>
        ensures { result ≡ slice_get self.now.store.least class }
    {
        self.data.least_free(class)
    }

    /// Returns the fewest message blocks that were free at a time since `new`, or since the last `reset_least`. Each call that
    /// takes message blocks lowers it to the number that is free then, if that is less. Changes nothing.
    pub fn least_free_blocks(&self) -> u32
        ensures { result ≡ self.now.least }
    {
        self.chains.least()
    }

    /// Makes the message blocks, and of each class the data blocks, that are free now the fewest that were free. All else
    /// stays unchanged. Takes a step for each class.
    pub fn reset_least(&mut self)
        ensures { self.new ≡ with_least_reset self.old }
    {
        self.data.reset_least();
        self.chains.reset_least();
    }

    /// Law: no fewer message blocks are free than `least_free_blocks` returns, and no fewer data blocks of a class than
    /// `least_free` returns. Does nothing.
    pub fn least_is_least(&self)
        ensures { IsLeastFree self.now }
    {
        self.data.least_is_least();
    }

    /// Lends the bytes of all data blocks of a class, as [`Data::region`] of strm_data. Changes nothing.
    pub fn region(&self, class: u8) -> Option<&[u8]>
        ensures { option_copied result ≡ class_region class self.now.store }
    {
        self.data.region(class)
    }

    /// Says whether some class has data blocks of `size` bytes or more, as [`Data::has_class_for`] of strm_data. If none
    /// has, `allocb` refuses the size as `TooLarge`. Changes nothing.
    pub fn has_class_for(&self, size: u32) -> bool
        ensures { result ≡ fits_a_class size self.now.store.classes }
    {
        self.data.has_class_for(size)
    }

    /// Returns the numbers of message blocks that are free, on shelves and held. Changes nothing.
    pub fn census(&self) -> Census
        ensures { result ≡ census_of self.now }
    {
        let free = self.chains.free_len();
        Census {
            free,
            queued: self.queued,
            held: self.chains.node_count() as u32 - free - self.queued,
        }
    }

    /// Makes a token of the message that is held at a head, also if it has one. This is for callers that keep heads instead of
    /// tokens, and for a token that was lost. Use only one of two tokens, and forget the other. Changes nothing.
    #[inline(always)]
    pub fn token(&self, head: u32) -> Token
        requires { IsTrue (is_some (held_at self.now head)) }
        ensures { result ≡ token_of self.now head }
    {
        self.token_of(head, len(&self.chains, head))
    }

    // Makes the token of a held message with this number of blocks.
    fn token_of(&self, head: u32, blocks: u32) -> Token
        requires number { blocks ≡ length (message_at self.now head) }
        requires some { 0 < blocks }
        ensures { result ≡ token_of self.now head }
    {
        Token::of(TokenValue {
            pool: self.id,
            head,
            blocks,
        })
    }

    /// Makes a message of one block, the first free one, and returns its token. The message has no bytes, type M_DATA and
    /// band 0. Its data block has `size` bytes or more: the one that [`Data::take`] of strm_data takes.
    ///
    /// Refused as `TooLarge` if the size is above the largest class, then as `NoMblk` if no message block is free, then as `NoData`
    /// if no data block that fits is free. On an error nothing changes. Takes at most two steps for each class.
    #[inline(always)]
    pub fn allocb(&mut self, size: u32) -> Result<Token, Refusal>
        ensures { Gives itself None (model.allocb size self.old) self.old self.new result }
    {
        let supply = self.supply(size)?;
        Ok(self.allocb_from(size, supply))
    }

    /// Returns the class from which `allocb` takes a data block for this size, and for how many calls. That is the lesser of two
    /// numbers: of the class's free data blocks, and of the free message blocks. Changes nothing.
    ///
    /// Refused as `allocb` would be. Takes at most two steps for each class.
    #[inline(always)]
    pub fn supply(&self, size: u32) -> Result<Supply, Refusal>
        ensures supply { IfOk result (IsSupplied size self.now) }
        ensures count { IfOk result (λ supply. supply.count ≡ calls_supplied supply.class self.now) }
        ensures some { IfOk result (λ supply. 0 < supply.count) }
        ensures refused { IfErr result (λ why. model.allocb size self.now ≡ Err why) }
    {
        let free = self.chains.free_len();
        if free == 0 {
            if self.data.has_class_for(size) {
                return Err(Refusal::NoMblk);
            }
            return Err(Refusal::TooLarge);
        }
        let class = self.data.class_for(size)?;
        let count = free.min(self.data.free_in(class));
        Ok(Supply { class, count })
    }

    /// Makes a message as [`Blocks::allocb`] does for this size, from a supply that `supply` returned, and returns its token.
    /// Each such call leaves the supply one call less; no call may come between that takes or frees blocks, since the supply
    /// may then be wrong. So a burst chooses the class once. The size and the count are for the contract only. Takes constant
    /// time.
    #[inline(always)]
    pub fn allocb_from(&mut self, size: u32, supply: Supply) -> Token
        requires supply { IsSupplied size self.old supply }
        requires some { 0 < supply.count }
        ensures gives { Gives itself None (model.allocb size self.old) self.old self.new (Ok result) }
        ensures supply { IsSupplied size self.new (record supply { count = supply.count - 1 }) }
    {
        let data_number = self.data.take_from(supply.class, size);
        let head = self.chains.begin_all(1);
        self.chains.set_load(head, Fields::over(data_number));
        self.token_of(head, 1)
    }

    /// Says whether `allocb` would succeed for this size now. Changes nothing. Takes at most two steps for each class.
    pub fn testb(&self, size: u32) -> bool
        ensures { result ≡ model.testb size self.now }
    {
        self.chains.free_len() > 0 && self.data.fits(size)
    }

    /// Returns type, length, band, room and references of a message's block `place`. Places count from 0. Changes nothing.
    ///
    /// Refused as `NoSuchBlock` if the message has no such block. Takes at most `place` steps.
    pub fn block(&self, token: &Token, place: u32) -> Result<BlockInfo, Refusal>
        requires { IsTrue (has self.now token.now) }
        ensures { result ≡ answer_of (model.block token.now.head place self.now) }
    {
        let Found { fields, .. } = self.found(token, place)?;
        Ok(self.info(fields))
    }
}
