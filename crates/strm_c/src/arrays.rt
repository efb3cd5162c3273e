//! Calls that store an item for each block of a message in an array.
ghost use Rattle.std.specs.Prelude.{◌≡◌, ◌≤◌, IsTrue, Ok, length, map, min, option_map, slice_get};
ghost use Rattle.strm_mblk.specs.Arena.{message_at};
ghost use Rattle.strm_mblk.specs.Block.{bytes_of_block};
ghost use Rattle.strm_mblk.specs.Given.{answer_map};
ghost use Rattle.strm_mblk.specs.InPlace.{infos_from};
ghost use Rattle.strm_mblk.specs.Shelves.{shelved_message};
ghost use Rattle.strm_queue.specs.QueueLooks as looks;
ghost use Rattle.strm_pool.specs.PoolValue.{queued_blocks_of};
ghost use Rattle.strm_named.specs.NamedCalls.{if_valid};
ghost use Rattle.strm_named.specs.NamedValue.{is_valid};
ghost use Rattle.strm_c.specs.Codes.{answer_of_refusable, answer_of_result};
ghost use Rattle.strm_c.specs.Exports.{Asks, array_with};
ghost use Rattle.strm_c.specs.InC.{block_in_c};
ghost use Rattle.strm_c.specs.InPlace.{AreLent, blocks_lent, count_from, infos_asked, infos_stored, lengths_asked, lengths_lent, lengths_queued, most_together};

use crate::address::address_of;
use crate::code::Code;
use crate::layout::{StrmBlockInfo, StrmIov};
use crate::reader::StrmReader;
use strm_named::{Name, NamedPool};
use strm_pool::{BlockInfo, MsgType, Refusal};

// The most blocks that are looked at together.
const TOGETHER: usize = 32;

// What a place has before a block is looked at.
const NO_BLOCK: BlockInfo = BlockInfo {
    kind: MsgType::MData,
    len: 0,
    band: 0,
    room: 0,
    names: 0,
};

// Stores these blocks as structs of C at the beginning of an array that has room for them.
fn store(blocks: &[BlockInfo], into: &mut [StrmBlockInfo])
    requires { length blocks.now ≤ length into.old }
    ensures { into.new ≡ array_with (length blocks.now) (map block_in_c blocks.now) into.old }
{
    for (place, block) in blocks.iter().enumerate() {
        into[place] = StrmBlockInfo::of(*block);
    }
}

// Stores what blocks of a message are like, from block `from` on, in an array, at most `TOGETHER`. Returns their number.
fn store_some(named: &NamedPool, msg: Name, from: u32, into: &mut [StrmBlockInfo]) -> usize
    requires { IsTrue (is_valid named.now msg) }
    ensures count { result ≡ count_from (min (length into.old) most_together) from
        (message_at named.now.pool.arena msg.head) }
    ensures infos { into.new ≡ array_with result (map block_in_c (infos_from msg.head from named.now.pool.arena))
        into.old }
{
    let mut blocks = [NO_BLOCK; TOGETHER];
    let room = into.len().min(TOGETHER);
    let Ok(count) = named.walk(msg, from, &mut blocks[..room]) else {
        unreachable!()
    };
    store(&blocks[..count], into);
    count
}

// Stores what blocks of a message are like, from block `from` on, in an array, as many as there are and as fit. Returns their
// number.
fn store_all(named: &NamedPool, msg: Name, from: u32, into: &mut [StrmBlockInfo]) -> usize
    requires { IsTrue (is_valid named.now msg) }
    ensures count { result ≡ count_from (length into.old) from (message_at named.now.pool.arena msg.head) }
    ensures infos { into.new ≡ infos_stored named.now msg from into.old }
{
    named.lawful();
    let mut done = 0;
    let mut place = from;
    while done < into.len() {
        let count = store_some(named, msg, place, &mut into[done..]);
        done += count;
        if count < TOGETHER {
            return done;
        }
        place += count as u32;
    }
    done
}

// A message whose bytes are lent: a held one, by its name, or one on a queue, by its first block.
#[derive(Clone, Copy)]
enum Lent {
    Held(Name),
    Queued(u32),
}

// The bytes of a block of a message, if there is such a block.
#[inline(always)]
fn lent_bytes(named: &NamedPool, lent: Lent, place: u32) -> Option<&[u8]>
    ensures { option_map (λ bytes. bytes.now) result
        ≡ option_map (bytes_of_block named.now.pool.arena.store) (slice_get (blocks_lent named.now lent) place) }
{
    match lent {
        Lent::Held(name) => named.bytes(name, place).ok(),
        Lent::Queued(head) => named.pool().queued_bytes(head, place).ok(),
    }
}

// Stores the address and the number of the bytes of blocks of a message, from block `from` on, in an array, as many as there
// are and as fit. Returns their number.
#[inline(always)]
fn lend_all(named: &NamedPool, lent: Lent, from: u32, into: &mut [StrmIov]) -> usize
    ensures count { result ≡ count_from (length into.old) from (blocks_lent named.now lent) }
    ensures lent { AreLent (lengths_lent named.now lent from) into.old into.new }
{
    named.lawful();
    let mut place = from;
    for done in 0..into.len() {
        let Some(bytes) = lent_bytes(named, lent, place) else {
            return done;
        };
        into[done] = StrmIov {
            base: address_of(bytes),
            length: bytes.len(),
        };
        place += 1;
    }
    into.len()
}

/// Stores what blocks of a message are like in an array, and their number in `count`. As [`NamedPool::walk`] of strm_named.
#[unsafe(no_mangle)]
pub extern "C" fn strm_c_blocks(
    pool: &mut StrmReader,
    msg: Name,
    from: u32,
    into: &mut [StrmBlockInfo],
    count: &mut usize,
) -> i32
    ensures count { Asks (λ v. answer_of_result Ok (if_valid v msg
        (count_from (length into.old) from (message_at v.pool.arena msg.head))))
        pool.old.at.named pool.new.at.named result count.old count.new }
    ensures infos { into.new ≡ infos_asked pool.old.at.named msg from into.old }
    ensures same { pool.new ≡ pool.old }
{
    let Some(view) = pool.view() else {
        return Code::NotOpen.number();
    };
    let named = view.named();
    if !named.has(msg) {
        return Code::Invalid.number();
    }
    *count = store_all(named, msg, from, into);
    0
}

/// Stores the address and the number of the bytes of each block in an array, and the number of these blocks in `count`. Of each
/// block as [`NamedPool::bytes`] of strm_named. The bytes stay there until the next call that is no look
/// (strm.h).
#[unsafe(no_mangle)]
pub extern "C" fn strm_c_iov(
    pool: &mut StrmReader,
    msg: Name,
    from: u32,
    into: &mut [StrmIov],
    count: &mut usize,
) -> i32
    ensures count { Asks (λ v. answer_of_result Ok (if_valid v msg
        (count_from (length into.old) from (message_at v.pool.arena msg.head))))
        pool.old.at.named pool.new.at.named result count.old count.new }
    ensures lent { AreLent (lengths_asked pool.old.at.named msg from) into.old into.new }
    ensures same { pool.new ≡ pool.old }
{
    let Some(view) = pool.view() else {
        return Code::NotOpen.number();
    };
    let named = view.named();
    let lent = lend_all(named, Lent::Held(msg), from, into);
    if lent == 0 && !named.has(msg) {
        return Code::Invalid.number();
    }
    *count = lent;
    0
}

/// Stores the address and the number of the bytes of each block of a queued message in an array, and the number of these blocks
/// in `count`. Of each block as [`Pool::queued_bytes`] of strm_pool. The bytes stay there as those of `strm_c_iov`.
#[unsafe(no_mangle)]
pub extern "C" fn strm_c_queued_iov(
    pool: &mut StrmReader,
    head: u32,
    from: u32,
    into: &mut [StrmIov],
    count: &mut usize,
) -> i32
    ensures count { Asks (λ v. answer_of_refusable Ok
        (answer_map (λ queue. count_from (length into.old) from (shelved_message v.pool.arena head))
        (looks.queue_of head (queued_blocks_of v.pool))))
        pool.old.at.named pool.new.at.named result count.old count.new }
    ensures lent { AreLent (lengths_queued pool.old.at.named head from) into.old into.new }
    ensures same { pool.new ≡ pool.old }
{
    let Some(view) = pool.view() else {
        return Code::NotOpen.number();
    };
    let named = view.named();
    let lent = lend_all(named, Lent::Queued(head), from, into);
    if lent == 0 && named.pool().queue_of(head).is_err() {
        return Code::Refused(Refusal::NoSuchPlace).number();
    }
    *count = lent;
    0
}
