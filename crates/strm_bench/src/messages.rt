//! Rounds of calls on messages that each round makes and frees. Some are inlined always: otherwise the compiler would inline less in
//! each of them, the more rows there are.
ghost use Rattle.std.specs.Prelude.{◌≤◌, IfSome, IsTrue, length};
ghost use Rattle.strm_mblk.specs.Arena.{has};

use strm_pool::{Pool, Refusal, Token};

/// The size of a message's blocks, in bytes.
pub(crate) const SIZE: u32 = 64;

/// The same, where a line of input may have another.
pub(crate) const USUAL: u16 = 64;

/// The bytes of each block.
pub(crate) const BYTES: [u8; 64] = [90; 64];

// The most bytes that a block gets.
const LONG: [u8; 1_500] = [90; 1_500];

/// Returns this number of bytes, or 1,500 if it is greater.
pub(crate) fn bytes_of(size: u16) -> &'static [u8]
    ensures { length result.now ≤ 1500 }
{
    &LONG[..LONG.len().min(usize::from(size))]
}

/// Makes a message of one block with this number of bytes, 1,500 at most.
pub(crate) fn one(pool: &mut Pool, size: u16) -> Option<Token>
    ensures { IfSome result (λ token. IsTrue (has pool.new.arena token)) }
{
    let Ok(token) = pool.allocb(u32::from(size)) else {
        return None;
    };
    let _ = pool.write(&token, 0, bytes_of(size));
    Some(token)
}

// Appends a new block with bytes to a message, if a block is free.
fn grow(pool: &mut Pool, token: &mut Token)
    requires { IsTrue (has pool.old.arena token.old) }
    ensures { IsTrue (has pool.new.arena token.new) }
{
    let Ok(other) = pool.allocb(SIZE) else {
        return;
    };
    let _ = pool.write(&other, 0, &BYTES);
    pool.linkb(token, other);
}

/// Makes a message of four blocks with bytes.
pub(crate) fn four(pool: &mut Pool) -> Option<Token>
    ensures { IfSome result (λ token. IsTrue (has pool.new.arena token)) }
{
    let Ok(mut token) = pool.allocb(SIZE) else {
        return None;
    };
    let _ = pool.write(&token, 0, &BYTES);
    grow(pool, &mut token);
    grow(pool, &mut token);
    grow(pool, &mut token);
    Some(token)
}

// Frees a message and its duplicate, if one was made, and says whether it was.
fn free_both(pool: &mut Pool, token: Token, copy: Result<Token, Refusal>) -> bool {
    pool.freemsg(token);
    match copy {
        Ok(copy) => {
            pool.freemsg(copy);
            true
        }
        Err(_) => false,
    }
}

/// `allocb`, `freemsg`.
#[inline(always)]
pub(crate) fn allocb(pool: &mut Pool, times: u64) -> u64 {
    let mut told = 0u64;
    for _ in 0..times {
        if let Ok(token) = pool.allocb(SIZE) {
            pool.freemsg(token);
            told = told.wrapping_add(1);
        }
    }
    told
}

/// `allocb`, `dupb`, then `freemsg` of both.
#[inline(always)]
pub(crate) fn dupb(pool: &mut Pool, times: u64) -> u64 {
    let mut told = 0u64;
    for _ in 0..times {
        if let Ok(token) = pool.allocb(SIZE) {
            let copy = pool.dupb(&token);
            told = told.wrapping_add(u64::from(free_both(pool, token, copy)));
        }
    }
    told
}

/// `allocb`, `dupmsg`, then `freemsg` of both.
#[inline(always)]
pub(crate) fn dupmsg(pool: &mut Pool, times: u64) -> u64 {
    let mut told = 0u64;
    for _ in 0..times {
        if let Ok(token) = pool.allocb(SIZE) {
            let copy = pool.dupmsg(&token);
            told = told.wrapping_add(u64::from(free_both(pool, token, copy)));
        }
    }
    told
}

/// `allocb`, `write` of 64 bytes, `freemsg`.
#[inline(always)]
pub(crate) fn write(pool: &mut Pool, times: u64) -> u64 {
    let mut told = 0u64;
    for _ in 0..times {
        if let Ok(token) = pool.allocb(SIZE) {
            let written = pool.write(&token, 0, &BYTES);
            pool.freemsg(token);
            told = told.wrapping_add(u64::from(written.is_ok()));
        }
    }
    told
}

/// Builds a message of four blocks, and frees it.
pub(crate) fn build(pool: &mut Pool, times: u64) -> u64 {
    let mut told = 0u64;
    for _ in 0..times {
        if let Some(token) = four(pool) {
            pool.freemsg(token);
            told = told.wrapping_add(1);
        }
    }
    told
}

// Pulls up all bytes of a message. It is not inlined, so that its instructions can be counted.
#[inline(never)]
fn pull_up(pool: &mut Pool, token: &mut Token) -> bool
    requires { IsTrue (has pool.old.arena token.old) }
{
    pool.pullupmsg(token, -1).is_ok()
}

/// Builds a message of four blocks, pulls it up into one, and frees it.
pub(crate) fn pullup(pool: &mut Pool, times: u64) -> u64 {
    let mut told = 0u64;
    for _ in 0..times {
        if let Some(mut token) = four(pool) {
            told = told.wrapping_add(u64::from(pull_up(pool, &mut token)));
            pool.freemsg(token);
        }
    }
    told
}
