//! Rounds of calls on one message, which stays held.
ghost use Rattle.std.specs.Prelude.{IsTrue};
ghost use Rattle.strm_mblk.specs.Arena.{has};

use crate::messages::{bytes_of, four, one};
use strm_pool::{MsgType, Pool, Token};

/// A pool, and the token of a message.
pub(crate) struct Held {
    pub(crate) pool: Pool,
    pub(crate) token: Token,
    pub ghost had: { IsTrue (has pool.arena token) },
}

// This function and the next are not inlined: otherwise the compiler would move what is the same in each round out of the loop.
#[inline(never)]
fn alter_type(held: &mut Held, told: &mut u64) {
    let answer = held.pool.settype(&held.token, 0, MsgType::MData);
    *told = told.wrapping_add(u64::from(answer.is_ok()));
}

#[inline(never)]
fn alter_band(held: &mut Held, told: &mut u64) {
    held.pool.setband(&held.token, 1);
    *told = told.wrapping_add(1);
}

impl Held {
    /// Makes a message of four blocks.
    pub(crate) fn of(pool: Pool) -> Option<Held> {
        let mut pool = pool;
        let token = four(&mut pool)?;
        Some(Held { pool, token })
    }

    /// Makes a message of this number of blocks, each with this number of bytes.
    pub(crate) fn sized(pool: Pool, blocks: u16, size: u16) -> Option<Held> {
        let mut pool = pool;
        let token = one(&mut pool, size)?;
        let mut held = Held { pool, token };
        for _ in 1..blocks {
            held.grow(size);
        }
        Some(held)
    }

    // Appends a block with this number of bytes.
    fn grow(&mut self, size: u16) {
        let Ok(other) = self.pool.allocb(u32::from(size)) else {
            return;
        };
        let _ = self.pool.write(&other, 0, bytes_of(size));
        self.pool.linkb(&mut self.token, other);
    }

    /// Frees the message, and drops the pool.
    pub(crate) fn end(self) {
        let Held { mut pool, token } = self;
        pool.freemsg(token);
    }

    /// `copymsg`, then `freemsg` of the copy.
    pub(crate) fn copymsg(&mut self, times: u64) -> u64 {
        let mut told = 0u64;
        for _ in 0..times {
            if let Ok(copy) = self.pool.copymsg(&self.token) {
                self.pool.freemsg(copy);
                told = told.wrapping_add(1);
            }
        }
        told
    }

    /// `dupmsg`, then `freemsg` of the duplicate.
    pub(crate) fn dupmsg(&mut self, times: u64) -> u64 {
        let mut told = 0u64;
        for _ in 0..times {
            if let Ok(copy) = self.pool.dupmsg(&self.token) {
                self.pool.freemsg(copy);
                told = told.wrapping_add(1);
            }
        }
        told
    }

    /// `unlinkb`, `linkb`.
    #[inline(always)]
    pub(crate) fn unlinkb(&mut self, times: u64) -> u64 {
        let mut told = 0u64;
        for _ in 0..times {
            if let Some(rest) = self.pool.unlinkb(&mut self.token) {
                self.pool.linkb(&mut self.token, rest);
                told = told.wrapping_add(1);
            }
        }
        told
    }

    /// `settype`.
    pub(crate) fn settype(&mut self, times: u64) -> u64 {
        let mut told = 0u64;
        for _ in 0..times {
            alter_type(self, &mut told);
        }
        told
    }

    /// `setband`.
    pub(crate) fn setband(&mut self, times: u64) -> u64 {
        let mut told = 0u64;
        for _ in 0..times {
            alter_band(self, &mut told);
        }
        told
    }
}
