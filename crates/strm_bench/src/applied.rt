//! Rounds of calls as data, on registers.
ghost use Rattle.std.specs.Prelude.{IsTrue};
ghost use Rattle.strm_pool.specs.PoolValue.{owns};
ghost use Rattle.strm_pool.specs.Registers.{AreDistinct, table_of};

use crate::calls::{calls_of, opening_calls};
use crate::row::Row;
use strm_pool::{Call, Pool, Regs, Reply};

/// A pool, and registers; the pool has their tokens.
pub(crate) struct Applied {
    pool: Pool,
    regs: Regs,
    ghost owned: { IsTrue (owns pool regs) },
    ghost distinct: { AreDistinct (table_of regs) },
}

/// Says by its reply whether a call was done.
pub(crate) fn is_done(reply: &Reply) -> bool {
    !matches!(reply, Reply::Refused(_) | Reply::Empty | Reply::Taken)
}

impl Applied {
    // A pool with empty registers.
    fn of(pool: Pool) -> Applied {
        Applied {
            pool,
            regs: Regs::new(),
        }
    }

    // Applies the calls this number of times, all with one `Reply`, and returns how many were done.
    fn apply_all(&mut self, calls: &[Call], times: u64) -> u64 {
        let mut told = 0u64;
        let mut reply = Reply::Done;
        for _ in 0..times {
            for call in calls {
                self.pool.apply_into(&mut self.regs, call, &mut reply);
                told = told.wrapping_add(u64::from(is_done(&reply)));
            }
        }
        told
    }

    // Frees the messages of the registers, and drops the pool.
    fn end(self) {
        let Applied { mut pool, regs } = self;
        pool.drain(regs);
    }
}

/// Applies the calls of a row this number of times, and returns how many were done.
pub(crate) fn applied_rounds(pool: Pool, row: Row, times: u64) -> u64 {
    let (Some(opening), Some(calls)) = (opening_calls(), calls_of(row)) else {
        return 0;
    };
    let mut applied = Applied::of(pool);
    let _ = applied.apply_all(&opening, 1);
    let told = applied.apply_all(calls.items(), times);
    applied.end();
    told
}
