//! Rounds in which a message goes to another pool, and back.
ghost use Rattle.std.specs.Prelude.{IfSome, IsTrue};
ghost use Rattle.strm_mblk.specs.Arena.{has};

use crate::messages::one;
use strm_pool::{Pool, Rejected, Token};

// Transfers a message to another pool and back, and returns its token. A message that is refused is freed.
#[inline(never)]
fn there_and_back(here: &mut Pool, there: &mut Pool, token: Token) -> Option<Token>
    requires { IsTrue (has here.old.arena token) }
    ensures { IfSome result (λ back. IsTrue (has here.new.arena back)) }
{
    let moved = match here.transfer(there, token) {
        Ok(moved) => moved,
        Err(Rejected { why: _, token }) => {
            here.freemsg(token);
            return None;
        }
    };
    match there.transfer(here, moved) {
        Ok(back) => Some(back),
        Err(Rejected { why: _, token }) => {
            there.freemsg(token);
            None
        }
    }
}

/// Rounds with a message of one block with this number of bytes.
pub(crate) fn transfer(here: &mut Pool, there: &mut Pool, size: u16, times: u64) -> u64 {
    let Some(mut token) = one(here, size) else {
        return 0;
    };
    let mut told = 0u64;
    for _ in 0..times {
        let Some(back) = there_and_back(here, there, token) else {
            return told;
        };
        token = back;
        told = told.wrapping_add(1);
    }
    here.freemsg(token);
    told
}
