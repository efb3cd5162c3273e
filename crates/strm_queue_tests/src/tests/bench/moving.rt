//! Calls of the bench that put messages on queues, take them off, and flush them.
ghost use Rattle.strm_queue.specs.QueuedBlocks.{Agrees};

use super::Bench;
use crate::tests::noted::Noted;
use crate::tests::{Draft, assert_put, drafted, duplicated, linked, rank_of};
use std::process::Abort;
use strm_data::Refusal;
use strm_mblk::{BlockInfo, Rejected, Token};
use strm_queue::Flush;

// What identifies a message that comes back: its head and its first block.
type Known = (u32, Result<BlockInfo, Refusal>);

impl Bench {
    // Puts a message after its equals.
    fn putq(&mut self, rt: &impl Abort, queue: u8, token: Token)
        requires { Agrees self.old.queues self.old.blocks }
        ensures { Agrees self.new.queues self.new.blocks }
    {
        assert!(rt; self.blocks.has(&token));
        let answer = self.queues.putq(&mut self.blocks, queue, token);
        assert_put(rt, &mut self.blocks, answer);
    }

    // Puts a new message after its equals, and returns its head.
    pub(in crate::tests) fn put_new(&mut self, rt: &impl Abort, queue: u8, how: Draft) -> u32
        requires { Agrees self.old.queues self.old.blocks }
        ensures { Agrees self.new.queues self.new.blocks }
    {
        let token = drafted(rt, &self.queues, &mut self.blocks, how);
        let head = token.head();
        self.putq(rt, queue, token);
        head
    }

    // Puts a new message before its equals, and returns its head.
    pub(in crate::tests) fn put_back_new(&mut self, rt: &impl Abort, queue: u8, how: Draft) -> u32
        requires { Agrees self.old.queues self.old.blocks }
        ensures { Agrees self.new.queues self.new.blocks }
    {
        let token = drafted(rt, &self.queues, &mut self.blocks, how);
        let head = token.head();
        let answer = self.queues.putbq(&mut self.blocks, queue, token);
        assert_put(rt, &mut self.blocks, answer);
        head
    }

    // Puts a new message on one queue, and a duplicate, which references the same data, on another or the same.
    pub(in crate::tests) fn put_twice(&mut self, rt: &impl Abort, queues: (u8, u8), how: Draft)
        requires { Agrees self.old.queues self.old.blocks }
        ensures { Agrees self.new.queues self.new.blocks }
    {
        let token = drafted(rt, &self.queues, &mut self.blocks, how);
        let copy = duplicated(rt, &self.queues, &mut self.blocks, &token);
        self.putq(rt, queues.0, token);
        self.putq(rt, queues.1, copy);
    }

    // Puts a new message of two blocks after its equals.
    pub(in crate::tests) fn put_linked(&mut self, rt: &impl Abort, queue: u8, how: (Draft, Draft))
        requires { Agrees self.old.queues self.old.blocks }
        ensures { Agrees self.new.queues self.new.blocks }
    {
        let mut message = drafted(rt, &self.queues, &mut self.blocks, how.0);
        let tail = drafted(rt, &self.queues, &mut self.blocks, how.1);
        assert!(rt; self.blocks.has(&message));
        assert!(rt; self.blocks.has(&tail));
        linked(&self.queues, &mut self.blocks, &mut message, tail);
        self.putq(rt, queue, message);
    }

    // Puts a message at a place of a queue.
    pub(in crate::tests) fn insq(&mut self, rt: &impl Abort, at: (u8, u32), token: Token)
        requires { Agrees self.old.queues self.old.blocks }
        ensures { Agrees self.new.queues self.new.blocks }
    {
        assert!(rt; self.blocks.has(&token));
        let answer = self.queues.insq(&mut self.blocks, at.0, at.1, token);
        assert_put(rt, &mut self.blocks, answer);
    }

    fn known(&self, rt: &impl Abort, token: &Token) -> Known {
        assert!(rt; self.blocks.has(token));
        (token.head(), self.blocks.block(token, 0))
    }

    // A message came back unchanged, for this reason.
    fn back(
        &self,
        rt: &impl Abort,
        answer: Result<(), Rejected>,
        refusal: Refusal,
        known: &Known,
    ) -> Token {
        match answer {
            Ok(()) => panic!(rt; "the message was put"),
            Err(Rejected { why, token }) => {
                assert!(rt; why == refusal && self.known(rt, &token) == *known);
                token
            }
        }
    }

    // `insq` refuses the message at this place for this reason, and returns it with its rank and band.
    pub(in crate::tests) fn not_put(
        &mut self,
        rt: &impl Abort,
        at: (u8, u32),
        token: Token,
        refusal: Refusal,
    ) -> Token
        requires { Agrees self.old.queues self.old.blocks }
        ensures { Agrees self.new.queues self.new.blocks }
    {
        let known = self.known(rt, &token);
        assert!(rt; self.blocks.has(&token));
        let answer = self.queues.insq(&mut self.blocks, at.0, at.1, token);
        self.back(rt, answer, refusal, &known)
    }

    // Puts a message before the one with this head, or last.
    pub(in crate::tests) fn insq_before(
        &mut self,
        rt: &impl Abort,
        at: (u8, Option<u32>),
        token: Token,
    )
        requires { Agrees self.old.queues self.old.blocks }
        ensures { Agrees self.new.queues self.new.blocks }
    {
        assert!(rt; self.blocks.has(&token));
        let answer = self.queues.insq_before(&mut self.blocks, at.0, at.1, token);
        assert_put(rt, &mut self.blocks, answer);
    }

    // `insq_before` refuses the message there for this reason, and returns it unchanged.
    pub(in crate::tests) fn not_put_before(
        &mut self,
        rt: &impl Abort,
        at: (u8, Option<u32>),
        token: Token,
        refusal: Refusal,
    ) -> Token
        requires { Agrees self.old.queues self.old.blocks }
        ensures { Agrees self.new.queues self.new.blocks }
    {
        let known = self.known(rt, &token);
        assert!(rt; self.blocks.has(&token));
        let answer = self.queues.insq_before(&mut self.blocks, at.0, at.1, token);
        self.back(rt, answer, refusal, &known)
    }

    // `putq` and `putbq` refuse the message, since there is no such queue, and return it unchanged.
    pub(in crate::tests) fn not_queued(&mut self, rt: &impl Abort, queue: u8, token: Token) -> Token
        requires { Agrees self.old.queues self.old.blocks }
        ensures { Agrees self.new.queues self.new.blocks }
    {
        let known = self.known(rt, &token);
        assert!(rt; self.blocks.has(&token));
        let answer = self.queues.putq(&mut self.blocks, queue, token);
        let token = self.back(rt, answer, Refusal::NoSuchQueue, &known);
        assert!(rt; self.blocks.has(&token));
        let answer = self.queues.putbq(&mut self.blocks, queue, token);
        self.back(rt, answer, Refusal::NoSuchQueue, &known)
    }

    // The message that was taken has this head and this rank. Frees it.
    fn assert_is(&mut self, rt: &impl Abort, token: Token, head: u32, rank: u16)
        requires { Agrees self.old.queues self.old.blocks }
        ensures { Agrees self.new.queues self.new.blocks }
    {
        assert!(rt; (token.head(), rank_of(rt, &self.blocks, &token)) == (head, rank));
        self.free(token);
    }

    // `getq` returns a message with this head and this rank. Frees it.
    pub(in crate::tests) fn assert_first(
        &mut self,
        rt: &impl Abort,
        queue: u8,
        head: u32,
        rank: u16,
    )
        requires { Agrees self.old.queues self.old.blocks }
        ensures { Agrees self.new.queues self.new.blocks }
    {
        let token = self.first(rt, queue);
        self.assert_is(rt, token, head, rank);
    }

    // Takes the first message of a queue.
    fn first(&mut self, rt: &impl Abort, queue: u8) -> Token
        requires { Agrees self.old.queues self.old.blocks }
        ensures { Agrees self.new.queues self.new.blocks }
    {
        match self.queues.getq(&mut self.blocks, queue) {
            Ok(Some(token)) => token,
            _ => panic!(rt; "no message"),
        }
    }

    // Takes the first message of a queue, and frees it.
    pub(in crate::tests) fn drop_first(&mut self, rt: &impl Abort, queue: u8)
        requires { Agrees self.old.queues self.old.blocks }
        ensures { Agrees self.new.queues self.new.blocks }
    {
        let token = self.first(rt, queue);
        self.free(token);
    }

    // `getq` returns this, and no message.
    pub(in crate::tests) fn assert_none(
        &mut self,
        rt: &impl Abort,
        queue: u8,
        wanted: Result<(), Refusal>,
    )
        requires { Agrees self.old.queues self.old.blocks }
        ensures { Agrees self.new.queues self.new.blocks }
    {
        match self.queues.getq(&mut self.blocks, queue) {
            Ok(Some(token)) => {
                self.free(token);
                panic!(rt; "a message more");
            }
            Ok(None) => assert!(rt; wanted == Ok(())),
            Err(why) => assert!(rt; wanted == Err(why)),
        }
    }

    // `rmvq` at this place returns a message with this head and this rank. Frees it.
    pub(in crate::tests) fn assert_at(
        &mut self,
        rt: &impl Abort,
        at: (u8, u32),
        head: u32,
        rank: u16,
    )
        requires { Agrees self.old.queues self.old.blocks }
        ensures { Agrees self.new.queues self.new.blocks }
    {
        match self.queues.rmvq(&mut self.blocks, at.0, at.1) {
            Ok(token) => self.assert_is(rt, token, head, rank),
            Err(why) => panic!(rt; "{why:?}"),
        }
    }

    // `rmvq` at this place finds no message.
    pub(in crate::tests) fn assert_not_at(
        &mut self,
        rt: &impl Abort,
        at: (u8, u32),
        refusal: Refusal,
    )
        requires { Agrees self.old.queues self.old.blocks }
        ensures { Agrees self.new.queues self.new.blocks }
    {
        match self.queues.rmvq(&mut self.blocks, at.0, at.1) {
            Ok(token) => {
                self.free(token);
                panic!(rt; "a message was there");
            }
            Err(why) => assert!(rt; why == refusal),
        }
    }

    // `rmvq_head` returns the message with this head, which has this rank. Frees it.
    pub(in crate::tests) fn assert_removed(&mut self, rt: &impl Abort, head: u32, rank: u16)
        requires { Agrees self.old.queues self.old.blocks }
        ensures { Agrees self.new.queues self.new.blocks }
    {
        match self.queues.rmvq_head(&mut self.blocks, head) {
            Ok(token) => self.assert_is(rt, token, head, rank),
            Err(why) => panic!(rt; "{why:?}"),
        }
    }

    // `rmvq_head` finds no message with this head.
    pub(in crate::tests) fn assert_not_removed(&mut self, rt: &impl Abort, head: u32)
        requires { Agrees self.old.queues self.old.blocks }
        ensures { Agrees self.new.queues self.new.blocks }
    {
        match self.queues.rmvq_head(&mut self.blocks, head) {
            Ok(token) => {
                self.free(token);
                panic!(rt; "a message was there");
            }
            Err(why) => assert!(rt; why == Refusal::NoSuchPlace),
        }
    }

    // `take_flushed`, of at most this number, or `take_flushed_band` if a band is given, takes messages with these heads. They
    // stay held.
    pub(in crate::tests) fn take_flushed(
        &mut self,
        rt: &impl Abort,
        at: (u8, Option<u8>),
        how: (Flush, u32),
        wanted: Result<&[u32], Refusal>,
    )
        requires { Agrees self.old.queues self.old.blocks }
        ensures { Agrees self.new.queues self.new.blocks }
    {
        let mut noted = Noted::none();
        let (flush, most) = how;
        let answer = match at.1 {
            Some(band) => self
                .queues
                .take_flushed_band(&mut self.blocks, at.0, band, flush, most, &mut noted),
            None => self
                .queues
                .take_flushed(&mut self.blocks, at.0, flush, most, &mut noted),
        };
        match (answer, wanted) {
            (Ok(count), Ok(heads)) => {
                assert!(rt; count as usize == heads.len() && noted.are(heads));
            }
            (Err(why), Err(refusal)) => assert!(rt; why == refusal && noted.are(&[])),
            (Ok(_), Err(_)) => panic!(rt; "it was not refused"),
            (Err(_), Ok(_)) => panic!(rt; "it was refused"),
        }
    }

    // `getq_run`, of at most this number, takes messages with these heads. They stay held.
    pub(in crate::tests) fn getq_run(&mut self, rt: &impl Abort, at: (u8, u32), heads: &[u32])
        requires { Agrees self.old.queues self.old.blocks }
        ensures { Agrees self.new.queues self.new.blocks }
    {
        let mut noted = Noted::none();
        let count = self
            .queues
            .getq_run(&mut self.blocks, at.0, at.1, &mut noted);
        assert!(rt; count as usize == heads.len() && noted.are(heads));
    }

    // `flushq` returns this.
    pub(in crate::tests) fn flushq(
        &mut self,
        rt: &impl Abort,
        queue: u8,
        flush: Flush,
        wanted: Result<(), Refusal>,
    )
        requires { Agrees self.old.queues self.old.blocks }
        ensures { Agrees self.new.queues self.new.blocks }
    {
        assert!(rt; self.queues.flushq(&mut self.blocks, queue, flush) == wanted);
    }

    // `flushband` returns this.
    pub(in crate::tests) fn flushband(
        &mut self,
        rt: &impl Abort,
        at: (u8, u8),
        flush: Flush,
        wanted: Result<(), Refusal>,
    )
        requires { Agrees self.old.queues self.old.blocks }
        ensures { Agrees self.new.queues self.new.blocks }
    {
        let answer = self.queues.flushband(&mut self.blocks, at.0, at.1, flush);
        assert!(rt; answer == wanted);
    }
}
