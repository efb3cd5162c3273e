//! A bench: a pool with its own registers. Each method makes calls, and compares what they return.
use super::in_place::{InPlace, made};
use super::{assert_reply, classes, opened, queues, register};
use std::alloc::Global;
use std::process::Abort;
use strm_pool::{
    BlockInfo, BlockPlace, BurstPlace, Call, MsgType, Pool, Refusal, Reg, Regs, Rejected, Reply,
    Supply, Token,
};

// A pool and its registers.
pub(super) struct Bench {
    pool: Pool,
    regs: Regs,
}

// A message was put on a queue.
fn assert_put(rt: &impl Abort, put: Result<(), Rejected>) {
    match put {
        Ok(()) => {}
        Err(Rejected { token, .. }) => {
            token.forget();
            panic!(rt; "there is a queue");
        }
    }
}

impl Bench {
    // Opens a pool with this id and number of message blocks, over data blocks of these sizes, with one queue. The
    // registers are empty.
    pub(super) fn opened(
        rt: &impl Abort,
        alloc: Global,
        named: (u32, u32),
        sizes: &[(u32, u32)],
    ) -> Bench {
        Bench::wishing(rt, alloc, named, sizes, (2, 1))
    }

    // Opens a pool as `opened` does, with a greatest number of wishes and the id of the first.
    pub(super) fn wishing(
        rt: &impl Abort,
        alloc: Global,
        named: (u32, u32),
        sizes: &[(u32, u32)],
        wishes: (u32, u32),
    ) -> Bench {
        let sizes = classes(rt, sizes);
        let queues = queues(rt, &[(10, 4, None)]);
        Bench {
            pool: opened(rt, alloc, named, sizes, queues, wishes),
            regs: Regs::new(),
        }
    }

    // The pool, to look at.
    pub(super) fn pool(&self) -> &Pool {
        &self.pool
    }

    pub(super) fn regs(&mut self) -> &mut Regs {
        &mut self.regs
    }

    // Applies a call, and returns its reply.
    fn reply(&mut self, rt: &impl Abort, call: &Call) -> Reply {
        assert!(rt; self.pool.owns(&self.regs));
        self.pool.apply(&mut self.regs, call)
    }

    // Applies the calls, all with one `Reply` that each overwrites, and compares each reply.
    fn replies(&mut self, rt: &impl Abort, rows: &[(Call, Reply)]) {
        let mut given = Reply::Done;
        for (call, reply) in rows {
            assert!(rt; self.pool.owns(&self.regs));
            self.pool.apply_into(&mut self.regs, call, &mut given);
            assert_reply(rt, call, &given, reply);
        }
    }

    // Applies calls that reply `Done`; then the first registers must have messages with these heads.
    pub(super) fn done(&mut self, rt: &impl Abort, calls: &[Call], heads: &[Option<u32>]) {
        for call in calls {
            let given = self.reply(rt, call);
            assert_reply(rt, call, &given, &Reply::Done);
        }
        self.assert_heads(rt, heads);
    }

    // Makes calls in place on the message of a register, and compares each answer.
    pub(super) fn change(
        &mut self,
        rt: &impl Abort,
        reg: Reg,
        rows: &[(InPlace<'_>, Result<u32, Refusal>)],
    ) {
        let token = self.taken(rt, reg);
        for (call, answer) in rows {
            let given = made(rt, &mut self.pool, &token, *call);
            assert!(rt; given == *answer, "{call:?} {given:?}");
        }
        self.hold(rt, reg, token);
    }

    // The message of a register has blocks with these places and bytes, and no other.
    pub(super) fn assert_blocks(
        &mut self,
        rt: &impl Abort,
        reg: Reg,
        blocks: &[(BlockPlace, &[u8])],
    ) {
        let token = self.taken(rt, reg);
        assert!(rt; self.pool.has(&token));
        for place in 0..=token.blocks() {
            let wanted = blocks
                .get(place as usize)
                .copied()
                .ok_or(Refusal::NoSuchBlock);
            let given = match (
                self.pool.place(&token, place),
                self.pool.bytes(&token, place),
            ) {
                (Ok(place), Ok(bytes)) => Ok((place, bytes)),
                (Err(why), _) | (_, Err(why)) => Err(why),
            };
            assert!(rt; given == wanted, "{given:?}");
        }
        self.hold(rt, reg, token);
    }

    // What `walk` leaves in place of these two blocks, from a block of a register's message on.
    pub(super) fn walked(
        &mut self,
        rt: &impl Abort,
        reg: Reg,
        from: u32,
        blocks: [BlockInfo; 2],
    ) -> [BlockInfo; 2] {
        let token = self.taken(rt, reg);
        assert!(rt; self.pool.has(&token));
        let mut infos = blocks;
        let count = self.pool.walk(&token, from, &mut infos);
        assert!(rt; count == token.blocks().saturating_sub(from).min(2) as usize);
        self.hold(rt, reg, token);
        infos
    }

    // The blocks of a register's message have these numbers.
    pub(super) fn assert_numbers(&mut self, rt: &impl Abort, reg: Reg, numbers: &[u32]) {
        let token = self.taken(rt, reg);
        assert!(rt; self.pool.has(&token));
        for place in 0..=token.blocks() {
            let wanted = numbers
                .get(place as usize)
                .copied()
                .ok_or(Refusal::NoSuchBlock);
            assert!(rt; self.pool.number(&token, place) == wanted);
        }
        self.hold(rt, reg, token);
    }

    // The first registers have messages with these heads.
    fn assert_heads(&self, rt: &impl Abort, heads: &[Option<u32>]) {
        let mut place = 0u8;
        for head in heads {
            assert!(rt; self.head(register(rt, place)) == *head);
            place = place.wrapping_add(1);
        }
    }

    // The head of the message in a register, if any.
    fn head(&self, reg: Reg) -> Option<u32> {
        let (head, _) = self.regs.entry(reg)?;
        Some(head)
    }

    // Whether the pool has the tokens of another bench's registers.
    pub(super) fn owns(&self, other: &Bench) -> bool {
        self.pool.owns(&other.regs)
    }

    // `census` counts these free and held message blocks, and no queued ones.
    pub(super) fn assert_census(&self, rt: &impl Abort, free: u32, held: u32) {
        let census = self.pool.census();
        assert!(rt; (census.free, census.queued, census.held) == (free, 0, held));
    }

    // The pool lends its parts, and their laws hold: queue 0 has `size` messages, and data block 0 has `names` references.
    pub(super) fn assert_lent(&self, rt: &impl Abort, size: u32, names: u8) {
        let (queues, blocks) = (self.pool.queues(), self.pool.blocks());
        queues.lawful(blocks);
        blocks.lawful();
        assert!(rt; queues.qsize(blocks, 0) == Ok(size));
        let data = blocks.data();
        assert!(rt; data.len() > 0);
        assert!(rt; data.count(0) == names);
    }

    // Takes the token out of a register.
    pub(super) fn taken(&mut self, rt: &impl Abort, reg: Reg) -> Token {
        match self.regs.take(reg) {
            Some(token) => {
                assert!(rt; !self.regs.holds(reg));
                token
            }
            None => panic!(rt; "the register was free"),
        }
    }

    // Puts a token into an empty register.
    pub(super) fn hold(&mut self, rt: &impl Abort, reg: Reg, token: Token) {
        if let Some(token) = self.regs.put(reg, token) {
            self.pool.freemsg(token);
            panic!(rt; "a taken register");
        }
    }

    // Makes as many messages for a size as the pool supplies, and puts their tokens into registers from b on. Returns the
    // class of the supply, and the number of messages.
    pub(super) fn supplied(&mut self, rt: &impl Abort, size: u32) -> Result<(u32, u32), Refusal> {
        let supply = self.pool.supply(size)?;
        let mut place = 0u8;
        for made in 0..supply.count {
            let count = supply.count.wrapping_sub(made);
            let token = self.pool.allocb_from(size, Supply { count, ..supply });
            place = place.wrapping_add(1);
            self.hold(rt, register(rt, place), token);
        }
        Ok((supply.class, supply.count))
    }

    // Puts the messages of three registers on queue 0 as one burst.
    pub(super) fn put_burst(&mut self, rt: &impl Abort, regs: [Reg; 3]) {
        let first = self.taken(rt, regs[0]);
        let second = self.taken(rt, regs[1]);
        let third = self.taken(rt, regs[2]);
        let mut place = BurstPlace::new();
        assert!(rt; self.pool.has(&first));
        assert_put(rt, self.pool.putq_in_burst(0, &mut place, first));
        assert!(rt; self.pool.has(&second));
        assert_put(rt, self.pool.putq_in_burst(0, &mut place, second));
        assert!(rt; self.pool.has(&third));
        assert_put(rt, self.pool.putq_in_burst(0, &mut place, third));
    }

    // The type and the band of a block of a register's message.
    pub(super) fn assert_told(
        &mut self,
        rt: &impl Abort,
        reg: Reg,
        place: u32,
        wanted: (MsgType, u8),
    ) {
        let token = self.taken(rt, reg);
        assert!(rt; self.pool.has(&token));
        let given = self.pool.block(&token, place);
        assert!(rt; given.map(|block| (block.kind, block.band)) == Ok(wanted));
        self.hold(rt, reg, token);
    }

    // Transfers a message to another bench's pool.
    pub(super) fn moved(
        &mut self,
        rt: &impl Abort,
        other: &mut Bench,
        token: Token,
    ) -> Result<Token, Rejected> {
        assert!(rt; self.pool.has(&token));
        self.pool.transfer(&mut other.pool, token)
    }

    pub(super) fn free(&mut self, token: Token) {
        self.pool.freemsg(token);
    }

    // `putq` refuses the missing queue, and returns the token.
    pub(super) fn not_put(&mut self, rt: &impl Abort, queue: u8, token: Token) -> Token {
        assert!(rt; self.pool.has(&token) && !self.pool.has_queue(queue));
        match self.pool.putq(queue, token) {
            Ok(()) => panic!(rt; "there is a queue"),
            Err(Rejected { why, token }) => {
                assert!(rt; why == Refusal::NoSuchQueue);
                token
            }
        }
    }

    // Frees the messages of the registers, and returns the bench with empty registers.
    pub(super) fn drained(self) -> Bench {
        let Bench { mut pool, regs } = self;
        pool.drain(regs);
        Bench {
            pool,
            regs: Regs::new(),
        }
    }

    // Frees the messages of the registers.
    pub(super) fn end(self) {
        let Bench { mut pool, regs } = self;
        pool.lawful();
        pool.drain(regs);
    }

    // Applies the calls, and compares each reply; then the first registers must have messages with these heads.
    pub(super) fn serve(mut self, rt: &impl Abort, rows: &[(Call, Reply)], heads: &[Option<u32>]) {
        self.replies(rt, rows);
        self.assert_heads(rt, heads);
        self.end();
    }
}
