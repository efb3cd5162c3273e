//! Calls as data, on registers: what a call names is checked first, then the call's own function runs.
ghost use Rattle.std.specs.Prelude.{◌≡◌, ◌<◌, false, true, IsSome, IsTrue, None, Some, length, slice_set};
ghost use Rattle.std.specs.Option.{ForSome};
ghost use Rattle.strm_mblk.specs.Arena.{has};
ghost use Rattle.strm_pool.specs.Names.{names_from};
ghost use Rattle.strm_pool.specs.PoolValue.{owns};
ghost use Rattle.strm_pool.specs.Registers.{register, table_of};
ghost use Rattle.strm_pool.specs.Shapes.{IsReady, refusal_of};
ghost use Rattle.strm_pool.specs.Step.{Applies, misses_queue, names_of};

mod blocks;
mod queues;
mod wishes;

use crate::call::{Call, calls, named, naming};
use crate::pool::Pool;
use crate::reg::Reg;
use crate::regs::Regs;
use crate::reply::Reply;
use strm_data::Refusal;
use strm_mblk::Token;

// Calls the function of a call's row.
macro_rules! acted {
    ($pool:ident, $regs:ident, $call:ident, $reply:ident; $(
        $word:literal $name:ident $(($($field:ident),+ $(; $lent:ident)?))?: $act:ident $with:tt;
    )+) => {
        match *$call {
            $(Call::$name $(($($field),+ $(, ref $lent)?))? => {
                act!($pool, $regs, $reply, $act $with $($($field)+ $($lent)?)?)
            })+
        }
    };
}

macro_rules! act {
    ($pool:ident, $regs:ident, $reply:ident, $act:ident(regs) $($field:ident)*) => { $pool.$act($regs, $($field,)* $reply) };
    ($pool:ident, $regs:ident, $reply:ident, $act:ident() $($field:ident)*) => { $pool.$act($($field,)* $reply) };
}

impl Pool {
    /// Does a call on registers, and returns its reply.
    ///
    /// Checks come in this order; a call that fails one changes neither pool nor registers:
    ///
    /// 1. `Refused(NoSuchQueue)`: the queue that the call names does not exist.
    /// 2. `Empty`: a source, a register whose message the call uses, has no token, or both sources are one register.
    /// 3. `Taken`: the destination, the register that would get a message, has a token.
    /// 4. The call's own refusals.
    // Inlined into its caller, so that the reply is moved once less.
    #[inline(always)]
    pub fn apply(&mut self, regs: &mut Regs, call: &Call) -> Reply
        requires { IsTrue (owns self.old regs.old) }
        ensures { Applies self.old regs.old call.now self.new regs.new result }
    {
        let mut reply = Reply::Done;
        self.apply_into(regs, call, &mut reply);
        reply
    }

    /// Does a call as [`Pool::apply`] does, and writes the reply into `reply`. A reply has room for 64 bytes, so a caller
    /// that keeps one saves a copy.
    pub fn apply_into(&mut self, regs: &mut Regs, call: &Call, reply: &mut Reply)
        requires { IsTrue (owns self.old regs.old) }
        ensures { Applies self.old regs.old call.now self.new regs.new reply.new }
    {
        if self.is_refused(regs, call, reply) {
            return;
        }
        self.act(regs, call, reply);
    }

    // Whether the call names a queue that does not exist.
    fn misses_queue(&self, queue: Option<u8>) -> bool
        ensures { result ≡ misses_queue self.now (names_from queue None None None) }
    {
        match queue {
            Some(queue) => !self.has_queue(queue),
            None => false,
        }
    }

    // Whether a call that names these is refused, and if so, sets its reply.
    fn refuses(
        &self,
        regs: &Regs,
        reply: &mut Reply,
        queue: Option<u8>,
        source: Option<Reg>,
        second: Option<Reg>,
        destination: Option<Reg>,
    ) -> bool
        ensures refused { result ≡ true → refusal_of self.now (table_of regs.now)
            (names_from queue source second destination) ≡ Some reply.new }
        ensures ready { result ≡ false → refusal_of self.now (table_of regs.now)
            (names_from queue source second destination) ≡ None }
        ensures there { result ≡ false → ForSome destination (λ reg. reg < length regs.now) }
    {
        if self.misses_queue(queue) {
            *reply = Reply::Refused(Refusal::NoSuchQueue);
            return true;
        }
        if regs.misses_token(source, second) {
            *reply = Reply::Empty;
            return true;
        }
        if regs.is_taken(destination) {
            *reply = Reply::Taken;
            return true;
        }
        false
    }

    // Whether the call is refused by what it names, and if so, sets its reply.
    fn is_refused(&self, regs: &Regs, call: &Call, reply: &mut Reply) -> bool
        ensures refused { result ≡ true → refusal_of self.now (table_of regs.now) (names_of call.now) ≡ Some reply.new }
        ensures ready { result ≡ false → refusal_of self.now (table_of regs.now) (names_of call.now) ≡ None }
        ensures there { result ≡ false → ForSome (names_of call.now).destination (λ reg. reg < length regs.now) }
    {
        calls!(naming call, Pool::refuses, (self, regs, reply);)
    }

    // The token of a register that has one.
    fn lent<'a>(&self, regs: &'a Regs, reg: Reg) -> &'a Token
        requires owned { IsTrue (owns self.now regs.now) }
        requires held { IsSome (register regs.now reg) }
        ensures token { register regs.now reg ≡ Some result.now }
        ensures had { IsTrue (has self.now.arena result.now) }
    {
        regs.token(reg)
    }

    // Takes the token of a register that has one.
    fn picked(&self, regs: &mut Regs, reg: Reg) -> Token
        requires owned { IsTrue (owns self.now regs.old) }
        requires held { IsSome (register regs.old reg) }
        ensures token { register regs.old reg ≡ Some result }
        ensures empty { regs.new ≡ slice_set regs.old reg None }
        ensures had { IsTrue (has self.now.arena result) }
    {
        regs.pick(reg)
    }

    // Does a call whose queue exists, whose sources have tokens, and whose destination has none. Each call has its own
    // function, since a function clears at its entry what any of its arms keeps in memory.
    fn act(&mut self, regs: &mut Regs, call: &Call, reply: &mut Reply)
        requires { IsReady self.old regs.old call.now }
        ensures { Applies self.old regs.old call.now self.new regs.new reply.new }
    {
        calls!(acted self, regs, call, reply;)
    }
}
