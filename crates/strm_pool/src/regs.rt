//! Registers: how calls as data hold their tokens.
ghost use Rattle.std.specs.Prelude.{◌≡◌, ◌≢◌, ◌<◌, None, Some, IsNone, IsSome, is_some, length, replicate, slice_set};
ghost use Rattle.std.specs.Option.{ForSome};
ghost use Rattle.strm_pool.specs.Limits.{most_registers};
ghost use Rattle.strm_pool.specs.Names.{names_from};
ghost use Rattle.strm_pool.specs.Registers.{entries_of, register, table_of};
ghost use Rattle.strm_pool.specs.Shapes.{any_given_to, given_to, parted_to, rejected_to};
ghost use Rattle.strm_pool.specs.Step.{is_empty, is_taken, misses_token};

use crate::limits::MOST_REGISTERS;
use crate::reg::Reg;
use crate::reply::Reply;
use crate::token_slot::TokenSlot;
use std::marker::Model;
use strm_data::Refusal;
use strm_mblk::{Rejected, Token};

/// Twenty-six registers, a to z, each with a token or none. They cannot be cloned or dropped, so no message is lost: spend
/// them by [`Pool::drain`](crate::Pool::drain), or lose their tokens by `forget`.
pub struct Regs {
    slots: [TokenSlot; MOST_REGISTERS],
}

impl Model for Regs {
    ghost use Rattle.std.specs.Prelude.{List, Option};
    ghost use Rattle.strm_mblk.specs.declared.token.TokenValue.{TokenValue};

    ghost Value = { List (Option TokenValue) };

    ghost view = { λ a. a.slots };
}

impl Regs {
    /// Makes registers without tokens.
    pub fn new() -> Regs
        ensures { result ≡ replicate most_registers None }
    {
        Regs {
            slots: [
                TokenSlot::none(),
                TokenSlot::none(),
                TokenSlot::none(),
                TokenSlot::none(),
                TokenSlot::none(),
                TokenSlot::none(),
                TokenSlot::none(),
                TokenSlot::none(),
                TokenSlot::none(),
                TokenSlot::none(),
                TokenSlot::none(),
                TokenSlot::none(),
                TokenSlot::none(),
                TokenSlot::none(),
                TokenSlot::none(),
                TokenSlot::none(),
                TokenSlot::none(),
                TokenSlot::none(),
                TokenSlot::none(),
                TokenSlot::none(),
                TokenSlot::none(),
                TokenSlot::none(),
                TokenSlot::none(),
                TokenSlot::none(),
                TokenSlot::none(),
                TokenSlot::none(),
            ],
        }
    }

    /// Says whether a register has a token.
    pub fn holds(&self, reg: Reg) -> bool
        ensures value { result ≡ is_some (register self.now reg) }
        ensures there { reg < length self.now }
        ensures count { length self.now ≡ most_registers }
    {
        self.slots[reg.index()].token().is_some()
    }

    /// Puts a token into a register, or returns it if the register has one already.
    pub fn put(&mut self, reg: Reg, token: Token) -> Option<Token>
        ensures held { IsSome (register self.old reg) → (result ≡ Some token) × (self.new ≡ self.old) }
        ensures free { IsNone (register self.old reg) → (result ≡ None)
            × (self.new ≡ slice_set self.old reg (Some token)) }
        ensures there { reg < length self.old }
        ensures count { length self.new ≡ most_registers }
    {
        if self.holds(reg) {
            Some(token)
        } else {
            self.hold(reg, token);
            None
        }
    }

    /// Takes the token out of a register, if it has one.
    pub fn take(&mut self, reg: Reg) -> Option<Token>
        ensures token { result ≡ register self.old reg }
        ensures empty { self.new ≡ slice_set self.old reg None }
        ensures there { reg < length self.old }
        ensures count { length self.new ≡ most_registers }
    {
        self.slots[reg.index()].take()
    }

    /// Returns the head of the message of a register's token, and its number of blocks, or none if the register is empty.
    pub fn entry(&self, reg: Reg) -> Option<(u32, u32)>
        ensures { result ≡ register (entries_of self.now) reg }
    {
        match self.slots[reg.index()].token() {
            Some(token) => Some((token.head(), token.blocks())),
            None => None,
        }
    }

    /// Law: there are 26 registers. Does nothing.
    pub fn lawful(&self)
        ensures { length self.now ≡ most_registers }
    {
        let _ = self.slots[0].token().is_some();
    }

    /// Loses the registers and their tokens. The messages stay held, and no call can reach them any more.
    pub fn forget(self) {
        let Regs { slots: _ } = self;
    }

    // Puts a token into an empty register.
    pub(crate) fn hold(&mut self, reg: Reg, token: Token)
        requires { IsNone (register self.old reg) }
        ensures { self.new ≡ slice_set self.old reg (Some token) }
    {
        match self.slots[reg.index()].replace(token) {
            None => (),
            Some(_held) => unreachable!(),
        }
    }

    // The token of a register that has one.
    pub(crate) fn token(&self, reg: Reg) -> &Token
        requires { IsSome (register self.now reg) }
        ensures { register self.now reg ≡ Some result.now }
    {
        match self.slots[reg.index()].token() {
            Some(token) => token,
            None => unreachable!(),
        }
    }

    // Takes the token out of a register that has one.
    pub(crate) fn pick(&mut self, reg: Reg) -> Token
        requires { IsSome (register self.old reg) }
        ensures token { register self.old reg ≡ Some result }
        ensures empty { self.new ≡ slice_set self.old reg None }
    {
        self.take(reg).unwrap()
    }

    // Puts a token, if any, into an empty register.
    pub(crate) fn hold_any(&mut self, reg: Reg, given: Option<Token>)
        requires { IsNone (register self.old reg) }
        ensures { self.new ≡ slice_set self.old reg given }
    {
        if let Some(token) = given {
            self.hold(reg, token);
        }
    }

    // Puts the token that a call gave into an empty register. Sets the reply: `Done`, or the refusal.
    pub(crate) fn give(&mut self, into: Reg, given: Result<Token, Refusal>, reply: &mut Reply)
        requires { IsNone (register self.old into) }
        ensures { (self.new, reply.new) ≡ given_to into given self.old }
    {
        match given {
            Ok(token) => {
                self.hold(into, token);
                *reply = Reply::Done;
            }
            Err(why) => *reply = Reply::Refused(why),
        }
    }

    // Puts the token that a call gave, if any, into an empty register. Sets the reply: `Done`, `Nothing` without a
    // token, or the refusal.
    pub(crate) fn give_any(
        &mut self,
        into: Reg,
        given: Result<Option<Token>, Refusal>,
        reply: &mut Reply,
    )
        requires { IsNone (register self.old into) }
        ensures { (self.new, reply.new) ≡ any_given_to into given self.old }
    {
        match given {
            Ok(Some(token)) => {
                self.hold(into, token);
                *reply = Reply::Done;
            }
            Ok(None) => *reply = Reply::Nothing,
            Err(why) => *reply = Reply::Refused(why),
        }
    }

    // Sets the reply to a call that spends a token; if it was rejected, the token returns to its register.
    pub(crate) fn spend(&mut self, from: Reg, spent: Result<(), Rejected>, reply: &mut Reply)
        requires { IsNone (register self.old from) }
        ensures { (self.new, reply.new) ≡ rejected_to from spent self.old }
    {
        match spent {
            Ok(()) => *reply = Reply::Done,
            Err(Rejected { why, token }) => {
                self.hold(from, token);
                *reply = Reply::Refused(why);
            }
        }
    }

    // Puts the two tokens that a call gave, or the one that it rejected, into empty registers, and sets the reply.
    pub(crate) fn part(
        &mut self,
        from: Reg,
        into: Reg,
        parted: Result<(Token, Option<Token>), Rejected>,
        reply: &mut Reply,
    )
        requires from { IsNone (register self.old from) }
        requires into { IsNone (register self.old into) }
        requires apart { from ≢ into }
        ensures { (self.new, reply.new) ≡ parted_to from into parted self.old }
    {
        match parted {
            Ok((first, rest)) => {
                self.hold_any(from, rest);
                self.hold(into, first);
                *reply = Reply::Done;
            }
            Err(Rejected { why, token }) => {
                self.hold(from, token);
                *reply = Reply::Refused(why);
            }
        }
    }

    // Whether a register that is named is empty.
    fn is_empty(&self, source: Option<Reg>) -> bool
        ensures { result ≡ is_empty (table_of self.now) source }
    {
        match source {
            Some(reg) => !self.holds(reg),
            None => false,
        }
    }

    // Whether a source is empty, once the token of the source before it is taken.
    pub(crate) fn misses_token(&self, source: Option<Reg>, second: Option<Reg>) -> bool
        ensures { result ≡ misses_token (table_of self.now) (names_from None source second None) }
    {
        if self.is_empty(source) || self.is_empty(second) {
            return true;
        }
        match &source {
            Some(first) => match &second {
                Some(second) => first.index() == second.index(),
                None => false,
            },
            None => false,
        }
    }

    // Whether the destination, if any, has a token.
    pub(crate) fn is_taken(&self, destination: Option<Reg>) -> bool
        ensures value { result ≡ is_taken (table_of self.now) (names_from None None None destination) }
        ensures there { ForSome destination (λ reg. reg < length self.now) }
    {
        match destination {
            Some(reg) => self.holds(reg),
            None => false,
        }
    }

    // The slots of the registers, a to z.
    pub(crate) fn slots(&self) -> &[TokenSlot]
        ensures { result.now ≡ self.now }
    {
        &self.slots
    }

    // Takes the registers apart into their slots, a to z.
    pub(crate) fn into_slots(self) -> [TokenSlot; MOST_REGISTERS]
        ensures { result ≡ self }
    {
        let Regs { slots } = self;
        slots
    }
}
