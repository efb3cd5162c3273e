//! Calls as data, which name registers instead of tokens.
ghost use Rattle.std.specs.Prelude.{◌≡◌};
ghost use Rattle.strm_pool.specs.Step.{names_of};

use crate::names::Names;
use crate::reg::Reg;
use crate::short_list::Octets;
use strm_data::MsgType;
use strm_queue::Flush;

/// A call on a pool, with registers instead of tokens, and numbers in the order of a script's words. Sizes are in bytes.
/// Blocks of a message, its bytes, and messages of a queue are counted from 0.
#[derive(Debug, Drop)]
pub enum Call {
    /// `allocb` for a size, into a register.
    Allocb(Reg, u32),
    /// `testb`: whether `allocb` for a size would succeed.
    Testb(u32),
    /// `dupb` of the message in a register, into another.
    Dupb(Reg, Reg),
    /// `dupmsg` of the message in a register, into another.
    Dupmsg(Reg, Reg),
    /// `copyb` of the message in a register, into another.
    Copyb(Reg, Reg),
    /// `copymsg` of the message in a register, into another.
    Copymsg(Reg, Reg),
    /// `write`: puts bytes after the write place of a block of the message in a register.
    Write(Reg, u32, Octets),
    /// `settype`: the type of the data block of a block of the message in a register.
    Settype(Reg, u32, MsgType),
    /// `setband`: the band of the first block of the message in a register.
    Setband(Reg, u8),
    /// `linkb`: appends the message in the second register to the one in the first.
    Linkb(Reg, Reg),
    /// `unlinkb` of the message in a register; all blocks but the first go into another.
    Unlinkb(Reg, Reg),
    /// `rmvb` of a block of the message in a register; that block goes into another.
    Rmvb(Reg, u32, Reg),
    /// `adjmsg` of the message in a register by a number of bytes: at the head, or if it is below 0, at the tail.
    Adjmsg(Reg, i32),
    /// `pullupmsg` of a number of bytes of the message in a register; -1 means all bytes of its leading blocks of one type.
    Pullupmsg(Reg, i32),
    /// `msgdsize`: the bytes of the message in a register in its blocks of type M_DATA.
    Msgdsize(Reg),
    /// `size`: the bytes of the message in a register.
    Size(Reg),
    /// `read`: the bytes of the message in a register, from a place on.
    Read(Reg, u32),
    /// `block`: what a block of the message in a register is like.
    Block(Reg, u32),
    /// `freeb` of the first block of the message in a register.
    Freeb(Reg),
    /// `freemsg` of the message in a register.
    Freemsg(Reg),
    /// `putq` on a queue, of the message in a register.
    Putq(u8, Reg),
    /// `putbq` on a queue, of the message in a register.
    Putbq(u8, Reg),
    /// `insq` on a queue at a place, of the message in a register.
    Insq(u8, u32, Reg),
    /// `getq` from a queue, into a register.
    Getq(u8, Reg),
    /// `rmvq` of the message at a place of a queue, into a register.
    Rmvq(u8, u32, Reg),
    /// `flushq` of a queue.
    Flushq(u8, Flush),
    /// `flushband` of a band of a queue.
    Flushband(u8, u8, Flush),
    /// `bcanput`: whether a band has room at the target of a queue.
    Bcanput(u8, u8),
    /// `strqset` of a band of a queue: its high and its low water mark.
    Strqset(u8, u8, u32, u32),
    /// `strqget` of a band of a queue.
    Strqget(u8, u8),
    /// `qsize`: the number of messages on a queue.
    Qsize(u8),
    /// `qenable` of a queue.
    Qenable(u8),
    /// `noenable` of a queue.
    Noenable(u8),
    /// `enableok` of a queue.
    Enableok(u8),
    /// `next_service`: takes the first queue off the run list.
    Service,
    /// `bufcall` of a size.
    Bufcall(u32),
    /// `unbufcall` of an id.
    Unbufcall(u32),
    /// `take_ready`: removes the first wish for which `allocb` would succeed now.
    Ready,
    /// `census`: how many message blocks are free, queued and held.
    Census,
}

/// The table of calls, by the number of letters of their words in a script, the frequent ones first. `calls!(rows WORDS)` expands
/// to `rows!` with these words and then a row for each call, and `calls!(4 rows WORDS)` to that for the calls of 4 letters. A row
/// has:
///
/// 1. the first word of the call's lines in a script;
/// 2. the name of the variant of `Call`;
/// 3. the call's fields in order, all `Copy`, or with `;` before a last one that is not;
/// 4. the function of this crate that `Pool::act` calls with these fields, with `regs` if it takes the registers too.
///
/// Some fields name what the call uses: `queue` its queue, `reg` or `from` its source, `behind` its second source, and `into` its
/// destination.
#[macro_export]
macro_rules! calls {
    (4 $rows:ident $($with:tt)*) => {
        $rows! {
            $($with)*
            b"putq" Putq(queue, reg): act_putq(regs);
            b"getq" Getq(queue, into): act_getq(regs);
            b"dupb" Dupb(from, into): act_dupb(regs);
            b"rmvq" Rmvq(queue, place, into): act_rmvq(regs);
            b"read" Read(reg, at): act_read(regs);
            b"rmvb" Rmvb(reg, place, into): act_rmvb(regs);
            b"size" Size(reg): act_size(regs);
            b"insq" Insq(queue, place, reg): act_insq(regs);
        }
    };
    (5 $rows:ident $($with:tt)*) => {
        $rows! {
            $($with)*
            b"write" Write(reg, place; bytes): act_write(regs);
            b"linkb" Linkb(reg, behind): act_linkb(regs);
            b"block" Block(reg, place): act_block(regs);
            b"freeb" Freeb(reg): act_freeb(regs);
            b"putbq" Putbq(queue, reg): act_putbq(regs);
            b"copyb" Copyb(from, into): act_copyb(regs);
            b"qsize" Qsize(queue): act_qsize();
            b"testb" Testb(size): act_testb();
            b"ready" Ready: act_ready();
        }
    };
    (6 $rows:ident $($with:tt)*) => {
        $rows! {
            $($with)*
            b"allocb" Allocb(into, size): act_allocb(regs);
            b"dupmsg" Dupmsg(from, into): act_dupmsg(regs);
            b"adjmsg" Adjmsg(reg, count): act_adjmsg(regs);
            b"census" Census: act_census();
            b"flushq" Flushq(queue, flush): act_flushq();
        }
    };
    (7 $rows:ident $($with:tt)*) => {
        $rows! {
            $($with)*
            b"freemsg" Freemsg(reg): act_freemsg(regs);
            b"bcanput" Bcanput(queue, band): act_bcanput();
            b"copymsg" Copymsg(from, into): act_copymsg(regs);
            b"service" Service: act_service();
            b"setband" Setband(reg, band): act_setband(regs);
            b"bufcall" Bufcall(size): act_bufcall();
            b"qenable" Qenable(queue): act_qenable();
            b"settype" Settype(reg, place, kind): act_settype(regs);
            b"unlinkb" Unlinkb(reg, into): act_unlinkb(regs);
            b"strqset" Strqset(queue, band, hiwat, lowat): act_strqset();
            b"strqget" Strqget(queue, band): act_strqget();
        }
    };
    (8 $rows:ident $($with:tt)*) => {
        $rows! {
            $($with)*
            b"msgdsize" Msgdsize(reg): act_msgdsize(regs);
            b"enableok" Enableok(queue): act_enableok();
            b"noenable" Noenable(queue): act_noenable();
        }
    };
    (9 $rows:ident $($with:tt)*) => {
        $rows! {
            $($with)*
            b"pullupmsg" Pullupmsg(reg, count): act_pullupmsg(regs);
            b"unbufcall" Unbufcall(id): act_unbufcall();
            b"flushband" Flushband(queue, band, flush): act_flushband();
        }
    };
    ($rows:ident $($with:tt)*) => { calls!(4 calls 5 calls 6 calls 7 calls 8 calls 9 $rows $($with)*) };
}

pub(crate) use calls;

// Calls a function with the given values and with what a call names: its queue, its sources, and its destination.
macro_rules! naming {
    ($call:ident, $make:path, $with:tt; $(
        $word:literal $name:ident $(($($field:ident),+ $(; $lent:ident)?))?: $act:ident $regs:tt;
    )+) => {
        match *$call {
            $(Call::$name $(($($field),+ $(, ref $lent)?))? => naming!($make, $with; $($($field $field)+)?),)+
        }
    };
    ($make:path, ($($with:expr),*); $($field:ident)*) => {
        $make(
            $($with,)*
            named!(queue; $($field)*),
            named!(source; $($field)*),
            named!(second; $($field)*),
            named!(into; $($field)*)
        )
    };
}

// Finds this part of what a call names among the call's fields, each of which is given as its name and again as its value.
macro_rules! named {
    (queue; queue $value:ident $($rest:ident)*) => { Some($value) };
    (source; reg $value:ident $($rest:ident)*) => { Some($value) };
    (source; from $value:ident $($rest:ident)*) => { Some($value) };
    (second; behind $value:ident $($rest:ident)*) => { Some($value) };
    (into; into $value:ident $($rest:ident)*) => { Some($value) };
    ($part:ident; $name:ident $value:ident $($rest:ident)*) => { named!($part; $($rest)*) };
    ($part:ident;) => { None };
}

pub(crate) use named;
pub(crate) use naming;

// A copy of a call.
macro_rules! copied {
    ($call:expr; $($word:literal $name:ident $(($($field:ident),+ $(; $lent:ident)?))?: $act:ident $regs:tt;)+) => {
        match *$call {
            $(Call::$name $(($($field),+ $(, ref $lent)?))? => Call::$name $(($($field),+ $(, $lent.copy())?))?,)+
        }
    };
}

impl Call {
    /// The queue and the registers that the call names.
    pub fn names(&self) -> Names
        ensures { result ≡ names_of self.now }
    {
        calls!(naming self, Names::of, ();)
    }

    /// Returns an equal call, with its own bytes if it carries any. This allocates nothing, so it cannot fail as `clone`
    /// can.
    pub fn copy(&self) -> Call
        ensures { result ≡ self.now }
    {
        calls!(copied self;)
    }
}
