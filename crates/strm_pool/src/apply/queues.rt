//! Calls on registers that are about queues; blocks.rt says when they are inlined.
ghost use Rattle.strm_pool.specs.declared.call.Call.TheVariants as calls;
ghost use Rattle.strm_pool.specs.Shapes.{AppliesAlone, IsReady};
ghost use Rattle.strm_pool.specs.Step.{Applies};

use crate::pool::Pool;
use crate::reg::Reg;
use crate::regs::Regs;
use crate::reply::Reply;
use strm_queue::Flush;

impl Pool {
    #[inline(never)]
    pub(super) fn act_putq(&mut self, regs: &mut Regs, queue: u8, reg: Reg, reply: &mut Reply)
        requires { IsReady self.old regs.old (calls.Putq queue reg) }
        ensures { Applies self.old regs.old (calls.Putq queue reg) self.new regs.new reply.new }
    {
        let token = self.picked(regs, reg);
        regs.spend(reg, self.putq(queue, token), reply);
    }

    #[inline(never)]
    pub(super) fn act_putbq(&mut self, regs: &mut Regs, queue: u8, reg: Reg, reply: &mut Reply)
        requires { IsReady self.old regs.old (calls.Putbq queue reg) }
        ensures { Applies self.old regs.old (calls.Putbq queue reg) self.new regs.new reply.new }
    {
        let token = self.picked(regs, reg);
        regs.spend(reg, self.putbq(queue, token), reply);
    }

    #[inline(never)]
    pub(super) fn act_insq(
        &mut self,
        regs: &mut Regs,
        queue: u8,
        place: u32,
        reg: Reg,
        reply: &mut Reply,
    )
        requires { IsReady self.old regs.old (calls.Insq queue place reg) }
        ensures { Applies self.old regs.old (calls.Insq queue place reg) self.new regs.new reply.new }
    {
        let token = self.picked(regs, reg);
        regs.spend(reg, self.insq(queue, place, token), reply);
    }

    #[inline(never)]
    pub(super) fn act_getq(&mut self, regs: &mut Regs, queue: u8, into: Reg, reply: &mut Reply)
        requires { IsReady self.old regs.old (calls.Getq queue into) }
        ensures { Applies self.old regs.old (calls.Getq queue into) self.new regs.new reply.new }
    {
        regs.give_any(into, self.getq(queue), reply);
    }

    #[inline(never)]
    pub(super) fn act_rmvq(
        &mut self,
        regs: &mut Regs,
        queue: u8,
        place: u32,
        into: Reg,
        reply: &mut Reply,
    )
        requires { IsReady self.old regs.old (calls.Rmvq queue place into) }
        ensures { Applies self.old regs.old (calls.Rmvq queue place into) self.new regs.new reply.new }
    {
        regs.give(into, self.rmvq(queue, place), reply);
    }

    #[inline(never)]
    pub(super) fn act_flushq(&mut self, queue: u8, flush: Flush, reply: &mut Reply)
        ensures { AppliesAlone self.old (calls.Flushq queue flush) self.new reply.new }
    {
        reply.set_done(self.flushq(queue, flush));
    }

    #[inline(never)]
    pub(super) fn act_flushband(&mut self, queue: u8, band: u8, flush: Flush, reply: &mut Reply)
        ensures { AppliesAlone self.old (calls.Flushband queue band flush) self.new reply.new }
    {
        reply.set_done(self.flushband(queue, band, flush));
    }

    #[inline(never)]
    pub(super) fn act_bcanput(&mut self, queue: u8, band: u8, reply: &mut Reply)
        ensures { AppliesAlone self.old (calls.Bcanput queue band) self.new reply.new }
    {
        reply.set_truth(self.bcanput(queue, band));
    }

    #[inline(never)]
    pub(super) fn act_strqset(
        &mut self,
        queue: u8,
        band: u8,
        hiwat: u32,
        lowat: u32,
        reply: &mut Reply,
    )
        ensures { AppliesAlone self.old (calls.Strqset queue band hiwat lowat) self.new reply.new }
    {
        reply.set_done(self.strqset(queue, band, hiwat, lowat));
    }

    #[inline(never)]
    pub(super) fn act_strqget(&self, queue: u8, band: u8, reply: &mut Reply)
        ensures { AppliesAlone self.now (calls.Strqget queue band) self.now reply.new }
    {
        reply.set_marks(self.strqget(queue, band));
    }

    pub(super) fn act_qsize(&self, queue: u8, reply: &mut Reply)
        ensures { AppliesAlone self.now (calls.Qsize queue) self.now reply.new }
    {
        reply.set_size(self.qsize(queue));
    }

    #[inline(never)]
    pub(super) fn act_qenable(&mut self, queue: u8, reply: &mut Reply)
        ensures { AppliesAlone self.old (calls.Qenable queue) self.new reply.new }
    {
        reply.set_done(self.qenable(queue));
    }

    pub(super) fn act_noenable(&mut self, queue: u8, reply: &mut Reply)
        ensures { AppliesAlone self.old (calls.Noenable queue) self.new reply.new }
    {
        reply.set_done(self.noenable(queue));
    }

    pub(super) fn act_enableok(&mut self, queue: u8, reply: &mut Reply)
        ensures { AppliesAlone self.old (calls.Enableok queue) self.new reply.new }
    {
        reply.set_done(self.enableok(queue));
    }

    #[inline(never)]
    pub(super) fn act_service(&mut self, reply: &mut Reply)
        ensures { AppliesAlone self.old calls.Service self.new reply.new }
    {
        reply.set_queue(self.next_service());
    }
}
