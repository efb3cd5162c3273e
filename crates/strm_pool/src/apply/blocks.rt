//! Calls on registers that are about messages. Each function does the call of its name; the queue exists, the sources have
//! tokens, and the destination has none. Functions that compile to long code are not inlined: otherwise every call would
//! clear and save at its entry what they need.
ghost use Rattle.strm_pool.specs.declared.call.Call.TheVariants as calls;
ghost use Rattle.strm_pool.specs.Shapes.{AppliesAlone, IsReady};
ghost use Rattle.strm_pool.specs.Step.{Applies};

use crate::pool::Pool;
use crate::reg::Reg;
use crate::regs::Regs;
use crate::reply::Reply;
use crate::short_list::Octets;
use strm_data::MsgType;

impl Pool {
    #[inline(never)]
    pub(super) fn act_allocb(&mut self, regs: &mut Regs, into: Reg, size: u32, reply: &mut Reply)
        requires { IsReady self.old regs.old (calls.Allocb into size) }
        ensures { Applies self.old regs.old (calls.Allocb into size) self.new regs.new reply.new }
    {
        regs.give(into, self.allocb(size), reply);
    }

    pub(super) fn act_testb(&self, size: u32, reply: &mut Reply)
        ensures { AppliesAlone self.now (calls.Testb size) self.now reply.new }
    {
        reply.set_yes_or_no(self.testb(size));
    }

    #[inline(never)]
    pub(super) fn act_dupb(&mut self, regs: &mut Regs, from: Reg, into: Reg, reply: &mut Reply)
        requires { IsReady self.old regs.old (calls.Dupb from into) }
        ensures { Applies self.old regs.old (calls.Dupb from into) self.new regs.new reply.new }
    {
        let copy = self.dupb(self.lent(regs, from));
        regs.give(into, copy, reply);
    }

    #[inline(never)]
    pub(super) fn act_dupmsg(&mut self, regs: &mut Regs, from: Reg, into: Reg, reply: &mut Reply)
        requires { IsReady self.old regs.old (calls.Dupmsg from into) }
        ensures { Applies self.old regs.old (calls.Dupmsg from into) self.new regs.new reply.new }
    {
        let copy = self.dupmsg(self.lent(regs, from));
        regs.give(into, copy, reply);
    }

    #[inline(never)]
    pub(super) fn act_copyb(&mut self, regs: &mut Regs, from: Reg, into: Reg, reply: &mut Reply)
        requires { IsReady self.old regs.old (calls.Copyb from into) }
        ensures { Applies self.old regs.old (calls.Copyb from into) self.new regs.new reply.new }
    {
        let copy = self.copyb(self.lent(regs, from));
        regs.give(into, copy, reply);
    }

    #[inline(never)]
    pub(super) fn act_copymsg(&mut self, regs: &mut Regs, from: Reg, into: Reg, reply: &mut Reply)
        requires { IsReady self.old regs.old (calls.Copymsg from into) }
        ensures { Applies self.old regs.old (calls.Copymsg from into) self.new regs.new reply.new }
    {
        let copy = self.copymsg(self.lent(regs, from));
        regs.give(into, copy, reply);
    }

    #[inline(never)]
    pub(super) fn act_write(
        &mut self,
        regs: &Regs,
        reg: Reg,
        place: u32,
        bytes: &Octets,
        reply: &mut Reply,
    )
        requires { IsReady self.old regs.now (calls.Write reg place bytes.now) }
        ensures { Applies self.old regs.now (calls.Write reg place bytes.now) self.new regs.now reply.new }
    {
        reply.set_done(self.write(self.lent(regs, reg), place, bytes.items()));
    }

    #[inline(never)]
    pub(super) fn act_settype(
        &mut self,
        regs: &Regs,
        reg: Reg,
        place: u32,
        kind: MsgType,
        reply: &mut Reply,
    )
        requires { IsReady self.old regs.now (calls.Settype reg place kind) }
        ensures { Applies self.old regs.now (calls.Settype reg place kind) self.new regs.now reply.new }
    {
        reply.set_done(self.settype(self.lent(regs, reg), place, kind));
    }

    pub(super) fn act_setband(&mut self, regs: &Regs, reg: Reg, band: u8, reply: &mut Reply)
        requires { IsReady self.old regs.now (calls.Setband reg band) }
        ensures { Applies self.old regs.now (calls.Setband reg band) self.new regs.now reply.new }
    {
        self.setband(self.lent(regs, reg), band);
        *reply = Reply::Done;
    }

    #[inline(never)]
    pub(super) fn act_linkb(&mut self, regs: &mut Regs, reg: Reg, behind: Reg, reply: &mut Reply)
        requires { IsReady self.old regs.old (calls.Linkb reg behind) }
        ensures { Applies self.old regs.old (calls.Linkb reg behind) self.new regs.new reply.new }
    {
        let mut token = self.picked(regs, reg);
        let tail = self.picked(regs, behind);
        self.linkb(&mut token, tail);
        regs.hold(reg, token);
        *reply = Reply::Done;
    }

    #[inline(never)]
    pub(super) fn act_unlinkb(&mut self, regs: &mut Regs, reg: Reg, into: Reg, reply: &mut Reply)
        requires { IsReady self.old regs.old (calls.Unlinkb reg into) }
        ensures { Applies self.old regs.old (calls.Unlinkb reg into) self.new regs.new reply.new }
    {
        let mut token = self.picked(regs, reg);
        let rest = self.unlinkb(&mut token);
        regs.hold(reg, token);
        regs.give_any(into, Ok(rest), reply);
    }

    #[inline(never)]
    pub(super) fn act_rmvb(
        &mut self,
        regs: &mut Regs,
        reg: Reg,
        place: u32,
        into: Reg,
        reply: &mut Reply,
    )
        requires { IsReady self.old regs.old (calls.Rmvb reg place into) }
        ensures { Applies self.old regs.old (calls.Rmvb reg place into) self.new regs.new reply.new }
    {
        let token = self.picked(regs, reg);
        regs.part(reg, into, self.rmvb(token, place), reply);
    }

    #[inline(never)]
    pub(super) fn act_adjmsg(&mut self, regs: &Regs, reg: Reg, count: i32, reply: &mut Reply)
        requires { IsReady self.old regs.now (calls.Adjmsg reg count) }
        ensures { Applies self.old regs.now (calls.Adjmsg reg count) self.new regs.now reply.new }
    {
        reply.set_done(self.adjmsg(self.lent(regs, reg), count));
    }

    #[inline(never)]
    pub(super) fn act_pullupmsg(&mut self, regs: &mut Regs, reg: Reg, count: i32, reply: &mut Reply)
        requires { IsReady self.old regs.old (calls.Pullupmsg reg count) }
        ensures { Applies self.old regs.old (calls.Pullupmsg reg count) self.new regs.new reply.new }
    {
        let mut token = self.picked(regs, reg);
        let pulled = self.pullupmsg(&mut token, count);
        regs.hold(reg, token);
        reply.set_done(pulled);
    }

    #[inline(never)]
    pub(super) fn act_msgdsize(&self, regs: &Regs, reg: Reg, reply: &mut Reply)
        requires { IsReady self.now regs.now (calls.Msgdsize reg) }
        ensures { Applies self.now regs.now (calls.Msgdsize reg) self.now regs.now reply.new }
    {
        *reply = Reply::Size(self.msgdsize(self.lent(regs, reg)));
    }

    #[inline(never)]
    pub(super) fn act_size(&self, regs: &Regs, reg: Reg, reply: &mut Reply)
        requires { IsReady self.now regs.now (calls.Size reg) }
        ensures { Applies self.now regs.now (calls.Size reg) self.now regs.now reply.new }
    {
        *reply = Reply::Size(self.size(self.lent(regs, reg)));
    }

    #[inline(never)]
    pub(super) fn act_read(&self, regs: &Regs, reg: Reg, at: u32, reply: &mut Reply)
        requires { IsReady self.now regs.now (calls.Read reg at) }
        ensures { Applies self.now regs.now (calls.Read reg at) self.now regs.now reply.new }
    {
        *reply = Reply::Bytes(self.octets(self.lent(regs, reg), at));
    }

    #[inline(never)]
    pub(super) fn act_block(&self, regs: &Regs, reg: Reg, place: u32, reply: &mut Reply)
        requires { IsReady self.now regs.now (calls.Block reg place) }
        ensures { Applies self.now regs.now (calls.Block reg place) self.now regs.now reply.new }
    {
        reply.set_block(self.block(self.lent(regs, reg), place));
    }

    #[inline(never)]
    pub(super) fn act_freeb(&mut self, regs: &mut Regs, reg: Reg, reply: &mut Reply)
        requires { IsReady self.old regs.old (calls.Freeb reg) }
        ensures { Applies self.old regs.old (calls.Freeb reg) self.new regs.new reply.new }
    {
        let token = self.picked(regs, reg);
        let rest = self.freeb(token);
        regs.hold_any(reg, rest);
        *reply = Reply::Done;
    }

    #[inline(never)]
    pub(super) fn act_freemsg(&mut self, regs: &mut Regs, reg: Reg, reply: &mut Reply)
        requires { IsReady self.old regs.old (calls.Freemsg reg) }
        ensures { Applies self.old regs.old (calls.Freemsg reg) self.new regs.new reply.new }
    {
        let token = self.picked(regs, reg);
        self.freemsg(token);
        *reply = Reply::Done;
    }

    pub(super) fn act_census(&self, reply: &mut Reply)
        ensures { AppliesAlone self.now calls.Census self.now reply.new }
    {
        *reply = Reply::Census(self.census());
    }
}
