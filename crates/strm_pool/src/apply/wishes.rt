//! Calls on registers that are about wishes; blocks.rt says when they are inlined.
ghost use Rattle.strm_pool.specs.declared.call.Call.TheVariants as calls;
ghost use Rattle.strm_pool.specs.Shapes.{AppliesAlone};

use crate::pool::Pool;
use crate::reply::Reply;

impl Pool {
    #[inline(never)]
    pub(super) fn act_bufcall(&mut self, size: u32, reply: &mut Reply)
        ensures { AppliesAlone self.old (calls.Bufcall size) self.new reply.new }
    {
        reply.set_id(self.bufcall(size));
    }

    #[inline(never)]
    pub(super) fn act_unbufcall(&mut self, id: u32, reply: &mut Reply)
        ensures { AppliesAlone self.old (calls.Unbufcall id) self.new reply.new }
    {
        reply.set_done(self.unbufcall(id));
    }

    #[inline(never)]
    pub(super) fn act_ready(&mut self, reply: &mut Reply)
        ensures { AppliesAlone self.old calls.Ready self.new reply.new }
    {
        reply.set_ready(self.take_ready());
    }
}
