//! A bench: queues with their own message blocks. Each method makes a call, and compares its result with what is expected.
ghost use Rattle.strm_queue.specs.QueueSpecs as queue_specs;
ghost use Rattle.std.specs.Prelude.{IsTrue};
ghost use Rattle.strm_data.specs.Classes.{are_lawful};
ghost use Rattle.strm_queue.specs.QueuedBlocks.{Agrees};

use super::{Draft, drafted, free, opened};
use std::alloc::Global;
use std::process::Abort;
use strm_data::ClassSpec;
use strm_mblk::{Blocks, Token};
use strm_queue::{QueueSpec, Queues};

mod asking;
mod moving;

// The queues and the message blocks.
#[derive(Drop)]
pub(super) struct Bench {
    queues: Queues,
    blocks: Blocks,
}

impl Bench {
    // Makes empty queues as these specs say, with `MESSAGES` message blocks.
    pub(super) fn opened(
        rt: &impl Abort,
        alloc: Global,
        classes: &[ClassSpec],
        specs: &[QueueSpec],
    ) -> Bench
        requires classes { IsTrue (are_lawful classes.now) }
        requires queues { IsTrue (queue_specs.are_lawful specs.now) }
        ensures { Agrees result.queues result.blocks }
    {
        let (queues, blocks) = opened(rt, alloc, classes, specs);
        Bench { queues, blocks }
    }

    // Makes a message as the draft says.
    pub(super) fn drafted(&mut self, rt: &impl Abort, how: Draft) -> Token
        requires { Agrees self.old.queues self.old.blocks }
        ensures { Agrees self.new.queues self.new.blocks }
    {
        drafted(rt, &self.queues, &mut self.blocks, how)
    }

    // Frees a message.
    pub(super) fn free(&mut self, token: Token)
        requires { Agrees self.old.queues self.old.blocks }
        ensures { Agrees self.new.queues self.new.blocks }
    {
        free(&self.queues, &mut self.blocks, token);
    }
}
