//! The call that says how much memory a pool takes.
ghost use Rattle.std.specs.Prelude.{◌≡◌, ◌^◌, ◌<◌, ◌≤◌, IsTrue, None, sum_by};
ghost use Rattle.strm_data.specs.Classes.{are_lawful};
ghost use Rattle.strm_pool.specs.Config.{fault_of};
ghost use Rattle.strm_c.specs.Codes.{number_returned, value_written};
ghost use Rattle.strm_c.specs.Memory.{answer_of_memory, bytes_of, bytes_of_class, in_lines};
ghost use Rattle.strm_c.specs.Opening.{config_of};

use crate::answer::put;
use crate::code::Code;
use crate::layout::{StrmClassSpec, StrmQueueSpec};
use crate::opening::config_of;
use strm_pool::{ClassSpec, Config};

// The bytes for a pool itself, and for each message block, queue, and, beside its own bytes, size class and data block.
const POOL: usize = 820;

const MESSAGE_BLOCK: usize = 48;

const QUEUE: usize = 5288;

const CLASS: usize = 24;

const DATA_BLOCK: usize = 16;

// A number of bytes, made up to a multiple of 64.
fn in_lines(bytes: usize) -> usize
    requires { bytes < 2 ^ 32 }
    ensures { result ≡ in_lines bytes }
{
    (bytes + 63) / 64 * 64
}

// The bytes for these size classes.
fn bytes_of_classes(classes: &[ClassSpec]) -> usize
    requires { IsTrue (are_lawful classes.now) }
    ensures value { result ≡ sum_by bytes_of_class classes.now }
    ensures few { result ≤ 70000000 }
{
    let mut bytes = 0;
    for class in classes {
        let own = in_lines(class.count as usize * class.size as usize);
        bytes += CLASS + own + class.count as usize * DATA_BLOCK;
    }
    bytes
}

// The bytes for the pool of a lawful configuration.
fn bytes_of(config: &Config) -> usize
    requires { fault_of config.now ≡ None }
    ensures { result ≡ bytes_of config.now }
{
    let blocks = MESSAGE_BLOCK * config.mblks as usize;
    let queues = QUEUE * config.queues.items().len();
    POOL + blocks + queues + bytes_of_classes(config.classes.items())
}

// The bytes for the pool of a configuration, or its first fault.
fn measured(config: Option<Config>) -> Result<usize, Code>
    ensures { result ≡ answer_of_memory config }
{
    let Some(config) = config else {
        return Err(Code::BadArgument);
    };
    match config.fault() {
        Some(which) => Err(Code::BadConfig(which)),
        None => Ok(bytes_of(&config)),
    }
}

/// Stores the number of bytes that `strm_c_open` allocates for a configuration in `bytes`. Returns `BadArgument` if there are more
/// classes or queues than a pool can have, then `BadConfig` with the first fault. Nothing is stored then.
#[unsafe(no_mangle)]
pub extern "C" fn strm_c_memory(
    id: u32,
    mblks: u32,
    classes: &[StrmClassSpec],
    queues: &[StrmQueueSpec],
    bufcalls: u32,
    first_id: u32,
    bytes: &mut usize,
) -> i32
    ensures number { result ≡ number_returned (answer_of_memory
        (config_of id mblks classes.now queues.now bufcalls first_id)) }
    ensures bytes { bytes.new ≡ value_written bytes.old (answer_of_memory
        (config_of id mblks classes.now queues.now bufcalls first_id)) }
{
    put(
        measured(config_of(id, mblks, classes, queues, bufcalls, first_id)),
        bytes,
    )
}
