ghost use Rattle.std.specs.Prelude.{◌≡◌};

use strm_data::{ClassInfo, ClassSpec};

mod bench;
mod blocks;
mod long_run;
mod names;

// A size class.
const fn class(size: u32, count: u32) -> ClassSpec
    ensures size { result.size ≡ size }
    ensures count { result.count ≡ count }
{
    ClassSpec { size, count }
}

// What `class_info` returns for such a class.
const fn info(size: u32, free: u32, total: u32) -> Option<ClassInfo> {
    Some(ClassInfo { size, free, total })
}
