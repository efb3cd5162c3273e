ghost use Rattle.std.specs.Prelude.{◌<◌};

use std::process::Abort;

mod chained;
mod links;
mod plain;
mod stacks;

// Asserts that reading has come to this node, one of `nodes`.
fn assert_at(rt: &impl Abort, at: Option<u32>, node: u32, nodes: u32)
    ensures { node < nodes }
{
    assert!(rt; at == Some(node));
    assert!(rt; node < nodes);
}

// Draws the next number below `limit` of a fixed sequence.
fn below(draw: &mut u32, limit: u32) -> u32
    requires { 0 < limit }
    ensures { result < limit }
{
    *draw = draw.wrapping_mul(1_664_525).wrapping_add(1_013_904_223);
    (*draw >> 8) % limit
}
